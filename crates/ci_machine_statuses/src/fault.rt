//! Why there are no rows.

use ci_graph::part::GraphFault;
use std::alloc::{AllocError, AllocFailed};
use thiserror::Error;

/// Why there are no rows.
#[derive(Clone, Copy, Debug, PartialEq, Eq, Drop, Error)]
pub enum StatusFault {
    #[error("memory was refused")]
    Memory,
    #[error("what was looked up doesn't fit together")]
    Broken,
}

impl From<AllocError> for StatusFault {
    ghost use Rattle.std.specs.Prelude.{◌≡◌};
    ghost use Rattle.ci_machine_statuses.specs.declared.fault.StatusFault.TheVariants.{Memory};

    ghost from_gives = { λ _ fault. fault ≡ Memory };

    fn from(_: AllocError) -> StatusFault {
        StatusFault::Memory
    }
}

impl<T: Drop> From<AllocFailed<T>> for StatusFault {
    ghost use Rattle.std.specs.Prelude.{◌≡◌};
    ghost use Rattle.ci_machine_statuses.specs.declared.fault.StatusFault.TheVariants.{Memory};

    ghost from_gives = { λ _ fault. fault ≡ Memory };

    fn from(_: AllocFailed<T>) -> StatusFault {
        StatusFault::Memory
    }
}

impl From<GraphFault> for StatusFault {
    ghost use Rattle.std.specs.Prelude.{◌≡◌};
    ghost use Rattle.ci_graph.specs.declared.part.GraphFault.TheVariants as graph;
    ghost use Rattle.ci_machine_statuses.specs.declared.fault.StatusFault.TheVariants.{Memory, Broken};

    ghost from_gives = { λ cause fault. (cause ≡ graph.G3 → fault ≡ Broken) × (cause ≡ graph.Memory → fault ≡ Memory) };

    fn from(fault: GraphFault) -> StatusFault {
        match fault {
            GraphFault::G3 => StatusFault::Broken,
            GraphFault::Memory => StatusFault::Memory,
        }
    }
}
