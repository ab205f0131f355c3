//! Why a file gives no pipeline.

ghost use Rattle.std.specs.Prelude.{◌≡◌};
ghost use Rattle.ci_graph_layout.specs.Unmade.{unmade};
ghost use Rattle.ci_graph_layout.specs.declared.fault.PlanFault.TheVariants.{Memory};

use ci_expr::ExprFault;
use std::alloc::AllocError;

/// The codes of the faults, looked for in the order G4, G5, G1, G2, G3, each over all jobs.
#[derive(Clone, Copy, Debug, PartialEq, Eq)]
pub enum GraphCode {
    /// A job needs one that isn't included, and doesn't say that it is optional.
    G1,
    /// A job needs one of a later stage.
    G2,
    /// Jobs need one another in a circle.
    G3,
    /// No job is included, or all are in `.pre` and `.post`.
    G4,
    /// A job gives more than 50 needs.
    G5,
}

/// Why there is no plan.
#[derive(Clone, Copy, Debug, PartialEq, Eq)]
pub enum PlanFault {
    Fault(GraphCode),
    /// `regex`, which has built each pattern before, now refuses one.
    Pattern,
    /// Memory was refused.
    Memory,
}

impl From<AllocError> for PlanFault {
    ghost from_gives = { λ _ fault. fault ≡ Memory };

    fn from(_: AllocError) -> PlanFault {
        PlanFault::Memory
    }
}

impl From<ExprFault> for PlanFault {
    ghost from_gives = { λ refused fault. fault ≡ unmade refused };

    fn from(refused: ExprFault) -> PlanFault {
        match refused {
            ExprFault::Memory => PlanFault::Memory,
            ExprFault::Fault(_) => PlanFault::Pattern,
        }
    }
}
