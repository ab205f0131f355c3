//! What is remembered of the pipelines that aren't finished.

ghost use Rattle.std.specs.Prelude.{◌≡◌, map, IfOk};
ghost use Rattle.ci_machine_steps.specs.Prelude.{Kept};
ghost use Rattle.ci_server_lookups.specs.Prelude.{AreOpen};
ghost use Rattle.ci_memory.specs.Alone.{Accounts};

use ci_machine::records::Pipeline;
use std::alloc::{AllocError, Global};
use std::marker::Model;

/// The pipelines that aren't finished, parted by what is known of them. In neither list is an order, and none is said of them.
#[derive(Drop)]
pub struct Open {
    /// Those of which it is known that there is no newer one of their project, ref and kind.
    pub(crate) alone: Vec<Pipeline>,
    /// The numbers of the others: there may be a newer one.
    pub(crate) suspects: Vec<u64>,
}

impl Model for Open {
    ghost use Rattle.ci_memory.specs.Known.{Known};

    ghost Value = { Known };

    ghost view = { λ o. record { alone = o.alone.items; suspects = o.suspects.items } };
}

/// The numbers of the pipelines that aren't finished: of those that are alone, and the suspects.
pub(crate) fn numbers_known(alloc: Global, known: &Open) -> Result<Vec<u64>, AllocError>
    ensures { IfOk result (λ numbers. (k : Kept) → Accounts known.now k → AreOpen k numbers.items) }
{
    let mut numbers = numbers_of(alloc, known.alone.as_slice())?;
    numbers.extend_from_slice(known.suspects.as_slice())?;
    Ok(numbers)
}

/// The numbers of pipelines.
fn numbers_of(alloc: Global, pipelines: &[Pipeline]) -> Result<Vec<u64>, AllocError>
    ensures { IfOk result (λ numbers. numbers.items ≡ map (λ p. p.id) pipelines.now) }
{
    pipelines.iter().map(|pipeline| pipeline.id).collect(alloc)
}
