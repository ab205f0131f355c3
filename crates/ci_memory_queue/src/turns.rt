//! Which of the jobs that ask the same need not wait for their resource group.

ghost use Rattle.std.specs.Prelude.{◌≡◌};
ghost use Rattle.ci_store.specs.Prelude.{LoadsBy};
ghost use Rattle.ci_server_lookups.specs.Prelude.{IsKept};
ghost use Rattle.ci_memory_queue.specs.Turns.{GoesFirst, IsTurnOf, turn_by};

use crate::queue::Asks;
use ci_machine::records::GroupOrder;
use ci_machine::text::Text;
use ci_server_lookups::turns::Turns;
use ci_store::fault::StoreFault;
use ci_store::store::Store;
use std::alloc::Global;

/// Which of the jobs that ask the same need not wait for their resource group.
#[derive(Drop)]
pub enum Turn {
    /// All of them.
    Anyone,
    /// None of them.
    Nobody,
    /// Those of this pipeline; and none of an older one is pending.
    Oldest(u64),
    /// Those of this pipeline.
    Newest(u64),
}

/// Which of the pending jobs that ask this need not wait for their group: none where it is held; else by its process mode. Errors: the
/// store's, or memory was refused.
pub fn turn_of<T: Turns>(alloc: Global, store: &mut T, asks: &Asks) -> Result<Turn, StoreFault>
    ensures { LoadsBy T.honest T.holds T.leaves store.old store.new result (λ k turn. IsKept k → IsTurnOf k asks.now turn) }
{
    let Some(group) = &asks.group else {
        return Ok(Turn::Anyone);
    };
    if store.holder(asks.project, group)?.is_some() {
        return Ok(Turn::Nobody);
    }
    turn_by_mode(alloc, store, asks.project, group)
}

/// Whose turn it is by the process mode of a group, which isn't held.
fn turn_by_mode<T: Turns>(
    alloc: Global,
    store: &mut T,
    project: u64,
    group: &Text,
) -> Result<Turn, StoreFault>
    ensures { LoadsBy T.honest T.holds T.leaves store.old store.new result (λ k turn. IsKept k → GoesFirst k project group.now turn) }
{
    match store.mode(project, group)? {
        Some(mode) => {
            let first = store.turn(alloc, project, group, mode.order)?;
            Ok(turn_by(mode.order, first))
        }
        None => Ok(Turn::Anyone),
    }
}

/// Whose turn it is by an order, where the jobs of this pipeline go first.
fn turn_by(order: GroupOrder, first: Option<u64>) -> Turn
    ensures { result ≡ turn_by order first }
{
    match (order, first) {
        (_, None) => Turn::Anyone,
        (GroupOrder::OldestFirst, Some(pipeline)) => Turn::Oldest(pipeline),
        (GroupOrder::NewestReadyFirst, Some(pipeline)) => Turn::Newest(pipeline),
    }
}
