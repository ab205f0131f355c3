//! Whose turn it is in a resource group with an order, as a store tells it.

ghost use Rattle.std.specs.Prelude.{◌≡◌};
ghost use Rattle.ci_machine_steps.specs.Prelude.{waiting};
ghost use Rattle.ci_store.specs.Prelude.{LoadsBy};
ghost use Rattle.ci_server_lookups.specs.Keeps.{IsKept};
ghost use Rattle.ci_server_lookups.specs.Turns.{is_past, IsTurn};

use ci_machine::records::GroupOrder;
use ci_machine::text::Text;
use ci_store::fault::StoreFault;
use ci_store::store::Store;
use std::alloc::Global;

/// A store that tells whose turn it is in a resource group: it may look through its tables, or remember where to look.
pub trait Turns: Store {
    /// The pipeline of a project whose jobs go first in a resource group by this order: that of the oldest job with the group that is created
    /// or pending, or that of the newest one that is pending. None where there is no such job.
    fn turn(
        &mut self,
        alloc: Global,
        project: u64,
        group: &Text,
        order: GroupOrder,
    ) -> Result<Option<u64>, StoreFault>
        ensures { LoadsBy Self.honest Self.holds Self.leaves self.old self.new result (λ k turn. IsKept k → IsTurn order (waiting k.state k.board) project group.now turn) };
}

/// Must the jobs of the pipeline wait, where it is the turn of another?
pub fn is_past(order: GroupOrder, turn: Option<u64>, pipeline: u64) -> bool
    ensures { result ≡ is_past order turn pipeline }
{
    match (order, turn) {
        (_, None) => false,
        (GroupOrder::OldestFirst, Some(turn)) => turn < pipeline,
        (GroupOrder::NewestReadyFirst, Some(turn)) => pipeline < turn,
    }
}
