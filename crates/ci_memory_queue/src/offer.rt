//! The first pending job that a runner may be given, by what is remembered of the pending jobs.

ghost use Rattle.ci_machine_steps.specs.Prelude.{Kept};
ghost use Rattle.ci_store.specs.Prelude.{LoadsBy};
ghost use Rattle.ci_server_lookups.specs.Prelude.{IsKept, IsOffered};
ghost use Rattle.ci_memory_queue.specs.Covers.{Covers, IsRight};

use crate::best::best_of;
use crate::fill::filled;
use crate::queue::Queue;
use crate::sorting::sort_fresh;
use ci_machine::records::Runner;
use ci_server_lookups::search::Offer;
use ci_server_lookups::turns::Turns;
use ci_store::fault::StoreFault;
use ci_store::store::Store;
use std::alloc::Global;

/// The first pending job that the runner may be given, with its row. What is remembered of the pending jobs is filled where there is
/// nothing, and jobs that are in no class yet are put into those of what they ask. Where it fails, nothing is remembered. Errors: the
/// store's, or memory was refused.
pub fn first_offer<T: Turns>(
    alloc: Global,
    store: &mut T,
    queue: &mut Option<Queue>,
    runner: &Runner,
) -> Result<Option<Offer>, StoreFault>
    ensures offered { LoadsBy T.honest T.holds T.leaves store.old store.new result (λ k found. IsRight queue.old k → IsKept k → IsOffered k runner.now found) }
    ensures right { T.honest store.new → (k : Kept) → T.holds store.old k → IsRight queue.old k → IsRight queue.new k }
{
    let Queue { mut classes, notes } = known_or_filled(alloc, store, queue.take())?;
    let notes = sort_fresh(alloc, store, &mut classes, notes)?;
    let found = best_of(alloc, store, runner, classes.as_mut_slice())?;
    *queue = Some(Queue { classes, notes });
    Ok(found)
}

/// What is remembered, or else what is filled now.
fn known_or_filled<T: Store>(
    alloc: Global,
    store: &mut T,
    queue: Option<Queue>,
) -> Result<Queue, StoreFault>
    ensures { LoadsBy T.honest T.holds T.leaves store.old store.new result (λ k q. IsRight queue k → Covers q.classes.items q.notes k.state k.board) }
{
    match queue {
        Some(queue) => Ok(queue),
        None => filled(alloc, store),
    }
}
