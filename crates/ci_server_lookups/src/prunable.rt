//! The finished pipeline that is to be pruned, from what the store holds.

ghost use Rattle.std.specs.Prelude.{◌≡◌, ◌==◌, ◌&&◌, not, nat_lt, length, find, is_some};
ghost use Rattle.std.specs.List.{list_any};
ghost use Rattle.ci_machine_steps.specs.Prelude.{prunable_in};
ghost use Rattle.ci_store.specs.Prelude.{LoadsBy};
ghost use Rattle.ci_server_lookups.specs.Keeps.{IsKept, HoldsKept};

use crate::searches::Searches;
use ci_machine::moment::Moment;
use ci_machine::records::Pipeline;
use ci_store::fault::StoreFault;
use ci_store::store::Store;
use std::alloc::Global;

/// The finished pipeline of least number that was made before a moment, if there is one. Those that aren't finished are looked up, and of
/// those that were made before the moment so many, and one more: where these are all and none is finished, there is none. Else one of
/// so many, and one more, by number, is finished.
pub fn first_prunable<T: Searches>(
    alloc: Global,
    store: &mut T,
    before: Moment,
) -> Result<Option<Pipeline>, StoreFault>
    ensures { LoadsBy T.honest (HoldsKept T.holds) T.leaves store.old store.new result (λ k found. IsKept k → found ≡ prunable_in k.state k.board before) }
{
    let unfinished = store.unfinished(alloc)?;
    let count = unfinished.len() as u64 + 1;
    let some = store.some_before(before, count)?;
    if shows_none(some, count, unfinished.as_slice()) {
        return Ok(None);
    }
    let old = store.pipelines_before(before, count)?;
    match first_finished(old, unfinished.as_slice()) {
        Some(pipeline) => Ok(Some(pipeline)),
        None => Err(StoreFault::Broken),
    }
}

/// Are some pipelines, of which so many were asked for, all that there are, and none of them finished?
fn shows_none(some: Vec<Pipeline>, count: u64, unfinished: &[u64]) -> bool
    ensures { result ≡ (nat_lt (length some.items) count && not (is_some (find (λ p. not (list_any (λ n. n == p.id) unfinished.now)) some.items))) }
{
    (some.len() as u64) < count && first_finished(some, unfinished).is_none()
}

/// The first of the pipelines that isn't one of those that aren't finished.
fn first_finished(pipelines: Vec<Pipeline>, unfinished: &[u64]) -> Option<Pipeline>
    ensures { result ≡ find (λ p. not (list_any (λ n. n == p.id) unfinished.now)) pipelines.items }
{
    pipelines
        .into_iter()
        .find(|pipeline| !has_number(unfinished, pipeline.id))
}

fn has_number(unfinished: &[u64], pipeline: u64) -> bool
    ensures { result ≡ list_any (λ n. n == pipeline) unfinished.now }
{
    unfinished.iter().any(|number| *number == pipeline)
}
