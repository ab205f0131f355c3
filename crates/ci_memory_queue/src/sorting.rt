//! Jobs that are noted are put where they belong, by what they ask or by where they stand.

ghost use Rattle.std.specs.Prelude.{◌≡◌, ℕ, Bool, true, List, [], OnOk};
ghost use Rattle.ci_machine_steps.specs.Prelude.{Kept};
ghost use Rattle.ci_store.specs.Prelude.{LoadsBy};
ghost use Rattle.ci_memory_queue.specs.Notes.{AreKnown};

use crate::notes::Notes;
use ci_store::fault::StoreFault;
use ci_store::store::Store;
use std::alloc::Global;

/// What jobs are put into: classes of those that ask the same, or lines of those that wait for the same group.
pub(crate) trait Sorts: Drop {
    /// The job with this number counts.
    ghost counts: { Kept → ℕ → Bool };

    /// The job is where it belongs, and its pipeline has no greater number than the first.
    ghost IsPlaced: { Kept → List Self → ℕ → ℕ → Type 0 };

    /// Puts a job where it belongs, if it counts.
    fn sort_in<T: Store>(
        alloc: Global,
        store: &mut T,
        sorted: &mut Vec<Self>,
        newest_pipeline: &mut u64,
        job: u64,
    ) -> Result<(), StoreFault>
        ensures keeps { OnOk result ((k : Kept) (n : ℕ) → IsPlaced k sorted.old.items newest_pipeline.old n → IsPlaced k sorted.new.items newest_pipeline.new n) }
        ensures sorted { LoadsBy T.honest T.holds T.leaves store.old store.new result (λ k _. counts k job ≡ true → IsPlaced k sorted.new.items newest_pipeline.new job) };
}

/// Puts each fresh job that counts where it belongs: then none is fresh.
pub(crate) fn sort_fresh<S: Sorts, T: Store>(
    alloc: Global,
    store: &mut T,
    sorted: &mut Vec<S>,
    notes: Notes,
) -> Result<Notes, StoreFault>
    ensures { LoadsBy T.honest T.holds T.leaves store.old store.new result (λ k q. AreKnown (S.counts k) (S.IsPlaced k sorted.old.items) notes → (q.fresh ≡ []) × AreKnown (S.counts k) (S.IsPlaced k sorted.new.items) q) }
{
    let Notes {
        mut fresh,
        newest,
        mut newest_pipeline,
        room,
    } = notes;
    for job in fresh.as_slice() {
        S::sort_in(alloc, store, sorted, &mut newest_pipeline, *job)?;
    }
    fresh.clear();
    Ok(Notes {
        fresh,
        newest,
        newest_pipeline,
        room,
    })
}
