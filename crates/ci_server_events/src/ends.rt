//! What changes beside the records where an attempt ends.

ghost use Rattle.std.specs.Prelude.{◌≡◌, ◌==◌, ◌∷◌, [], false, find, Some, None, IfOk, OnOk, option_copied};
ghost use Rattle.ci_machine.specs.declared.change.Record.TheVariants as row;
ghost use Rattle.ci_machine_steps.specs.Prelude.{Put, Kept, is_live, pipeline_at, Job};
ghost use Rattle.ci_server_lookups.specs.Prelude.{IsGraphOf, HasLive, of_pipeline, IsKept, IsRight};
ghost use Rattle.ci_store.specs.Prelude.{LoadsBy};
ghost use Rattle.ci_server_events.specs.Planning.{Settles, MovesOne, attempt_ended};

use crate::planned::Beside;
use ci_board::facts::Status;
use ci_graph::graph::Net;
use ci_machine::change::{Changes, IndexChange, Record, RowChange};
use ci_machine::records::{Attempt, Job, Pipeline};
use ci_machine_statuses::end::{Ended, end_of};
use ci_machine_statuses::holder_laws::{end_is_indexed, indexes_stay};
use ci_machine_statuses::laws::rows_stay;
use ci_machine_statuses::load::graph_for;
use ci_machine_statuses::unfinished::of_pipeline;
use ci_server_lookups::faults::or_store_fault;
use ci_server_lookups::searches::Searches;
use ci_server_lookups::sheet::Sheet;
use ci_store::fault::StoreFault;
use std::alloc::Global;
use std::slice;

/// What changes beside changes that are none, or that put a live attempt of a job of this pipeline as it stands then: nothing where
/// it is live still, and else the rows of its job and of the jobs behind it that differ, its resource group, which is free, and its
/// pipeline where that is finished then.
pub(crate) fn beside_changes<T: Searches>(
    alloc: Global,
    store: &mut T,
    pipeline: u64,
    changes: &Changes,
) -> Result<Beside, StoreFault>
    ensures { LoadsBy T.honest T.holds T.leaves store.old store.new result
        (λ k b. IsKept k → MovesOne k.state changes.now → Settles k changes.now b) }
{
    rows_stay();
    indexes_stay();
    match attempt_ended(changes) {
        Some(after) => beside_end(alloc, store, pipeline, after),
        None => Ok(Beside::nothing(alloc)),
    }
}

/// The attempt that changes end, where they put it alone.
fn attempt_ended(changes: &Changes) -> Option<&Attempt>
    ensures { option_copied result ≡ attempt_ended changes.now }
{
    match changes.as_slice() {
        [RowChange::Put(Record::Attempt(after))] if !after.state.is_live() => Some(after),
        _ => None,
    }
}

/// What changes beside a live attempt of a job of this pipeline that has ended so. What is remembered of the pipeline is taken for it, and
/// kept again with the graph of its jobs.
fn beside_end<T: Searches>(
    alloc: Global,
    store: &mut T,
    pipeline: u64,
    after: &Attempt,
) -> Result<Beside, StoreFault>
    ensures { LoadsBy T.honest T.holds T.leaves store.old store.new result
        (λ k b. IsKept k → HasLive k.state after.now → is_live after.now ≡ false → Settles k (Put (row.Attempt after.now) ∷ []) b) }
{
    let sheet = store.take_sheet(pipeline)?;
    let Some(pipeline) = store.pipeline(pipeline)? else {
        return Err(StoreFault::Broken);
    };
    let (beside, sheet) = ended(alloc, &pipeline, sheet, after)?;
    store.keep_sheet(sheet);
    Ok(beside)
}

/// The same, of the records of its pipeline; and these with the graph of its jobs.
fn ended(
    alloc: Global,
    pipeline: &Pipeline,
    sheet: Sheet,
    after: &Attempt,
) -> Result<(Beside, Sheet), StoreFault>
    ensures kept { IfOk result (λ r. (k : Kept) → IsRight sheet k → IsRight r.1 k) }
    ensures settled { IfOk result (λ r. (k : Kept) → IsKept k → pipeline_at k.state pipeline.now.id ≡ Some pipeline.now → IsRight sheet k → sheet.pipeline ≡ pipeline.now.id
        → HasLive k.state after.now → is_live after.now ≡ false → Settles k (Put (row.Attempt after.now) ∷ []) r.0) }
{
    end_is_indexed();
    let mut sheet = sheet;
    let graph = take_graph(alloc, &mut sheet)?;
    let ended = or_store_fault(end_of(
        alloc,
        graph,
        sheet.jobs.as_slice(),
        sheet.attempts.as_slice(),
        sheet.rows.as_slice(),
        after,
    ))?;
    let Ended {
        settled,
        before,
        then,
        graph,
    } = ended;
    let indexes = indexes_after(alloc, pipeline, &sheet, after, before, then)?;
    sheet.graph = Some(graph);
    let beside = Beside {
        rows: settled.changed,
        indexes,
    };
    Ok((beside, sheet))
}

/// The graph of a sheet's jobs, taken out of it, or made.
fn take_graph(alloc: Global, sheet: &mut Sheet) -> Result<Net, StoreFault>
    ensures sheet { OnOk result (sheet.new ≡ record sheet.old { graph = None }) }
    ensures graph { IfOk result (λ g. (k : Kept) → IsRight sheet.old k → IsGraphOf g sheet.old.jobs.items sheet.old.needs.items) }
{
    match sheet.graph.take() {
        Some(graph) => Ok(graph),
        None => or_store_fault(graph_for(alloc, sheet.jobs.as_slice(), sheet.needs.as_slice())),
    }
}

/// What changes of held groups and unfinished pipelines where the attempt of one of the sheet's jobs ends, and the status of its pipeline
/// comes from the one to the other.
fn indexes_after(
    alloc: Global,
    pipeline: &Pipeline,
    sheet: &Sheet,
    after: &Attempt,
    before: Status,
    then: Status,
) -> Result<Vec<IndexChange>, StoreFault>
    ensures { IfOk result (λ v. (job : Job) × (find (λ j. j.id == after.now.job) sheet.now.jobs.items ≡ Some job) × (v.items ≡ of_pipeline pipeline.now (job ∷ []) sheet.now.attempts.items before then)) }
{
    let Some(job) = job_with(sheet.jobs.as_slice(), after.job) else {
        return Err(StoreFault::Broken);
    };
    let indexes = of_pipeline(
        alloc,
        pipeline,
        slice::from_ref(job),
        sheet.attempts.as_slice(),
        before,
        then,
    )?;
    Ok(indexes)
}

/// The job with a number, if it is one of these.
fn job_with(jobs: &[Job], number: u64) -> Option<&Job>
    ensures { option_copied result ≡ find (λ j. j.id == number) jobs.now }
{
    jobs.iter().find(|job| job.id == number)
}
