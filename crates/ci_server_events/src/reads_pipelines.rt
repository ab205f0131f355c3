//! The newest pipelines of a project, each with the status that follows from what the store holds of its jobs.

ghost use Rattle.std.specs.Prelude.{◌≡◌, ℕ, List, map, IfOk, IfErr};
ghost use Rattle.ci_machine_steps.specs.Prelude.{Need, status_of_jobs, with_status, Kept, jobs_of, facts_of, rows_of};
ghost use Rattle.ci_machine.specs.declared.request.Subject.TheVariants as subject;
ghost use Rattle.ci_machine_steps.specs.Reads as machine;
ghost use Rattle.ci_server_lookups.specs.Prelude.{AreRecords, Memory, IsKept};
ghost use Rattle.ci_store.specs.Prelude.{LoadsBy};

use crate::shows::loaded;
use ci_board::facts::Status;
use ci_machine::limits::LISTED_PIPELINES;
use ci_machine::records::{Attempt, BoardRow, Job, Pipeline, PipelineWithStatus, Project};
use ci_machine::reply::{Body, Code};
use ci_machine_plans::body::status_of;
use ci_machine_plans::listings;
use ci_machine_statuses::load::range_of;
use ci_store::fault::StoreFault;
use ci_store::store::Store;
use std::alloc::Global;

/// The newest pipelines of this project, newest first.
pub(crate) fn pipelines<T: Store>(
    alloc: Global,
    store: &mut T,
    project: &Project,
) -> Result<Result<Body, Code>, StoreFault>
    ensures { LoadsBy T.honest T.holds T.leaves store.old store.new result
        (λ k body. IsKept k → body ≡ machine.read_subject k.state k.board project.now subject.Pipelines) }
{
    let listed = listed_pipelines(alloc, store, project.id)?;
    Ok(Ok(listings::list(alloc, listed.as_slice())?))
}

/// The newest pipelines of the project with this number, newest first, each with its status.
fn listed_pipelines<T: Store>(
    alloc: Global,
    store: &mut T,
    project: u64,
) -> Result<Vec<PipelineWithStatus>, StoreFault>
    ensures { LoadsBy T.honest T.holds T.leaves store.old store.new result
        (λ k listed. IsKept k → listed.items ≡ map (with_status k.state k.board) (machine.listed_pipelines k.state project)) }
{
    let pipelines = store.newest(project, LISTED_PIPELINES)?;
    let mut listed = Vec::new(alloc);
    for pipeline in pipelines.as_slice() {
        let one = with_status(alloc, store, pipeline)?;
        listed.push(one)?;
    }
    Ok(listed)
}

/// A pipeline with its status, by what is looked up of its jobs: their attempts and rows.
fn with_status<T: Store>(
    alloc: Global,
    store: &mut T,
    pipeline: &Pipeline,
) -> Result<PipelineWithStatus, StoreFault>
    ensures { LoadsBy T.honest T.holds T.leaves store.old store.new result (λ k told. IsKept k → told ≡ with_status k.state k.board pipeline.now) }
{
    let status = status_in(alloc, store, pipeline.id)?;
    Ok(PipelineWithStatus {
        pipeline: pipeline.clone()?,
        status,
    })
}

/// The status of the pipeline with this number.
fn status_in<T: Store>(alloc: Global, store: &mut T, number: u64) -> Result<Status, StoreFault>
    ensures { LoadsBy T.honest T.holds T.leaves store.old store.new result
        (λ k status. IsKept k → status ≡ status_of_jobs (jobs_of k.state number) (facts_of k.state number) (rows_of k.state k.board number)) }
{
    let jobs = store.jobs_of(number)?;
    let Some((first, last)) = range_of(jobs.as_slice()) else {
        return Err(StoreFault::Broken);
    };
    let attempts = store.attempts_within(first, last)?;
    let rows = store.rows_within(first, last)?;
    status_by(alloc, jobs.as_slice(), attempts.as_slice(), rows.as_slice())
}

/// The status of a pipeline with these jobs, by at least their attempts and rows. Errors: memory was refused, or they don't fit together.
pub(crate) fn status_by(
    alloc: Global,
    jobs: &[Job],
    attempts: &[Attempt],
    rows: &[BoardRow],
) -> Result<Status, StoreFault>
    ensures status { IfOk result (λ status. (k : Kept) (number : ℕ) (needs : List Need) → IsKept k → AreRecords k.state k.board number jobs.now needs attempts.now rows.now
        → status ≡ status_of_jobs jobs.now (facts_of k.state number) (rows_of k.state k.board number)) }
    ensures fault { IfErr result (λ fault. (k : Kept) (number : ℕ) (needs : List Need) → IsKept k → AreRecords k.state k.board number jobs.now needs attempts.now rows.now → fault ≡ Memory) }
{
    let found = loaded(alloc, jobs, attempts, rows)?;
    let status = status_of(alloc, jobs, found.0.as_slice(), found.1.as_slice())?;
    Ok(status)
}
