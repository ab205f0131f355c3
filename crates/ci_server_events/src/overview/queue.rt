//! The pending jobs, as a report tells them.

ghost use Rattle.std.specs.Prelude.{◌≡◌, Some, map, option_map};
ghost use Rattle.ci_machine_steps.specs.Prelude.{job_at, pipeline_at, project_or_none, queued, queue_row, queue_rows, groups_in};
ghost use Rattle.ci_store.specs.Prelude.{LoadsBy};
ghost use Rattle.ci_server_lookups.specs.Prelude.{IsKept};
ghost use Rattle.ci_server_events.specs.Told.{row_told};

use ci_board::facts::Status;
use ci_machine::records::{BoardRow, Job};
use ci_machine::report::{QueueRow, ShownStatus};
use ci_machine_statuses::laws::the_queue_is_its_rows;
use ci_server_lookups::claims::is_group_free;
use ci_server_lookups::turns::Turns;
use ci_store::fault::StoreFault;
use ci_store::store::Store;
use std::alloc::Global;

/// The pending jobs, by number. Their rows are looked up at once, and each of their jobs with its pipeline, who holds its group, and
/// whose turn it is in the group. Errors: the store's.
pub fn queue_rows<T: Turns>(alloc: Global, store: &mut T) -> Result<Vec<QueueRow>, StoreFault>
    ensures { LoadsBy T.honest T.holds T.leaves store.old store.new result (λ k told. IsKept k → told.items ≡ queue_rows k.state k.board) }
{
    the_queue_is_its_rows();
    let rows = store.rows_with(Status::Pending)?;
    told_of(alloc, store, rows.as_slice())
}

/// What is told of the jobs of these rows.
fn told_of<T: Turns>(
    alloc: Global,
    store: &mut T,
    rows: &[BoardRow],
) -> Result<Vec<QueueRow>, StoreFault>
    ensures { LoadsBy T.honest T.holds T.leaves store.old store.new result
        (λ k told. IsKept k → map (λ x. Some x) told.items ≡ map (row_told k.state k.board) rows.now) }
{
    let mut told = Vec::new(alloc);
    for row in rows {
        let one = row_of(alloc, store, row.job)?;
        told.push(one)?;
    }
    Ok(told)
}

/// The job with a number, which is pending.
fn row_of<T: Turns>(alloc: Global, store: &mut T, job: u64) -> Result<QueueRow, StoreFault>
    ensures { LoadsBy T.honest T.holds T.leaves store.old store.new result
        (λ k told. IsKept k → option_map (queue_row (groups_in k.state k.board)) (option_map (queued k.state) (job_at k.state job)) ≡ Some told) }
{
    match store.job(job)? {
        Some(job) => told(alloc, store, &job),
        None => Err(StoreFault::Broken),
    }
}

/// A job that is pending.
fn told<T: Turns>(alloc: Global, store: &mut T, job: &Job) -> Result<QueueRow, StoreFault>
    ensures { LoadsBy T.honest T.holds T.leaves store.old store.new result
        (λ k told. IsKept k → told ≡ queue_row (groups_in k.state k.board) (queued k.state job.now)) }
{
    let name = job.name.clone()?;
    let project = project_of(store, job.pipeline)?;
    let is_free = is_group_free(
        alloc,
        store,
        project,
        job.pipeline,
        &job.options.resource_group,
    )?;
    Ok(QueueRow {
        job: job.id,
        project,
        status: ShownStatus::pending(is_free),
        name,
    })
}

/// The project of the pipeline with a number.
fn project_of<T: Store>(store: &mut T, pipeline: u64) -> Result<u64, StoreFault>
    ensures { LoadsBy T.honest T.holds T.leaves store.old store.new result (λ k project. project ≡ project_or_none (pipeline_at k.state pipeline)) }
{
    match store.pipeline(pipeline)? {
        Some(pipeline) => Ok(pipeline.project),
        None => Err(StoreFault::Broken),
    }
}
