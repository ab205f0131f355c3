//! Pipelines that aren't finished.

ghost use Rattle.std.specs.Prelude.{◌≡◌, IfOk};
ghost use Rattle.ci_machine_statuses.specs.HolderChanges.{turned_by, turned, opened, of_pipeline};

use crate::groups::{freed, push_if_any};
use ci_board::facts::Status;
use ci_machine::change::IndexChange;
use ci_machine::records::{Attempt, Job, Pipeline, Unfinished};
use ci_machine::redundant::is_unfinished;
use std::alloc::{AllocError, Global};

/// The change of a pipeline of which is said whether it wasn't finished, and whether it isn't.
fn turned_by(pipeline: u64, before: bool, after: bool) -> Option<IndexChange>
    ensures { result ≡ turned_by pipeline before after }
{
    match (before, after) {
        (false, true) => Some(IndexChange::Open(Unfinished { pipeline })),
        (true, false) => Some(IndexChange::Close(pipeline)),
        (false, false) | (true, true) => None,
    }
}

/// The change of a pipeline whose status comes from one to another: it opens where it was finished before and isn't after, closes
/// where it is the other way, and else there is none.
pub fn turned(pipeline: u64, before: Status, after: Status) -> Option<IndexChange>
    ensures { result ≡ turned pipeline before after }
{
    turned_by(pipeline, is_unfinished(before), is_unfinished(after))
}

/// The change of a pipeline that is made and has this status: it opens, if it isn't finished at once.
pub fn opened(pipeline: u64, status: Status) -> Option<IndexChange>
    ensures { result ≡ opened pipeline status }
{
    turned_by(pipeline, false, is_unfinished(status))
}

/// The changes of an event of one pipeline: the leases on the chosen jobs of it end, of these attempts, and its status comes from
/// one to another. First the groups that are free, and then what becomes of the pipeline. Errors: memory was refused.
pub fn of_pipeline(
    alloc: Global,
    pipeline: &Pipeline,
    chosen: &[Job],
    attempts: &[Attempt],
    before: Status,
    after: Status,
) -> Result<Vec<IndexChange>, AllocError>
    ensures { IfOk result (λ v. v.items ≡ of_pipeline pipeline.now chosen.now attempts.now before after) }
{
    let mut changes = freed(alloc, pipeline.project, chosen, attempts)?;
    push_if_any(&mut changes, turned(pipeline.id, before, after))?;
    Ok(changes)
}
