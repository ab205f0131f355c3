//! A finished pipeline is pruned: it goes, with all that belongs to it.

ghost use Rattle.std.specs.Prelude.{◌≡◌, ◌++◌, flat_map, map, Some, IfOk};
ghost use Rattle.ci_machine.specs.declared.change.Key.TheVariants as key;
ghost use Rattle.ci_machine.specs.declared.change.RowChange.TheVariants as change;
ghost use Rattle.ci_machine_steps.specs.Prunes as prunes;

use crate::body;
use crate::cancels::has_number;
use crate::replies::{and, fine, unchanged};
use ci_machine::change::{Changes, Key, RowChange};
use ci_machine::records::{Attempt, Job, Pipeline};
use ci_machine::reply::{Body, HttpStatus, Reply};
use std::alloc::{AllocError, Global};

/// The pipeline goes, with all that belongs to it: these are its jobs, and the attempts are at least theirs. The reply (200) has its
/// number.
pub fn prune(
    alloc: Global,
    pipeline: &Pipeline,
    jobs: &[Job],
    attempts: &[Attempt],
) -> Result<(Reply, Changes), AllocError>
    ensures { IfOk result (λ plan. plan ≡ prunes.prune (Some pipeline.now) jobs.now attempts.now) }
{
    let text = body::pruned(alloc, pipeline.id)?;
    let changes = without_attempts(alloc, jobs, attempts)?;
    let changes = with_ties(changes, jobs)?;
    let changes = with_jobs(changes, jobs)?;
    let changes = and(changes, RowChange::Remove(Key::Pipeline(pipeline.id)))?;
    Ok((fine(Body::Json(text)), Changes::new(changes)))
}

/// No finished pipeline is old enough (204).
pub fn nothing_to_prune(alloc: Global) -> (Reply, Changes)
    ensures { result ≡ prunes.nothing_to_prune }
{
    unchanged(alloc, Reply::plain(HttpStatus::NoContent))
}

/// The attempts of these jobs go, with their traces.
fn without_attempts(
    alloc: Global,
    jobs: &[Job],
    attempts: &[Attempt],
) -> Result<Vec<RowChange>, AllocError>
    ensures { IfOk result (λ v. v.items ≡ flat_map prunes.attempt_goes (prunes.attempts_among jobs.now attempts.now)) }
{
    let mut changes = Vec::new(alloc);
    for attempt in attempts {
        if has_number(jobs, attempt.job) {
            changes.push(RowChange::Remove(Key::Trace(attempt.id)))?;
            changes.push(RowChange::Remove(Key::Attempt(attempt.id)))?;
        }
    }
    Ok(changes)
}

/// After these changes the jobs' variables go, and what they wait for.
fn with_ties(changes: Vec<RowChange>, jobs: &[Job]) -> Result<Vec<RowChange>, AllocError>
    ensures { IfOk result (λ v. v.items ≡ changes.items ++ flat_map prunes.ties_go jobs.now) }
{
    let mut changes = changes;
    for job in jobs {
        changes.push(RowChange::Remove(Key::JobVariables(job.id)))?;
        changes.push(RowChange::Remove(Key::Needs(job.id)))?;
    }
    Ok(changes)
}

/// After these changes the jobs go.
fn with_jobs(changes: Vec<RowChange>, jobs: &[Job]) -> Result<Vec<RowChange>, AllocError>
    ensures { IfOk result (λ v. v.items ≡ changes.items ++ map (λ j. change.Remove (key.Job j.id)) jobs.now) }
{
    let mut changes = changes;
    for job in jobs {
        changes.push(RowChange::Remove(Key::Job(job.id)))?;
    }
    Ok(changes)
}
