//! Jobs are cancelled: one, or those of a pipeline that can be. Both are the same of a list of jobs.

ghost use Rattle.std.specs.Prelude.{◌≡◌, ◌==◌, ◌++◌, ◌∷◌, [], map, filter, length, IfOk};
ghost use Rattle.std.specs.List.{list_any};
ghost use Rattle.ci_machine.specs.declared.change.RowChange.TheVariants as change;
ghost use Rattle.ci_machine.specs.declared.change.Record.TheVariants as row;
ghost use Rattle.ci_machine_steps.specs.Cancels as cancels;
ghost use Rattle.ci_machine_steps.specs.Shows as shows;

use crate::shows::{job_reply, pipeline_reply};
use ci_board::facts::{Facts, Row, Status};
use ci_machine::change::{Changes, Record, RowChange};
use ci_machine::records::{Attempt, AttemptState, Claim, Job, Pipeline};
use ci_machine::reply::Reply;
use std::alloc::{AllocError, Global};
use std::slice;

/// The job of a project, whose status permits it, is cancelled, and its lease with it. The reply (200) shows it with its status after that.
/// The attempts are at least those of the job. The claims are the resource groups for which it must wait after that, at least its own.
pub fn cancel_job(
    alloc: Global,
    attempts: &[Attempt],
    claims: &[Claim],
    project: u64,
    job: &Job,
    after: Status,
) -> Result<(Reply, Changes), AllocError>
    ensures { IfOk result (λ plan. plan ≡ ((shows.job_shown claims.now project job.now after).0, cancels.cancel attempts.now (job.now ∷ []))) }
{
    let reply = job_reply(alloc, claims, project, job, after)?;
    let changes = cancel(alloc, attempts, slice::from_ref(job))?;
    Ok((reply, changes))
}

/// These jobs of the pipeline, whose statuses permit it, are cancelled all at once, and their leases with them. The reply (200) shows the
/// pipeline with all its jobs, which have these facts and rows after that. The attempts are at least those of these jobs. The claims are the
/// resource groups for which its jobs must wait after that, at least those of all its jobs.
pub fn cancel_jobs(
    alloc: Global,
    attempts: &[Attempt],
    cancelled: &[Job],
    pipeline: &Pipeline,
    claims: &[Claim],
    jobs: &[Job],
    facts: &[Facts],
    rows: &[Row],
) -> Result<(Reply, Changes), AllocError>
    requires facts { length facts.now ≡ length jobs.now }
    requires rows { length rows.now ≡ length jobs.now }
    ensures { IfOk result (λ plan. plan ≡ ((shows.pipeline_shown pipeline.now claims.now jobs.now facts.now rows.now).0, cancels.cancel attempts.now cancelled.now)) }
{
    let reply = pipeline_reply(alloc, pipeline, claims, jobs, facts, rows)?;
    let changes = cancel(alloc, attempts, cancelled)?;
    Ok((reply, changes))
}

/// Each of the jobs is marked as cancelled, and each lease on one of them, of these attempts, ends as cancelled.
pub(crate) fn cancel(
    alloc: Global,
    attempts: &[Attempt],
    jobs: &[Job],
) -> Result<Changes, AllocError>
    ensures { IfOk result (λ changes. changes ≡ cancels.cancel attempts.now jobs.now) }
{
    let marks = marks(alloc, jobs)?;
    let changes = with_ends(marks, attempts, jobs)?;
    Ok(Changes::new(changes))
}

/// The jobs are marked as cancelled.
fn marks(alloc: Global, jobs: &[Job]) -> Result<Vec<RowChange>, AllocError>
    ensures { IfOk result (λ v. v.items ≡ map (λ j. change.Put (row.Job (cancels.cancelled_job j))) jobs.now) }
{
    let mut changes = Vec::new(alloc);
    for job in jobs {
        changes.push(marked(job)?)?;
    }
    Ok(changes)
}

fn marked(job: &Job) -> Result<RowChange, AllocError>
    ensures { IfOk result (λ c. c ≡ change.Put (row.Job (cancels.cancelled_job job.now))) }
{
    let mut job = job.clone()?;
    job.cancelled = true;
    Ok(RowChange::Put(Record::Job(job)))
}

/// These changes, and then each lease on one of the jobs, of these attempts, ends as cancelled.
fn with_ends(
    changes: Vec<RowChange>,
    attempts: &[Attempt],
    jobs: &[Job],
) -> Result<Vec<RowChange>, AllocError>
    ensures { IfOk result (λ v. v.items ≡ changes.items ++ map (λ a. change.Put (row.Attempt (cancels.cancelled_attempt a))) (filter (cancels.is_lease_on jobs.now) attempts.now)) }
{
    let mut changes = changes;
    for attempt in attempts {
        if is_lease_on(jobs, attempt) {
            changes.push(ended(attempt)?)?;
        }
    }
    Ok(changes)
}

/// Is the attempt the lease on one of these jobs?
fn is_lease_on(jobs: &[Job], attempt: &Attempt) -> bool
    ensures { result ≡ cancels.is_lease_on jobs.now attempt.now }
{
    attempt.state.is_live() && has_number(jobs, attempt.job)
}

/// Is the number that of one of these jobs?
pub(crate) fn has_number(jobs: &[Job], number: u64) -> bool
    ensures { result ≡ list_any (λ j. j.id == number) jobs.now }
{
    jobs.iter().any(|job| job.id == number)
}

fn ended(attempt: &Attempt) -> Result<RowChange, AllocError>
    ensures { IfOk result (λ c. c ≡ change.Put (row.Attempt (cancels.cancelled_attempt attempt.now))) }
{
    let mut attempt = attempt.clone()?;
    attempt.state = AttemptState::Cancelled;
    Ok(RowChange::Put(Record::Attempt(attempt)))
}
