//! A job is to be tried again.

ghost use Rattle.std.specs.Prelude.{◌≡◌, ◌==◌, IfOk, filter, length, count_by};
ghost use Rattle.ci_machine_steps.specs.Retries as retries;
ghost use Rattle.ci_machine_steps.specs.Prelude.{job_shown};

use crate::replies::only;
use crate::shows::job_reply;
use ci_board::facts::Status;
use ci_machine::change::{Changes, Record, RowChange};
use ci_machine::records::{Attempt, Claim, Job};
use ci_machine::reply::Reply;
use std::alloc::{AllocError, Global};

fn count_of(attempts: &[Attempt], job: u64) -> usize
    ensures { result ≡ count_by (λ a. a.job == job) attempts.now }
{
    attempts.iter().filter(|one| one.job == job).count()
}

/// How many of the attempts are of a job.
pub fn attempts_of(attempts: &[Attempt], job: u64) -> u64
    ensures { result ≡ length (filter (λ a. a.job == job) attempts.now) }
{
    count_of(attempts, job) as u64
}

/// Of the job of a project, whose status permits it, all attempts are set aside, and it isn't marked as cancelled any more. The reply (200)
/// shows it with its status after that. The attempts are at least those of the job. The claims are the resource groups for which it
/// must wait after that, at least its own.
pub fn retry(
    alloc: Global,
    attempts: &[Attempt],
    claims: &[Claim],
    project: u64,
    job: &Job,
    after: Status,
) -> Result<(Reply, Changes), AllocError>
    ensures { IfOk result (λ plan. plan ≡ ((job_shown claims.now project job.now after).0, retries.retry (filter (λ a. a.job == job.now.id) attempts.now) job.now)) }
{
    let reply = job_reply(alloc, claims, project, job, after)?;
    let count = attempts_of(attempts, job.id);
    let mut job = job.clone()?;
    job.set_aside = count;
    job.cancelled = false;
    let changes = only(alloc, RowChange::Put(Record::Job(job)))?;
    Ok((reply, changes))
}
