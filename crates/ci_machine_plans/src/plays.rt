//! A manual job is played.

ghost use Rattle.std.specs.Prelude.{◌≡◌, IfOk};
ghost use Rattle.ci_machine_steps.specs.Plays as plays;
ghost use Rattle.ci_machine_steps.specs.Prelude.{job_shown};

use crate::replies::only;
use crate::shows::job_reply;
use ci_board::facts::Status;
use ci_machine::change::{Changes, Record, RowChange};
use ci_machine::records::{Claim, Job};
use ci_machine::reply::Reply;
use std::alloc::{AllocError, Global};

/// The job of a project, whose status permits it, is marked as played. The reply (200) shows it with its status after that. The claims
/// are the resource groups for which it must wait after that, at least its own.
pub fn play(
    alloc: Global,
    claims: &[Claim],
    project: u64,
    job: &Job,
    after: Status,
) -> Result<(Reply, Changes), AllocError>
    ensures { IfOk result (λ plan. plan ≡ ((job_shown claims.now project job.now after).0, plays.play job.now)) }
{
    let reply = job_reply(alloc, claims, project, job, after)?;
    let mut job = job.clone()?;
    job.played = true;
    let changes = only(alloc, RowChange::Put(Record::Job(job)))?;
    Ok((reply, changes))
}
