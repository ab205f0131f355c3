//! A runner asks for a job. Which of the outcomes it is, the caller knows: there is no such runner, there is nothing that
//! it may run, or it is offered a job.

ghost use Rattle.std.specs.Prelude.{◌≡◌, IfOk};
ghost use Rattle.ci_machine_steps.specs.Grants as grants;

use crate::body;
use crate::replies::{made, refused, token, unchanged};
use ci_machine::change::{Changes, Counter, Record};
use ci_machine::moment::Moment;
use ci_machine::records::{Attempt, AttemptState, JobVariable, MAX_NUMBER, QueuedJob, Runner};
use ci_machine::reply::{Code, HttpStatus, Reply};
use ci_machine::request::Seed;
use std::alloc::{AllocError, Global};

/// No runner has the token that was sent: M4.
pub fn unknown_runner(alloc: Global) -> (Reply, Changes)
    ensures { result ≡ grants.unknown_runner }
{
    refused(alloc, Code::M4)
}

/// No waiting job is one that the runner may run: 204.
pub fn nothing_to_run(alloc: Global) -> (Reply, Changes)
    ensures { result ≡ grants.nothing_to_run }
{
    unchanged(alloc, Reply::plain(HttpStatus::NoContent))
}

/// The runner is offered this job, with the job's variables by their keys, and `next` is the next number of an attempt:
/// one is made, and the reply (201) says what to run.
///
/// Refusals: M15 where the number is over the limit.
pub fn grant(
    alloc: Global,
    runner: &Runner,
    queued: &QueuedJob,
    variables: &[JobVariable],
    next: u64,
    now: Moment,
    seed: Seed,
) -> Result<(Reply, Changes), AllocError>
    ensures { IfOk result (λ plan. plan ≡ grants.grant runner.now queued.now variables.now next now seed) }
{
    if next > MAX_NUMBER {
        return Ok(refused(alloc, Code::M15));
    }
    let token = token(alloc, "j", next, seed)?;
    let text = body::grant(alloc, next, &token, queued, variables)?;
    let attempt = Record::Attempt(Attempt {
        id: next,
        job: queued.job.id,
        runner: runner.id,
        token,
        granted: now,
        seen: now,
        state: AttemptState::Live,
    });
    made(alloc, text, attempt, Counter::Attempt, next)
}
