//! A runner says how an attempt of its stands.

ghost use Rattle.std.specs.Prelude.{◌≡◌, IfOk, option_copied};
ghost use Rattle.ci_machine_steps.specs.Prelude.{finished};
ghost use Rattle.ci_machine_steps.specs.Reports as reports;

use crate::replies::{put, refused, unchanged};
use ci_machine::change::Changes;
use ci_machine::lease::{Lease, LeaseFault, finish, renew};
use ci_machine::moment::Moment;
use ci_machine::records::{Attempt, AttemptState};
use ci_machine::reply::{Code, HttpStatus, JobStatus, Reply};
use ci_machine::request::{JobUpdate, Report};
use std::alloc::{AllocError, Global};

fn told(status: JobStatus) -> Reply
    ensures { result ≡ reports.told status }
{
    let mut reply = Reply::plain(HttpStatus::Fine);
    reply.job_status = Some(status);
    reply
}

/// Nothing of the runner is accepted.
pub(crate) fn unleased(fault: LeaseFault) -> Reply
    ensures { result ≡ reports.unleased fault }
{
    match fault {
        LeaseFault::NotLive(state) => {
            let mut reply = Reply::refusal(Code::M6);
            reply.job_status = Some(JobStatus::of(state));
            reply
        }
        LeaseFault::LeaseOver => Reply::refusal(Code::M7),
    }
}

/// The runner was heard of at this moment, if anything of it is accepted.
fn heard(
    alloc: Global,
    attempt: &Attempt,
    seen: Result<Moment, LeaseFault>,
) -> Result<(Reply, Changes), AllocError>
    ensures { IfOk result (λ plan. plan ≡ reports.heard attempt.now seen) }
{
    match seen {
        Ok(seen) => {
            let mut attempt = attempt.clone()?;
            attempt.seen = seen;
            Ok((told(JobStatus::Running), put(alloc, attempt)?))
        }
        Err(fault) => Ok(unchanged(alloc, unleased(fault))),
    }
}

/// The changes by which an attempt comes into a final state, as it is after: none, where it has ended.
fn ending(alloc: Global, attempt: &Attempt, after: Attempt) -> Result<Changes, AllocError>
    ensures { (state : AttemptState) → after ≡ record attempt.now { state = state } → IfOk result (λ changes. changes ≡ reports.ending attempt.now state) }
{
    if !attempt.state.is_live() {
        return Ok(Changes::new(Vec::new(alloc)));
    }
    put(alloc, after)
}

/// The attempt comes into this final state, if one of the runner is accepted.
fn ended(
    alloc: Global,
    attempt: &Attempt,
    limit: u32,
    now: Moment,
    last: AttemptState,
) -> Result<(Reply, Changes), AllocError>
    ensures { IfOk result (λ plan. plan ≡ reports.ended attempt.now (finished attempt.now limit now last)) }
{
    match finish(attempt.clone()?, limit, now, last) {
        Ok(after) => {
            let reply = told(JobStatus::of(after.state));
            let changes = ending(alloc, attempt, after)?;
            Ok((reply, changes))
        }
        Err(fault) => Ok(unchanged(alloc, unleased(fault))),
    }
}

fn reported(
    alloc: Global,
    lease: &Lease,
    report: Report,
    now: Moment,
) -> Result<(Reply, Changes), AllocError>
    ensures { IfOk result (λ plan. plan ≡ reports.reported lease.now report now) }
{
    let Lease { attempt, limit } = lease;
    match report {
        Report::Running => heard(alloc, attempt, renew(attempt, *limit, now)),
        Report::Success(exit) => {
            let state = AttemptState::Succeeded(exit);
            ended(alloc, attempt, *limit, now, state)
        }
        Report::Failed(cause, exit) => {
            let state = AttemptState::Failed(cause, exit);
            ended(alloc, attempt, *limit, now, state)
        }
    }
}

/// A runner says how the attempt with the number that it names stands: that it runs, which renews its lease, or how it
/// ended. The reply (200) has the attempt's status. A final state that comes again changes nothing.
///
/// Refusals, in order: M5 where there is no such attempt, or the token isn't its token; M6 where it has ended, with its
/// status; M7 where its lease is over.
pub fn update_job(
    alloc: Global,
    lease: Option<&Lease>,
    update: &JobUpdate,
    now: Moment,
) -> Result<(Reply, Changes), AllocError>
    ensures { IfOk result (λ plan. plan ≡ reports.update_job (option_copied lease.entry) update.now now) }
{
    let Some(lease) = lease else {
        return Ok(refused(alloc, Code::M5));
    };
    if !lease.attempt.token.is_same(&update.token) {
        return Ok(refused(alloc, Code::M5));
    }
    reported(alloc, lease, update.report, now)
}
