//! A runner sends the next bytes of a trace.

ghost use Rattle.std.specs.Prelude.{◌≡◌, IfOk, length, max, option_copied};
ghost use Rattle.ci_machine_steps.specs.Prelude.{accepted};
ghost use Rattle.ci_machine_steps.specs.Traces as traces;

use crate::replies::{and, refused, unchanged};
use crate::reports::unleased;
use ci_machine::change::{Changes, Record, RowChange};
use ci_machine::lease::{Lease, PieceFault, accept_piece};
use ci_machine::moment::Moment;
use ci_machine::records::{Attempt, Trace};
use ci_machine::reply::{Code, HttpStatus, JobStatus, Reply};
use ci_machine::request::TracePart;
use ci_machine::text::Bytes;
use std::alloc::{AllocError, Global};

fn accepted_to(size: u64) -> Reply
    ensures { result ≡ traces.accepted_to size }
{
    let mut reply = Reply::plain(HttpStatus::Accepted);
    reply.job_status = Some(JobStatus::Running);
    reply.range = Some(size);
    reply
}

fn not_accepted(fault: PieceFault) -> Reply
    ensures { result ≡ traces.not_accepted fault }
{
    match fault {
        PieceFault::Unleased(fault) => unleased(fault),
        PieceFault::WrongOffset(size) => {
            let mut reply = Reply::refusal(Code::M8);
            reply.range = Some(size);
            reply
        }
        PieceFault::TraceFull => Reply::refusal(Code::M9),
    }
}

/// The attempt, whose runner was heard of at this moment too.
fn heard_of(attempt: &Attempt, now: Moment) -> Result<Attempt, AllocError>
    ensures { IfOk result (λ a. a ≡ record attempt.now { seen = max attempt.now.seen now }) }
{
    let mut heard_of = attempt.clone()?;
    heard_of.seen = attempt.seen.later(now);
    Ok(heard_of)
}

/// The bytes go behind the trace, which has this size then.
fn grow(
    alloc: Global,
    attempt: &Attempt,
    bytes: Bytes,
    now: Moment,
    size: u64,
) -> Result<(Reply, Changes), AllocError>
    ensures { IfOk result (λ plan. plan ≡ traces.grown attempt.now bytes now size) }
{
    let more = Trace {
        attempt: attempt.id,
        bytes,
    };
    let changes = and(Vec::new(alloc), RowChange::Append(more))?;
    let attempt = Record::Attempt(heard_of(attempt, now)?);
    let changes = and(changes, RowChange::Put(attempt))?;
    Ok((accepted_to(size), Changes::new(changes)))
}

/// The bytes of a part come for the trace of an attempt, which has this size so far.
fn append(
    alloc: Global,
    lease: &Lease,
    size: u64,
    part: TracePart,
    now: Moment,
) -> Result<(Reply, Changes), AllocError>
    ensures { IfOk result (λ plan. plan ≡ traces.appended lease.now.attempt part.bytes now (accepted lease.now.attempt lease.now.limit now size part.from (length part.bytes))) }
{
    let Lease { attempt, limit } = lease;
    let count = part.bytes.as_slice().len() as u64;
    match accept_piece(attempt, *limit, now, size, part.from, count) {
        Ok(size) => grow(alloc, attempt, part.bytes, now, size),
        Err(fault) => Ok(unchanged(alloc, not_accepted(fault))),
    }
}

/// A runner sends the next bytes of the trace of the attempt with the number that it names. The trace has this size so far,
/// in bytes. The reply (202) has its size with them. This renews the attempt's lease.
///
/// Refusals, in order: M5 where there is no such attempt, or the token isn't its token; M6 where it has ended, with its
/// status; M7 where its lease is over; M8 where the bytes don't begin where the trace ends, with the trace's size; M9
/// where the trace would pass its limit.
pub fn append_trace(
    alloc: Global,
    lease: Option<&Lease>,
    size: u64,
    part: TracePart,
    now: Moment,
) -> Result<(Reply, Changes), AllocError>
    ensures { IfOk result (λ plan. plan ≡ traces.append_trace (option_copied lease.entry) size part now) }
{
    let Some(lease) = lease else {
        return Ok(refused(alloc, Code::M5));
    };
    if !lease.attempt.token.is_same(&part.token) {
        return Ok(refused(alloc, Code::M5));
    }
    append(alloc, lease, size, part, now)
}
