//! Leases: when a runner was last heard of, when its lease is over, what of it is accepted, and how an attempt ends.

ghost use Rattle.std.specs.Prelude.{◌≡◌, option_map, option_copied, IfSome};
ghost use Rattle.ci_machine.specs.Leases.{is_over, renewed, accepted, is_same_end, after_final, cause_of, first_due};

use crate::limits::{LEASE_SECONDS, MAX_TRACE_BYTES};
use crate::moment::Moment;
use crate::records::{Attempt, AttemptState, Cause};

/// An attempt, with the time limit of its job in seconds. While it is live it is its runner's lease on the job.
#[derive(Clone, Drop)]
pub struct Lease {
    pub attempt: Attempt,
    pub limit: u32,
}

/// Why nothing of a runner is accepted on an attempt.
#[derive(Clone, Copy, Drop)]
pub enum LeaseFault {
    /// The attempt has ended, in this state.
    NotLive(AttemptState),
    /// Its lease is over.
    LeaseOver,
}

/// Why a piece of a trace isn't accepted.
#[derive(Clone, Copy, Drop)]
pub enum PieceFault {
    /// Nothing of the runner is.
    Unleased(LeaseFault),
    /// It doesn't begin where the trace ends, which has this size in bytes.
    WrongOffset(u64),
    /// The trace would pass its limit.
    TraceFull,
}

/// Is the lease of an attempt over? It is from the lesser on of 120 seconds after its runner was last heard of and its
/// job's time limit, in seconds, after the grant.
pub fn is_over(attempt: &Attempt, limit: u32, now: Moment) -> bool
    ensures { result ≡ is_over attempt.now limit now }
{
    let silent = attempt.seen.seconds() + LEASE_SECONDS;
    let timed_out = attempt.granted.seconds() + u64::from(limit);
    silent.min(timed_out) <= now.seconds()
}

/// When the runner was last heard of, if it is heard of now: the later of then and now, since moments may go back.
pub fn renew(attempt: &Attempt, limit: u32, now: Moment) -> Result<Moment, LeaseFault>
    ensures { result ≡ renewed attempt.now limit now }
{
    match attempt.state {
        AttemptState::Live => {}
        ended => return Err(LeaseFault::NotLive(ended)),
    }
    if is_over(attempt, limit, now) {
        return Err(LeaseFault::LeaseOver);
    }
    Ok(attempt.seen.later(now))
}

/// The size of the trace after a piece of `count` bytes from an offset, where it has this size so far.
pub fn accept_piece(
    attempt: &Attempt,
    limit: u32,
    now: Moment,
    size: u64,
    from: u64,
    count: u64,
) -> Result<u64, PieceFault>
    ensures { result ≡ accepted attempt.now limit now size from count }
{
    match renew(attempt, limit, now) {
        Ok(_) => {}
        Err(fault) => return Err(PieceFault::Unleased(fault)),
    }
    if from != size {
        return Err(PieceFault::WrongOffset(size));
    }
    if size > MAX_TRACE_BYTES || count > MAX_TRACE_BYTES - size {
        return Err(PieceFault::TraceFull);
    }
    Ok(size + count)
}

fn is_same_end(old: AttemptState, new: AttemptState) -> bool
    ensures { result ≡ is_same_end old new }
{
    match (old, new) {
        (AttemptState::Succeeded(x), AttemptState::Succeeded(y)) => x == y,
        (AttemptState::Failed(_, x), AttemptState::Failed(_, y)) => x == y,
        _ => false,
    }
}

/// The attempt after its runner sent a final state. The same final state with the same exit code, or the same lack of
/// one, changes nothing.
pub fn finish(
    attempt: Attempt,
    limit: u32,
    now: Moment,
    last: AttemptState,
) -> Result<Attempt, LeaseFault>
    ensures { result ≡ after_final attempt limit now last }
{
    if is_same_end(attempt.state, last) {
        return Ok(attempt);
    }
    match renew(&attempt, limit, now) {
        Ok(_) => Ok(in_state(attempt, last)),
        Err(fault) => Err(fault),
    }
}

fn in_state(attempt: Attempt, state: AttemptState) -> Attempt
    ensures { result ≡ record attempt { state = state } }
{
    let mut attempt = attempt;
    attempt.state = state;
    attempt
}

/// Why a lease that is over ends.
pub fn cause(lease: &Lease) -> Cause
    ensures { result ≡ cause_of lease.now }
{
    let timed_out = lease.attempt.granted.seconds() + u64::from(lease.limit);
    if timed_out <= lease.attempt.seen.seconds() + LEASE_SECONDS {
        Cause::JobExecutionTimeout
    } else {
        Cause::StuckOrTimeoutFailure
    }
}

/// The first lease that is over, of leases by number, and why it ends.
pub fn due(leases: &[Lease], now: Moment) -> Option<(&Lease, Cause)>
    ensures lease { option_map (λ p. p.0.now) result ≡ first_due leases.now now }
    ensures cause { IfSome result (λ p. p.1 ≡ cause_of p.0.now) }
{
    match first_due(leases, now) {
        Some(lease) => Some((lease, cause(lease))),
        None => None,
    }
}

fn first_due(leases: &[Lease], now: Moment) -> Option<&Lease>
    ensures { option_copied result ≡ first_due leases.now now }
{
    leases
        .iter()
        .find(|lease| is_over(&lease.attempt, lease.limit, now))
}
