//! What is remembered of leases, kept right through changes of records.

ghost use Rattle.std.specs.Prelude.{◌≡◌, ◌≢◌, ◌≤◌, ◌⊎◌, IfSome, IsTrue, Some};
ghost use Rattle.ci_machine_steps.specs.Prelude.{State, changed, with_record, without_record};
ghost use Rattle.ci_machine.specs.declared.change.Record.TheVariants as row;
ghost use Rattle.ci_machine.specs.declared.change.Key.TheVariants as key;
ghost use Rattle.ci_memory.specs.Quiet.{AreRightOf, IsQuiet};

use crate::follows::Follows;
use crate::leases::{Leases, Limit, Quiet};
use ci_machine::change::{Key, Record, RowChange};
use ci_machine::records::{Attempt, Job};

impl Follows for Leases {
    ghost IsRightOf = { AreRightOf };

    fn change(&mut self, change: &RowChange) {
        *self = after_change(*self, change);
    }
}

fn after_change(memory: Leases, change: &RowChange) -> Leases
    ensures { (s : State) → AreRightOf memory s → AreRightOf result (changed change.now s) }
{
    match change {
        RowChange::Put(record) => with_record(memory, record),
        RowChange::Append(_) => memory,
        RowChange::Remove(key) => without_record(memory, key),
    }
}

fn with_record(memory: Leases, new: &Record) -> Leases
    ensures { (s : State) → AreRightOf memory s → AreRightOf result (with_record new.now s) }
{
    match new {
        Record::Attempt(attempt) => with_attempt(memory, attempt),
        Record::Job(job) => with_job(memory, job),
        _ => memory,
    }
}

fn without_record(memory: Leases, key: &Key) -> Leases
    ensures { (s : State) → AreRightOf memory s → AreRightOf result (without_record key.now s) }
{
    match key {
        Key::Job(id) => without_job(memory, *id),
        _ => memory,
    }
}

fn with_attempt(memory: Leases, attempt: &Attempt) -> Leases
    ensures { (s : State) → AreRightOf memory s → AreRightOf result (with_record (row.Attempt attempt.now) s) }
{
    if !attempt.state.is_live() {
        return memory;
    }
    Leases {
        quiet: quiet_with(memory, attempt),
        limit: memory.limit,
    }
}

/// Until when no lease is over, with the lease on this attempt, where the time limit of its job is known.
fn quiet_with(memory: Leases, attempt: &Attempt) -> Option<Quiet>
    ensures { (s : State) → AreRightOf memory s → IfSome result (λ q. IsQuiet q (with_record (row.Attempt attempt.now) s)) }
{
    let quiet = memory.quiet?;
    let limit = memory.limit?;
    if limit.job != attempt.job {
        return None;
    }
    quiet.taking_in(attempt, limit.seconds)
}

fn with_job(memory: Leases, job: &Job) -> Leases
    ensures { (s : State) → AreRightOf memory s → AreRightOf result (with_record (row.Job job.now) s) }
{
    let limit = Limit {
        job: job.id,
        seconds: job.options.timeout,
    };
    if is_known(memory, limit) {
        return memory;
    }
    Leases {
        quiet: quiet_without(memory.quiet, job.id),
        limit: limit_with(memory.limit, limit),
    }
}

/// Is this the time limit that is remembered?
fn is_known(memory: Leases, limit: Limit) -> bool
    ensures { IsTrue result → memory.limit ≡ Some limit }
{
    match memory.limit {
        Some(known) => known.job == limit.job && known.seconds == limit.seconds,
        None => false,
    }
}

/// Until when no lease is over, where the job with a number changes or goes: that is known still if none is on it.
fn quiet_without(quiet: Option<Quiet>, job: u64) -> Option<Quiet>
    ensures { IfSome result (λ q. (quiet ≡ Some q) × (q.below ≤ job)) }
{
    let quiet = quiet?;
    if job < quiet.below {
        return None;
    }
    Some(quiet)
}

/// The time limit that is remembered, where a job is put with this one.
fn limit_with(known: Option<Limit>, put: Limit) -> Option<Limit>
    ensures { IfSome result (λ l. (l ≡ put) ⊎ ((known ≡ Some l) × (l.job ≢ put.job))) }
{
    let limit = known?;
    if limit.job == put.job {
        return Some(put);
    }
    Some(limit)
}

fn without_job(memory: Leases, id: u64) -> Leases
    ensures { (s : State) → AreRightOf memory s → AreRightOf result (without_record (key.Job id) s) }
{
    Leases {
        quiet: quiet_without(memory.quiet, id),
        limit: limit_without(memory.limit, id),
    }
}

/// The time limit that is remembered, where the job with a number goes.
fn limit_without(known: Option<Limit>, job: u64) -> Option<Limit>
    ensures { IfSome result (λ l. (known ≡ Some l) × (l.job ≢ job)) }
{
    let limit = known?;
    if limit.job == job {
        return None;
    }
    Some(limit)
}
