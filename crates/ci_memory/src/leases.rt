//! Until when no lease is over, as a server remembers it of its store: so a sweep of an idle server looks nothing up.

mod changes;
mod deadlines;
pub mod due;

ghost use Rattle.std.specs.Prelude.{◌≡◌, ℕ, List, IfSome, IsTrue, None, Some};
ghost use Rattle.ci_machine_steps.specs.Prelude.{IndexChange, BoardRow, Kept, cleared, written, first_due, job_at, leases};
ghost use Rattle.ci_memory.specs.Quiet.{AreRight, IsWider, IsWithin};

use crate::follows::followed;
use crate::leases::deadlines::deadline;
use ci_machine::change::RowChange;
use ci_machine::moment::Moment;
use ci_machine::records::{Attempt, Job};

/// No lease is over for a while.
#[derive(Clone, Copy, Drop)]
pub struct Quiet {
    /// Until when, in seconds since 1970.
    pub until: u64,
    /// The job of each lease has a lesser number.
    pub below: u64,
}

/// The time limit of a job.
#[derive(Clone, Copy, Drop)]
pub struct Limit {
    /// The job's number.
    pub job: u64,
    pub seconds: u32,
}

/// What is remembered of leases. Either may be unknown, and forgetting it is always right.
#[derive(Clone, Copy, Drop)]
pub struct Leases {
    pub quiet: Option<Quiet>,
    /// Of the job that was looked up last.
    pub limit: Option<Limit>,
}

impl Quiet {
    /// With the lease on this attempt too, whose job has this time limit in seconds; or `None`, where the job's number is the greatest.
    pub(crate) fn taking_in(self, attempt: &Attempt, limit: u32) -> Option<Quiet>
        ensures it { IfSome result (λ q. IsWithin q (record { attempt = attempt.now; limit = limit })) }
        ensures others { IfSome result (λ q. IsWider self q) }
    {
        let behind = attempt.job.checked_add(1)?;
        Some(Quiet {
            until: self.until.min(deadline(attempt, limit)),
            below: self.below.max(behind),
        })
    }
}

impl Leases {
    /// Nothing is remembered.
    pub fn unknown() -> Leases
        ensures { (k : Kept) → AreRight result k }
    {
        Leases {
            quiet: None,
            limit: None,
        }
    }

    /// Remembers the time limit of a job that was looked up by this number.
    pub fn learn(&mut self, job: &Job, id: u64)
        ensures { (k : Kept) → AreRight self.old k → job_at k.state id ≡ Some job.now → AreRight self.new k }
    {
        self.limit = Some(Limit {
            job: id,
            seconds: job.options.timeout,
        });
    }

    /// Is it known that no lease is over now?
    pub(crate) fn is_quiet(&self, now: Moment) -> bool
        ensures { IsTrue result → (k : Kept) → AreRight self.now k → first_due (leases k.state) now ≡ None }
    {
        match self.quiet {
            Some(quiet) => now.seconds() < quiet.until,
            None => false,
        }
    }

    /// What is remembered still after the changes of a commit.
    pub fn after(self, changes: &[RowChange]) -> Leases
        ensures { (k : Kept) (jobs : List ℕ) (rows : List BoardRow) (indexes : List IndexChange) → AreRight self k → AreRight result (written changes.now rows indexes (cleared jobs k)) }
    {
        followed(self, changes)
    }
}
