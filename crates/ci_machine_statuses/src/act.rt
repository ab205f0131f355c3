//! What a user does to jobs.

ghost use Rattle.std.specs.Prelude.{◌≡◌};
ghost use Rattle.ci_machine_statuses.specs.Acts.{is_permitted, cancelled_last, acted};

use ci_board::facts::{Facts, Status};
use ci_machine::records::AttemptState;

/// What a user does to a job.
#[derive(Clone, Copy, PartialEq, Eq, Drop)]
pub enum Act {
    /// A manual job is to run.
    Play,
    /// A job that has ended is to be tried again.
    Retry,
    /// A job that hasn't ended is cancelled, with its lease.
    Cancel,
}

/// How the last attempt stands where its lease, if it is one, is cancelled.
fn cancelled_last(last: Option<AttemptState>) -> Option<AttemptState>
    ensures { result ≡ cancelled_last last }
{
    match last {
        Some(AttemptState::Live) => Some(AttemptState::Cancelled),
        ended => ended,
    }
}

impl Act {
    /// Can it be done to a job of this status?
    pub fn permits(self, status: Status) -> bool
        ensures { result ≡ is_permitted self status }
    {
        match self {
            Act::Play => status == Status::Manual,
            Act::Retry => match status {
                Status::Success | Status::Failed | Status::Canceled => true,
                _ => false,
            },
            Act::Cancel => match status {
                Status::Created | Status::Pending | Status::Running | Status::Manual => true,
                _ => false,
            },
        }
    }

    /// The facts of a job to which it was done.
    pub fn facts(self, facts: Facts) -> Facts
        ensures { result ≡ acted self facts }
    {
        match self {
            Act::Play => Facts {
                last: facts.last,
                attempts: facts.attempts,
                cancelled: facts.cancelled,
                played: true,
            },
            Act::Retry => Facts {
                last: facts.last,
                attempts: 0,
                cancelled: false,
                played: facts.played,
            },
            Act::Cancel => Facts {
                last: cancelled_last(facts.last),
                attempts: facts.attempts,
                cancelled: true,
                played: facts.played,
            },
        }
    }
}
