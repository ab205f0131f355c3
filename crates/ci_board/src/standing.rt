//! The status that a job has by its own facts.

ghost use Rattle.std.specs.Prelude.{◌≡◌};
ghost use Rattle.ci_board.specs.Standing as spec;

use crate::facts::{Facts, Status};
use ci_graph::part::Part;
use ci_values::attempts::{AttemptState, Cause};
use ci_values::when::Retry;

fn is_live(last: Option<AttemptState>) -> bool
    ensures { result ≡ spec.is_live last }
{
    match last {
        Some(state) => state.is_live(),
        None => false,
    }
}

fn is_retried(retry: Retry, attempts: u64, cause: Cause) -> bool
    ensures { result ≡ spec.is_retried retry attempts cause }
{
    attempts <= u64::from(retry.max) && retry.causes.contains(cause)
}

fn after_last(part: &Part, attempts: u64, last: Option<AttemptState>) -> Option<Status>
    ensures { result ≡ spec.after_last part.now attempts last }
{
    match last {
        None => None,
        Some(AttemptState::Live) => Some(Status::Running),
        Some(AttemptState::Succeeded(_)) => Some(Status::Success),
        Some(AttemptState::Failed(cause, _)) => {
            if is_retried(part.retry, attempts, cause) {
                None
            } else {
                Some(Status::Failed)
            }
        }
        Some(AttemptState::Cancelled) => Some(Status::Failed),
    }
}

/// The status by the job's own facts; none where it is idle.
pub fn standing(part: &Part, facts: Facts) -> Option<Status>
    ensures { result ≡ spec.standing part.now facts }
{
    if is_live(facts.last) {
        Some(Status::Running)
    } else if facts.cancelled {
        Some(Status::Canceled)
    } else if facts.attempts == 0 {
        None
    } else {
        after_last(part, facts.attempts, facts.last)
    }
}
