//! What a job's status means to the jobs behind it.

ghost use Rattle.std.specs.Prelude.{◌≡◌, ◌==◌};
ghost use Rattle.std.specs.List.{list_any};
ghost use Rattle.ci_board.specs.Effects as spec;

use crate::facts::{Effect, Facts, Status};
use ci_graph::part::Part;
use ci_values::attempts::AttemptState;
use ci_values::when::AllowFailure;

/// Are both the same?
pub fn is_status(a: Status, b: Status) -> bool
    ensures { result ≡ spec.is_status a b }
{
    a.as_number() == b.as_number()
}

fn contains(codes: &[u32], code: u32) -> bool
    ensures { result ≡ list_any (λ c. c == code) codes.now }
{
    codes.iter().any(|c| *c == code)
}

/// Did the last attempt fail with one of these exit codes?
fn is_listed(codes: &[u32], last: Option<AttemptState>) -> bool
    ensures { result ≡ spec.is_listed codes.now last }
{
    match last {
        Some(AttemptState::Failed(_, Some(exit))) => contains(codes, exit),
        _ => false,
    }
}

/// Does the pipeline go on though the job has this status?
pub fn is_allowed(part: &Part, facts: Facts, status: Status) -> bool
    ensures { result ≡ spec.is_allowed part.now facts status }
{
    match &part.allow_failure {
        AllowFailure::No => false,
        AllowFailure::Yes => true,
        AllowFailure::ExitCodes(codes) => {
            is_status(Status::Failed, status) && is_listed(codes.as_slice(), facts.last)
        }
    }
}

/// What the job means to one behind it, which gives `needs` or not.
pub fn effect(part: &Part, facts: Facts, needs: bool, status: Status) -> Effect
    ensures { result ≡ spec.effect part.now facts needs status }
{
    match status {
        Status::Success => Effect::Good,
        Status::Failed => {
            if is_allowed(part, facts, status) {
                Effect::Good
            } else {
                Effect::Fails
            }
        }
        Status::Canceled => {
            if is_allowed(part, facts, status) {
                Effect::Good
            } else {
                Effect::Bars
            }
        }
        Status::Skipped => { if needs { Effect::Bars } else { Effect::Good } }
        Status::Manual => {
            if is_allowed(part, facts, status) {
                Effect::Good
            } else {
                Effect::Open
            }
        }
        Status::Created | Status::Pending | Status::Running => Effect::Open,
    }
}

pub fn is_open(effect: Effect) -> bool
    ensures { result ≡ spec.is_open effect }
{
    matches!(effect, Effect::Open)
}

pub fn is_fail(effect: Effect) -> bool
    ensures { result ≡ spec.is_fail effect }
{
    matches!(effect, Effect::Fails)
}

pub fn is_bar(effect: Effect) -> bool
    ensures { result ≡ spec.is_bar effect }
{
    matches!(effect, Effect::Bars)
}
