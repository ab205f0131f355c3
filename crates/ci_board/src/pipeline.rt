//! The status of a pipeline.

ghost use Rattle.std.specs.Prelude.{◌≡◌, length};
ghost use Rattle.ci_graph.specs.JobGraph.{part_of};
ghost use Rattle.ci_board.specs.Rows.{facts_at, row_at, statuses};
ghost use Rattle.ci_board.specs.PipelineStatus as spec;
ghost use Rattle.ci_board.specs.PipelineStatus.{some_job, pipeline_status, answers_yes};

use crate::effect::{is_allowed, is_status};
use crate::facts::{Facts, Row, Status};
use ci_graph::part::Part;
use ci_values::attempts::AttemptState;

/// What is asked of a job.
#[derive(Clone, Copy, Drop)]
pub enum Question {
    Has(Status),
    /// Has it the status, and isn't allowed to?
    HasStrictly(Status),
    HasAttempt,
    /// Is it neither skipped nor manual?
    IsDone,
}

fn has_attempt(last: Option<AttemptState>) -> bool
    ensures { result ≡ spec.has_attempt last }
{
    last.is_some()
}

fn passes(ask: Question, part: &Part, facts: Facts, status: Status) -> bool
    ensures { result ≡ answers_yes ask part.now facts status }
{
    match ask {
        Question::Has(s) => is_status(s, status),
        Question::HasStrictly(s) => is_status(s, status) && !is_allowed(part, facts, status),
        Question::HasAttempt => has_attempt(facts.last),
        Question::IsDone => !(is_status(Status::Skipped, status)
            || is_status(Status::Manual, status)),
    }
}

/// Whether some job passes.
fn some_job(parts: &[Part], facts: &[Facts], rows: &[Row], ask: Question) -> bool
    requires facts { length facts.now ≡ length parts.now }
    requires rows { length rows.now ≡ length parts.now }
    ensures { result ≡ some_job (length parts.now) (λ j. answers_yes ask (part_of parts.now j) (facts_at facts.now j) (row_at rows.now j).status) }
{
    let mut found = false;
    for j in 0..parts.len() {
        found = passes(ask, &parts[j], facts[j], rows[j].status) || found;
    }
    found
}

/// The status of the pipeline whose jobs have these parts, facts and rows.
pub fn pipeline_status(parts: &[Part], facts: &[Facts], rows: &[Row]) -> Status
    requires facts { length facts.now ≡ length parts.now }
    requires rows { length rows.now ≡ length parts.now }
    ensures { result ≡ pipeline_status parts.now facts.now (statuses rows.now) }
{
    if some_job(parts, facts, rows, Question::Has(Status::Running)) {
        Status::Running
    } else if some_job(parts, facts, rows, Question::Has(Status::Pending)) {
        if some_job(parts, facts, rows, Question::HasAttempt) {
            Status::Running
        } else {
            Status::Pending
        }
    } else if some_job(parts, facts, rows, Question::HasStrictly(Status::Manual)) {
        Status::Manual
    } else if some_job(parts, facts, rows, Question::HasStrictly(Status::Failed)) {
        Status::Failed
    } else if some_job(parts, facts, rows, Question::HasStrictly(Status::Canceled)) {
        Status::Canceled
    } else if some_job(parts, facts, rows, Question::IsDone) {
        Status::Success
    } else {
        Status::Skipped
    }
}
