//! The status of a job by its row's numbers.

ghost use Rattle.std.specs.Prelude.{◌≡◌};
ghost use Rattle.ci_board.specs.Effects as spec;
ghost use Rattle.ci_board.specs.Pass as pass;

use crate::facts::{Facts, Row, Status};
use crate::standing::standing;
use ci_graph::part::Part;
use ci_values::when::When;

fn is_met(when: When, failed: usize, barred: usize) -> bool
    ensures { result ≡ pass.is_met_by_counts when failed barred }
{
    match when {
        When::OnSuccess | When::Manual => failed == 0 && barred == 0,
        When::OnFailure => failed != 0,
        When::Always => true,
    }
}

fn waits_for_play(when: When, facts: Facts) -> bool
    ensures { result ≡ spec.waits_for_play when facts }
{
    match when {
        When::Manual => !facts.played,
        _ => false,
    }
}

fn idle_status(part: &Part, facts: Facts, row: Row) -> Status
    ensures { result ≡ pass.idle_by_counts part.now facts row.opens row.failed row.barred }
{
    if row.opens != 0 {
        Status::Created
    } else if is_met(part.when, row.failed, row.barred) {
        if waits_for_play(part.when, facts) {
            Status::Manual
        } else {
            Status::Pending
        }
    } else {
        Status::Skipped
    }
}

/// The status that the job's facts and its row's numbers give it.
pub fn status_of(part: &Part, facts: Facts, row: Row) -> Status
    ensures { result ≡ pass.status_of_row part.now facts row }
{
    match standing(part, facts) {
        Some(status) => status,
        None => idle_status(part, facts, row),
    }
}
