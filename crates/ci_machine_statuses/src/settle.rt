//! Changes of the facts of one pipeline's jobs, and the rows that differ then.

ghost use Rattle.std.specs.Prelude.{◌≡◌, ◌<◌, ◌==◌, false, map, length, IfOk, IfSome, OnOk, All, Some, None};
ghost use Rattle.ci_machine.specs.Prelude.{number_at};
ghost use Rattle.ci_machine_steps.specs.Prelude.{AreRows, facts_at, replaced};
ghost use Rattle.ci_machine_statuses.specs.Boards.{board_row, changed_rows};

use ci_board::board::Board;
use ci_board::facts::{Facts, FactsChange};
use ci_machine::records::{AttemptState, BoardRow, Job};
use std::alloc::{AllocError, Global};
use std::sync::ledger::Ledger;

/// The rows at these positions of a board, with their jobs.
fn rows_at<L: Ledger>(
    alloc: Global,
    board: &Board<L>,
    jobs: &[Job],
    positions: &[usize],
) -> Result<Vec<BoardRow>, AllocError>
    requires jobs { All (λ i. i < length jobs.now) positions.now }
    requires rows { All (λ i. i < length board.now.rows) positions.now }
    ensures { IfOk result (λ v. v.items ≡ map (board_row (map (λ j. j.id) jobs.now) board.now.rows) positions.now) }
{
    let mut rows = Vec::with_capacity(alloc, positions.len())?;
    for position in positions {
        rows.push(BoardRow {
            job: jobs[*position].id,
            row: board.row(*position),
        })?;
    }
    Ok(rows)
}

/// Gives the named jobs of a pipeline their new facts, all at once, and answers the rows that differ then. It is for a board
/// of these jobs.
pub fn settle<L: Ledger>(
    alloc: Global,
    board: &mut Board<L>,
    jobs: &[Job],
    changes: &[FactsChange],
) -> Result<Vec<BoardRow>, AllocError>
    requires changes { All (λ c. c.position < length board.old.graph.parts) changes.now }
    requires long { length jobs.now ≡ length board.old.graph.parts }
    ensures graph { OnOk result (board.new.graph ≡ record board.old.graph { meter = board.new.graph.meter }) }
    ensures long { OnOk result (length board.new.rows ≡ length board.old.rows) }
    ensures long_facts { OnOk result (length board.new.facts ≡ length board.old.facts) }
    ensures facts { OnOk result (AreRows board.old.graph board.old.facts board.old.rows → board.new.facts ≡ replaced changes.now board.old.facts) }
    ensures right { OnOk result (AreRows board.old.graph board.old.facts board.old.rows → AreRows board.old.graph (replaced changes.now board.old.facts) board.new.rows) }
    ensures rows { IfOk result (λ v. v.items ≡ changed_rows (map (λ j. j.id) jobs.now) board.old.rows board.new.rows) }
{
    let _before = board.size();
    let positions = board.apply(alloc, changes)?;
    let _after = board.size();
    rows_at(alloc, board, jobs, positions.as_slice())
}

/// The facts of a job whose last attempt comes into a state.
fn ended(facts: Facts, state: AttemptState) -> Facts
    ensures { result ≡ record facts { last = Some state } }
{
    Facts {
        last: Some(state),
        attempts: facts.attempts,
        cancelled: facts.cancelled,
        played: facts.played,
    }
}

/// The change of a job's facts where its last attempt comes into a state. `None`: it is none of the board's jobs.
pub fn facts_change<L: Ledger>(
    board: &Board<L>,
    jobs: &[Job],
    job: u64,
    state: AttemptState,
) -> Option<FactsChange>
    requires { length jobs.now ≡ length board.now.graph.parts }
    ensures within { IfSome result (λ c. c.position < length jobs.now) }
    ensures job { IfSome result (λ c. number_at (map (λ j. j.id) jobs.now) c.position ≡ job) }
    ensures facts { IfSome result (λ c. c.facts ≡ record (facts_at board.now.facts c.position) { last = Some state }) }
    ensures none { result ≡ None → All (λ j. (j.id == job) ≡ false) jobs.now }
{
    let _size = board.size();
    let position = jobs.iter().position(|one| one.id == job)?;
    Some(FactsChange {
        position,
        facts: ended(board.facts(position), state),
    })
}
