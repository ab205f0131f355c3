//! What becomes of a pipeline's jobs where a user acts on some of them.

ghost use Rattle.std.specs.Prelude.{◌≡◌, ◌<◌, ℕ, List, filter, map, length, All, IfOk};
ghost use Rattle.std.specs.List.{range_with_len};
ghost use Rattle.ci_machine_steps.specs.Prelude.{BoardRow, State, AreBoard, IsSound};
ghost use Rattle.ci_machine_statuses.specs.Lookups.{AreRecords};
ghost use Rattle.ci_machine_statuses.specs.Acts.{is_asked, is_acted_at, facts_change, IsOutcome};

use crate::act::Act;
use crate::fault::StatusFault;
use crate::load::load_board;
use crate::settle::settle;
use ci_board::board::Board;
use ci_board::facts::{Facts, FactsChange, Row};
use ci_machine::records::{Attempt, BoardRow, Job, Need};
use std::alloc::{AllocError, Global};
use std::marker::Brand;
use std::sync::ledger::{Blank, Ledger};

/// What becomes of a pipeline's jobs.
#[derive(Drop)]
pub struct Outcome {
    /// The places, among the jobs of the pipeline, of those to which it is done, ascending.
    pub places: Vec<usize>,
    /// The facts of each job after it.
    pub facts: Vec<Facts>,
    /// The row of each job after it.
    pub rows: Vec<Row>,
    /// The rows to put.
    pub changed: Vec<BoardRow>,
}

fn is_asked(only: Option<u64>, job: u64) -> bool
    ensures { result ≡ is_asked only job }
{
    match only {
        None => true,
        Some(only) => job == only,
    }
}

/// Is it done to the job at a place, on a board of these jobs?
fn is_acted_at<L: Ledger>(
    board: &Board<L>,
    jobs: &[Job],
    act: Act,
    only: Option<u64>,
    place: usize,
) -> bool
    requires place { place < length jobs.now }
    requires long { length jobs.now ≡ length board.now.rows }
    ensures { result ≡ is_acted_at act only (map (λ j. j.id) jobs.now) board.now.rows place }
{
    is_asked(only, jobs[place].id) && act.permits(board.status(place))
}

/// The places of the jobs to which it is done, on a board of these jobs.
fn places_of<L: Ledger>(
    alloc: Global,
    board: &Board<L>,
    jobs: &[Job],
    act: Act,
    only: Option<u64>,
) -> Result<Vec<usize>, AllocError>
    requires { length jobs.now ≡ length board.now.rows }
    ensures { IfOk result (λ v. v.items ≡ filter (is_acted_at act only (map (λ j. j.id) jobs.now) board.now.rows) (range_with_len 0 (length jobs.now))) }
{
    let mut places = Vec::new(alloc);
    for place in 0..jobs.len() {
        if is_acted_at(board, jobs, act, only, place) {
            places.push(place)?;
        }
    }
    Ok(places)
}

/// The new facts of the jobs at these places of a board.
fn changes_at<L: Ledger>(
    alloc: Global,
    board: &Board<L>,
    act: Act,
    places: &[usize],
) -> Result<Vec<FactsChange>, AllocError>
    requires { All (λ i. i < length board.now.facts) places.now }
    ensures { IfOk result (λ v. v.items ≡ map (facts_change act board.now.facts) places.now) }
{
    let mut changes = Vec::with_capacity(alloc, places.len())?;
    for place in places {
        changes.push(FactsChange {
            position: *place,
            facts: act.facts(board.facts(*place)),
        })?;
    }
    Ok(changes)
}

/// The facts of all jobs of a board.
pub(crate) fn all_facts<L: Ledger>(
    alloc: Global,
    board: &Board<L>,
) -> Result<Vec<Facts>, AllocError>
    ensures { IfOk result (λ v. v.items ≡ board.now.facts) }
{
    let size = board.size();
    let mut facts = Vec::with_capacity(alloc, size)?;
    for j in 0..size {
        facts.push(board.facts(j))?;
    }
    Ok(facts)
}

/// The rows of all jobs of a board.
pub(crate) fn all_rows<L: Ledger>(alloc: Global, board: &Board<L>) -> Result<Vec<Row>, AllocError>
    ensures { IfOk result (λ v. v.items ≡ board.now.rows) }
{
    let size = board.size();
    let mut rows = Vec::with_capacity(alloc, size)?;
    for j in 0..size {
        rows.push(board.row(j))?;
    }
    Ok(rows)
}

/// What becomes of a pipeline's jobs where a user acts on the one with this number, or on all of them: it is done to those
/// whose statuses permit it, all at once. It is of the jobs of the pipeline, and of at least their needs, attempts and rows.
/// Errors: memory was refused, or these don't fit together.
pub fn outcome_of(
    alloc: Global,
    jobs: &[Job],
    needs: &[Need],
    attempts: &[Attempt],
    rows: &[BoardRow],
    act: Act,
    only: Option<u64>,
) -> Result<Outcome, StatusFault>
    ensures places { IfOk result (λ v. All (λ place. place < length jobs.now) v.places.items) }
    ensures long { IfOk result (λ v. (length v.facts.items ≡ length jobs.now) × (length v.rows.items ≡ length jobs.now)) }
    ensures outcome { IfOk result (λ v. (s : State) (board : List BoardRow) (pipeline : ℕ) → IsSound s → AreBoard s board → AreRecords s board pipeline jobs.now needs.now attempts.now rows.now → IsOutcome act only s board pipeline v) }
{
    outcome_on::<Brand>(alloc, Blank::new(1), jobs, needs, attempts, rows, act, only)
}

fn outcome_on<L: Ledger>(
    alloc: Global,
    blank: Blank,
    jobs: &[Job],
    needs: &[Need],
    attempts: &[Attempt],
    rows: &[BoardRow],
    act: Act,
    only: Option<u64>,
) -> Result<Outcome, StatusFault>
    requires name { blank.name ≡ L.name }
    requires ledger { blank.parts ≡ L.parts }
    requires some { 0 < blank.parts }
    ensures places { IfOk result (λ v. All (λ place. place < length jobs.now) v.places.items) }
    ensures long { IfOk result (λ v. (length v.facts.items ≡ length jobs.now) × (length v.rows.items ≡ length jobs.now)) }
    ensures outcome { IfOk result (λ v. (s : State) (board : List BoardRow) (pipeline : ℕ) → IsSound s → AreBoard s board → AreRecords s board pipeline jobs.now needs.now attempts.now rows.now → IsOutcome act only s board pipeline v) }
{
    let mut board = load_board::<L>(alloc, blank, jobs, needs, attempts, rows)?;
    let _size = board.size();
    let places = places_of(alloc, &board, jobs, act, only)?;
    let changes = changes_at(alloc, &board, act, places.as_slice())?;
    let changed = settle(alloc, &mut board, jobs, changes.as_slice())?;
    let facts = all_facts(alloc, &board)?;
    let rows = all_rows(alloc, &board)?;
    Ok(Outcome {
        places,
        facts,
        rows,
        changed,
    })
}
