//! The rows of the jobs of a new pipeline.

ghost use Rattle.std.specs.Prelude.{◌≡◌, ◌<◌, ℕ, List, map, length, replicate, IfOk};
ghost use Rattle.ci_machine_steps.specs.Prelude.{no_facts, BoardRow, State, put_rows, AreBoard, IsSound};
ghost use Rattle.ci_machine_statuses.specs.Changes.{IsMade};

use crate::fault::StatusFault;
use crate::load::graph_of;
use crate::places::numbers_of;
use ci_board::board::Board;
use ci_board::facts::Facts;
use ci_machine::records::{BoardRow, Job, Need};
use std::alloc::{AllocError, Global};
use std::marker::Brand;
use std::sync::ledger::{Blank, Ledger};

/// The rows of the jobs of a new pipeline, of which none was tried. Errors: memory was refused, or a job waits for one that is
/// none of them, or for itself by way of others.
pub fn rows_of_creation(
    alloc: Global,
    jobs: &[Job],
    needs: &[Need],
) -> Result<Vec<BoardRow>, StatusFault>
    ensures jobs { IfOk result (λ v. map (λ r. r.job) v.items ≡ map (λ j. j.id) jobs.now) }
    ensures board { IfOk result (λ v. (s t : State) (board : List BoardRow) (pipeline : ℕ) → IsSound s → AreBoard s board → IsMade s t pipeline jobs.now needs.now → AreBoard t (put_rows v.items board)) }
{
    rows_of_creation_on::<Brand>(alloc, Blank::new(1), jobs, needs)
}

/// The facts of so many jobs that weren't tried.
fn first_facts(alloc: Global, count: usize) -> Result<Vec<Facts>, AllocError>
    ensures { IfOk result (λ v. v.items ≡ replicate count no_facts) }
{
    let none = Facts {
        last: None,
        attempts: 0,
        cancelled: false,
        played: false,
    };
    vec![in alloc; none; count]
}

/// The row of each job of a board of these jobs.
fn all_rows<L: Ledger>(
    alloc: Global,
    board: &Board<L>,
    jobs: &[Job],
) -> Result<Vec<BoardRow>, AllocError>
    requires { length jobs.now ≡ length board.now.rows }
    ensures jobs { IfOk result (λ v. map (λ r. r.job) v.items ≡ map (λ j. j.id) jobs.now) }
    ensures rows { IfOk result (λ v. map (λ r. r.row) v.items ≡ board.now.rows) }
{
    let mut rows = Vec::with_capacity(alloc, jobs.len())?;
    for j in 0..jobs.len() {
        rows.push(BoardRow {
            job: jobs[j].id,
            row: board.row(j),
        })?;
    }
    Ok(rows)
}

fn rows_of_creation_on<L: Ledger>(
    alloc: Global,
    blank: Blank,
    jobs: &[Job],
    needs: &[Need],
) -> Result<Vec<BoardRow>, StatusFault>
    requires name { blank.name ≡ L.name }
    requires ledger { blank.parts ≡ L.parts }
    requires some { 0 < blank.parts }
    ensures jobs { IfOk result (λ v. map (λ r. r.job) v.items ≡ map (λ j. j.id) jobs.now) }
    ensures board { IfOk result (λ v. (s t : State) (board : List BoardRow) (pipeline : ℕ) → IsSound s → AreBoard s board → IsMade s t pipeline jobs.now needs.now → AreBoard t (put_rows v.items board)) }
{
    let numbers = numbers_of(alloc, jobs)?;
    let graph = graph_of::<L>(alloc, blank, jobs, numbers.as_slice(), needs)?;
    let facts = first_facts(alloc, jobs.len())?;
    let board = Board::build(alloc, graph, facts)?;
    let _size = board.size();
    Ok(all_rows(alloc, &board, jobs)?)
}
