//! What becomes of a pipeline's jobs where an attempt ends.

ghost use Rattle.std.specs.Prelude.{◌≡◌, ◌<◌, ℕ, List, length, IfOk};
ghost use Rattle.ci_machine_steps.specs.Prelude.{BoardRow, Need, status_of_jobs, State, AreBoard, facts_of, rows_of, IsSound};
ghost use Rattle.ci_machine_statuses.specs.Boards.{IsGraphOf};
ghost use Rattle.ci_machine_statuses.specs.Lookups.{AreRecords};
ghost use Rattle.ci_machine_statuses.specs.Changes.{HasLive};
ghost use Rattle.ci_machine_statuses.specs.Ends.{ended_state, IsSettled};

use crate::fault::StatusFault;
use crate::load::facts_and_rows;
use crate::settle::{facts_change, settle};
use ci_board::board::Board;
use ci_board::facts::{Facts, Row, Status};
use ci_graph::graph::{Graph, Net};
use ci_machine::records::{Attempt, BoardRow, Job};
use std::alloc::Global;
use std::marker::Brand;
use std::sync::ledger::{Blank, Ledger};

/// How a pipeline's jobs stand after an end.
#[derive(Drop)]
pub struct Settled {
    /// The facts of each job after it.
    pub facts: Vec<Facts>,
    /// The row of each job after it.
    pub rows: Vec<Row>,
    /// The rows to put.
    pub changed: Vec<BoardRow>,
}

/// What becomes of a pipeline where an attempt of one of its jobs ends.
#[derive(Drop)]
pub struct Ended {
    pub settled: Settled,
    /// The pipeline's status before it.
    pub before: Status,
    /// The pipeline's status after it.
    pub then: Status,
    /// The graph of the pipeline's jobs, which is that of before.
    pub graph: Net,
}

/// What becomes of a pipeline's jobs where a live attempt of one of them comes to stand as `after` says: of the graph of these jobs, of the
/// jobs of the pipeline, and of at least their attempts and rows. Errors: memory was refused, or these don't fit together.
pub fn end_of(
    alloc: Global,
    graph: Net,
    jobs: &[Job],
    attempts: &[Attempt],
    rows: &[BoardRow],
    after: &Attempt,
) -> Result<Ended, StatusFault>
    ensures long { IfOk result (λ e. (length e.settled.facts.items ≡ length jobs.now) × (length e.settled.rows.items ≡ length jobs.now)) }
    ensures graph { IfOk result (λ e. e.graph ≡ record graph { meter = 0 }) }
    ensures settled { IfOk result (λ e. (s : State) (board : List BoardRow) (pipeline : ℕ) (needs : List Need) → IsSound s → AreBoard s board → AreRecords s board pipeline jobs.now needs attempts.now rows.now → IsGraphOf graph jobs.now needs → HasLive s after.now → IsSettled s (ended_state s after.now) board pipeline e.settled) }
    ensures before { IfOk result (λ e. (s : State) (board : List BoardRow) (pipeline : ℕ) (needs : List Need) → IsSound s → AreBoard s board → AreRecords s board pipeline jobs.now needs attempts.now rows.now → IsGraphOf graph jobs.now needs → e.before ≡ status_of_jobs jobs.now (facts_of s pipeline) (rows_of s board pipeline)) }
    ensures then { IfOk result (λ e. (needs : List Need) → IsGraphOf graph jobs.now needs → e.then ≡ status_of_jobs jobs.now e.settled.facts.items e.settled.rows.items) }
{
    end_on::<Brand>(alloc, Blank::new(1), graph, jobs, attempts, rows, after)
}

fn end_on<L: Ledger>(
    alloc: Global,
    blank: Blank,
    graph: Net,
    jobs: &[Job],
    attempts: &[Attempt],
    rows: &[BoardRow],
    after: &Attempt,
) -> Result<Ended, StatusFault>
    requires name { blank.name ≡ L.name }
    requires ledger { blank.parts ≡ L.parts }
    requires some { 0 < blank.parts }
    ensures long { IfOk result (λ e. (length e.settled.facts.items ≡ length jobs.now) × (length e.settled.rows.items ≡ length jobs.now)) }
    ensures graph { IfOk result (λ e. e.graph ≡ record graph { meter = 0 }) }
    ensures settled { IfOk result (λ e. (s : State) (board : List BoardRow) (pipeline : ℕ) (needs : List Need) → IsSound s → AreBoard s board → AreRecords s board pipeline jobs.now needs attempts.now rows.now → IsGraphOf graph jobs.now needs → HasLive s after.now → IsSettled s (ended_state s after.now) board pipeline e.settled) }
    ensures before { IfOk result (λ e. (s : State) (board : List BoardRow) (pipeline : ℕ) (needs : List Need) → IsSound s → AreBoard s board → AreRecords s board pipeline jobs.now needs attempts.now rows.now → IsGraphOf graph jobs.now needs → e.before ≡ status_of_jobs jobs.now (facts_of s pipeline) (rows_of s board pipeline)) }
    ensures then { IfOk result (λ e. (needs : List Need) → IsGraphOf graph jobs.now needs → e.then ≡ status_of_jobs jobs.now e.settled.facts.items e.settled.rows.items) }
{
    if graph.size() != jobs.len() {
        return Err(StatusFault::Broken);
    }
    let (facts, kept) = facts_and_rows(alloc, jobs, attempts, rows)?;
    let mut board = Board::load(Graph::<L>::of_net(blank, graph), facts, kept);
    let before = board.pipeline_status();
    let Some(change) = facts_change(&board, jobs, after.job, after.state) else {
        return Err(StatusFault::Broken);
    };
    let changed = settle(alloc, &mut board, jobs, &[change])?;
    let then = board.pipeline_status();
    let (graph, facts, rows) = board.into_parts();
    let settled = Settled {
        facts,
        rows,
        changed,
    };
    Ok(Ended {
        settled,
        before,
        then,
        graph: graph.into_net(),
    })
}
