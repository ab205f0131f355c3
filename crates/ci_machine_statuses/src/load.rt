//! The board of a pipeline, made of what was looked up.

ghost use Rattle.std.specs.Prelude.{◌≡◌, ◌<◌, ◌≤◌, ℕ, true, List, [], map, length, All, IfOk, IfErr, IfSome, OnOk, None};
ghost use Rattle.std.specs.Ordering.{nat_cmp};
ghost use Rattle.std.specs.List.Sorted.{IsStrictlySortedBy};
ghost use Rattle.ci_machine_steps.specs.Prelude.{BoardRow, State, Need, jobs_of, numbers_of, row_for, AreBoard, IsSound, is_within, pairs_among, predecessors_by};
ghost use Rattle.ci_machine.specs.Statuses as statuses;
ghost use Rattle.ci_machine.specs.Prelude.{is_among};
ghost use Rattle.ci_machine_statuses.specs.Lookups.{tally_of, facts_by, AreRecords, AreJobsWithNeeds};
ghost use Rattle.ci_machine_statuses.specs.Boards.{IsBoardOf, IsGraphOf, IsItsGraph, FitTogether};
ghost use Rattle.ci_machine_statuses.specs.declared.fault.StatusFault.TheVariants.{Broken, Memory};

use crate::fault::StatusFault;
use crate::places::{jobs_of_rows, numbers_of, pairs_among, place_of};
use crate::tally::{facts, tallies};
use ci_board::board::Board;
use ci_board::facts::{Facts, Row};
use ci_graph::graph::{Graph, Net};
use ci_graph::part::Part;
use ci_machine::records::{Attempt, BoardRow, Job, Need};
use std::alloc::{AllocError, Global};
use std::marker::Brand;
use std::sync::ledger::{Blank, Ledger};

/// The numbers of the first job and of the last one, between which a pipeline's records are looked up; none where there are
/// no jobs.
pub fn range_of(jobs: &[Job]) -> Option<(u64, u64)>
    ensures within { IfSome result (λ r. (s : State) (pipeline : ℕ) → IsSound s → jobs.now ≡ jobs_of s pipeline → All (λ j. is_within r.0 r.1 j.id ≡ true) jobs.now) }
    ensures none { result ≡ None → jobs.now ≡ [] }
{
    if jobs.is_empty() {
        return None;
    }
    Some((jobs[0].id, jobs[jobs.len() - 1].id))
}

/// The parts of jobs.
fn parts_of(alloc: Global, jobs: &[Job]) -> Result<Vec<Part>, AllocError>
    ensures { IfOk result (λ v. v.items ≡ map (λ j. j.options.part) jobs.now) }
{
    let mut parts = Vec::with_capacity(alloc, jobs.len())?;
    for job in jobs {
        parts.push(job.options.part.clone()?)?;
    }
    Ok(parts)
}

/// The graph of jobs with these numbers. Errors: memory was refused, a job waits for one that is none of them, or for itself
/// by way of others.
pub fn graph_of<L: Ledger>(
    alloc: Global,
    blank: Blank,
    jobs: &[Job],
    numbers: &[u64],
    needs: &[Need],
) -> Result<Graph<L>, StatusFault>
    requires name { blank.name ≡ L.name }
    requires ledger { blank.parts ≡ L.parts }
    requires some { 0 < blank.parts }
    requires numbers { numbers.now ≡ map (λ j. j.id) jobs.now }
    ensures parts { IfOk result (λ g. g.parts ≡ map (λ j. j.options.part) jobs.now) }
    ensures predecessors { IfOk result (λ g. IsStrictlySortedBy nat_cmp numbers.now → g.predecessors ≡ predecessors_by (pairs_among numbers.now needs.now) (length jobs.now)) }
    ensures fits { OnOk result (IsStrictlySortedBy nat_cmp numbers.now → FitTogether numbers.now needs.now) }
    ensures fault { IfErr result (λ f. f ≡ Broken → IsStrictlySortedBy nat_cmp numbers.now → FitTogether numbers.now needs.now → ⊥) }
{
    let pairs = pairs_among(alloc, numbers, needs)?;
    let parts = parts_of(alloc, jobs)?;
    let graph = Graph::new(alloc, blank, parts, pairs.as_slice())?;
    let _size = graph.size();
    Ok(graph)
}

/// The graph of a pipeline, of its jobs and at least their needs. Errors: memory was refused, a job waits for one that is none of them, or
/// for itself by way of others; and `Broken` in no other case.
pub fn load_graph<L: Ledger>(
    alloc: Global,
    blank: Blank,
    jobs: &[Job],
    needs: &[Need],
) -> Result<Graph<L>, StatusFault>
    requires name { blank.name ≡ L.name }
    requires ledger { blank.parts ≡ L.parts }
    requires some { 0 < blank.parts }
    ensures graph { IfOk result (λ g. (s : State) (pipeline : ℕ) → IsSound s → AreJobsWithNeeds s pipeline jobs.now needs.now → IsItsGraph s pipeline g) }
    ensures fault { IfErr result (λ f. f ≡ Broken → (s : State) (pipeline : ℕ) → IsSound s → AreJobsWithNeeds s pipeline jobs.now needs.now → FitTogether (numbers_of s pipeline) s.needs → ⊥) }
{
    let numbers = numbers_of(alloc, jobs)?;
    graph_of(alloc, blank, jobs, numbers.as_slice(), needs)
}

/// The graph of jobs with at least their needs. Errors: memory was refused, a job waits for one that is none of them, or for itself by way
/// of others.
pub fn graph_for(alloc: Global, jobs: &[Job], needs: &[Need]) -> Result<Net, StatusFault>
    ensures { IfOk result (λ g. IsGraphOf g jobs.now needs.now) }
{
    graph_by::<Brand>(alloc, Blank::new(1), jobs, needs)
}

fn graph_by<L: Ledger>(
    alloc: Global,
    blank: Blank,
    jobs: &[Job],
    needs: &[Need],
) -> Result<Net, StatusFault>
    requires name { blank.name ≡ L.name }
    requires ledger { blank.parts ≡ L.parts }
    requires some { 0 < blank.parts }
    ensures { IfOk result (λ g. IsGraphOf g jobs.now needs.now) }
{
    let numbers = numbers_of(alloc, jobs)?;
    let graph = graph_of::<L>(alloc, blank, jobs, numbers.as_slice(), needs)?;
    Ok(graph.into_net())
}

/// The facts of jobs with these numbers. Errors: memory was refused, or more attempts of a job are set aside than it has.
fn facts_of(
    alloc: Global,
    jobs: &[Job],
    numbers: &[u64],
    attempts: &[Attempt],
) -> Result<Vec<Facts>, StatusFault>
    requires { numbers.now ≡ map (λ j. j.id) jobs.now }
    ensures long { IfOk result (λ v. length v.items ≡ length jobs.now) }
    ensures facts { IfOk result (λ v. IsStrictlySortedBy nat_cmp numbers.now → v.items ≡ map (λ j. facts_by (tally_of attempts.now j.id) j) jobs.now) }
    ensures fault { IfErr result (λ fault. IsStrictlySortedBy nat_cmp numbers.now → All (λ j. j.set_aside ≤ (tally_of attempts.now j.id).count) jobs.now → fault ≡ Memory) }
{
    let tallies = tallies(alloc, numbers, attempts)?;
    facts(alloc, jobs, tallies.as_slice())
}

/// The rows of jobs with these numbers. Errors: memory was refused, or a job has no row.
fn rows_of(alloc: Global, numbers: &[u64], rows: &[BoardRow]) -> Result<Vec<Row>, StatusFault>
    ensures long { IfOk result (λ v. length v.items ≡ length numbers.now) }
    ensures rows { IfOk result (λ v. IsStrictlySortedBy nat_cmp (map (λ r. r.job) rows.now) → v.items ≡ map (row_for rows.now) numbers.now) }
    ensures fault { IfErr result (λ fault. IsStrictlySortedBy nat_cmp (map (λ r. r.job) rows.now) → All (λ n. is_among (map (λ r. r.job) rows.now) n ≡ true) numbers.now → fault ≡ Memory) }
{
    let jobs = jobs_of_rows(alloc, rows)?;
    let mut found = Vec::with_capacity(alloc, numbers.len())?;
    for n in numbers {
        let Some(place) = place_of(jobs.as_slice(), *n) else {
            return Err(StatusFault::Broken);
        };
        found.push(rows[place].row)?;
    }
    Ok(found)
}

/// The board of a pipeline: of its jobs, and of at least their needs, attempts and rows. Errors: memory was refused, or
/// these don't fit together.
pub fn load_board<L: Ledger>(
    alloc: Global,
    blank: Blank,
    jobs: &[Job],
    needs: &[Need],
    attempts: &[Attempt],
    rows: &[BoardRow],
) -> Result<Board<L>, StatusFault>
    requires name { blank.name ≡ L.name }
    requires ledger { blank.parts ≡ L.parts }
    requires some { 0 < blank.parts }
    ensures long { IfOk result (λ b. length b.graph.parts ≡ length jobs.now) }
    ensures board { IfOk result (λ b. (s : State) (kept : List BoardRow) (pipeline : ℕ) → IsSound s → AreBoard s kept → AreRecords s kept pipeline jobs.now needs.now attempts.now rows.now → IsBoardOf s kept pipeline b) }
{
    let numbers = numbers_of(alloc, jobs)?;
    let graph = graph_of(alloc, blank, jobs, numbers.as_slice(), needs)?;
    let facts = facts_of(alloc, jobs, numbers.as_slice(), attempts)?;
    let rows = rows_of(alloc, numbers.as_slice(), rows)?;
    Ok(Board::load(graph, facts, rows))
}

/// The facts and the rows of a pipeline's jobs, of its jobs and at least their attempts and rows. Errors: memory was refused, or
/// these don't fit together: they are no records of a pipeline in a state that the machine may come to.
pub fn facts_and_rows(
    alloc: Global,
    jobs: &[Job],
    attempts: &[Attempt],
    rows: &[BoardRow],
) -> Result<(Vec<Facts>, Vec<Row>), StatusFault>
    ensures long { IfOk result (λ r. (length r.0.items ≡ length jobs.now) × (length r.1.items ≡ length jobs.now)) }
    ensures facts { IfOk result (λ r. (s : State) (kept : List BoardRow) (pipeline : ℕ) (needs : List Need) → IsSound s → AreBoard s kept → AreRecords s kept pipeline jobs.now needs attempts.now rows.now → r.0.items ≡ statuses.facts_of s pipeline) }
    ensures rows { IfOk result (λ r. (s : State) (kept : List BoardRow) (pipeline : ℕ) (needs : List Need) → IsSound s → AreBoard s kept → AreRecords s kept pipeline jobs.now needs attempts.now rows.now → r.1.items ≡ statuses.rows_of s kept pipeline) }
    ensures fault { IfErr result (λ fault. (s : State) (kept : List BoardRow) (pipeline : ℕ) (needs : List Need) → IsSound s → AreBoard s kept → AreRecords s kept pipeline jobs.now needs attempts.now rows.now → fault ≡ Memory) }
{
    let numbers = numbers_of(alloc, jobs)?;
    let facts = facts_of(alloc, jobs, numbers.as_slice(), attempts)?;
    let rows = rows_of(alloc, numbers.as_slice(), rows)?;
    Ok((facts, rows))
}
