//! One pass over the order that corrects rows.

ghost use Rattle.std.specs.Prelude.{◌≡◌, true, false, ◌+◌, ◌<◌, ◌≤◌, ℕ, Bool, length};
ghost use Rattle.ci_board.specs.Effects as spec;
ghost use Rattle.ci_graph.specs.JobGraph.{IsJobGraph, successors_of};
ghost use Rattle.ci_board.specs.Rows.{row_at, facts_at, AreNumbered, AreRows, degrees};
ghost use Rattle.ci_board.specs.Pass as pass;

use crate::effect::{effect, is_bar, is_fail, is_open};
use crate::facts::{Effect, Facts, Row, Status};
use crate::rule::status_of;
use ci_graph::graph::Graph;
use ci_graph::part::Part;
use std::sync::ledger::Ledger;

/// What a job means to one behind it that gives `needs`, and to one that doesn't.
#[derive(Clone, Copy, Drop)]
pub struct Effects {
    pub with_needs: Effect,
    pub without: Effect,
}

/// One less where the test was met, one more where it is met now.
fn moved(n: usize, was: bool, is: bool) -> usize
    ensures { result ≡ pass.moved n was is }
{
    match (was, is) {
        (true, true) => n,
        (false, false) => n,
        (true, false) => n.saturating_sub(1),
        (false, true) => { if n < usize::MAX { n + 1 } else { n } }
    }
}

/// The row of a job of which one predecessor means something else now.
fn moved_row(was: Effect, is: Effect, row: Row) -> Row
    ensures { result ≡ pass.moved_row was is row }
{
    Row {
        status: row.status,
        opens: moved(row.opens, is_open(was), is_open(is)),
        failed: moved(row.failed, is_fail(was), is_fail(is)),
        barred: moved(row.barred, is_bar(was), is_bar(is)),
    }
}

/// What the job means to others in this status.
fn meaning(part: &Part, facts: Facts, status: Status) -> Effects
    ensures { result ≡ record { with_needs = spec.effect part.now facts true status; without = spec.effect part.now facts false status } }
{
    Effects {
        with_needs: effect(part, facts, true, status),
        without: effect(part, facts, false, status),
    }
}

fn side(both: Effects, needs: bool) -> Effect
    ensures { result ≡ pass.side both needs }
{
    if needs { both.with_needs } else { both.without }
}

fn same_effect(a: Effect, b: Effect) -> bool
    ensures { result ≡ pass.same_effect a b }
{
    same_test(is_open(a), is_open(b))
        && same_test(is_fail(a), is_fail(b))
        && same_test(is_bar(a), is_bar(b))
}

fn same_test(a: bool, b: bool) -> bool
    ensures { result ≡ pass.same_test a b }
{
    match (a, b) {
        (true, true) | (false, false) => true,
        _ => false,
    }
}

/// Does the change show to others?
fn differs(a: Effects, b: Effects) -> bool
    ensures { result ≡ pass.differs a b }
{
    !(same_effect(a.with_needs, b.with_needs) && same_effect(a.without, b.without))
}

/// Corrects the numbers of the successors of j.
fn correct<L: Ledger>(graph: &mut Graph<L>, rows: &mut [Row], j: usize, was: Effects, is: Effects)
    requires job { j < length graph.old.parts }
    requires long { length rows.old ≡ length graph.old.parts }
    ensures rows { rows.new ≡ pass.corrected graph.old.parts was is (successors_of graph.old j) rows.old }
    ensures graph { graph.new ≡ record graph.old { meter = graph.old.meter + length (successors_of graph.old j) } }
{
    let _size = graph.size();
    let count = graph.out_count(j);
    for k in 0..count {
        let s = graph.succ(j, k);
        let needs = graph.part(s).gives_needs;
        rows[s] = moved_row(side(was, needs), side(is, needs), rows[s]);
    }
}

/// Gives j its new facts and the status of its numbers.
fn step<L: Ledger>(
    graph: &mut Graph<L>,
    facts: &mut [Facts],
    rows: &mut [Row],
    fresh: &[Facts],
    j: usize,
)
    requires job { j < length graph.old.parts }
    requires long { length rows.old ≡ length graph.old.parts }
    requires facts { length facts.old ≡ length graph.old.parts }
    requires fresh { length fresh.now ≡ length graph.old.parts }
    ensures step { record { facts = facts.new; rows = rows.new; meter = graph.new.meter } ≡ pass.stepped graph.old fresh.now j (record { facts = facts.old; rows = rows.old; meter = graph.old.meter }) }
    ensures graph { graph.new ≡ record graph.old { meter = graph.new.meter } }
{
    let part = graph.part(j);
    let was = meaning(part, facts[j], rows[j].status);
    let status = status_of(part, fresh[j], rows[j]);
    let is = meaning(part, fresh[j], status);
    facts[j] = fresh[j];
    rows[j].status = status;
    if differs(was, is) {
        correct(graph, rows, j, was, is);
    }
}

/// Goes through the order.
fn pass<L: Ledger>(graph: &mut Graph<L>, facts: &mut [Facts], rows: &mut [Row], fresh: &[Facts])
    requires long { length rows.old ≡ length graph.old.parts }
    requires facts { length facts.old ≡ length graph.old.parts }
    requires fresh { length fresh.now ≡ length graph.old.parts }
    ensures pass { record { facts = facts.new; rows = rows.new; meter = graph.new.meter } ≡ pass.passed graph.old fresh.now graph.old.order (record { facts = facts.old; rows = rows.old; meter = graph.old.meter }) }
    ensures graph { graph.new ≡ record graph.old { meter = graph.new.meter } }
    ensures ordered { IsJobGraph graph.old }
{
    let count = graph.order().len();
    for i in 0..count {
        let j = graph.order()[i];
        step(graph, facts, rows, fresh, j);
    }
}

/// Goes through the order, from rows whose numbers are right.
pub fn settle<L: Ledger>(
    graph: &mut Graph<L>,
    facts: &mut [Facts],
    rows: &mut [Row],
    fresh: &[Facts],
)
    requires long { length rows.old ≡ length graph.old.parts }
    requires facts { length facts.old ≡ length graph.old.parts }
    requires fresh { length fresh.now ≡ length graph.old.parts }
    ensures facts { AreNumbered graph.old facts.old rows.old → facts.new ≡ fresh.now }
    ensures rows { AreNumbered graph.old facts.old rows.old → AreRows graph.old facts.new rows.new }
    ensures meter { (t : ℕ → Bool) → ((i : ℕ) → t i ≡ false → facts_at fresh.now i ≡ facts_at facts.old i) → ((i : ℕ) → t i ≡ false → (row_at rows.new i).status ≡ (row_at rows.old i).status) → graph.new.meter ≤ graph.old.meter + degrees graph.old t graph.old.order }
    ensures graph { graph.new ≡ record graph.old { meter = graph.new.meter } }
{
    pass(graph, facts, rows, fresh);
}
