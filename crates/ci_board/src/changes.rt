//! Changes of facts, and the positions whose rows they change.

ghost use Rattle.std.specs.Prelude.{◌≡◌, ◌+◌, ◌<◌, ◌≤◌, [], ◌∷◌, ◌++◌, length, All, vec_len, vec_capacity};
ghost use Rattle.ci_board.specs.Rows.{AreRows, IsAnswer, degrees, replaced, is_touched, differing, same_row};

use crate::effect::is_status;
use crate::facts::{Facts, FactsChange, Row};
use crate::pass::settle;
use ci_graph::graph::Graph;
use std::sync::ledger::Ledger;

/// Replaces the facts of each job that a change names.
fn replace(fresh: &mut [Facts], changes: &[FactsChange])
    requires { All (λ c. c.position < length fresh.old) changes.now }
    ensures { fresh.new ≡ replaced changes.now fresh.old }
{
    for i in 0..changes.len() {
        let change = changes[i];
        fresh[change.position] = change.facts;
    }
}

/// Are both the same?
fn same_row(a: Row, b: Row) -> bool
    ensures { result ≡ same_row a b }
{
    is_status(a.status, b.status)
        && a.opens == b.opens
        && a.failed == b.failed
        && a.barred == b.barred
}

/// Puts a position where room was made for it.
fn push_within(into: &mut Vec<usize>, j: usize)
    requires { vec_len into.old < vec_capacity into.old }
    ensures items { into.new.items ≡ into.old.items ++ j ∷ [] }
    ensures len { vec_len into.new ≡ vec_len into.old + 1 }
    ensures room { vec_capacity into.old ≤ vec_capacity into.new }
{
    match into.push(j) {
        Ok(()) => {}
        Err(_) => unreachable!(),
    }
}

/// Puts the positions at which the rows differ.
fn fill(into: &mut Vec<usize>, before: &[Row], after: &[Row])
    requires long { length before.now ≡ length after.now }
    requires empty { into.old.items ≡ [] }
    requires none { vec_len into.old ≡ 0 }
    requires room { length after.now ≤ vec_capacity into.old }
    ensures answer { into.new.items ≡ differing 0 before.now after.now }
    ensures exact { IsAnswer into.new.items before.now after.now }
{
    for j in 0..after.len() {
        if !same_row(before[j], after[j]) {
            push_within(into, j);
        }
    }
}

/// Makes the changes over the parts of a board.
pub fn change<L: Ledger>(
    graph: &mut Graph<L>,
    facts: &mut [Facts],
    rows: &mut [Row],
    fresh: &mut [Facts],
    before: &[Row],
    changes: &[FactsChange],
    answer: &mut Vec<usize>,
)
    requires long { length rows.old ≡ length graph.old.parts }
    requires facts { length facts.old ≡ length graph.old.parts }
    requires fresh { fresh.old ≡ facts.old }
    requires before { before.now ≡ rows.old }
    requires changes { All (λ c. c.position < length graph.old.parts) changes.now }
    requires empty { answer.old.items ≡ [] }
    requires none { vec_len answer.old ≡ 0 }
    requires room { length rows.old ≤ vec_capacity answer.old }
    ensures net { graph.new ≡ record graph.old { meter = graph.new.meter } }
    ensures facts { AreRows graph.old facts.old rows.old → facts.new ≡ replaced changes.now facts.old }
    ensures rows { AreRows graph.old facts.old rows.old → AreRows graph.new facts.new rows.new }
    ensures answer { answer.new.items ≡ differing 0 rows.old rows.new }
    ensures exact { IsAnswer answer.new.items rows.old rows.new }
    ensures meter { graph.new.meter ≤ graph.old.meter + degrees graph.old (is_touched changes.now answer.new.items) graph.old.order }
{
    replace(fresh, changes);
    settle(graph, facts, rows, fresh);
    fill(answer, before, rows);
}
