//! The rows of a graph's jobs, worked out from their facts alone.

ghost use Rattle.std.specs.Prelude.{◌≡◌, ◌<◌, map, length, IfOk};
ghost use Rattle.ci_board.specs.Rows.{AreRows, row_at};
ghost use Rattle.ci_board.specs.Pass.{first_row};
ghost use Rattle.ci_board.specs.Statuses.{IsStatusOf};

use crate::facts::{Facts, Row, Status};
use crate::pass::settle;
use ci_graph::graph::Graph;
use std::alloc::{AllocError, Global};
use std::sync::ledger::Ledger;

/// The rows of jobs of which each is created.
pub fn first_rows<L: Ledger>(alloc: Global, graph: &Graph<L>) -> Result<Vec<Row>, AllocError>
    ensures { IfOk result (λ v. v.items ≡ map first_row graph.now.predecessors) }
{
    let count = graph.size();
    let mut rows = Vec::with_capacity(alloc, count)?;
    for j in 0..count {
        rows.push(Row {
            status: Status::Created,
            opens: graph.in_count(j),
            failed: 0,
            barred: 0,
        })?;
    }
    Ok(rows)
}

/// Works out the rows of these facts.
pub fn work_out<L: Ledger>(
    graph: &mut Graph<L>,
    facts: &mut [Facts],
    rows: &mut [Row],
    fresh: &[Facts],
)
    requires facts { length facts.old ≡ length graph.old.parts }
    requires fresh { fresh.now ≡ facts.old }
    requires rows { rows.old ≡ map first_row graph.old.predecessors }
    ensures net { graph.new ≡ record graph.old { meter = graph.new.meter } }
    ensures facts { facts.new ≡ facts.old }
    ensures rows { AreRows graph.new facts.old rows.new }
{
    let _size = graph.size();
    settle(graph, facts, rows, fresh);
}

fn status_at(rows: &[Row], j: usize) -> Status
    requires { j < length rows.now }
    ensures { result ≡ (row_at rows.now j).status }
{
    rows[j].status
}

/// The status of j, worked out anew.
pub fn status_in<L: Ledger>(
    graph: &mut Graph<L>,
    facts: &mut [Facts],
    rows: &mut [Row],
    fresh: &[Facts],
    j: usize,
) -> Status
    requires job { j < length graph.old.parts }
    requires facts { length facts.old ≡ length graph.old.parts }
    requires fresh { fresh.now ≡ facts.old }
    requires rows { rows.old ≡ map first_row graph.old.predecessors }
    ensures net { graph.new ≡ record graph.old { meter = graph.new.meter } }
    ensures status { IsStatusOf graph.old fresh.now j result }
{
    let _size = graph.size();
    work_out(graph, facts, rows, fresh);
    status_at(rows, j)
}
