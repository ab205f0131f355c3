//! The rows of a pipeline's jobs, kept under changes.

ghost use Rattle.std.specs.Prelude.{◌≡◌, ◌+◌, ◌<◌, ◌≤◌, length, IfOk, OnErr, OnOk, All};
ghost use Rattle.ci_board.specs.Rows.{facts_at, row_at, statuses, AreRows, IsAnswer, degrees, replaced, is_touched, differing};
ghost use Rattle.ci_board.specs.Statuses.{IsStatusOf, row_of};
ghost use Rattle.ci_board.specs.PipelineStatus.{pipeline_status};

use crate::changes::change;
use crate::facts::{Facts, FactsChange, Row, Status};
use crate::pipeline::pipeline_status;
use crate::rows::{first_rows, status_in, work_out};
use ci_graph::graph::Graph;
use std::alloc::{AllocError, Global};
use std::marker::{Brand, Model};
use std::sync::ledger::Ledger;

/// The jobs' facts and rows.
#[derive(Drop)]
pub struct Board<L: Ledger = Brand> {
    graph: Graph<L>,
    facts: Vec<Facts>,
    rows: Vec<Row>,
}

impl<L: Ledger> Model for Board<L> {
    ghost use Rattle.std.specs.Prelude.{◌≡◌, List, length};
    ghost use Rattle.ci_board.specs.Rows.{BoardState};

    ghost Value = { BoardState };

    ghost view = { λ b. record { graph = b.graph; facts = b.facts.items; rows = b.rows.items } };

    ghost invariant = { λ b. (length b.facts.items ≡ length b.graph.parts) × (length b.rows.items ≡ length b.graph.parts) };
}

impl<L: Ledger> Board<L> {
    /// The board of these facts, its rows worked out from them.
    pub fn build(
        alloc: Global,
        mut graph: Graph<L>,
        mut facts: Vec<Facts>,
    ) -> Result<Board<L>, AllocError>
        requires { length facts.items ≡ length graph.parts }
        ensures graph { IfOk result (λ b. b.graph ≡ record graph { meter = b.graph.meter }) }
        ensures facts { IfOk result (λ b. b.facts ≡ facts.items) }
        ensures rows { IfOk result (λ b. AreRows b.graph b.facts b.rows) }
    {
        let _size = graph.size();
        let fresh = Vec::from_slice(alloc, facts.as_slice())?;
        let mut rows = first_rows(alloc, &graph)?;
        work_out(
            &mut graph,
            facts.as_mut_slice(),
            rows.as_mut_slice(),
            fresh.as_slice(),
        );
        Ok(Board { graph, facts, rows })
    }

    /// The number of jobs: as many have facts and a row.
    pub fn size(&self) -> usize
        ensures size { result ≡ length self.now.graph.parts }
        ensures facts { length self.now.facts ≡ length self.now.graph.parts }
        ensures rows { length self.now.rows ≡ length self.now.graph.parts }
    {
        self.graph.size()
    }

    /// The status of j, worked out from the facts alone. Of the board it changes the meter alone, and where memory is refused nothing.
    pub fn slow_status(&mut self, alloc: Global, j: usize) -> Result<Status, AllocError>
        requires { j < length self.old.graph.parts }
        ensures status { IfOk result (λ s. IsStatusOf self.old.graph self.old.facts j s) }
        ensures kept { self.new ≡ record self.old { graph = record self.old.graph { meter = self.new.graph.meter } } }
        ensures memory { OnErr result (self.new ≡ self.old) }
    {
        let mut facts = Vec::from_slice(alloc, self.facts.as_slice())?;
        let mut rows = first_rows(alloc, &self.graph)?;
        let status = status_in(
            &mut self.graph,
            facts.as_mut_slice(),
            rows.as_mut_slice(),
            self.facts.as_slice(),
            j,
        );
        Ok(status)
    }

    /// The status of the pipeline, by the rows as they stand.
    pub fn pipeline_status(&self) -> Status
        ensures { result ≡ pipeline_status self.now.graph.parts self.now.facts (statuses self.now.rows) }
    {
        pipeline_status(
            self.graph.parts(),
            self.facts.as_slice(),
            self.rows.as_slice(),
        )
    }

    /// Gives the named jobs their new facts, all at once, and answers the positions whose rows differ, ascending. It goes
    /// along the graph's order and looks at an edge only where what its job means to others has changed. Where memory is
    /// refused the board is as before.
    pub fn apply(
        &mut self,
        alloc: Global,
        changes: &[FactsChange],
    ) -> Result<Vec<usize>, AllocError>
        requires { All (λ c. c.position < length self.old.graph.parts) changes.now }
        ensures graph { OnOk result (self.new.graph ≡ record self.old.graph { meter = self.new.graph.meter }) }
        ensures facts { OnOk result (AreRows self.old.graph self.old.facts self.old.rows → self.new.facts ≡ replaced changes.now self.old.facts) }
        ensures rows { OnOk result (AreRows self.old.graph self.old.facts self.old.rows → AreRows self.new.graph self.new.facts self.new.rows) }
        ensures answer { IfOk result (λ a. a.items ≡ differing 0 self.old.rows self.new.rows) }
        ensures exact { IfOk result (λ a. IsAnswer a.items self.old.rows self.new.rows) }
        ensures meter { IfOk result (λ a. self.new.graph.meter ≤ self.old.graph.meter + degrees self.old.graph (is_touched changes.now a.items) self.old.graph.order) }
        ensures memory { OnErr result (self.new ≡ self.old) }
    {
        let mut fresh = Vec::from_slice(alloc, self.facts.as_slice())?;
        let before = Vec::from_slice(alloc, self.rows.as_slice())?;
        let mut answer = Vec::with_capacity(alloc, self.rows.len())?;
        change(
            &mut self.graph,
            self.facts.as_mut_slice(),
            self.rows.as_mut_slice(),
            fresh.as_mut_slice(),
            before.as_slice(),
            changes,
            &mut answer,
        );
        Ok(answer)
    }

    /// A board of rows that were kept; it takes no memory and hands out no edge.
    pub fn load(graph: Graph<L>, facts: Vec<Facts>, rows: Vec<Row>) -> Board<L>
        requires facts { length facts.items ≡ length graph.parts }
        requires rows { length rows.items ≡ length graph.parts }
        ensures { result ≡ record { graph = graph; facts = facts.items; rows = rows.items } }
    {
        Board { graph, facts, rows }
    }

    /// The graph, the facts and the rows of which the board is made.
    pub fn into_parts(self) -> (Graph<L>, Vec<Facts>, Vec<Row>)
        ensures graph { result.0 ≡ self.graph }
        ensures facts { result.1.items ≡ self.facts }
        ensures rows { result.2.items ≡ self.rows }
    {
        let Board { graph, facts, rows } = self;
        (graph, facts, rows)
    }

    /// The facts of the job at a position.
    pub fn facts(&self, j: usize) -> Facts
        requires { j < length self.now.facts }
        ensures { result ≡ facts_at self.now.facts j }
    {
        self.facts[j]
    }

    /// The row of the job at a position.
    pub fn row(&self, j: usize) -> Row
        requires { j < length self.now.rows }
        ensures row { result ≡ row_at self.now.rows j }
        ensures assigned { AreRows self.now.graph self.now.facts self.now.rows → result ≡ row_of self.now.graph self.now.facts (statuses self.now.rows) j }
    {
        self.rows[j]
    }

    /// The status of the job at a position.
    pub fn status(&self, j: usize) -> Status
        requires { j < length self.now.rows }
        ensures status { result ≡ (row_at self.now.rows j).status }
        ensures assigned { AreRows self.now.graph self.now.facts self.now.rows → IsStatusOf self.now.graph self.now.facts j result }
    {
        self.rows[j].status
    }
}
