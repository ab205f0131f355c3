//! The statuses with which the jobs of a file begin, from its plan by way of the graph and the board.

ghost use Rattle.std.specs.Prelude.{◌≡◌, ◌<◌};
ghost use Rattle.ci_graph_layout.specs.Prelude.{CanBeGraph, plan_view};

use ci_board::board::Board;
use ci_board::facts::Facts;
use ci_graph_layout::PipelinePlan;
use std::alloc::{AllocError, Global};
use std::marker::Brand;
use std::sync::ledger::{Blank, Ledger};

/// Those of a job that was never tried.
const NEVER_TRIED: Facts = Facts {
    last: None,
    attempts: 0,
    cancelled: false,
    played: false,
};

/// The statuses of a board, by position, and that of the pipeline.
fn board_text<L: Ledger>(alloc: Global, board: &Board<L>) -> Result<String, AllocError> {
    let mut text = String::new(alloc);
    let size = board.size();
    for j in 0..size {
        text.push_str(board.status(j).as_str())?;
        text.push_str(" ")?;
    }
    text.push_str("= ")?;
    text.push_str(board.pipeline_status().as_str())?;
    Ok(text)
}

fn begin<L: Ledger>(alloc: Global, blank: Blank, plan: &PipelinePlan) -> Result<String, AllocError>
    requires name { blank.name ≡ L.name }
    requires ledger { blank.parts ≡ L.parts }
    requires some { 0 < blank.parts }
    requires plan { CanBeGraph (plan_view plan.now) }
{
    let graph = plan.graph::<L>(alloc, blank)?;
    let facts = vec![in alloc; NEVER_TRIED; graph.size()]?;
    let board = Board::build(alloc, graph, facts)?;
    board_text(alloc, &board)
}

/// The statuses of a plan's jobs of which none was tried, and that of their pipeline.
pub fn begun(alloc: Global, plan: &PipelinePlan) -> Result<String, AllocError>
    requires { CanBeGraph (plan_view plan.now) }
{
    begin::<Brand>(alloc, Blank::new(1), plan)
}
