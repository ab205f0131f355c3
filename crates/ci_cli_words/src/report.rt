//! Reports for an operator: what waits, how a pipeline stands, and what runners do, as tables of text and as JSON.

pub mod json;
pub mod laws;
pub mod pipeline;
pub mod queue;
pub mod runner;
