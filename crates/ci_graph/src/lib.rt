//! The graph of a pipeline's jobs: which waits for which, and an order to go through them.
#![tactic(auto)]

pub mod acyclic;
pub mod graph;
pub mod laws;
mod neighbours;
mod order;
pub mod part;
mod positions;
