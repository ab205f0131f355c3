//! The statuses of a pipeline's jobs, kept under changes of their facts.
#![tactic(auto)]

pub mod board;
mod changes;
pub mod effect;
pub mod examples;
pub mod facts;
pub mod laws;
mod pass;
pub mod pipeline;
mod rows;
mod rule;
mod standing;

pub use facts::FactsChange as Change;
