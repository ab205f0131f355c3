//! The rows of reports, from what a store holds: which jobs wait, how a pipeline stands with its jobs, and what the runners do.

pub mod pipeline;
pub mod queue;
pub mod runners;
