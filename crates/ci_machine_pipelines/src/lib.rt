//! Pipelines from CI files: what a file configures, and the records of a pipeline that is made by it.
#![tactic(auto)]

pub mod creation;
pub mod files;
pub mod laws;
pub mod layers;
pub mod layouts;
pub mod pipelines;
