//! What a server remembers of its store, so that it is not looked up again: a store over a store.
#![tactic(auto)]

mod follows;
pub mod leases;
pub mod memory;
pub mod modes;
pub mod newest;
pub mod numbers;
pub mod pipelines;
pub mod projects;
pub mod remembering;
pub mod runners;
