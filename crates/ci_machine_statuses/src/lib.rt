//! What stands beside a state, under its changes: the rows of its jobs' statuses, the resource groups that are held, and the
//! pipelines that aren't finished. What is put beside each change so that they stay right.
#![tactic(auto)]

pub mod act;
pub mod creation;
pub mod end;
pub mod fault;
pub mod groups;
pub mod holder_laws;
pub mod laws;
pub mod load;
pub mod outcome;
pub mod pending;
mod places;
pub mod settle;
mod tally;
pub mod unfinished;
