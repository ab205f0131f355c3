//! What an event looks up in a store, where several records make one answer: who holds resource groups, leases with their limits, a
//! pipeline with its records, those that aren't finished, and the one that is to be pruned; and what a store that searches finds.
#![tactic(auto)]

pub mod claims;
pub mod faults;
pub mod holders;
pub mod leases;
pub mod prunable;
pub mod records;
pub mod search;
pub mod searches;
pub mod sheet;
pub mod turns;
pub mod unfinished;
