//! What the server asks of a store: loads by key, and the changes of an event in one transaction.
#![tactic(auto)]

pub mod delta;
pub mod fault;
pub mod read;
pub mod store;
pub mod values;
pub mod write;
