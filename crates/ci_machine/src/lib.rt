//! The pipeline server as a machine: its records, its requests and replies, the decisions on leases and on which job a
//! runner is given, and, in its definitions, the state and what is looked up in it.
#![tactic(auto)]

pub mod change;
pub mod choose;
pub mod lease;
pub mod limits;
pub mod moment;
pub mod records;
pub mod redundant;
pub mod reply;
pub mod report;
pub mod request;
pub mod text;
