//! The laws of the machine: what holds of each step and of each state that a history leads to, and worked examples of its events.
#![tactic(auto)]

pub mod due;
pub mod idle;
pub mod laws;
pub mod outcome;
pub mod reads;
pub mod repeats;
