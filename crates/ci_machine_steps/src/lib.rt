//! What each event does to the state of the machine, in definitions: its answer and the rows that it changes; the steps of a
//! history; and what is true of each state that one leads to.
#![tactic(auto)]

pub mod laws;
