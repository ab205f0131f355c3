//! The records of pipelines from which their statuses follow, as a server remembers them of its store: so the end of a job looks
//! none of them up.
#![tactic(auto)]

mod after;
pub mod boards;
mod follows;
pub mod fresh;
mod one;
mod puts;
pub mod room;
mod touch;
