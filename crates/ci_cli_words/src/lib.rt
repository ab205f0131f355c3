//! The words of the command line, and the lines that `ciserver` prints, with the exit statuses that go with them.
#![tactic(auto)]

mod asked;
mod command_line;
mod command_name;
pub mod date;
pub mod line;
pub mod report;
pub mod task;
mod value;
mod variables;
pub mod words;
mod wrong;
