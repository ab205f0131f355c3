//! What a pipeline of a CI file would be, before it runs.
#![tactic(auto)]

mod circles;
mod faults;
mod file;
mod left_out;
mod notes;
mod planned;
mod planning;
mod records;
mod table;
mod verdict;

pub use circles::circle;
pub use file::plan_word;
pub use planning::plan;
pub use records::{Fault, LeftOut, NamedNeed, Note, Plan, PlannedJob};
pub use table::{plan_text, told_text};
pub use verdict::{Outcome, exit_status, outcome_of};
