//! Each record of the machine as a row of its table: the tables, the texts of all statements, how a record is put and read back,
//! and laws of what each statement makes of what the tables keep.
#![tactic(auto)]

mod attempt;
pub mod block;
mod board_row;
pub mod columns;
mod demand;
mod holder;
mod job;
mod job_variable;
pub mod json;
pub mod laws;
mod mode;
pub mod need;
mod pipeline;
mod project;
pub mod read;
mod runner;
pub mod texts;
mod variable;
pub mod version1;
pub mod version2;
