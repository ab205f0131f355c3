//! What `ciserver explain` says of a CI file: every fault of it, each with its line and a sentence.
#![tactic(auto)]

pub mod check;
mod file;
mod follow;
mod gitlab;
mod hint;
mod leave;
mod line;
mod place;
mod report;
mod turn;
mod way;
mod yaml;

pub use file::{Explained, explain, explain_word};
pub use place::Found;
pub use turn::faults;
