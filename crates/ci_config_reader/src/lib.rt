//! Reads what a CI file configures of its tree.
#![tactic(auto)]

mod allow_failure;
mod budget;
mod file;
mod job;
mod key;
mod need;
mod read;
mod retry;
mod rule;
mod tree;
mod value;
mod when;

pub use read::{config, read_config};
pub use value::duration;
