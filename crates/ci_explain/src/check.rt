//! What `ciserver check` says of a CI file.

mod file;
pub mod laws;
mod verdict;

pub use file::{Report, check, check_path, check_word, first_bytes};
pub use verdict::{Verdict, exit_status, verdict_of};
