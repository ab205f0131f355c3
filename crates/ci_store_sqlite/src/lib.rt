//! The machine's state as tables of a database: loads by key, and the changes of an event in one transaction.
#![tactic(auto)]

mod append;
mod asked;
pub mod commit;
pub mod load;
pub mod make;
mod migrate;
pub mod open;
mod probe;
pub mod tables;

pub use sqlite::{Alter, Connection};
