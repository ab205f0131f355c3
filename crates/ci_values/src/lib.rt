//! The values that all crates of the server speak of: texts and names, lists, moments, limits, how an attempt stands, and
//! when a job runs; numbers in digits; and what single words of a CI file mean: the words of a table, names of variables,
//! durations, and the values of variables in layers.
#![tactic(auto)]

pub mod attempts;
pub mod examples;
pub mod items;
pub mod laws;
mod layers;
pub mod limits;
pub mod moment;
pub mod number;
mod run;
mod seconds;
mod table;
pub mod text;
mod variable_name;
pub mod when;

pub use layers::{Layer, Layers, lookup};
pub use seconds::{MAX_DIGITS, MAX_SECONDS, MIN_SECONDS, UNITS, duration};
pub use table::{meaning_of, word_in};
pub use variable_name::is_variable_name;
