//! Which of the pipelines that aren't finished a newer one may make redundant, as it is remembered of a store: so that a sweep that
//! finds nothing looks nothing up.

pub mod after;
mod held_back;
pub mod open;
pub mod redundant;
