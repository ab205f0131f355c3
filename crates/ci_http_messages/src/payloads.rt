//! What the bodies and the ranges of requests say.

pub mod copy;
pub mod creation;
pub mod examples;
mod json;
pub mod limits;
pub mod mode;
pub mod range;
pub mod texts;
pub mod update;
