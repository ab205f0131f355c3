//! The machine, and the rows and pipelines that it works out, on rows that were worked out by hand.

mod decisions;
mod layouts;
mod modes;
mod outcomes;
mod records;
mod statuses;
mod turns;
