//! The tables over memory.

mod foreign;
mod lines;
mod plain;
mod records;
mod tests;
