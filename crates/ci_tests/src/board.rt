//! Tests of graphs and boards: worked examples, and random graphs under thousands of changes.

mod examples;
mod random;
mod within;
