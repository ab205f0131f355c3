//! The limits of a pipeline's graph.

/// How many needs an included job may give, repeats counted.
pub const MAX_NEEDS: usize = 50;

/// What deciding all rules of a file may cost, in bytes of patterns' tables times places of values. A unit is about 4 nanoseconds at
/// the worst.
pub const MAX_SEARCH_COST: usize = 1_500_000_000;
