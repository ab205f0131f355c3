//! The limits of the profile. A text is at most as long as the `MAX_FILE_BYTES` of `ci_values` says.

/// How many maps and lists may lie within one another.
pub const MAX_DEPTH: usize = 10;
