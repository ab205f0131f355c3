//! The limits of what bodies and ranges say. Each name ends with the unit, where there is one.

/// The most digits of a place in a range.
pub const MAX_PLACE_DIGITS: usize = 16;

/// The greatest place of so many digits.
pub const MAX_PLACE: u64 = 9_999_999_999_999_999;
