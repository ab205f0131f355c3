//! The limits that more than one crate keeps. Each name ends with the unit, where there is one.

/// The longest name, in bytes.
pub const MAX_NAME_BYTES: usize = 255;

/// The greatest number of a record: 2^53 - 1, up to which every reader of JSON keeps whole numbers exact.
pub const MAX_NUMBER: u64 = 9_007_199_254_740_991;

/// The greatest moment, in seconds since 1970: 9999-12-31 23:59:59 UTC.
pub const MAX_MOMENT: u64 = 253_402_300_799;

/// The longest CI file, and the longest body of a request, in bytes.
pub const MAX_FILE_BYTES: usize = 65_536;
