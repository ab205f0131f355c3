//! The limits of the machine. Each name ends with the unit, where there is one.

/// The greatest size of a trace, in bytes.
pub const MAX_TRACE_BYTES: u64 = 4_194_304;

/// How many pipelines of a project are listed, at most.
pub const LISTED_PIPELINES: u64 = 100;

/// How long a lease lasts after its runner was last heard of, in seconds.
pub const LEASE_SECONDS: u64 = 120;

/// The time limit of a job that sets none, in seconds.
pub const DEFAULT_TIMEOUT_SECONDS: u32 = 3600;
