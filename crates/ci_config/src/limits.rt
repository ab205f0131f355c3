//! The limits of a CI file. Each name ends with what is counted.

/// The most jobs of a file, hidden ones aside.
pub const MAX_JOBS: usize = 200;

/// The most stages that a file lists.
pub const MAX_STAGES: usize = 32;

/// The most variables of a map.
pub const MAX_VARIABLES: usize = 100;

/// The most rules of a job.
pub const MAX_RULES: usize = 64;

/// The most texts of a script.
pub const MAX_SCRIPT_ITEMS: usize = 256;

/// The most tags of a job.
pub const MAX_TAGS: usize = 32;

/// The most exit codes of a list.
pub const MAX_EXIT_CODES: usize = 32;

/// The greatest exit code.
pub const MAX_EXIT_CODE: u32 = 4_294_967_295;

/// How often a job is tried again, at most.
pub const MAX_RETRIES: u32 = 2;

/// What building all patterns of a file may cost, each counted where it stands. A unit is about a microsecond.
pub const MAX_BUILDING_COST: usize = 1_000_000;
