//! What a CI file configures: its keywords, the record of each job, and in definitions what a file means.
//!
//! docs/PROFILE.md describes the keywords for those who write such files.
#![tactic(auto)]

pub mod examples;
mod fault;
mod file;
mod job;
pub mod keyword;
pub mod laws;
mod limits;
mod need;
mod rule;
mod value;

pub use ci_values::when::Retry;
pub use ci_values::{Layers, lookup};
pub use fault::{ConfigCode, ConfigFault, ReadFault, Way};
pub use file::Config;
pub use job::JobSpec;
pub use keyword::RuleWhen;
pub use limits::{
    MAX_BUILDING_COST, MAX_EXIT_CODE, MAX_EXIT_CODES, MAX_JOBS, MAX_RETRIES, MAX_RULES,
    MAX_SCRIPT_ITEMS, MAX_STAGES, MAX_TAGS, MAX_VARIABLES,
};
pub use need::Need;
pub use rule::Rule;
pub use value::Variable;
