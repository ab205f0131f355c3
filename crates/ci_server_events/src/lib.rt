//! What each event does, planned from what a store holds: an answer, changes of records, and what changes beside them.
#![tactic(auto)]

mod acts;
mod ends;
pub mod events;
mod files;
mod grants;
mod group_lists;
mod modes;
pub mod overview;
mod pipelines;
pub mod planned;
pub mod prepare;
mod projects;
mod prunes;
mod reads;
mod reads_groups;
mod reads_jobs;
mod reads_pipelines;
mod reports;
mod runners;
mod shows;
pub mod sweeps;
mod traces;
mod variables;
