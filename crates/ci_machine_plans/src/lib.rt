//! What each event does, from just the records that it needs. Nothing is changed here: a plan is an answer, with its
//! whole body, and the row changes that a commit makes.
#![tactic(auto)]

pub mod body;
pub mod cancels;
pub mod grants;
pub mod listed_jobs;
pub mod listings;
pub mod modes;
mod object;
pub mod plays;
pub mod projects;
pub mod prunes;
pub mod replies;
pub mod reports;
pub mod retries;
pub mod runners;
pub mod shows;
pub mod sweeps;
pub mod traces;
pub mod variables;
