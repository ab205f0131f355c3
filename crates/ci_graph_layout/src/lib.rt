//! Which jobs of a CI file a pipeline has, in which order they stand, and which of them waits for which.
#![tactic(auto)]

pub mod examples;
mod fault;
mod faults;
mod given;
mod inclusion;
pub mod laws;
pub mod layering;
mod limits;
mod lineup;
mod pairs;
mod parts;
mod places;
mod planning;
mod searches;

pub use fault::{GraphCode, PlanFault};
pub use given::{Given, Variables, seen};
pub use inclusion::{Decided, Decision, IncludedJob};
pub use limits::{MAX_NEEDS, MAX_SEARCH_COST};
pub use pairs::Pairs;
pub use places::Lineup;
pub use planning::{PipelinePlan, plan, plan_by};
pub use searches::{is_affordable, looks};
