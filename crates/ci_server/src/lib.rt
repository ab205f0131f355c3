//! The server: requests and sweeps over the tables.
#![tactic(auto)]

mod events;
mod fail_stop;
pub mod lifetime;
pub mod server;

pub use events::prune_one;
