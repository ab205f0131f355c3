//! A witness of the server's whole life: one that lives through what is claimed of each.
#![tactic(auto)]

pub mod life;
mod requests;
pub mod stopped;
