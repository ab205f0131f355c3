//! What one line of a CI file says, in the profile of YAML that docs/PROFILE.md describes.
//!
//! `ci_yaml` reads whole texts over it.
#![tactic(auto)]

pub mod code;
pub mod cut;
pub mod entry;
mod flow;
pub mod line;
mod quoted;
mod scalar;
pub mod scan;
pub mod tree;
mod written;
