//! The profile of YAML that CI files are written in: which tree a text has, and why a text has none.
//!
//! docs/PROFILE.md describes the profile for those who write such files.
#![tactic(auto)]

mod block;
mod entries;
mod fault;
pub mod laws;
pub mod limits;
pub mod line_laws;
mod members;
mod nodes;
mod open_map;
mod progress;
mod reader;

pub use ci_yaml_lines::code::Code;
pub use ci_yaml_lines::tree::{Place, Span, Text, Tree, Words};
pub use fault::YamlFault;
pub use reader::read;
