//! One request served by a server, from the bytes that come in to the bytes that go out; and a server that is swept, which a log is told.
#![tactic(auto)]

pub mod attend;
mod health;
pub mod log;
pub mod serve;
pub mod stamps;
pub mod sweep;

pub use ci_http_messages::{call, due, fault, fields, link, route, text};
pub use ci_server::server::Server;
