//! The bytes of requests and replies: HTTP/1.1 in, what it asks for by the table of routes, and replies out.
#![tactic(auto)]

mod body;
pub mod call;
pub mod due;
pub mod examples;
pub mod fault;
pub mod fields;
mod head;
pub mod laws;
pub mod limits;
pub mod link;
pub mod payloads;
pub mod route;
pub mod routing;
mod target;
pub mod text;
