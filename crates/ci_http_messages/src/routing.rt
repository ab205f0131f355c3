//! The routes of the server's interface: what a request's method and path ask for.

pub mod laws;
pub mod lookup;
pub mod method;
pub mod operation;
pub mod paths;
mod place;
mod router;
mod table;
