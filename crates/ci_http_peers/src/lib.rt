//! Many connections on one thread: their bytes are gathered side by side, and their requests are answered one after the other.
//!
//! What answers is the caller's: an `Answerer`, to which bytes are bytes. No request is known here.
#![tactic(auto)]

pub mod answerer;
mod chair;
pub mod door;
pub mod hall;
mod peer;
pub mod peers;
pub mod serve;
mod socket;
pub mod wire;
