//! Peers side by side: a hall with made-up readiness and a moving clock, and the loop over real sockets.

mod fakes;
mod sockets;
mod table;
