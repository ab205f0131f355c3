//! The parts of a request, readers and writers that fail, what bodies, ranges and numbers say, the table of routes, and peers side by
//! side.

mod creations;
mod look_ups;
mod modes;
mod numbers;
mod peers;
mod requests;
mod texts;
mod updates;
