//! Tests of typed calls that no request over a socket makes, a module for each layer.
#![tactic(auto)]

#[cfg(test)]
mod board;
#[cfg(test)]
mod config;
#[cfg(test)]
mod disks;
#[cfg(test)]
mod http;
#[cfg(test)]
mod machine;
#[cfg(test)]
mod reports;
#[cfg(test)]
mod server;
#[cfg(test)]
mod store;
