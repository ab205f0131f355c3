//! A server: its calls for reports and lists of events, a log that fails at each call, an opening within a transaction, and the server of the witness.

mod acts;
mod answers;
mod changes;
mod life;
mod migration;
mod reports;
mod rows;
mod run;
mod servers;
mod stops;
mod version1;
