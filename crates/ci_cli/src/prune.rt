//! The finished pipelines that were made before a moment go.

use crate::cause::say_unopened;
use crate::file::with_server;
use crate::server::ask;
use crate::sources::Sources;
use ci_cli_words::line::{DONE, say, say_reply};
use ci_cli_words::task::LogLevel;
use ci_http::Server;
use ci_machine::moment::Moment;
use ci_machine::records::MAX_NUMBER;
use ci_machine::reply::HttpStatus;
use ci_machine::request::Request;
use ci_store_sqlite::Alter;
use std::alloc::Global;
use std::io::{IsTerminal, Write};
use std::random::RandomSource;
use std::time::Clock;

/// After so many pipelines it is told how far a prune is.
const STRETCH: u64 = 1000;

/// Prunes the finished pipelines of the server of a file that were made before a moment, each in a commit of its own, until there is none. It
/// prints what is answered for each that goes, and gives the exit status. Where the process's standard error is a terminal, `errors` is told at times how
/// far it is.
pub fn prune<C: Clock, R: RandomSource, O: Write, E: Write>(
    rt: &HostRuntime,
    file: &str,
    before: Moment,
    sources: &Sources<'_, C, R>,
    output: &mut O,
    errors: &mut E,
) -> u8 {
    let pruned = with_server(rt, file, LogLevel::Nothing, |server, _| {
        let is_seen = rt.stderr().is_terminal();
        prune_all(rt.alloc(), server, before, sources, output, errors, is_seen)
    });
    match pruned {
        Ok(status) => status,
        Err(unopened) => say_unopened(output, errors, file, unopened),
    }
}

/// Sends the request again and again, until nothing is left to prune, or it is refused.
fn prune_all<S: Alter, C: Clock, R: RandomSource, O: Write, E: Write>(
    alloc: Global,
    server: &mut Server<S>,
    before: Moment,
    sources: &Sources<'_, C, R>,
    output: &mut O,
    errors: &mut E,
    is_seen: bool,
) -> u8 {
    // No number comes twice, so there are no more pipelines than numbers.
    for pruned in 1..=MAX_NUMBER {
        let stamp = match sources.stamp() {
            Ok(stamp) => stamp,
            Err(line) => return say(output, line),
        };
        let reply = ask(alloc, server, Request::PruneOne(before), stamp);
        if reply.status == HttpStatus::NoContent {
            break;
        }
        let status = say_reply(output, &reply);
        if status != DONE {
            return status;
        }
        if is_seen && pruned % STRETCH == 0 {
            // Nothing depends on whether this can be written.
            let _ = writeln!(errors, "pruned {pruned} pipelines");
        }
    }
    DONE
}
