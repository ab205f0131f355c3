//! Calls of a server that say nothing of it. What they do is said by the contracts of `ci_server` and `ci_http`; here nothing is
//! promised of it, and so no proof of a caller carries it.

use crate::journal::{Journal, Teller};
use crate::sources::{Sources, Stamp, line_of};
use ci_cli_words::line::Line;
use ci_http::Server;
use ci_http::attend::{Unanswered, attend};
use ci_http_messages::routing::paths::Paths;
use ci_machine::reply::Reply;
use ci_machine::request::Request;
use ci_store_sqlite::Alter;
use std::alloc::Global;
use std::io::Write;
use std::random::RandomSource;
use std::time::{Clock, Duration, Instant};

/// Has a server handle a request.
pub fn ask<S: Alter>(
    alloc: Global,
    server: &mut Server<S>,
    request: Request,
    stamp: Stamp,
) -> Reply {
    server.handle(alloc, request, stamp.moment, stamp.seed)
}

/// Has a server that was just opened look up what a first poll needs. Where memory is refused the poll does; where the store fails the
/// journal is told.
pub fn prepare<S: Alter, E: Write>(
    alloc: Global,
    server: &mut Server<S>,
    journal: &Journal<'_, E>,
) {
    if server.prepare(alloc).is_err() && server.closed() {
        journal.say_failed();
    }
}

/// Has the store of a server failed?
pub fn is_closed<S: Alter>(server: &Server<S>) -> bool {
    server.closed()
}

/// Was the file of a server of the version before this one, and made one of this version as it was opened?
pub fn was_migrated<S: Alter>(server: &Server<S>) -> bool {
    server.migrated()
}

/// The bytes of the reply to the request of these: it gets a moment and a seed of its own, the server is swept, and it is handled. None
/// where there is no reply. The journal is told what the sweeps did, whether the store failed, and of the request.
///
/// Errors: the line that says why there is no moment or no seed.
pub fn answer<S: Alter, C: Clock, R: RandomSource, E: Write>(
    alloc: Global,
    bytes: &[u8],
    server: &mut Server<S>,
    paths: &Paths,
    sources: &Sources<'_, C, R>,
    journal: &Journal<'_, E>,
) -> Result<Option<Vec<u8>>, Line> {
    let was_closed = server.closed();
    let start = journal.start_of_request(sources.clock);
    let answered = answer_told(alloc, bytes, server, paths, sources, journal);
    if server.closed() && !was_closed {
        journal.say_failed();
    }
    if let Ok(reply) = &answered {
        let reply = reply.as_ref().map(|reply| reply.as_slice());
        journal.say_request(bytes, reply, time_since(start, sources.clock));
    }
    answered
}

/// How long it is since a moment, if it is known and the clock can be read.
pub fn time_since<C: Clock>(start: Option<Instant>, clock: &C) -> Option<Duration> {
    start?.elapsed(clock).ok()
}

/// The same, but the journal is told of the sweeps alone.
fn answer_told<S: Alter, C: Clock, R: RandomSource, E: Write>(
    alloc: Global,
    bytes: &[u8],
    server: &mut Server<S>,
    paths: &Paths,
    sources: &Sources<'_, C, R>,
    journal: &Journal<'_, E>,
) -> Result<Option<Vec<u8>>, Line> {
    let mut teller = Teller { journal };
    let mut stamps = Sources {
        clock: sources.clock,
        seeds: sources.seeds,
    };
    match attend(alloc, bytes, server, paths, &mut stamps, &mut teller) {
        Ok(reply) => Ok(Some(reply)),
        Err(Unanswered::NoReply) => Ok(None),
        Err(Unanswered::NoStamp(unstamped)) => Err(line_of(unstamped)),
    }
}
