//! Connections, served side by side.

use crate::journal::Journal;
use crate::server::{answer, is_closed};
use crate::sources::Sources;
use ci_cli_words::line::Line;
use ci_http::Server;
use ci_http::due::bytes_due;
use ci_http_messages::routing::paths::Paths;
use ci_http_peers::answerer::Answerer;
use ci_http_peers::serve::{Terms, Unserved, serve_peers};
use ci_store_sqlite::Alter;
use mio::net::TcpListener;
use std::alloc::Global;
use std::io::Write;
use std::net::Net;
use std::random::RandomSource;
use std::time::{Clock, Duration};

/// What requests to a server are answered by: the table of routes, where their moments and seeds come from, and who is told of them.
#[derive(Drop)]
struct Desk<'a, 'b, 'c, C, R, E> {
    alloc: Global,
    paths: &'a Paths,
    sources: &'a Sources<'b, C, R>,
    journal: &'a Journal<'c, E>,
    stops_on_fault: bool,
}

impl<'a, 'b, 'c, S: Alter, C: Clock, R: RandomSource, E: Write> Answerer<Server<S>, Line>
    for Desk<'a, 'b, 'c, C, R, E> {
    fn bytes_due(&self, bytes: &[u8]) -> Option<usize> {
        bytes_due(bytes)
    }

    fn answer(&self, server: &mut Server<S>, bytes: &[u8]) -> Result<Option<Vec<u8>>, Line> {
        answer(
            self.alloc,
            bytes,
            server,
            self.paths,
            self.sources,
            self.journal,
        )
    }

    /// It is asked once what was answered went to the connections, as far as they take it; so the journal is written here.
    fn is_over(&self, server: &Server<S>) -> bool {
        self.journal.write();
        self.stops_on_fault && is_closed(server)
    }
}

/// Serves so many connections of a listener of this port: of each one request, once it is whole. Only then does it get a moment and
/// a seed, and before it is handled leases that are over by then are ended and redundant pipelines cancelled.
///
/// A connection counts once it is over, however it ends, and so does an accept that fails. A whole request must come within `patience`,
/// and a whole reply be taken within it again. From the first fault of the store on each request is answered M17; where the fault is
/// to end the service no more connections are accepted then, and it ends once those that there are have been served.
///
/// Errors: the line that says why a request has no moment or no seed, or that nothing can be heard. Those that are left are not
/// served.
pub fn serve_connections<N: Net, C: Clock, R: RandomSource, S: Alter, E: Write>(
    net: &N,
    alloc: Global,
    listener: &mut TcpListener,
    port: u16,
    server: &mut Server<S>,
    paths: &Paths,
    sources: &Sources<'_, C, R>,
    journal: &Journal<'_, E>,
    patience: Duration,
    requests: u32,
    stops_on_fault: bool,
) -> Result<(), Line> {
    let desk = Desk {
        alloc,
        paths,
        sources,
        journal,
        stops_on_fault,
    };
    let terms = Terms {
        patience: u64::try_from(patience.as_millis()).unwrap_or(u64::MAX),
        connections: requests,
    };
    match serve_peers(net, alloc, sources.clock, listener, terms, &desk, server) {
        Ok(()) => Ok(()),
        Err(Unserved::Unanswered(line)) => Err(line),
        Err(Unserved::NoClock) => Err(Line::NoClock),
        Err(Unserved::NoWait) => Err(Line::CannotListen(port)),
    }
}
