//! The loop: it waits for a listener and for all peers at once.

ghost use Rattle.std.specs.Prelude.{◌≡◌, ◌-◌, ◌*◌, ℕ, List, Some, None};
ghost use Rattle.std.specs.Duration.{as_nanos};
ghost use Rattle.std.specs.declared.time.Duration.{Duration as DurationOf};
ghost use Rattle.ci_http_peers.specs.Turns.{Answers, sooner};

use crate::answerer::Answerer;
use crate::door::Door;
use crate::hall::Hall;
use crate::socket::Socket;
use mio::net::TcpListener;
use mio::{Events, Interest, Poll, Registry, Token};
use std::alloc::Global;
use std::io;
use std::net::Net;
use std::time::{Clock, Duration, Instant};

/// The most events of a wait: room for each peer and the listener.
const MAX_EVENTS: usize = 512;

/// The most connections that are accepted before the others have their turn.
const MAX_ACCEPTED: usize = 64;

/// The token of the listener: no place of the table.
const LISTENER: Token = Token(usize::MAX);

/// Why a loop ends before its time.
#[derive(Drop)]
pub enum Unserved<E> {
    /// No request can be answered any more, and this is why.
    Unanswered(E),
    /// The clock can't be read by which peers have their time.
    NoClock,
    /// The system gives no way to wait for connections, or memory for the table was refused.
    NoWait,
}

/// Where a loop listens, how long peers have, and how many connections it serves.
#[derive(Clone, Copy)]
pub struct Terms {
    /// How long a whole request may take to come, and a whole reply to be taken, in milliseconds.
    pub patience: u64,
    /// How many connections are served. An accept that fails counts as one.
    pub connections: u32,
}

/// The clock of a loop, and when that began.
#[derive(Drop)]
struct Ticks<'a, C> {
    clock: &'a C,
    start: Instant,
}

/// A listener, with what its connections are registered with, and whether one is to be accepted.
#[derive(Drop)]
struct Entry<'a> {
    listener: &'a TcpListener,
    registry: &'a Registry,
    door: Door,
}

impl<'a, C: Clock> Ticks<'a, C> {
    /// Milliseconds since the start. Errors: the clock can't be read.
    fn now<E>(&self) -> Result<u64, Unserved<E>> {
        match Instant::now(self.clock) {
            Ok(now) => {
                let since = now.duration_since(self.start);
                Ok(u64::try_from(since.as_millis()).unwrap_or(u64::MAX))
            }
            Err(_) => Err(Unserved::NoClock),
        }
    }
}

/// Serves so many connections of a listener, side by side: of each one request, once it is whole, and returns when all are over. Once
/// the answerer says that the subject's end has come no more are accepted.
///
/// At most 256 are open at a time. Where one more comes, the one whose request has been coming longest gives way. A request must
/// come, and its reply be taken, within a time each. Where just the request came, the connection is over then; else what the peer
/// still sends is taken for half a second, and 256 KiB of it at most. Replies that are still to be taken have 32 MiB in memory
/// together; where they are more, the one that has been going longest is given up.
///
/// Errors: no request can be answered any more; the clock can't be read; there is no way to wait.
pub fn serve_peers<N: Net, C: Clock, T, E, A: Answerer<T, E>>(
    net: &N,
    alloc: Global,
    clock: &C,
    listener: &mut TcpListener,
    terms: Terms,
    answerer: &A,
    subject: &mut T,
) -> Result<(), Unserved<E>>
    // Nothing but answers changed the subject, one after the other, however the loop ends.
    ensures { (requests : List (List ℕ)) × Answers (A.answers answerer.now) requests subject.old subject.new }
{
    let Ok(start) = Instant::now(clock) else {
        return Err(Unserved::NoClock);
    };
    let Ok(mut poll) = Poll::new(net) else {
        return Err(Unserved::NoWait);
    };
    let ticks = Ticks { clock, start };
    serve_by(&mut poll, alloc, &ticks, listener, terms, answerer, subject)
}

/// Serves the connections of a listener by what waits for them.
fn serve_by<C: Clock, T, E, A: Answerer<T, E>>(
    poll: &mut Poll,
    alloc: Global,
    ticks: &Ticks<'_, C>,
    listener: &mut TcpListener,
    terms: Terms,
    answerer: &A,
    subject: &mut T,
) -> Result<(), Unserved<E>>
    ensures { (requests : List (List ℕ)) × Answers (A.answers answerer.now) requests subject.old subject.new }
{
    let Ok(registry) = register(poll, listener) else {
        return Err(Unserved::NoWait);
    };
    let Ok(mut events) = Events::with_capacity(alloc, MAX_EVENTS) else {
        return Err(Unserved::NoWait);
    };
    let Ok(mut hall) = Hall::new(alloc, terms.patience) else {
        return Err(Unserved::NoWait);
    };
    let mut entry = Entry {
        listener,
        registry: &registry,
        door: Door::new(terms.connections),
    };
    run(
        poll,
        &mut events,
        &mut hall,
        ticks,
        &mut entry,
        answerer,
        subject,
    )
}

/// Registers a listener, and gives what sockets register themselves with.
fn register(poll: &Poll, listener: &mut TcpListener) -> io::Result<Registry> {
    poll.registry()
        .register(listener, LISTENER, Interest::READABLE)?;
    poll.registry().try_clone()
}

/// Turns until all connections are over.
fn run<'a, C: Clock, T, E, A: Answerer<T, E>>(
    poll: &mut Poll,
    events: &mut Events,
    hall: &mut Hall<Socket<'a>>,
    ticks: &Ticks<'_, C>,
    entry: &mut Entry<'a>,
    answerer: &A,
    subject: &mut T,
) -> Result<(), Unserved<E>>
    ensures { (requests : List (List ℕ)) × Answers (A.answers answerer.now) requests subject.old subject.new }
{
    for _ in 0..u64::MAX {
        let nearest = hall.next_deadline();
        if entry.door.is_done() && nearest.is_none() {
            break;
        }
        let timeout = time_to_wait(nearest, entry.door.opens_at(), ticks.now()?);
        if poll.poll(events, timeout).is_err() {
            return Err(Unserved::NoWait);
        }
        hear(events, hall, ticks, &mut entry.door, answerer, subject)?;
        accept_some(hall, ticks, entry, answerer, subject)?;
        entry.door.close_if(answerer.is_over(subject));
        let now = ticks.now()?;
        match nearest {
            Some(nearest) if nearest <= now => hall.end_late(now),
            _ => {}
        }
    }
    Ok(())
}

/// How long nothing need be done: up to the nearest deadline of the peers, and to when the next connection may be accepted.
fn time_to_wait(nearest: Option<u64>, opens: Option<u64>, now: u64) -> Option<Duration>
    ensures never { sooner nearest opens ≡ None → result ≡ None }
    ensures time { (until : ℕ) → sooner nearest opens ≡ Some until
        → (wait : DurationOf) × (result ≡ Some wait) × (as_nanos wait ≡ (until - now) * 1000000) }
{
    let until = sooner(nearest, opens)?;
    Some(Duration::from_millis(until.saturating_sub(now)))
}

/// The sooner of two moments, of which each may be missing.
fn sooner(nearest: Option<u64>, opens: Option<u64>) -> Option<u64>
    ensures { result ≡ sooner nearest opens }
{
    match (nearest, opens) {
        (Some(nearest), Some(opens)) => Some(nearest.min(opens)),
        (Some(nearest), None) => Some(nearest),
        (None, opens) => opens,
    }
}

/// Goes on with the peers whose connections are ready.
fn hear<'a, C: Clock, T, E, A: Answerer<T, E>>(
    events: &Events,
    hall: &mut Hall<Socket<'a>>,
    ticks: &Ticks<'_, C>,
    door: &mut Door,
    answerer: &A,
    subject: &mut T,
) -> Result<(), Unserved<E>>
    ensures { (requests : List (List ℕ)) × Answers (A.answers answerer.now) requests subject.old subject.new }
{
    for event in events {
        let now = ticks.now()?;
        let token = event.token();
        if token == LISTENER {
            door.knock(now);
        } else if let Err(why) = hall.go_on(token.0, answerer, subject, now) {
            return Err(Unserved::Unanswered(why));
        }
    }
    Ok(())
}

/// Accepts connections that wait, but no more than a number of them, and goes on with each. Where that fails none is accepted for
/// a while.
fn accept_some<'a, C: Clock, T, E, A: Answerer<T, E>>(
    hall: &mut Hall<Socket<'a>>,
    ticks: &Ticks<'_, C>,
    entry: &mut Entry<'a>,
    answerer: &A,
    subject: &mut T,
) -> Result<(), Unserved<E>>
    ensures { (requests : List (List ℕ)) × Answers (A.answers answerer.now) requests subject.old subject.new }
{
    for _ in 0..MAX_ACCEPTED {
        let now = ticks.now()?;
        let Some(socket) = entry.next(now) else {
            break;
        };
        if let Err(why) = hall.admit(socket, answerer, subject, now) {
            return Err(Unserved::Unanswered(why));
        }
    }
    Ok(())
}

impl<'a> Entry<'a> {
    /// The next connection, if one waits and is to be accepted. Where that fails the door says what follows.
    fn next(&mut self, now: u64) -> Option<Socket<'a>> {
        if !self.door.is_open(now) {
            return None;
        }
        match self.listener.accept() {
            Ok((stream, _)) => {
                self.door.count();
                Some(Socket::new(stream, self.registry))
            }
            Err(e) => {
                self.door.fail(e.kind(), now);
                None
            }
        }
    }
}
