//! The command line: what is done for it, and the exit status.

use crate::admin::request_of;
use crate::cause::say_unopened;
use crate::file::{make, with_server};
use crate::journal::Journal;
use crate::plan::plan;
use crate::prune::prune;
use crate::report::report;
use crate::server::{ask, is_closed, prepare, time_since, was_migrated};
use crate::serving::serve_connections;
use crate::sources::Sources;
use ci_cli_words::line::{BROKEN_OFF, DONE, Line, USAGE, say, say_reply};
use ci_cli_words::task::{AdminRequest, LogLevel, ServeOptions, Task};
use ci_cli_words::words::task_of;
use ci_explain::check::{check_word, exit_status};
use ci_explain::explain_word;
use ci_http::Server;
use ci_http_messages::routing::paths::Paths;
use ci_store_sqlite::Alter;
use clap::Error;
use clap::error::ErrorKind;
use mio::net::TcpListener;
use std::alloc::Global;
use std::io::{Read, Write};
use std::net::{Ipv4Addr, SocketAddr};
use std::random::RandomSource;
use std::time::{Clock, Duration, Instant};

/// How long a whole request may take to come, and a whole reply to be taken, in seconds.
const PATIENCE_SECONDS: u64 = 10;

/// Does what the words of a command line ask for, of which the first is the program's name, and gives the exit status: 0 where it
/// was done, 1 where it was refused, 2 where the words are no command line of this program, 3 where the store failed, a file or the
/// input can't be read, nothing can be heard, or what is to be said can't be written.
///
/// Faults are looked for in this order: in the words, the file, its store, the port, the clock, the request. What is printed with
/// status 2 goes to `errors`, and so does what is the matter with a file that can't be used, how far a long command is, where a
/// terminal shows it, and what a server is to log; every other line goes to `output`.
pub fn command<C: Clock, R: RandomSource, I: Read + Drop, O: Write, E: Write>(
    rt: &HostRuntime,
    words: &[String],
    sources: &Sources<'_, C, R>,
    input: I,
    output: &mut O,
    errors: &mut E,
) -> u8 {
    match task_of(rt.alloc(), words) {
        Ok(task) => perform(rt, &task, sources, input, output, errors),
        Err(error) if error.kind() == ErrorKind::OutOfMemory => refuse_memory(output),
        Err(error) => print_words(&error, output, errors),
    }
}

/// Says that memory was refused, and gives the exit status.
pub fn refuse_memory<O: Write>(output: &mut O) -> u8 {
    say(output, Line::NoMemory)
}

/// Prints what `clap` has to say: help or the version, which were asked for, or what is wrong with the words.
fn print_words<O: Write, E: Write>(error: &Error, output: &mut O, errors: &mut E) -> u8 {
    if error.use_stderr() {
        let _ = errors.write_fmt(error);
        return USAGE;
    }
    match output.write_fmt(error) {
        Ok(()) => DONE,
        Err(_) => BROKEN_OFF,
    }
}

fn perform<C: Clock, R: RandomSource, I: Read + Drop, O: Write, E: Write>(
    rt: &HostRuntime,
    task: &Task<'_>,
    sources: &Sources<'_, C, R>,
    input: I,
    output: &mut O,
    errors: &mut E,
) -> u8 {
    match task {
        Task::Check(file) => exit_status(&check_word(rt, rt.alloc(), file, input, output)),
        Task::Explain(file) => explain_word(rt, rt.alloc(), file, input, output),
        Task::Plan(options) => plan(rt, options, input, output),
        Task::Init(file) => init(rt, file, output, errors),
        Task::Migrate(file) => migrate(rt, file, output, errors),
        Task::Send(file, asked) => send(rt, file, *asked, sources, output, errors),
        Task::Report(file, kind, form) => report(rt, file, *kind, *form, output, errors),
        Task::Prune(file, before) => prune(rt, file, *before, sources, output, errors),
        Task::Serve(options) => serve(rt, *options, sources, output, errors),
    }
}

fn init<O: Write, E: Write>(rt: &HostRuntime, file: &str, output: &mut O, errors: &mut E) -> u8 {
    match make(rt, file) {
        Ok(()) => say(output, Line::Fine),
        Err(unopened) => say_unopened(output, errors, file, unopened),
    }
}

/// Opens a server's file, by which one of version 1 is made one of version 2, and says which it was of.
fn migrate<O: Write, E: Write>(rt: &HostRuntime, file: &str, output: &mut O, errors: &mut E) -> u8 {
    match with_server(
        rt,
        file,
        LogLevel::Nothing,
        |server, _| was_migrated(server),
    ) {
        Ok(true) => say(output, Line::Migrated),
        Ok(false) => say(output, Line::Current),
        Err(unopened) => say_unopened(output, errors, file, unopened),
    }
}

fn send<C: Clock, R: RandomSource, O: Write, E: Write>(
    rt: &HostRuntime,
    file: &str,
    asked: AdminRequest<'_>,
    sources: &Sources<'_, C, R>,
    output: &mut O,
    errors: &mut E,
) -> u8 {
    let sent = with_server(rt, file, LogLevel::Nothing, |server, _| {
        send_to(rt.alloc(), server, asked, sources, output)
    });
    match sent {
        Ok(status) => status,
        Err(unopened) => say_unopened(output, errors, file, unopened),
    }
}

/// Sends a server a request, and prints what it answers.
fn send_to<S: Alter, C: Clock, R: RandomSource, O: Write>(
    alloc: Global,
    server: &mut Server<S>,
    asked: AdminRequest<'_>,
    sources: &Sources<'_, C, R>,
    output: &mut O,
) -> u8 {
    let stamp = match sources.stamp() {
        Ok(stamp) => stamp,
        Err(line) => return say(output, line),
    };
    let Ok(request) = request_of(alloc, asked) else {
        return refuse_memory(output);
    };
    let reply = ask(alloc, server, request, stamp);
    say_reply(output, &reply)
}

fn serve<C: Clock, R: RandomSource, O: Write, E: Write>(
    rt: &HostRuntime,
    options: ServeOptions<'_>,
    sources: &Sources<'_, C, R>,
    output: &mut O,
    errors: &mut E,
) -> u8 {
    let start = start_of_opening(options.log, sources.clock);
    let served = with_server(rt, options.file, options.log, |server, under_way| {
        let journal = Journal::new(rt, options.file, options.log, errors);
        let time = time_since(start, sources.clock);
        journal.say_opened(was_migrated(server), under_way, time);
        journal.write();
        let status = listen(rt, server, options, sources, output, &journal);
        journal.write();
        status
    });
    match served {
        Ok(status) => status,
        Err(unopened) => say_unopened(output, errors, options.file, unopened),
    }
}

/// The moment, if it is to be told how long the opening took.
fn start_of_opening<C: Clock>(log: LogLevel, clock: &C) -> Option<Instant> {
    if log.has_events() {
        Instant::now(clock).ok()
    } else {
        None
    }
}

/// Listens at a port of 127.0.0.1, and serves its connections.
fn listen<S: Alter, C: Clock, R: RandomSource, O: Write, E: Write>(
    rt: &HostRuntime,
    server: &mut Server<S>,
    options: ServeOptions<'_>,
    sources: &Sources<'_, C, R>,
    output: &mut O,
    journal: &Journal<'_, E>,
) -> u8 {
    let address = SocketAddr::from((Ipv4Addr::LOCALHOST, options.port));
    let Ok(mut listener) = TcpListener::bind(rt, address) else {
        return end(output, journal, Line::CannotListen(options.port));
    };
    match Paths::new(rt.alloc()) {
        Ok(paths) => serve_listener(
            rt,
            &mut listener,
            server,
            &paths,
            options,
            sources,
            output,
            journal,
        ),
        Err(_) => end(output, journal, Line::NoMemory),
    }
}

/// Serves the connections of a listener. What a first poll needs is looked up before it says that it listens.
fn serve_listener<S: Alter, C: Clock, R: RandomSource, O: Write, E: Write>(
    rt: &HostRuntime,
    listener: &mut TcpListener,
    server: &mut Server<S>,
    paths: &Paths,
    options: ServeOptions<'_>,
    sources: &Sources<'_, C, R>,
    output: &mut O,
    journal: &Journal<'_, E>,
) -> u8 {
    prepare(rt.alloc(), server, journal);
    let heard = say(output, Line::Listening(options.port));
    if heard != DONE || output.flush().is_err() {
        return BROKEN_OFF;
    }
    let served = serve_connections(
        rt,
        rt.alloc(),
        listener,
        options.port,
        server,
        paths,
        sources,
        journal,
        Duration::from_secs(PATIENCE_SECONDS),
        options.requests,
        options.stops_on_fault,
    );
    match (is_closed(server), served) {
        (true, _) => end(output, journal, Line::Closed),
        (false, Err(line)) => end(output, journal, line),
        (false, Ok(())) => {
            journal.say_served();
            DONE
        }
    }
}

/// Says why a service is over, and gives the exit status.
fn end<O: Write, E: Write>(output: &mut O, journal: &Journal<'_, E>, line: Line) -> u8 {
    journal.say_stopped(line);
    say(output, line)
}
