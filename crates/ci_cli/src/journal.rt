//! What a server tells of itself on standard error, a line for each thing. Nothing depends on it: a line for which memory is refused, or that
//! can't be written, is lost.

use crate::cause::cause_at;
use crate::shown::{named_in, number_text, shown, status_in, time_text};
use ci_cli_words::line::Line;
use ci_cli_words::task::LogLevel;
use ci_http::log::Log;
use ci_machine::records::cause_text;
use ci_machine::reply::Swept;
use std::alloc::{AllocError, Global};
use std::cell::RefCell;
use std::io::Write;
use std::time::{Clock, Duration, Instant};

/// The journal of the server of a file.
#[derive(Drop)]
pub struct Journal<'a, E> {
    rt: &'a HostRuntime,
    file: &'a str,
    level: LogLevel,
    pen: RefCell<Pen<'a, E>>,
}

/// Where lines go, and those that are still to be written.
#[derive(Drop)]
struct Pen<'a, E> {
    errors: &'a mut E,
    lines: String,
}

/// It tells a journal of sweeps.
#[derive(Drop)]
pub struct Teller<'a, 'b, E> {
    pub journal: &'a Journal<'b, E>,
}

impl<'a, E: Write> Journal<'a, E> {
    /// A journal that has no line yet.
    pub fn new(
        rt: &'a HostRuntime,
        file: &'a str,
        level: LogLevel,
        errors: &'a mut E,
    ) -> Journal<'a, E> {
        let lines = String::new(rt.alloc());
        Journal {
            rt,
            file,
            level,
            pen: RefCell::new(Pen { errors, lines }),
        }
    }

    /// The moment, if it is to be told how long a request took.
    pub fn start_of_request<C: Clock>(&self, clock: &C) -> Option<Instant> {
        match self.level {
            LogLevel::Requests => Instant::now(clock).ok(),
            LogLevel::Nothing | LogLevel::Events => None,
        }
    }

    /// The file was opened. If it was migrated, it was of version 1. So many pipelines have a job that is pending or running, if that is known.
    pub fn say_opened(&self, was_migrated: bool, under_way: Option<u64>, time: Option<Duration>) {
        if self.level.has_events() {
            let alloc = self.rt.alloc();
            self.note(opened_line(alloc, self.file, was_migrated, under_way, time));
        }
    }

    /// The store failed.
    pub fn say_failed(&self) {
        if self.level.has_events() {
            let cause = cause_at(self.rt, self.file);
            self.note(format!(in self.rt.alloc(); "store failed: {}\n", cause.as_str()));
        }
    }

    /// The service is over, and this line says why.
    pub fn say_stopped(&self, line: Line) {
        if self.level.has_events() {
            self.note(format!(in self.rt.alloc(); "stopped: {line}"));
        }
    }

    /// The service is over, since all its connections were served.
    pub fn say_served(&self) {
        if self.level.has_events() {
            self.note(format!(in self.rt.alloc(); "stopped: all connections were served\n"));
        }
    }

    /// This request was answered so; none where its connection ended without a reply.
    pub fn say_request(&self, request: &[u8], reply: Option<&[u8]>, time: Option<Duration>) {
        match self.level {
            LogLevel::Requests => self.note(request_line(self.rt.alloc(), request, reply, time)),
            LogLevel::Nothing | LogLevel::Events => {}
        }
    }

    /// Writes the lines that are still to be written.
    pub fn write(&self) {
        if let Ok(mut pen) = self.pen.try_borrow_mut() {
            pen.write();
        }
    }

    /// One more line is to be written, if there was memory for it.
    fn note(&self, line: Result<String, AllocError>) {
        if let Ok(line) = line {
            if let Ok(mut pen) = self.pen.try_borrow_mut() {
                let _ = pen.lines.push_str(line.as_str());
            }
        }
    }
}

impl<'a, E: Write> Pen<'a, E> {
    fn write(&mut self) {
        if !self.lines.is_empty() {
            let _ = self.errors.write_all(self.lines.as_bytes());
            self.lines.clear();
        }
    }
}

impl<'a, 'b, E: Write> Log for Teller<'a, 'b, E> {
    ghost use Rattle.std.specs.Prelude.{⊤};

    // Nothing is known of what a file, a pipe or a terminal takes.
    ghost tells = { λ _ _ _. ⊤ };

    fn tell(&mut self, swept: Swept) {
        if self.journal.level.has_events() {
            self.journal
                .note(swept_line(self.journal.rt.alloc(), swept));
        }
    }
}

fn opened_line(
    alloc: Global,
    file: &str,
    was_migrated: bool,
    under_way: Option<u64>,
    time: Option<Duration>,
) -> Result<String, AllocError> {
    let file = shown(alloc, file.as_bytes())?;
    let version = if was_migrated { "2, which was 1" } else { "2" };
    let count = number_text(alloc, under_way.map(|count| u128::from(count)))?;
    let time = time_text(alloc, time)?;
    format!(in alloc; "opened {file}: version {version}, pipelines under way {count}, {time}\n")
}

fn swept_line(alloc: Global, swept: Swept) -> Result<String, AllocError> {
    match swept {
        Swept::Ended(attempt, cause) => {
            let cause = cause_text(cause);
            format!(in alloc; "ended attempt {attempt}: {cause}\n")
        }
        Swept::Cancelled(pipeline) => {
            format!(in alloc; "cancelled pipeline {pipeline}: redundant\n")
        }
        Swept::Nothing | Swept::Refused(_) => Ok(String::new(alloc)),
    }
}

/// The line of a request: its method, its path, the status of its reply, and how long it took.
fn request_line(
    alloc: Global,
    request: &[u8],
    reply: Option<&[u8]>,
    time: Option<Duration>,
) -> Result<String, AllocError> {
    let (method, path) = named_in(request);
    let method = shown(alloc, method)?;
    let path = shown(alloc, path)?;
    let status = shown(alloc, status_in(reply))?;
    let time = time_text(alloc, time)?;
    format!(in alloc; "request {method} {path} {status} {time}\n")
}
