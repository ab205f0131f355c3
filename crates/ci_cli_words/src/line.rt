//! The lines that the program prints on standard output, each with its exit status.

ghost use Rattle.std.specs.Prelude.{◌≡◌, ◌++◌, Some, IfOk, OnOk, OnErr, codes};
ghost use Rattle.std.specs.Io.KnownBytes.{Appends};
ghost use Rattle.ci_machine.specs.Prelude.{body_text};
ghost use Rattle.ci_cli_words.specs.Lines.{line_text, line_status, reply_status, told, Told};

use ci_machine::reply::{Code, Reply};
use ci_store_sqlite::tables::OpenFault;
use std::fmt;
use std::io::{self, Write};

/// The exit status where what was asked for was done.
pub const DONE: u8 = 0;

/// The exit status where it was refused, or memory was.
pub const REFUSED: u8 = 1;

/// The exit status of a command line that isn't understood.
pub const USAGE: u8 = 2;

/// The exit status where the store failed, the input can't be read, or what is to be said can't be written.
pub const BROKEN_OFF: u8 = 3;

/// What the program says in a line, where it isn't the body of a reply.
#[derive(Clone, Copy)]
pub enum Line {
    /// The file was made.
    Fine,
    /// The file was of version 1, and is of version 2 now.
    Migrated,
    /// The file was of version 2 already.
    Current,
    /// The program listens on this port.
    Listening(u16),
    /// There is a file where one was to be made.
    FileExists,
    /// The clock can't be read, or its moment is out of the limits.
    NoClock,
    /// The source of seeds failed.
    NoSeed,
    /// Memory was refused.
    NoMemory,
    /// There is no such pipeline.
    NoPipeline,
    /// The file wasn't opened as a store, for this fault.
    NotOpened(OpenFault),
    /// The store failed, and the server is closed.
    Closed,
    /// The program can't listen on this port.
    CannotListen(u16),
}

impl Line {
    /// The exit status of a run whose last line this is.
    pub fn status(self) -> u8
        ensures { result ≡ line_status self }
    {
        match self {
            Line::Fine | Line::Migrated | Line::Current | Line::Listening(_) => DONE,
            Line::FileExists | Line::NoClock | Line::NoSeed | Line::NoMemory | Line::NoPipeline =>
                REFUSED,
            Line::NotOpened(OpenFault::Memory) => REFUSED,
            Line::NotOpened(OpenFault::O1 | OpenFault::O2 | OpenFault::O3) => BROKEN_OFF,
            Line::Closed | Line::CannotListen(_) => BROKEN_OFF,
        }
    }
}

impl fmt::Display for Line {
    ghost output = { λ l. Some (line_text l) };

    fn fmt<W: fmt::Write>(&self, f: &mut fmt::Formatter<W>) -> fmt::Result {
        match *self {
            Line::Fine => writeln!(f, "ok"),
            Line::Migrated => writeln!(f, "migrated: 1 to 2"),
            Line::Current => writeln!(f, "version: 2"),
            Line::Listening(port) => writeln!(f, "listening on 127.0.0.1:{port}"),
            Line::FileExists => writeln!(f, "refused: file exists"),
            Line::NoClock => writeln!(f, "refused: clock"),
            Line::NoSeed => writeln!(f, "refused: seed"),
            Line::NoMemory | Line::NotOpened(OpenFault::Memory) => writeln!(f, "refused: M16"),
            Line::NoPipeline => writeln!(f, "refused: M3"),
            Line::NotOpened(OpenFault::O1) => writeln!(f, "store: O1"),
            Line::NotOpened(OpenFault::O2) => writeln!(f, "store: O2"),
            Line::NotOpened(OpenFault::O3) => writeln!(f, "store: O3"),
            Line::Closed => writeln!(f, "store: M17"),
            Line::CannotListen(port) => writeln!(f, "cannot listen on 127.0.0.1:{port}"),
        }
    }
}

/// Writes a line. Errors: a write failed.
fn write_line<W: Write>(output: &mut W, line: Line) -> io::Result<()>
    ensures { OnOk result (Appends (W.contents output.old) (W.contents output.new) (line_text line)) }
{
    output.write_fmt(line)
}

/// Prints a line, and gives the exit status of a run that ends with it: 3 where it can't be written.
pub fn say<W: Write>(output: &mut W, line: Line) -> u8
    ensures { Told (W.contents output.old) (W.contents output.new) (line_text line) (line_status line) result }
{
    status_of(write_line(output, line), line)
}

/// The exit status of a run, by whether its last line was written.
fn status_of(written: io::Result<()>, line: Line) -> u8
    ensures written { OnOk written (result ≡ line_status line) }
    ensures unwritten { OnErr written (result ≡ 3) }
{
    match written {
        Ok(()) => line.status(),
        Err(_) => BROKEN_OFF,
    }
}

/// Writes the body of a reply, as a line. Errors: a write failed.
fn write_body<W: Write>(output: &mut W, reply: &Reply) -> io::Result<()>
    ensures { OnOk result (Appends (W.contents output.old) (W.contents output.new) (body_text reply.now ++ codes "\n")) }
{
    output.write_all(reply.body())?;
    output.write_all(b"\n")
}

/// The exit status of a command that sent a request, by the code of its reply.
fn reply_status_of(code: Option<Code>) -> u8
    ensures { result ≡ reply_status code }
{
    match code {
        None => DONE,
        Some(Code::M17) => BROKEN_OFF,
        Some(_) => REFUSED,
    }
}

/// Prints what a command was answered, and gives its exit status: the body of the reply, but `store: M17` where the store failed.
pub fn say_reply<W: Write>(output: &mut W, reply: &Reply) -> u8
    ensures { Told (W.contents output.old) (W.contents output.new) (told reply.now) (reply_status reply.now.code) result }
{
    if reply.code == Some(Code::M17) {
        return say(output, Line::Closed);
    }
    match write_body(output, reply) {
        Ok(()) => reply_status_of(reply.code),
        Err(_) => BROKEN_OFF,
    }
}

/// Prints a report, and gives the exit status: 3 where it can't be written.
pub fn say_report<W: Write>(output: &mut W, text: &str) -> u8
    ensures { Told (W.contents output.old) (W.contents output.new) text.now 0 result }
{
    match output.write_all(text.as_bytes()) {
        Ok(()) => DONE,
        Err(_) => BROKEN_OFF,
    }
}
