//! What is the matter with a file that can't be used. It is only told, and nothing depends on it.

use ci_cli_words::line::{Line, say};
use ci_store_sqlite::tables::OpenFault;
use std::fs::{self, OpenOptions};
use std::io::{self, ErrorKind, Read, Write};

/// The bytes with which a file of SQLite begins.
const MAGIC: [u8; 16] = *b"SQLite format 3\0";

/// What is the matter with a file, as far as it can be told.
#[derive(Clone, Copy)]
pub enum Cause {
    /// It isn't there, or its folder isn't.
    Missing,
    /// It may not be read and written, or a folder on the way to it not be entered.
    Forbidden,
    /// It is a folder.
    Folder,
    /// It doesn't begin as a database of SQLite.
    NoDatabase,
    /// Another process uses it.
    InUse,
    /// Something else.
    Unknown,
}

impl Cause {
    /// What an error of the system says of a file.
    pub fn of(error: &io::Error) -> Cause {
        match error.kind() {
            ErrorKind::NotFound | ErrorKind::NotADirectory => Cause::Missing,
            ErrorKind::PermissionDenied | ErrorKind::ReadOnlyFilesystem => Cause::Forbidden,
            ErrorKind::IsADirectory => Cause::Folder,
            _ => Cause::Unknown,
        }
    }

    /// What is said of it.
    pub fn as_str(self) -> &'static str {
        match self {
            Cause::Missing => "there is no such file or folder",
            Cause::Forbidden => "it may not be read and written",
            Cause::Folder => "it is a folder",
            Cause::NoDatabase => "it is no database of SQLite",
            Cause::InUse => "another process uses it",
            Cause::Unknown =>
                "it is no whole database of this program, or a call of the system failed",
        }
    }
}

/// Why a server's file isn't made or opened.
#[derive(Clone, Copy)]
pub struct Unopened {
    pub line: Line,
    pub cause: Cause,
}

impl Unopened {
    /// The file can't be used, for this cause.
    pub fn by(cause: Cause) -> Unopened {
        Unopened {
            line: Line::NotOpened(OpenFault::O3),
            cause,
        }
    }

    /// What this line says.
    pub fn with(line: Line) -> Unopened {
        Unopened {
            line,
            cause: Cause::Unknown,
        }
    }
}

/// Prints the line that says why a file isn't opened, and gives the exit status. Where it can't be used, `errors` is told the cause.
pub fn say_unopened<O: Write, E: Write>(
    output: &mut O,
    errors: &mut E,
    path: &str,
    unopened: Unopened,
) -> u8 {
    let status = say(output, unopened.line);
    if let Line::NotOpened(OpenFault::O3) = unopened.line {
        let cause = unopened.cause.as_str();
        // Nothing depends on whether this can be written.
        let _ = writeln!(errors, "{path}: {cause}");
    }
    status
}

/// Looks what is the matter with a file that couldn't be used.
pub fn cause_at(rt: &HostRuntime, path: &str) -> Cause {
    match fs::metadata(rt, path) {
        Ok(found) if found.is_dir() => Cause::Folder,
        Ok(_) => match begins_as_database(rt, path) {
            Ok(true) => Cause::Unknown,
            Ok(false) => Cause::NoDatabase,
            Err(error) => Cause::of(&error),
        },
        Err(error) => Cause::of(&error),
    }
}

/// Does a file begin as a database of SQLite? Errors: it can't be opened as the server's file is, or not be read.
fn begins_as_database(rt: &HostRuntime, path: &str) -> io::Result<bool> {
    let mut options = OpenOptions::new();
    options.read(true).write(true);
    let mut file = options.open(rt, path)?;
    let mut bytes = [0; 16];
    match file.read_exact(&mut bytes) {
        Ok(()) => Ok(bytes == MAGIC),
        Err(error) if error.kind() == ErrorKind::UnexpectedEof => Ok(false),
        Err(error) => Err(error),
    }
}
