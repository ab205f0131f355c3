//! The file of a server.

use crate::blank::first_page;
use crate::cause::{Cause, Unopened, cause_at};
use ci_cli_words::line::Line;
use ci_cli_words::task::LogLevel;
use ci_http::Server;
use ci_store_sqlite::tables::OpenFault;
use sqlite::{Connection, Error, ErrorCode, File, FileStore};
use std::alloc::{AllocError, Global};
use std::fs::{self, OpenOptions};
use std::io::{self, Write};
use std::os::unix::fs::OpenOptionsExt;

/// The access of a file that its owner alone may read and write.
const OWNER_ALONE: u32 = 0o600;

/// It reads the jobs of these two statuses alone, by their index: 1 is `pending`, 2 `running`.
const COUNT_UNDER_WAY: &str =
    "SELECT COUNT(DISTINCT job.pipeline) FROM board JOIN job ON job.id = board.job WHERE board.status BETWEEN 1 AND 2";

/// A server over a file.
pub type FileServer = Server<FileStore<File>>;

/// Makes a server's file at a path. It is made whole under another name, and then given its own: so what a failure or a stop leaves is no file
/// that the next call would refuse. Errors: the line that says why it isn't made; a file that is there, or the log of one that was, stays as it is.
pub fn make(rt: &HostRuntime, path: &str) -> Result<(), Unopened> {
    let Ok(making) = Making::of(rt.alloc(), path) else {
        return Err(Unopened::with(Line::NoMemory));
    };
    if is_there(rt, path)? || is_there(rt, making.log.as_str())? {
        return Err(Unopened::with(Line::FileExists));
    }
    // What a call that was stopped left.
    making.remove(rt);
    let made = making.make(rt, path);
    making.remove(rt);
    made
}

/// Is there a file of this name? Errors: why that can't be told.
fn is_there(rt: &HostRuntime, path: &str) -> Result<bool, Unopened> {
    match fs::exists(rt, path) {
        Ok(found) => Ok(found),
        Err(error) => Err(Unopened::by(Cause::of(&error))),
    }
}

/// The names that a file has while it is made.
#[derive(Drop)]
struct Making {
    /// That of its log, once it is made.
    log: String,
    /// Its own, until it is made.
    unfinished: String,
    /// That of its log until then.
    unfinished_log: String,
}

impl Making {
    /// Errors: memory was refused.
    fn of(alloc: Global, path: &str) -> Result<Making, AllocError> {
        Ok(Making {
            log: format!(in alloc; "{path}-wal")?,
            unfinished: format!(in alloc; "{path}.new")?,
            unfinished_log: format!(in alloc; "{path}.new-wal")?,
        })
    }

    /// Makes it, and gives it its name once its log holds nothing. It has the tokens, so none but its owner may read it. Errors: the line that
    /// says why it isn't made.
    fn make(&self, rt: &HostRuntime, path: &str) -> Result<(), Unopened> {
        if let Err(error) = self.claim(rt) {
            return Err(Unopened::by(Cause::of(&error)));
        }
        let server = match Server::create(connect(rt, self.unfinished.as_str())?) {
            Ok(server) => server,
            Err((fault, _)) => return Err(Unopened::with(Line::NotOpened(fault))),
        };
        if server.close().close().is_err() {
            return Err(Unopened::by(Cause::Unknown));
        }
        match fs::rename(rt, self.unfinished.as_str(), path) {
            Ok(()) => Ok(()),
            Err(error) => Err(Unopened::by(Cause::of(&error))),
        }
    }

    /// Makes a file of a database that has no table, which its owner alone may read and write.
    fn claim(&self, rt: &HostRuntime) -> io::Result<()> {
        let mut options = OpenOptions::new();
        options.write(true).create_new(true).mode(OWNER_ALONE);
        let mut file = options.open(rt, self.unfinished.as_str())?;
        file.write_all(first_page().as_slice())
    }

    /// Removes what there is of an unfinished one.
    fn remove(&self, rt: &HostRuntime) {
        let _ = fs::remove_file(rt, self.unfinished.as_str());
        let _ = fs::remove_file(rt, self.unfinished_log.as_str());
    }
}

/// Opens the server's file at a path, has its server used, and lets it go. One of version 1 is made one of version 2. Where it is to be told, `work`
/// gets how many pipelines are under way, if that can be read. Gives what `work` does. Errors: why the file isn't opened; one that isn't there isn't made.
///
/// All that a server answered is in its files already: closing joins the log with the file, and does no harm where that fails.
pub fn with_server<T: Drop, F: FnOnce(&mut FileServer, Option<u64>) -> T + Drop>(
    rt: &HostRuntime,
    path: &str,
    log: LogLevel,
    work: F,
) -> Result<T, Unopened>
    requires { F.IsAlwaysCallable work }
{
    let mut conn = connect_to(rt, path)?;
    let count = if log.has_events() {
        under_way(&mut conn)
    } else {
        None
    };
    let fault = match Server::open(conn) {
        Ok(mut server) => {
            let done = work(&mut server, count);
            let _ = server.close().close();
            return Ok(done);
        }
        Err((fault, _)) => fault,
    };
    Err(Unopened {
        line: Line::NotOpened(fault),
        cause: cause_at(rt, path),
    })
}

/// How many pipelines have a job that is pending or running. None where that can't be read.
fn under_way(conn: &mut Connection<FileStore<File>>) -> Option<u64> {
    let row = conn.query_row(COUNT_UNDER_WAY, &[]).ok()?;
    let count: i64 = row.get(0).ok()?;
    u64::try_from(count).ok()
}

/// Errors: why the file can't be used, also where it isn't there: it isn't made.
fn connect_to(rt: &HostRuntime, path: &str) -> Result<Connection<FileStore<File>>, Unopened> {
    if !is_there(rt, path)? {
        return Err(Unopened::by(Cause::Missing));
    }
    connect(rt, path)
}

/// Errors: why the file can't be used.
fn connect(rt: &HostRuntime, path: &str) -> Result<Connection<FileStore<File>>, Unopened> {
    match Connection::open(rt, path) {
        Ok(conn) => Ok(conn),
        Err(Error::SqliteFailure(ErrorCode::OutOfMemory)) => Err(Unopened::with(Line::NoMemory)),
        Err(Error::SqliteFailure(ErrorCode::DatabaseBusy)) => Err(Unopened::by(Cause::InUse)),
        Err(_) => Err(Unopened::by(cause_at(rt, path))),
    }
}
