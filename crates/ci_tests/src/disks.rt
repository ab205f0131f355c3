//! Two disks in memory, of a log that may fail and of a database file, and what a stop leaves of them.

use sqlite::{Alter, Connection, FileStore, Files, Options};
use sqlite_disk::{Crash, Disk, Fuse, Memory};
use std::alloc::{AllocError, Global};

/// A store on such disks.
pub type OnDisks = FileStore<Fuse<Memory>>;

/// So many calls let all through.
pub const ALL_CALLS: u64 = u64::MAX;

/// More pages than the tables of a test have. A connection clears room for all as it opens, which takes long where nothing is optimized.
const CACHED_PAGES: usize = 50;

/// What stands on the two files of a store.
#[derive(Drop)]
pub struct Image {
    log: Vec<u8>,
    db: Vec<u8>,
}

fn copy_of(alloc: Global, bytes: &[u8]) -> Result<Vec<u8>, AllocError> {
    let mut copy = Vec::new(alloc);
    copy.extend_from_slice(bytes)?;
    Ok(copy)
}

/// A disk with these bytes, all of which a stop leaves.
fn disk_of(alloc: Global, bytes: &[u8]) -> Option<Memory> {
    let mut disk = Memory::new(alloc);
    let written = disk.write_at(0, bytes).and_then(|()| disk.sync());
    match written {
        Ok(()) => Some(disk),
        Err(_) => None,
    }
}

impl Image {
    /// Files that have nothing.
    pub fn blank(alloc: Global) -> Image {
        Image {
            log: Vec::new(alloc),
            db: Vec::new(alloc),
        }
    }

    /// Do the files have the same bytes as others?
    pub fn is_same(&self, other: &Image) -> bool {
        self.log.as_slice() == other.log.as_slice() && self.db.as_slice() == other.db.as_slice()
    }

    fn of(alloc: Global, files: &Files<Fuse<Memory>>) -> Result<Image, AllocError> {
        Ok(Image {
            log: copy_of(alloc, files.log.inner().bytes())?,
            db: copy_of(alloc, files.db.inner().bytes())?,
        })
    }

    /// The connection of files with that, if they open. So many calls of the log go through, from the opening on; each one behind them fails and
    /// changes nothing.
    pub fn connect(&self, alloc: Global, calls: u64) -> Option<Connection<OnDisks>> {
        let files = Files {
            log: Fuse::new(disk_of(alloc, self.log.as_slice())?, calls),
            db: Fuse::new(disk_of(alloc, self.db.as_slice())?, ALL_CALLS),
        };
        if !files.may_be_used() {
            return None;
        }
        let mut options = Options::new(1);
        options.cache_pages = CACHED_PAGES;
        Connection::open_files(alloc, files, options).ok()
    }
}

/// What the files of a connection have that is closed in good order.
pub fn closed(alloc: Global, conn: Connection<OnDisks>) -> Option<Image> {
    match conn.close_files() {
        Ok(files) => Image::of(alloc, &files).ok(),
        Err((_, store)) => {
            drop(store.close());
            None
        }
    }
}

/// What a stop leaves.
#[derive(Drop)]
pub struct Remains {
    /// The program alone was stopped: what it wrote stays.
    pub program: Image,
    /// The machine was: what wasn't synced is lost.
    pub machine: Image,
}

/// What a stop leaves of the files of a connection.
pub fn stopped(alloc: Global, conn: Connection<OnDisks>) -> Result<Remains, AllocError> {
    let mut files = conn.into_store().close();
    let program = Image::of(alloc, &files)?;
    files.log.crash();
    files.db.crash();
    Ok(Remains {
        program,
        machine: Image::of(alloc, &files)?,
    })
}

/// Lets a connection go, with its store.
pub fn discard<S: Alter + Drop>(conn: Connection<S>) {
    drop(conn);
}
