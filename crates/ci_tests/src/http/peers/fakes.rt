//! Connections that are ready when a test says so, and what answers them.

use ci_http_peers::answerer::Answerer;
use ci_http_peers::wire::Wire;
use std::alloc::Global;
use std::cell::Cell;
use std::io::{self, ErrorKind};

/// What a peer does, and what its connection saw.
#[derive(Drop)]
pub(crate) struct Line {
    /// How many bytes have come that are still to be taken.
    pub(crate) came: Cell<usize>,
    /// Does the peer send no more?
    pub(crate) closed: Cell<bool>,
    /// How many bytes the peer has room for.
    pub(crate) room: Cell<usize>,
    /// How many bytes were sent.
    pub(crate) sent: Cell<usize>,
    /// Was the peer told that nothing more is sent?
    pub(crate) ended: Cell<bool>,
    /// Is the connection open?
    pub(crate) open: Cell<bool>,
}

/// A connection to such a peer.
pub(crate) struct Fake<'a> {
    line: &'a Line,
}

impl Line {
    /// A peer that has sent so many bytes, and has room for so many.
    pub(crate) fn new(came: usize, room: usize) -> Line {
        Line {
            came: Cell::new(came),
            closed: Cell::new(false),
            room: Cell::new(room),
            sent: Cell::new(0),
            ended: Cell::new(false),
            open: Cell::new(true),
        }
    }

    /// The peer's connection.
    pub(crate) fn connect(&self) -> Fake<'_> {
        Fake { line: self }
    }
}

impl<'a> Drop for Fake<'a> {
    fn drop(self) {
        let Self { line } = self;
        line.open.set(false);
    }
}

impl<'a> Wire for Fake<'a> {
    fn receive(&mut self, buf: &mut [u8]) -> io::Result<usize> {
        let came = self.line.came.get();
        let count = came.min(buf.len());
        if came == 0 && !self.line.closed.get() {
            return Err(ErrorKind::WouldBlock.into());
        }
        self.line.came.set(came.saturating_sub(count));
        Ok(count)
    }

    fn send(&mut self, bytes: &[u8]) -> io::Result<usize> {
        let room = self.line.room.get();
        let count = room.min(bytes.len());
        if count == 0 {
            return Err(ErrorKind::WouldBlock.into());
        }
        self.line.room.set(room.saturating_sub(count));
        self.line
            .sent
            .set(self.line.sent.get().saturating_add(count));
        Ok(count)
    }

    fn end(&mut self) {
        self.line.ended.set(true);
    }

    fn listen(&mut self, _place: usize) -> io::Result<()> {
        Ok(())
    }
}

/// Answers each request, which has ten bytes, by a reply of so many, and counts those that it answered and was asked for the size
/// of.
#[derive(Drop)]
pub(crate) struct Parrot {
    pub(crate) alloc: Global,
    pub(crate) reply: usize,
    /// How often it was asked how many bytes a request takes.
    pub(crate) asked: Cell<u32>,
}

/// How many requests are answered before the next can't be.
pub(crate) type Left = u32;

impl Answerer<Left, &'static str> for Parrot {
    fn bytes_due(&self, bytes: &[u8]) -> Option<usize> {
        self.asked.set(self.asked.get().saturating_add(1));
        if bytes.len() < 4 { None } else { Some(10) }
    }

    fn answer(&self, subject: &mut Left, _bytes: &[u8]) -> Result<Option<Vec<u8>>, &'static str> {
        if *subject == 0 {
            return Err("no more");
        }
        *subject -= 1;
        Ok(Vec::from_elem(self.alloc, b'x', self.reply).ok())
    }

    fn is_over(&self, _subject: &Left) -> bool {
        false
    }
}
