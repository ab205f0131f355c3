//! Readers and writers whose bytes and failed calls a contract sees.

ghost use Rattle.std.specs.Prelude.{◌≡◌, ◌+◌, ◌-◌, ◌<◌, ◌≤◌, length, take, IfOk, MatchResult, Some, vec_len, vec_capacity};
ghost use Rattle.std.specs.Io.KnownBytes.{Appends, Keeps, ReadConsumes};

use std::io::{Read, Write};
use std::marker::Brand;
use std::sync::ledger::{Blank, Book, Ledger, Share};

/// A call of a reader or a writer failed.
#[derive(Clone, Copy, Drop)]
pub struct Failed;

/// A reader.
pub trait Source {
    ghost use Rattle.std.specs.Prelude.{ℕ, List, Option};

    // The bytes that are still to come, where they are known: a socket doesn't tell its own.
    ghost left: { Self → Option (List ℕ) };

    // How many calls have failed so far.
    ghost failures: { Self → ℕ };

    /// Fills a beginning of the buffer, and says how long it is. It is empty only at the end of
    /// the bytes, or where the buffer has no room. Errors: the call failed.
    fn get(&mut self, buf: &mut [u8]) -> Result<usize, Failed>
        ensures room { IfOk result (λ n. n ≤ length buf.new) }
        ensures bytes { ReadConsumes (left self.old) (left self.new) result buf.new }
        ensures count { MatchResult result
            (λ _. failures self.new ≡ failures self.old)
            (λ _. failures self.new ≡ failures self.old + 1) };
}

/// A writer.
pub trait Sink {
    ghost use Rattle.std.specs.Prelude.{ℕ, List, Option};

    // The bytes that were written so far, where they are known.
    ghost written: { Self → Option (List ℕ) };

    // How many calls have failed so far.
    ghost failures: { Self → ℕ };

    // How many bytes it is sure to take still: no call fails that hands it no more.
    ghost room: { Self → ℕ };

    /// Writes a beginning of the bytes that isn't empty, and says how long it is. Errors: the
    /// call failed, and wrote nothing.
    fn put(&mut self, bytes: &[u8]) -> Result<usize, Failed>
        requires { 0 < length bytes.now }
        ensures within { IfOk result (λ n. (0 < n) × (n ≤ length bytes.now)) }
        ensures bytes { MatchResult result
            (λ n. Appends (written self.old) (written self.new) (take n bytes.now))
            (λ _. Keeps (written self.old) (written self.new)) }
        ensures count { MatchResult result
            (λ _. failures self.new ≡ failures self.old)
            (λ _. failures self.new ≡ failures self.old + 1) }
        ensures room { MatchResult result
            (λ n. room self.old ≤ room self.new + n)
            (λ _. room self.old < length bytes.now) };
}

/// A reader or a writer of std as a `Source` or a `Sink`, with its bytes.
///
/// Any error of it is a failed call, an interruption too, and so is a write that takes nothing;
/// nothing is tried again. The ledger counts the failed calls, without a bound and without
/// taking room: it is there for contracts alone.
///
/// A request's head is asked for one byte a call, so a socket is best given with a buffer, as
/// `Link<BufReader<TcpStream>>`. What the buffer takes over the request's end is lost with it; that
/// does no harm where a connection carries one request.
#[derive(Drop)]
pub struct Link<T, L: Ledger = Brand> {
    inner: T,
    book: Book<L>,
    share: Share<L>,
    ghost whole: { 0 < share.parts },
}

impl<T, L: Ledger> Link<T, L> {
    ghost use Rattle.ci_http_messages.specs.Blanks.{OpensWhole};

    /// A link that has seen no failed call.
    pub fn new(inner: T, blank: Blank) -> Self
        requires { OpensWhole blank.name blank.parts L.name L.parts }
        ensures inner { result.inner ≡ inner }
        ensures count { result.book.total ≡ 0 }
    {
        let (book, share) = blank.open::<L>();
        Link { inner, book, share }
    }

    /// What the link reads from or writes to.
    pub fn into_inner(self) -> T
        ensures { result ≡ self.inner }
    {
        let Self {
            inner,
            book: _,
            share: _,
        } = self;
        inner
    }
}

impl<T: Read, L: Ledger> Source for Link<T, L> {
    ghost left = { λ l. T.remaining l.inner };

    ghost failures = { λ l. l.book.total };

    fn get(&mut self, buf: &mut [u8]) -> Result<usize, Failed> {
        match self.inner.read(buf) {
            Ok(n) => Ok(n),
            Err(_) => {
                self.book.add(&mut self.share, 1);
                Err(Failed)
            }
        }
    }
}

impl<T: Write, L: Ledger> Sink for Link<T, L> {
    ghost written = { λ l. T.contents l.inner };

    ghost failures = { λ l. l.book.total };

    // a writer of std promises none
    ghost room = { λ l. 0 };

    fn put(&mut self, bytes: &[u8]) -> Result<usize, Failed> {
        match self.inner.write(bytes) {
            Ok(n) if 0 < n => Ok(n),
            _ => {
                self.book.add(&mut self.share, 1);
                Err(Failed)
            }
        }
    }
}

/// A text in memory as a `Sink`. It takes what it has room for without memory; for more it asks, and a call fails where that is
/// refused. The ledger counts these calls, as a `Link`'s does.
#[derive(Drop)]
pub struct Buffer<L: Ledger = Brand> {
    text: Vec<u8>,
    book: Book<L>,
    share: Share<L>,
    ghost whole: { 0 < share.parts },
}

impl<L: Ledger> Buffer<L> {
    ghost use Rattle.ci_http_messages.specs.Blanks.{OpensWhole};

    /// A buffer that goes on from a text, with the room that this has, and has seen no failed call.
    pub fn new(text: Vec<u8>, blank: Blank) -> Self
        requires { OpensWhole blank.name blank.parts L.name L.parts }
        ensures text { result.text ≡ text }
        ensures count { result.book.total ≡ 0 }
    {
        let (book, share) = blank.open::<L>();
        Buffer { text, book, share }
    }

    /// The text, with all that was written.
    pub fn into_text(self) -> Vec<u8>
        ensures { result ≡ self.text }
    {
        let Self {
            text,
            book: _,
            share: _,
        } = self;
        text
    }
}

impl<L: Ledger> Sink for Buffer<L> {
    ghost written = { λ b. Some b.text.items };

    ghost failures = { λ b. b.book.total };

    ghost room = { λ b. vec_capacity b.text - vec_len b.text };

    fn put(&mut self, bytes: &[u8]) -> Result<usize, Failed> {
        match self.text.extend_from_slice(bytes) {
            Ok(()) => Ok(bytes.len()),
            Err(_) => {
                self.book.add(&mut self.share, 1);
                Err(Failed)
            }
        }
    }
}
