//! One peer's connection, with the bytes of its request or of its reply.

ghost use Rattle.std.specs.Prelude.{◌≡◌, ◌≢◌, ◌<◌, ◌≤◌, ℕ, [], drop, length, Result, Some, None, true, false, IsOk, IsTrue, ◌↔◌};
ghost use Rattle.std.specs.IoError.{error_kind};
ghost use Rattle.std.specs.declared.io.Error.{Error as WhyNot};
ghost use Rattle.std.specs.declared.io.ErrorKind.TheVariants.{WouldBlock, Interrupted};

use crate::answerer::Answerer;
use crate::wire::Wire;
use std::alloc::Global;
use std::io::{self, ErrorKind};

/// How much of what a peer still sends after its reply is taken, in bytes.
const MAX_DRAINED_BYTES: usize = 262_144;

/// What came of a call on a connection.
pub(crate) enum Step {
    /// There is more to do at once.
    Again,
    /// The request is whole.
    Whole,
    /// The reply went as a whole.
    Went,
    /// The connection isn't ready.
    Waits,
    /// The connection is over.
    Over,
}

/// A connection, with the bytes of its request so far, or of its reply.
#[derive(Drop)]
pub(crate) struct Chair<W> {
    wire: W,
    bytes: Vec<u8>,
    /// How many bytes of the reply went, or came after it.
    count: usize,
    /// How many bytes the request takes, once that is known.
    due: Option<usize>,
    /// Did just the request come, and not a byte behind it?
    is_exact: bool,
    /// Does the loop hear of it?
    is_heard: bool,
}

impl<W: Wire> Chair<W> {
    ghost use Rattle.ci_http_peers.specs.Connections.{AfterError, Drains, IsAsBefore, IsAsBeforeBut, Reads, Writes};

    /// A connection whose request is yet to come.
    pub(crate) fn new(alloc: Global, wire: W) -> Chair<W>
        ensures wire { result.wire ≡ wire }
        ensures bytes { result.bytes.items ≡ [] }
        ensures count { result.count ≡ 0 }
        ensures due { result.due ≡ None }
        ensures exact { result.is_exact ≡ false }
        ensures heard { result.is_heard ≡ false }
    {
        Chair {
            wire,
            bytes: Vec::new(alloc),
            count: 0,
            due: None,
            is_exact: false,
            is_heard: false,
        }
    }

    /// The bytes of its request so far.
    pub(crate) fn request(&self) -> &[u8]
        ensures { result.now ≡ self.now.bytes.items }
    {
        self.bytes.as_slice()
    }

    /// From now on this reply goes.
    pub(crate) fn reply(&mut self, reply: Vec<u8>)
        ensures { self.new ≡ record self.old { bytes = reply; count = 0 } }
    {
        self.bytes = reply;
        self.count = 0;
    }

    /// Takes bytes of the request.
    pub(crate) fn read<T, E, A: Answerer<T, E>>(&mut self, scratch: &mut [u8], answerer: &A) -> Step
        ensures { (got : Result ℕ WhyNot) × W.receives self.old.wire self.new.wire got scratch.new
            × Reads self.old self.new result (A.says_due answerer.now) got scratch.new }
    {
        let count = match self.wire.receive(scratch) {
            Ok(0) => return Step::Over,
            Ok(count) => count,
            Err(e) => return failed(&e),
        };
        if self.bytes.extend_from_slice(&scratch[..count]).is_err() {
            return Step::Over;
        }
        if self.due.is_none() {
            self.due = answerer.bytes_due(self.bytes.as_slice());
        }
        match self.due {
            Some(due) if due <= self.bytes.len() => {
                self.is_exact = due == self.bytes.len();
                Step::Whole
            }
            _ => Step::Again,
        }
    }

    /// Is the connection over once the reply went? It is where the peer sent its whole request and no more. Else it may be
    /// sending still, and were the connection closed then, the reply could be lost on its way.
    pub(crate) fn ends_with_reply(&self) -> bool
        ensures { result ≡ self.now.is_exact }
    {
        self.is_exact
    }

    /// Sends bytes of the reply.
    pub(crate) fn write(&mut self) -> Step
        // All went before: nothing is sent.
        ensures went { self.old.count ≡ length self.old.bytes.items → (result ≡ Step.Went) × (self.new ≡ self.old) }
        // What is left of the reply is offered, and nothing else.
        ensures sends { self.old.count < length self.old.bytes.items → (got : Result ℕ WhyNot)
            × W.sends self.old.wire (drop self.old.count self.old.bytes.items) self.new.wire got
            × Writes self.old self.new result (drop self.old.count self.old.bytes.items) got }
        ensures past { length self.old.bytes.items < self.old.count → (result ≡ Step.Over) × (self.new ≡ self.old) }
    {
        let Some(rest) = self.bytes.as_slice().get(self.count..) else {
            return Step::Over;
        };
        let len = rest.len();
        if len == 0 {
            return Step::Went;
        }
        match self.wire.send(rest) {
            Ok(0) => Step::Over,
            Ok(count) if count < len => {
                self.count = self.count.saturating_add(count);
                Step::Again
            }
            Ok(_) => Step::Went,
            Err(e) => failed(&e),
        }
    }

    /// Tells the peer that its reply is whole. Where the loop doesn't hear of it yet, it does once more comes.
    pub(crate) fn end(&mut self) -> Step
        ensures told { W.ends self.old.wire self.new.wire }
        ensures bytes { self.new.bytes.items ≡ [] }
        ensures count { self.new.count ≡ 0 }
        ensures heard { self.new.is_heard ≡ self.old.is_heard }
        ensures again { self.old.is_heard ≡ true → result ≡ Step.Again }
        ensures waits { self.old.is_heard ≡ false → result ≡ Step.Waits }
    {
        self.wire.end();
        self.bytes.clear();
        self.count = 0;
        if self.is_heard {
            Step::Again
        } else {
            Step::Waits
        }
    }

    /// Takes what comes after the reply.
    pub(crate) fn drain(&mut self, scratch: &mut [u8]) -> Step
        ensures { (got : Result ℕ WhyNot) × W.receives self.old.wire self.new.wire got scratch.new
            × Drains self.old self.new result got }
    {
        match self.wire.receive(scratch) {
            Ok(0) => Step::Over,
            Ok(count) => {
                self.count = self.count.saturating_add(count);
                if self.count < MAX_DRAINED_BYTES {
                    Step::Again
                } else {
                    Step::Over
                }
            }
            Err(e) => failed(&e),
        }
    }

    /// Has the loop hear of it, under its place. Errors: the system refused.
    pub(crate) fn listen(&mut self, place: usize) -> io::Result<()>
        ensures once { self.old.is_heard ≡ true → IsOk result × (self.new ≡ self.old) }
        ensures first { self.old.is_heard ≡ false → W.listens self.old.wire place self.new.wire result }
        ensures heard { IsOk result ↔ IsTrue self.new.is_heard }
        ensures bytes { self.new.bytes.items ≡ self.old.bytes.items }
        ensures count { self.new.count ≡ self.old.count }
        ensures due { self.new.due ≡ self.old.due }
        ensures exact { self.new.is_exact ≡ self.old.is_exact }
    {
        if !self.is_heard {
            self.wire.listen(place)?;
            self.is_heard = true;
        }
        Ok(())
    }
}

/// What a failed call means.
fn failed(error: &io::Error) -> Step
    ensures waits { error_kind error.now ≡ WouldBlock → result ≡ Step.Waits }
    ensures again { error_kind error.now ≡ Interrupted → result ≡ Step.Again }
    ensures over { error_kind error.now ≢ WouldBlock → error_kind error.now ≢ Interrupted → result ≡ Step.Over }
{
    match error.kind() {
        ErrorKind::WouldBlock => Step::Waits,
        ErrorKind::Interrupted => Step::Again,
        _ => Step::Over,
    }
}
