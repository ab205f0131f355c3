//! Whether one more connection is to be accepted, and from when on.

ghost use Rattle.std.specs.Prelude.{◌≡◌, ◌≢◌, ◌<◌, ◌≤◌, ◌-◌, ◌↔◌, ℕ, Option, Some, None, IsTrue, false};
ghost use Rattle.std.specs.declared.io.ErrorKind.TheVariants.{ConnectionAborted, Interrupted, WouldBlock};
ghost use Rattle.ci_http_peers.specs.Peer.{until};

use std::io::ErrorKind;

/// How long nothing is accepted after an accept failed, in milliseconds.
pub(crate) const PAUSE_MILLIS: u64 = 100;

/// From when on the next connection is to be accepted, and how many are yet to be.
#[derive(Clone, Copy)]
pub struct Door {
    /// In milliseconds. None where no connection waits.
    opens: Option<u64>,
    left: u32,
}

impl Door {
    /// So many connections are to be accepted, and none waits.
    pub fn new(connections: u32) -> Door
        ensures { result ≡ record { opens = None; left = connections } }
    {
        Door {
            opens: None,
            left: connections,
        }
    }

    /// Were all connections accepted that are to be?
    pub fn is_done(&self) -> bool
        ensures { IsTrue result ↔ (self.now.left ≡ 0) }
    {
        self.left == 0
    }

    /// From when on a connection is to be accepted, in milliseconds, if any is.
    pub fn opens_at(&self) -> Option<u64>
        ensures done { self.now.left ≡ 0 → result ≡ None }
        ensures waits { 0 < self.now.left → result ≡ self.now.opens }
    {
        if 0 < self.left { self.opens } else { None }
    }

    /// Is a connection to be accepted now?
    pub fn is_open(&self, now: u64) -> bool
        ensures open { IsTrue result → (0 < self.now.left) × (opens : ℕ) × (self.now.opens ≡ Some opens) × (opens ≤ now) }
        ensures closed { (opens : ℕ) → 0 < self.now.left → self.now.opens ≡ Some opens → opens ≤ now → IsTrue result }
    {
        match self.opens_at() {
            Some(opens) => opens <= now,
            None => false,
        }
    }

    /// It was heard now that connections wait. A pause after a failure lasts.
    pub fn knock(&mut self, now: u64)
        ensures first { self.old.opens ≡ None → self.new.opens ≡ Some now }
        ensures pause { self.old.opens ≢ None → self.new.opens ≡ self.old.opens }
        ensures left { self.new.left ≡ self.old.left }
    {
        if self.opens.is_none() {
            self.opens = Some(now);
        }
    }

    /// Where the end has come no connection is accepted any more.
    pub fn close_if(&mut self, is_over: bool)
        ensures over { IsTrue is_over → self.new.left ≡ 0 }
        ensures goes_on { is_over ≡ false → self.new ≡ self.old }
    {
        if is_over {
            self.left = 0;
        }
    }

    /// A connection was accepted, or couldn't be.
    pub fn count(&mut self)
        ensures left { self.new.left ≡ self.old.left - 1 }
        ensures opens { self.new.opens ≡ self.old.opens }
    {
        self.left = self.left.saturating_sub(1);
    }

    /// No connection could be accepted now: none waits; or the call was interrupted, and is made again. Any other failure counts as a
    /// connection. Where its peer gave it up the next one may be accepted at once; else, as for want of descriptors, after a pause.
    pub fn fail(&mut self, kind: ErrorKind, now: u64)
        ensures none_waits { kind ≡ WouldBlock → (self.new.opens ≡ None) × (self.new.left ≡ self.old.left) }
        ensures interrupted { kind ≡ Interrupted → self.new ≡ self.old }
        ensures given_up { kind ≡ ConnectionAborted → (self.new.opens ≡ self.old.opens) × (self.new.left ≡ self.old.left - 1) }
        ensures pause { kind ≢ WouldBlock → kind ≢ Interrupted → kind ≢ ConnectionAborted
            → (self.new.opens ≡ Some (until now PAUSE_MILLIS)) × (self.new.left ≡ self.old.left - 1) }
    {
        match kind {
            ErrorKind::WouldBlock => self.opens = None,
            ErrorKind::Interrupted => {}
            ErrorKind::ConnectionAborted => self.count(),
            _ => {
                self.opens = Some(now.saturating_add(PAUSE_MILLIS));
                self.count();
            }
        }
    }
}
