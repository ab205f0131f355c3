//! What a peer is at, and until when.

ghost use Rattle.std.specs.Prelude.{◌≡◌, ◌<◌, ◌≤◌, ◌↔◌, IsTrue};
ghost use Rattle.ci_http_peers.specs.Peer.{until, is_among};

/// How long what a peer still sends after its reply is taken, in milliseconds.
pub(crate) const LINGER_MILLIS: u64 = 500;

/// What a peer is at.
#[derive(Clone, Copy)]
pub(crate) enum Stage {
    /// Its request comes.
    Reading,
    /// Its reply goes, of so many bytes, which lie in memory.
    Writing(usize),
    /// Its reply went, and what it still sends is taken.
    Ending,
}

/// A peer: what it is at, and when that is over at the latest, in milliseconds of the clock that its loop goes by.
#[derive(Clone, Copy)]
pub(crate) struct Peer {
    pub(crate) stage: Stage,
    pub(crate) deadline: u64,
}

/// Some of the peers, by what they are at.
#[derive(Clone, Copy)]
pub(crate) enum Among {
    All,
    Reading,
    Writing,
}

impl Peer {
    /// A peer whose request begins to come now, and has this time for it, in milliseconds.
    pub(crate) fn reading(now: u64, patience: u64) -> Peer
        ensures { result ≡ record { stage = Stage.Reading; deadline = until now patience } }
    {
        Peer {
            stage: Stage::Reading,
            deadline: now.saturating_add(patience),
        }
    }

    /// A peer whose reply of so many bytes begins to go now, and has this time for it, in milliseconds.
    pub(crate) fn writing(bytes: usize, now: u64, patience: u64) -> Peer
        ensures { result ≡ record { stage = Stage.Writing bytes; deadline = until now patience } }
    {
        Peer {
            stage: Stage::Writing(bytes),
            deadline: now.saturating_add(patience),
        }
    }

    /// A peer whose reply went as a whole now.
    pub(crate) fn ending(now: u64) -> Peer
        ensures { result ≡ record { stage = Stage.Ending; deadline = until now LINGER_MILLIS } }
    {
        Peer {
            stage: Stage::Ending,
            deadline: now.saturating_add(LINGER_MILLIS),
        }
    }

    /// Is the time over that it has?
    pub(crate) fn is_late(&self, now: u64) -> bool
        ensures { IsTrue result ↔ (self.now.deadline ≤ now) }
    {
        self.deadline <= now
    }
}

impl Among {
    /// Is a peer at this stage one of them?
    pub(crate) fn has(self, stage: Stage) -> bool
        ensures { result ≡ is_among self stage }
    {
        match self {
            Among::All => true,
            Among::Reading => matches!(stage, Stage::Reading),
            Among::Writing => matches!(stage, Stage::Writing(_)),
        }
    }
}
