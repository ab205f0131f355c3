//! Where moments and seeds come from.

use ci_cli_words::line::Line;
use ci_http::stamps::{Stamps, Unstamped};
use ci_machine::moment::Moment;
use ci_machine::request::Seed;
use rand::TryRng;
use rand::rngs::SysRng;
use std::random::RandomSource;
use std::time::{Clock, SystemTime, UNIX_EPOCH};

/// The clock and the source of random bytes that a run of the program has.
#[derive(Drop)]
pub struct Sources<'a, C, R> {
    /// It tells the moment of each event, and how long a peer has had.
    pub clock: &'a C,
    /// Its bytes make the tokens.
    pub seeds: &'a R,
}

/// The moment and the seed of an event.
#[derive(Clone, Copy)]
pub struct Stamp {
    pub moment: Moment,
    pub seed: Seed,
}

/// The line that says why an event has no moment or no seed.
pub fn line_of(unstamped: Unstamped) -> Line {
    match unstamped {
        Unstamped::NoClock => Line::NoClock,
        Unstamped::NoSeed => Line::NoSeed,
    }
}

/// The moment that a clock tells, in whole seconds since 1970. None where it can't be read, or where it is out of the limits.
pub fn moment_now<C: Clock>(clock: &C) -> Option<Moment> {
    let now = SystemTime::now(clock).ok()?;
    let since = now.duration_since(UNIX_EPOCH).ok()?;
    Moment::new(since.as_secs())
}

/// A seed: the next sixteen bytes of a source. None where it fails.
pub fn seed_of<R: RandomSource>(source: &R) -> Option<Seed> {
    let mut bytes = [0; 16];
    SysRng::new(source).try_fill_bytes(&mut bytes).ok()?;
    Some(Seed(bytes))
}

impl<'a, C: Clock, R: RandomSource> Sources<'a, C, R> {
    /// The moment and the seed of an event that happens now. The clock is looked at first.
    ///
    /// Errors: why there is none.
    fn draw(&self) -> Result<(Moment, Seed), Unstamped> {
        let moment = moment_now(self.clock).ok_or(Unstamped::NoClock)?;
        let seed = seed_of(self.seeds).ok_or(Unstamped::NoSeed)?;
        Ok((moment, seed))
    }

    /// The same, for a command that sends a request.
    ///
    /// Errors: the line that says why there is none.
    pub fn stamp(&self) -> Result<Stamp, Line> {
        match self.draw() {
            Ok((moment, seed)) => Ok(Stamp { moment, seed }),
            Err(unstamped) => Err(line_of(unstamped)),
        }
    }
}

impl<'a, C: Clock, R: RandomSource> Stamps for Sources<'a, C, R> {
    ghost use Rattle.std.specs.Prelude.{⊤};

    // Nothing is known of what a clock tells, or a source of random bytes gives.
    ghost gives = { λ _ _ _. ⊤ };

    fn next(&mut self) -> Result<(Moment, Seed), Unstamped> {
        self.draw()
    }
}
