//! Moments and seeds, one of each for each request.

use ci_machine::moment::Moment;
use ci_machine::request::Seed;

/// The moment and the seed of one request.
pub type Stamp = (Moment, Seed);

/// Why there is no stamp.
#[derive(Clone, Copy, Drop, PartialEq, Eq)]
pub enum Unstamped {
    /// The clock can't be read, or tells a moment that is out of the limits.
    NoClock,
    /// The source of random bytes failed.
    NoSeed,
}

/// What makes stamps: the moment and the seed of a request that is whole now.
pub trait Stamps {
    ghost use Rattle.std.specs.Prelude.{ℕ, Result};
    ghost use Rattle.ci_machine.specs.declared.request.Seed.{Seed as SeedOf};
    ghost use Rattle.ci_http.specs.declared.stamps.Unstamped.{Unstamped as WhyNone};

    // One call leads from a state to another, and gives this.
    ghost gives: { Self → Self → Result (ℕ × SeedOf) WhyNone → Type 0 };

    /// The next stamp. Errors: the clock or the source of seeds failed.
    fn next(&mut self) -> Result<Stamp, Unstamped>
        ensures { gives self.old self.new result };
}
