//! Moments: whole seconds since 1970-01-01 in UTC, up to the end of the year 9999.

ghost use Rattle.std.specs.Prelude.{◌≡◌, ◌≤◌, ◌<◌, max, SomeIff};

use crate::limits::MAX_MOMENT;
use std::marker::Model;

/// A moment, seen as its number of seconds.
#[derive(Clone, Copy, Drop)]
pub struct Moment {
    seconds: u64,
}

impl Model for Moment {
    ghost use Rattle.std.specs.Prelude.{ℕ, ◌≤◌};
    ghost use Rattle.ci_values.specs.declared.limits.TheConstants.{MAX_MOMENT};

    ghost Value = { ℕ };

    ghost view = { λ m. m.seconds };

    ghost invariant = { λ m. m.seconds ≤ MAX_MOMENT };

    ghost inverse = { λ n. record { seconds = n } };
}

impl Moment {
    /// The moment of so many seconds, or `None` past the last one.
    pub fn new(seconds: u64) -> Option<Moment>
        ensures { SomeIff result (seconds ≤ MAX_MOMENT) seconds }
    {
        if seconds <= MAX_MOMENT {
            Some(Moment { seconds })
        } else {
            None
        }
    }

    /// Its seconds since 1970.
    pub fn seconds(self) -> u64
        ensures is { result ≡ self }
        ensures in_range { result ≤ MAX_MOMENT }
    {
        self.seconds
    }

    /// The later of the two.
    pub fn later(self, other: Moment) -> Moment
        ensures { result ≡ max self other }
    {
        if self.seconds < other.seconds {
            other
        } else {
            self
        }
    }
}
