//! Tests of positions, by which callers know that they may call.

ghost use Rattle.std.specs.Prelude.{◌<◌, All, length, IsTrue};
ghost use Rattle.ci_machine.specs.Prelude.{AreWithin};

use ci_board::facts::FactsChange;

/// Are both positions of each pair below the count?
pub fn are_within(count: usize, pairs: &[(usize, usize)]) -> bool
    ensures { IsTrue result → AreWithin count pairs.now }
{
    for k in 0..pairs.len() {
        let pair = pairs[k];
        if pair.0 >= count || pair.1 >= count {
            return false;
        }
    }
    true
}

/// Is each change's position below the count?
pub fn are_positions(count: usize, changes: &[FactsChange]) -> bool
    ensures { IsTrue result → All (λ c. c.position < count) changes.now }
{
    for k in 0..changes.len() {
        if changes[k].position >= count {
            return false;
        }
    }
    true
}
