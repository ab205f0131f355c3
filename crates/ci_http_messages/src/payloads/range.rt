//! The range of a piece of a trace.

ghost use Rattle.std.specs.Prelude.{◌≡◌, ◌==◌, ◌<◌, ◌^◌, IfSome, position};
ghost use Rattle.ci_http_messages.specs.Ranges.{place_in, start_in};

use crate::payloads::limits::{MAX_PLACE, MAX_PLACE_DIGITS};
use ci_values::number::number_within;

/// Where a piece of this length begins, by its range, `from-to`: the places of its first byte and
/// of its last. `None` where the range is written otherwise, or isn't that of so many bytes.
pub fn start_in(len: u64, range: &[u8]) -> Option<u64>
    ensures { result ≡ start_in len range.now }
{
    let dash = first_dash(range)?;
    match (place_in(&range[..dash]), place_in(&range[dash + 1..])) {
        (Some(from), Some(to)) if from <= to && to - from + 1 == len => Some(from),
        _ => None,
    }
}

fn first_dash(range: &[u8]) -> Option<usize>
    ensures { result ≡ position (λ b. b == 45) range.now }
{
    range.iter().position(|b| *b == b'-')
}

// A place in a trace.
fn place_in(text: &[u8]) -> Option<u64>
    ensures place { result ≡ place_in text.now }
    ensures bound { IfSome result (λ n. n < 10 ^ 16) }
{
    if text.len() > MAX_PLACE_DIGITS {
        return None;
    }
    number_within(MAX_PLACE, text)
}
