//! Durations.

ghost use Rattle.std.specs.Prelude.{◌≡◌, ℕ, ◌<◌, ◌≤◌, length, IfSome, Some};
ghost use Rattle.ci_values.specs.Table.{meaning_of};
ghost use Rattle.ci_values.specs.Duration.{units, number_of, pair_of, first_pair, after_pair, in_range, duration_of, IsDuration};

use crate::run::{Class, split};
use crate::table::meaning_of_bytes;

/// The units of a duration, and how many seconds each has.
pub const UNITS: [(&str, u64); 12] = [
    ("s", 1),
    ("second", 1),
    ("seconds", 1),
    ("m", 60),
    ("minute", 60),
    ("minutes", 60),
    ("h", 3_600),
    ("hour", 3_600),
    ("hours", 3_600),
    ("d", 86_400),
    ("day", 86_400),
    ("days", 86_400),
];

/// How many digits a number of a duration may have.
pub const MAX_DIGITS: usize = 9;

/// The shortest duration, in seconds: a minute.
pub const MIN_SECONDS: u64 = 60;

/// The longest duration, in seconds: 30 days.
pub const MAX_SECONDS: u64 = 2_592_000;

/// The number that digits write.
fn number_of(digits: &[u8]) -> u64
    requires { length digits.now ≤ 9 }
    ensures value { result ≡ number_of digits.now }
    ensures small { result ≤ 23000000000 }
{
    let mut number: u64 = 0;
    for digit in digits {
        number = number * 10 + digit.saturating_sub(b'0') as u64;
    }
    number
}

/// How many seconds a unit has.
fn worth_of(unit: &[u8]) -> Option<u64>
    ensures value { result ≡ meaning_of units unit.now }
    ensures small { IfSome result (λ n. n ≤ 86400) }
{
    meaning_of_bytes(&UNITS, unit)
}

/// The seconds of a number and a unit.
fn pair_of(digits: &[u8], unit: &[u8]) -> Option<u64>
    ensures value { result ≡ pair_of digits.now unit.now }
    ensures small { IfSome result (λ n. n ≤ 1987200000000000) }
{
    if digits.is_empty() {
        return None;
    }
    if MAX_DIGITS < digits.len() {
        return None;
    }
    match worth_of(unit) {
        Some(worth) => Some(number_of(digits) * worth),
        None => None,
    }
}

/// The seconds of the pair that comes first, if there is one, and what is behind it.
fn first_pair(bytes: &[u8]) -> (Option<u64>, &[u8])
    ensures value { result.0 ≡ first_pair bytes.now }
    ensures after { result.1.now ≡ after_pair bytes.now }
    ensures small { IfSome result.0 (λ n. n ≤ 1987200000000000) }
{
    let (digits, rest) = split(Class::Digit, bytes);
    let (_, rest) = split(Class::Space, rest);
    let (unit, rest) = split(Class::Letter, rest);
    (pair_of(digits, unit), rest)
}

/// The number of seconds, where a duration may have so many.
fn in_range(sum: u64) -> Option<u32>
    ensures { result ≡ in_range (Some sum) }
{
    if sum < MIN_SECONDS {
        return None;
    }
    if MAX_SECONDS < sum {
        return None;
    }
    Some(sum as u32)
}

/// The sum of the pairs, where a duration may have so many seconds.
fn sum_of(bytes: &[u8]) -> Option<u32>
    ensures { result ≡ duration_of bytes.now }
{
    let mut rest = bytes;
    let mut sum: u64 = 0;
    'pairs: loop {
        let (first, behind) = first_pair(rest);
        match first {
            None => return None,
            Some(seconds) => {
                sum += seconds;
                if MAX_SECONDS < sum {
                    return None;
                }
                if behind.is_empty() {
                    return in_range(sum);
                }
                let (_, next) = split(Class::Space, behind);
                rest = next;
            }
        }
    }
}

/// How many seconds a duration is, as `1h 30m`: pairs of a number and a unit, a minute to 30 days in all. `None` where the
/// text is no such duration.
pub fn duration(text: &str) -> Option<u32>
    // What is answered is the sum of the pairs that the text is.
    ensures sum { IfSome result (IsDuration text.now) }
    // A text that is pairs with such a sum is answered so.
    ensures all { (n : ℕ) → IsDuration text.now n → result ≡ Some n }
    // The same, computed.
    ensures value { result ≡ duration_of text.now }
{
    sum_of(text.as_bytes())
}
