//! Numbers that a request writes in digits.

ghost use Rattle.std.specs.Prelude.{◌≡◌, ◌<◌, ◌^◌, true};
ghost use Rattle.std.specs.List.{list_all};
ghost use Rattle.std.specs.Char.{is_ascii_digit, digit_value};
ghost use Rattle.std.specs.Str.Parse.{digits_value};
ghost use Rattle.ci_values.specs.Numbers.{is_number, within, number_within, id_in};

use crate::limits::MAX_NUMBER;

/// The number of a record: digits without a zero in front, from 1 to `MAX_NUMBER`.
pub fn id_in(text: &[u8]) -> Option<u64>
    ensures { result ≡ id_in text.now }
{
    if text.starts_with(b"0") {
        return None;
    }
    number_within(MAX_NUMBER, text)
}

/// The number that the digits write, unless it is over the limit or there are none.
pub fn number_within(limit: u64, text: &[u8]) -> Option<u64>
    requires { limit < 2 ^ 60 }
    ensures { result ≡ number_within limit text.now }
{
    if !is_number(text) {
        return None;
    }
    value_within(limit, text)
}

/// Is the text one or more digits?
pub fn is_number(text: &[u8]) -> bool
    ensures { result ≡ is_number text.now }
{
    !text.is_empty() && are_digits(text)
}

fn are_digits(text: &[u8]) -> bool
    ensures { result ≡ list_all is_ascii_digit text.now }
{
    text.iter().all(|b| b.is_ascii_digit())
}

/// The number that the digits write, unless it is over the limit.
pub fn value_within(limit: u64, digits: &[u8]) -> Option<u64>
    requires digits { is_number digits.now ≡ true }
    requires limit { limit < 2 ^ 60 }
    ensures { result ≡ within limit (digits_value 10 digits.now) }
{
    let mut value = 0;
    for b in digits {
        value = value * 10 + digit_of(*b);
        if value > limit {
            return None;
        }
    }
    Some(value)
}

// The value of a digit.
fn digit_of(b: u8) -> u64
    requires { is_ascii_digit b ≡ true }
    ensures value { result ≡ digit_value b }
    ensures small { result < 10 }
{
    u64::from(b - b'0')
}
