//! The dates of the command line, as `1970-01-31`.

ghost use Rattle.std.specs.Prelude.{◌≡◌, ◌≢◌, ◌<◌, ℕ, [], ◌∷◌, IfSome, IfNone};
ghost use Rattle.jiff_fmt.specs.Text.{pad2};
ghost use Rattle.ci_cli_words.specs.Dates.{IsMidnight, IsDateAt};

use ci_machine::moment::Moment;
use jiff_core::civil::Date;

const SECONDS_A_DAY: u64 = 86_400;

/// The moment in UTC at which a date begins. None where the text is no date, or one before 1970.
pub fn midnight_of(text: &str) -> Option<Moment>
    ensures value { IfSome result (IsDateAt text.now) }
    ensures none { IfNone result ((seconds : ℕ) → ¬ IsDateAt text.now seconds) }
{
    let [c1, c2, y1, y2, first, m1, m2, second, d1, d2] = text.as_bytes() else {
        return None;
    };
    if *first != b'-' || *second != b'-' {
        return None;
    }
    let year = pair_of(*c1, *c2)? as u16 * 100 + pair_of(*y1, *y2)? as u16;
    midnight(year, pair_of(*m1, *m2)?, pair_of(*d1, *d2)?)
}

/// The number that two digits write, or none where they are no digits.
fn pair_of(tens: u8, units: u8) -> Option<u8>
    ensures value { IfSome result (λ n. (n < 100) × (tens ∷ units ∷ [] ≡ pad2 n)) }
    ensures none { IfNone result ((n : ℕ) → n < 100 → tens ∷ units ∷ [] ≢ pad2 n) }
{
    if tens.is_ascii_digit() && units.is_ascii_digit() {
        Some((tens - b'0') * 10 + (units - b'0'))
    } else {
        None
    }
}

/// The moment in UTC at which a day begins, if the calendar has it and it isn't before 1970.
fn midnight(year: u16, month: u8, day: u8) -> Option<Moment>
    requires year { year < 10000 }
    requires month { month < 100 }
    requires day { day < 100 }
    ensures value { IfSome result (IsMidnight year month day) }
    ensures none { IfNone result ((seconds : ℕ) → ¬ IsMidnight year month day seconds) }
{
    let date = Date::new(year as i16, month as i8, day as i8).ok()?;
    let days = u64::try_from(date.to_unix_epoch_day()).ok()?;
    Moment::new(days * SECONDS_A_DAY)
}
