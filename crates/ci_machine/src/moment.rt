//! Moments: whole seconds since 1970-01-01 in UTC, up to the end of the year 9999, and how they are printed: the date and the time of day in UTC.

ghost use Rattle.std.specs.Prelude.{◌≡◌, ◌/◌, ◌%◌, ◌≤◌, pos, None, IfOk, string_bytes};
ghost use Rattle.jiff_core.specs.Date.{epoch_day};
ghost use Rattle.jiff_fmt.specs.Text.{date_text, time_text};
ghost use Rattle.ci_machine.specs.Dates.{day_at, day_text, clock_text, moment_text, stamp_text};

pub use ci_values::moment::Moment;
use jiff::civil::{Date, Time};
use jiff_core::civil;
use std::alloc::{AllocError, Global};

const SECONDS_A_DAY: u64 = 86_400;

/// The date so many days after 1970-01-01, up to 9999-12-31.
fn date_after(days: u64) -> civil::Date
    requires { days ≤ 2_932_896 }
    ensures { epoch_day result ≡ pos days }
{
    civil::Date::from_unix_epoch_day(days as i64).unwrap()
}

/// The date of a moment in UTC. Every moment has one.
fn date_of(moment: Moment) -> Date
    ensures { date_text result ≡ day_text (day_at (moment / 86400)) }
{
    let days = moment.seconds() / SECONDS_A_DAY;
    Date::from_plain(date_after(days))
}

/// The time of day of a moment in UTC.
fn time_of(moment: Moment) -> Time
    ensures { time_text None result ≡ clock_text (moment % 86400) }
{
    let seconds = moment.seconds() % SECONDS_A_DAY;
    Time::from_plain(civil::Time::from_second(seconds as u32, 0))
}

/// A moment in UTC, as `1970-01-01 00:16:40`. Errors: memory was refused.
#[tactic(auto, unfolding(crate::specs::Dates::moment_text))]
pub fn moment_text(alloc: Global, moment: Moment) -> Result<String, AllocError>
    ensures { IfOk result (λ text. string_bytes text ≡ moment_text moment) }
{
    let date = date_of(moment);
    let time = time_of(moment);
    format!(in alloc; "{date} {time}")
}

/// The same as RFC 3339 has it, `1970-01-01T00:16:40Z`. Errors: memory was refused.
#[tactic(auto, unfolding(crate::specs::Dates::stamp_text))]
pub fn stamp_text(alloc: Global, moment: Moment) -> Result<String, AllocError>
    ensures { IfOk result (λ text. string_bytes text ≡ stamp_text moment) }
{
    let date = date_of(moment);
    let time = time_of(moment);
    format!(in alloc; "{date}T{time}Z")
}
