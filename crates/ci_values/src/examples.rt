//! Worked examples of the definitions. These functions do nothing: what they ensure is what the checker computes.

ghost use Rattle.std.specs.Prelude.{◌≡◌, true, false, [], Some, None, codes, replicate};
ghost use Rattle.ci_values.specs.Duration.{duration_of};
ghost use Rattle.ci_values.specs.Names.{is_name};
ghost use Rattle.ci_values.specs.Numbers.{id_in};
ghost use Rattle.ci_values.specs.VariableName.{is_variable_name};

use crate::limits::{MAX_FILE_BYTES, MAX_MOMENT};

/// What texts last.
pub fn lasts()
    ensures seconds { duration_of (codes "60s") ≡ Some 60 }
    ensures pairs { duration_of (codes "1h 30m") ≡ Some 5400 }
    ensures close { duration_of (codes "1h30m") ≡ Some 5400 }
    ensures longest { duration_of (codes "30 days") ≡ Some 2592000 }
    ensures words { duration_of (codes "1 day 2 hours 3 minutes 4 seconds") ≡ Some 93784 }
    ensures word { duration_of (codes "1 hour 1 minute 1 second") ≡ Some 3661 }
    ensures letters { duration_of (codes "1d 1h 1m 1s") ≡ Some 90061 }
    ensures zero { duration_of (codes "0m 60s") ≡ Some 60 }
{}

/// Texts that are no duration of a minute to 30 days.
pub fn lasts_not()
    ensures short { duration_of (codes "59s") ≡ None }
    ensures long { duration_of (codes "30 days 1 s") ≡ None }
    ensures no_unit { duration_of (codes "60") ≡ None }
    ensures nothing { duration_of (codes "") ≡ None }
    ensures space_before { duration_of (codes " 60s") ≡ None }
    ensures space_behind { duration_of (codes "60s ") ≡ None }
    ensures ten_digits { duration_of (codes "0000000060s") ≡ None }
    ensures weeks { duration_of (codes "1week") ≡ None }
{}

/// The limits of names, of numbers of records, of moments and of files: the last that is within each, and the first past it.
pub fn has_these_limits()
    ensures empty_name { is_name [] ≡ false }
    ensures longest_name { is_name (replicate 255 97) ≡ true }
    ensures long_name { is_name (replicate 256 97) ≡ false }
    ensures longest_variable { is_variable_name (replicate 255 97) ≡ true }
    ensures long_variable { is_variable_name (replicate 256 97) ≡ false }
    ensures zero { id_in (codes "0") ≡ None }
    ensures first_number { id_in (codes "1") ≡ Some 1 }
    ensures last_number { id_in (codes "9007199254740991") ≡ Some 9007199254740991 }
    ensures past_last_number { id_in (codes "9007199254740992") ≡ None }
    ensures last_moment { MAX_MOMENT ≡ 253402300799 }
    ensures file_bytes { MAX_FILE_BYTES ≡ 65536 }
{}
