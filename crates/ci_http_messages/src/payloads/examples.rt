//! Worked examples of the definitions. These functions do nothing: what they ensure is what the checker computes.

ghost use Rattle.std.specs.Prelude.{◌≡◌, Some, None, codes};
ghost use Rattle.serde_json.specs.Data.{unsigned, number};
ghost use Rattle.ci_http_messages.specs.Updates.{exit_of};
ghost use Rattle.ci_http_messages.specs.Ranges.{start_in};

/// The limits of exit codes and of the places of a range: the last that is within each, and the first past it.
pub fn has_these_limits()
    ensures least_exit_code { exit_of (Some (number (unsigned 0))) ≡ Some (Some 0) }
    ensures greatest_exit_code { exit_of (Some (number (unsigned 4294967295))) ≡ Some (Some 4294967295) }
    ensures great_exit_code { exit_of (Some (number (unsigned 4294967296))) ≡ None }
    ensures one_digit { start_in 1 (codes "0-0") ≡ Some 0 }
    ensures no_digit { start_in 1 (codes "-0") ≡ None }
    ensures sixteen_digits { start_in 1 (codes "9999999999999999-9999999999999999") ≡ Some 9999999999999999 }
    ensures seventeen_digits { start_in 1 (codes "00000000000000000-0") ≡ None }
    ensures seventeen_digits_last { start_in 1 (codes "0-00000000000000000") ≡ None }
{}
