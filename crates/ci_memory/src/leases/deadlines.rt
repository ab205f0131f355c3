//! When the lease of an attempt is over.

ghost use Rattle.std.specs.Prelude.{◌≡◌};
ghost use Rattle.ci_machine_steps.specs.Prelude.{deadline};

use ci_machine::limits::LEASE_SECONDS;
use ci_machine::records::Attempt;

/// From when on the lease of an attempt is over, in seconds since 1970, where its job has this time limit in seconds.
pub(crate) fn deadline(attempt: &Attempt, limit: u32) -> u64
    ensures { result ≡ deadline attempt.now limit }
{
    let silent = attempt.seen.seconds() + LEASE_SECONDS;
    let timed_out = attempt.granted.seconds() + u64::from(limit);
    silent.min(timed_out)
}
