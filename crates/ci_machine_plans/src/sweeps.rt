//! A sweep: one lease that is over ends; where there is none, one redundant pipeline is cancelled.

ghost use Rattle.std.specs.Prelude.{◌≡◌, [], None, IfOk, option_copied};
ghost use Rattle.ci_machine_steps.specs.Prelude.{cause_of};
ghost use Rattle.ci_machine_steps.specs.Sweeps as sweeps;

use crate::cancels::cancel;
use crate::replies::put;
use ci_machine::change::Changes;
use ci_machine::lease::Lease;
use ci_machine::records::{Attempt, AttemptState, Cause, Job, Pipeline};
use ci_machine::reply::Swept;
use std::alloc::{AllocError, Global};

/// The lease that is over ends, as failed: that which `due` gives of the live attempts, for the cause that it gives.
pub fn end(alloc: Global, lease: &Lease, cause: Cause) -> Result<(Swept, Changes), AllocError>
    requires { cause ≡ cause_of lease.now }
    ensures { IfOk result (λ plan. plan ≡ sweeps.ends lease.now) }
{
    let mut attempt = lease.attempt.clone()?;
    attempt.state = AttemptState::Failed(cause, None);
    let swept = Swept::Ended(attempt.id, cause);
    Ok((swept, put(alloc, attempt)?))
}

/// No lease is over, and these jobs of the redundant pipeline are cancelled: all that can be. The attempts are at least theirs.
pub fn cancel_redundant(
    alloc: Global,
    pipeline: &Pipeline,
    attempts: &[Attempt],
    jobs: &[Job],
) -> Result<(Swept, Changes), AllocError>
    ensures { IfOk result (λ plan. plan ≡ sweeps.sweep None (Some pipeline.now) attempts.now jobs.now) }
{
    let changes = cancel(alloc, attempts, jobs)?;
    Ok((Swept::Cancelled(pipeline.id), changes))
}

/// No lease is over, and no pipeline is redundant.
pub fn nothing(alloc: Global) -> (Swept, Changes)
    ensures { result ≡ (Swept.Nothing, []) }
{
    (Swept::Nothing, Changes::new(Vec::new(alloc)))
}
