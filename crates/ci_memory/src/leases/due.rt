//! The first lease that is over: from what is remembered, or from what the store holds.

ghost use Rattle.std.specs.Prelude.{◌≡◌, ◌++◌, ◌∷◌, [], All, IfOk, IfSome, map};
ghost use Rattle.ci_machine_steps.specs.Prelude.{Kept, first_due, lease_of, leases};
ghost use Rattle.ci_store.specs.Prelude.{LoadsBy};
ghost use Rattle.ci_memory.specs.Quiet.{AreRight, IsWithin};

use crate::leases::{Leases, Quiet};
use ci_machine::lease::{Lease, due};
use ci_machine::moment::Moment;
use ci_machine::records::Attempt;
use ci_server_lookups::leases::lease_of;
use ci_store::fault::StoreFault;
use ci_store::store::Store;
use std::alloc::{AllocError, Global};

/// The first lease that is over, that of the attempt of least number, if there is one. Nothing is looked up while it is known that none
/// is; else all live attempts and the job of each, and until when none is over is remembered. Errors: the store's, and `Memory`.
pub fn first_due<T: Store>(
    alloc: Global,
    store: &mut T,
    memory: &mut Leases,
    now: Moment,
) -> Result<Option<Lease>, StoreFault>
    ensures due { LoadsBy T.honest T.holds T.leaves store.old store.new result (λ k found. AreRight memory.old k → found ≡ first_due (leases k.state) now) }
    ensures right { T.honest store.new → (k : Kept) → T.holds store.old k → AreRight memory.old k → AreRight memory.new k }
{
    if memory.is_quiet(now) {
        return Ok(None);
    }
    let leases = live_leases(alloc, store)?;
    if let Some((lease, _)) = due(leases.as_slice(), now) {
        return Ok(Some(copy_of(lease)?));
    }
    memory.quiet = quiet_over(leases.as_slice());
    Ok(None)
}

fn copy_of(lease: &Lease) -> Result<Lease, AllocError>
    ensures { IfOk result (λ copy. copy ≡ lease.now) }
{
    lease.clone()
}

/// Until when none of the leases is over: without end, where there are none.
fn quiet_over(leases: &[Lease]) -> Option<Quiet>
    ensures { IfSome result (λ q. All (IsWithin q) leases.now) }
{
    let mut quiet = Quiet {
        until: u64::MAX,
        below: 0,
    };
    for lease in leases {
        quiet = quiet.taking_in(&lease.attempt, lease.limit)?;
    }
    Some(quiet)
}

/// The live attempts, each with the time limit of its job.
fn live_leases<T: Store>(alloc: Global, store: &mut T) -> Result<Vec<Lease>, StoreFault>
    ensures { LoadsBy T.honest T.holds T.leaves store.old store.new result (λ k found. found.items ≡ leases k.state) }
{
    let attempts = store.live_attempts()?;
    leases(alloc, store, attempts)
}

/// The attempts, each with the time limit of its job.
fn leases<T: Store>(
    alloc: Global,
    store: &mut T,
    attempts: Vec<Attempt>,
) -> Result<Vec<Lease>, StoreFault>
    ensures { LoadsBy T.honest T.holds T.leaves store.old store.new result (λ k found. found.items ≡ map (lease_of k.state) attempts.items) }
{
    let mut leases = Vec::new(alloc);
    for attempt in attempts {
        push_lease(store, &mut leases, attempt)?;
    }
    Ok(leases)
}

/// Adds the attempt with the time limit of its job.
fn push_lease<T: Store>(
    store: &mut T,
    leases: &mut Vec<Lease>,
    attempt: Attempt,
) -> Result<(), StoreFault>
    ensures { LoadsBy T.honest T.holds T.leaves store.old store.new result (λ k _. leases.new.items ≡ leases.old.items ++ lease_of k.state attempt ∷ []) }
{
    let lease = lease_of(store, attempt)?;
    leases.push(lease)?;
    Ok(())
}
