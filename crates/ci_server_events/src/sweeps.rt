//! What a sweep does, from what the store holds.

ghost use Rattle.std.specs.Prelude.{◌≡◌, None};
ghost use Rattle.ci_machine_steps.specs.Prelude.{ends, sweep};
ghost use Rattle.ci_machine_steps.specs.Step as step;
ghost use Rattle.ci_server_lookups.specs.Prelude.{HasLive, IsKept, HoldsKept};
ghost use Rattle.ci_store.specs.Prelude.{LoadsBy};
ghost use Rattle.ci_server_events.specs.Planning.{PlansFor};

use crate::acts::cancel_redundant;
use crate::ends::beside_changes;
use crate::planned::Planned;
use ci_machine::lease::{Lease, cause};
use ci_machine::moment::Moment;
use ci_machine::reply::Swept;
use ci_machine_plans::sweeps;
use ci_server_lookups::searches::Searches;
use ci_store::fault::StoreFault;
use std::alloc::Global;

/// What a sweep does: the lease that is over ends, if there is one, that of the attempt of least number; where there is none, the
/// redundant pipeline of least number is cancelled, if there is one. Errors: the store's.
pub fn plan_sweep<T: Searches>(
    alloc: Global,
    store: &mut T,
    now: Moment,
) -> Result<Planned<Swept>, StoreFault>
    ensures { LoadsBy T.honest (HoldsKept T.holds) T.leaves store.old store.new result
        (λ k p. IsKept k → PlansFor k ((p.answer, p.changes) ≡ step.sweep_in k.state k.board now) p) }
{
    match store.first_due(alloc, now)? {
        Some(lease) => end(alloc, store, &lease),
        None => sweep_pipelines(alloc, store),
    }
}

/// The lease ends.
fn end<T: Searches>(
    alloc: Global,
    store: &mut T,
    lease: &Lease,
) -> Result<Planned<Swept>, StoreFault>
    ensures { LoadsBy T.honest T.holds T.leaves store.old store.new result
        (λ k p. IsKept k → HasLive k.state lease.now.attempt → PlansFor k ((p.answer, p.changes) ≡ ends lease.now) p) }
{
    let Some(job) = store.job(lease.attempt.job)? else {
        return Err(StoreFault::Broken);
    };
    let plan = sweeps::end(alloc, lease, cause(lease))?;
    let beside = beside_changes(alloc, store, job.pipeline, &plan.1);
    Planned::with(alloc, plan, beside)
}

/// No lease is over: the redundant pipeline of least number is cancelled, if there is one.
fn sweep_pipelines<T: Searches>(alloc: Global, store: &mut T) -> Result<Planned<Swept>, StoreFault>
    ensures { LoadsBy T.honest (HoldsKept T.holds) T.leaves store.old store.new result
        (λ k p. IsKept k → let redundant = step.redundant_in k.state k.board in
        PlansFor k ((p.answer, p.changes) ≡ sweep None redundant k.state.attempts (step.cancellable_in k.state k.board redundant)) p) }
{
    match store.first_redundant(alloc)? {
        Some(pipeline) => cancel_redundant(alloc, store, &pipeline),
        None => Ok(Planned::unchanged(alloc, sweeps::nothing(alloc))),
    }
}
