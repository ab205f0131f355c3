//! What a runner's report on an attempt does, from what the store holds.

ghost use Rattle.std.specs.Prelude.{◌≡◌};
ghost use Rattle.ci_machine_steps.specs.Reports as machine;
ghost use Rattle.ci_machine_steps.specs.Prelude.{lease_at};
ghost use Rattle.ci_store.specs.Prelude.{LoadsBy};
ghost use Rattle.ci_server_lookups.specs.Prelude.{IsKept};
ghost use Rattle.ci_server_events.specs.Planning.{PlansFor};

use crate::ends::beside_changes;
use crate::planned::Planned;
use ci_machine::moment::Moment;
use ci_machine::reply::Reply;
use ci_machine::request::JobUpdate;
use ci_machine_plans::reports;
use ci_server_lookups::leases::leased_at;
use ci_server_lookups::searches::Searches;
use ci_store::fault::StoreFault;
use std::alloc::Global;

/// A runner says how an attempt of its stands. Where it ends, the rows of its job and of jobs behind it may differ, its resource
/// group is free, and its pipeline may be finished.
pub(crate) fn update_job<T: Searches>(
    alloc: Global,
    store: &mut T,
    update: &JobUpdate,
    now: Moment,
) -> Result<Planned<Reply>, StoreFault>
    ensures { LoadsBy T.honest T.holds T.leaves store.old store.new result
        (λ k p. IsKept k → PlansFor k ((p.answer, p.changes) ≡ machine.update_job (lease_at k.state update.now.attempt) update.now now) p) }
{
    match leased_at(store, update.attempt)? {
        None => {
            let plan = reports::update_job(alloc, None, update, now)?;
            Ok(Planned::unchanged(alloc, plan))
        }
        Some(leased) => {
            let plan = reports::update_job(alloc, Some(&leased.lease), update, now)?;
            let beside = beside_changes(alloc, store, leased.pipeline, &plan.1);
            Planned::with(alloc, plan, beside)
        }
    }
}
