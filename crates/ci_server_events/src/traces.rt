//! What the next bytes of a trace do, from what the store holds.

ghost use Rattle.std.specs.Prelude.{◌≡◌, length};
ghost use Rattle.ci_machine_steps.specs.Traces as machine;
ghost use Rattle.ci_machine_steps.specs.Prelude.{lease_at, trace_of};
ghost use Rattle.ci_store.specs.Prelude.{LoadsBy};
ghost use Rattle.ci_server_lookups.specs.Prelude.{IsKept};
ghost use Rattle.ci_server_events.specs.Planning.{PlansFor};

use crate::planned::{Beside, Planned};
use ci_machine::moment::Moment;
use ci_machine::reply::Reply;
use ci_machine::request::TracePart;
use ci_machine_plans::traces;
use ci_machine_statuses::holder_laws::indexes_stay;
use ci_machine_statuses::laws::rows_stay;
use ci_server_lookups::leases::lease_at;
use ci_store::fault::StoreFault;
use ci_store::store::Store;
use std::alloc::Global;

/// A runner sends the next bytes of a trace. How long the trace is, is looked up only where its attempt is there.
pub(crate) fn append_trace<T: Store>(
    alloc: Global,
    store: &mut T,
    part: TracePart,
    now: Moment,
) -> Result<Planned<Reply>, StoreFault>
    ensures { LoadsBy T.honest T.holds T.leaves store.old store.new result
        (λ k p. IsKept k → PlansFor k ((p.answer, p.changes) ≡ machine.append_trace (lease_at k.state part.attempt) (length (trace_of k.state part.attempt)) part now) p) }
{
    rows_stay();
    indexes_stay();
    let Some(lease) = lease_at(store, part.attempt)? else {
        let plan = traces::append_trace(alloc, None, 0, part, now)?;
        return Ok(Planned::unchanged(alloc, plan));
    };
    let size = store.trace_size(part.attempt)?;
    let plan = traces::append_trace(alloc, Some(&lease), size, part, now)?;
    Planned::with(alloc, plan, Ok(Beside::nothing(alloc)))
}
