//! What an event does to a store: it is planned, and then what the plan changes is committed.

ghost use Rattle.std.specs.Prelude.{◌≡◌, ℕ, IfOk};
ghost use Rattle.ci_machine.specs.declared.reply.Answer.TheVariants as answer;
ghost use Rattle.ci_machine.specs.declared.request.Event.TheVariants as event;
ghost use Rattle.ci_machine_steps.specs.Prelude.{PruneOne, Seed, State, Kept, cleared, written, IsSound};
ghost use Rattle.ci_store.specs.Prelude.{Ends};
ghost use Rattle.ci_server.specs.Handling.{Performs};
ghost use Rattle.ci_server.specs.Holding.{Holds, Leaves};

use ci_machine::moment::Moment;
use ci_machine::reply::{Reply, Swept};
use ci_machine::request::{Request, Seed};
use ci_server_events::events::plan_request;
use ci_server_events::planned::{Beside, Planned};
use ci_server_events::sweeps::plan_sweep;
use ci_server_lookups::searches::Searches;
use ci_store::delta::Delta;
use ci_store::fault::StoreFault;
use ci_store::store::Store;
use std::alloc::Global;

/// Handles a request. The reply stands before the commit. Errors: the store's, and there is no step.
pub(crate) fn handle<T: Searches>(
    alloc: Global,
    store: &mut T,
    request: Request,
    now: Moment,
    seed: Seed,
) -> Result<Reply, StoreFault>
    ensures was_honest { T.honest store.new → T.honest store.old }
    ensures performed { T.honest store.new → (s : State) → IsSound s → Holds T.holds store.old s
        → Performs (Holds T.holds) (Leaves T.leaves) answer.Reply (event.Request request, now, seed) s store.new result }
{
    let planned = plan_request(alloc, store, request, now, seed)?;
    commit(store, planned)
}

/// Prunes a store that holds a state of the machine: the finished pipeline of least number that was made before this moment goes, if there is
/// one, with all that belongs to it, in one commit. It does what the request does, at whatever moment and with whatever seed. Errors: as
/// `handle`.
pub fn prune_one<T: Searches>(
    alloc: Global,
    store: &mut T,
    before: Moment,
) -> Result<Reply, StoreFault>
    ensures was_honest { T.honest store.new → T.honest store.old }
    ensures performed { T.honest store.new → (s : State) → IsSound s → Holds T.holds store.old s
        → (now : ℕ) (seed : Seed) → Performs (Holds T.holds) (Leaves T.leaves) answer.Reply (event.Request (PruneOne before), now, seed) s store.new result }
{
    let (request, seed) = (Request::PruneOne(before), Seed([0; 16]));
    handle(alloc, store, request, before, seed)
}

/// Sweeps: ends one lease that is over; where there is none, cancels one redundant pipeline, if there is one. Errors: as `handle`.
pub(crate) fn sweep<T: Searches>(
    alloc: Global,
    store: &mut T,
    now: Moment,
) -> Result<Swept, StoreFault>
    ensures was_honest { T.honest store.new → T.honest store.old }
    ensures performed { T.honest store.new → (s : State) → IsSound s → Holds T.holds store.old s
        → (seed : Seed) → Performs (Holds T.holds) (Leaves T.leaves) answer.Swept (event.Sweep, now, seed) s store.new result }
{
    let planned = plan_sweep(alloc, store, now)?;
    commit(store, planned)
}

/// Makes the changes of a plan, with what changes beside them, if there are any, and gives its answer. Errors: the store's.
fn commit<T: Store, A: Drop>(store: &mut T, planned: Planned<A>) -> Result<A, StoreFault>
    ensures was_honest { T.honest store.new → T.honest store.old }
    ensures ends { T.honest store.new → (k : Kept) → T.holds store.old k
        → let then = written planned.changes planned.beside.rows.items planned.beside.indexes.items (cleared planned.cleared.items k) in
        Ends result (T.holds store.new then) (T.holds store.new k) (T.leaves store.new k then) }
    ensures answer { IfOk result (λ a. a ≡ planned.answer) }
{
    let Planned {
        answer,
        changes,
        beside,
        cleared,
    } = planned;
    let Beside { rows, indexes } = beside;
    if changes.is_empty() && rows.is_empty() && indexes.is_empty() && cleared.is_empty() {
        return Ok(answer);
    }
    store.commit(Delta::new(changes.into_vec(), rows, indexes).clearing(cleared))?;
    Ok(answer)
}
