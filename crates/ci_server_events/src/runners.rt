//! What a request for a new runner does, or one that pauses a runner, from what the store holds.

ghost use Rattle.std.specs.Prelude.{◌≡◌};
ghost use Rattle.ci_machine_steps.specs.Runners as machine;
ghost use Rattle.ci_machine_steps.specs.Prelude.{project_named, runner_at};
ghost use Rattle.ci_store.specs.Prelude.{LoadsBy};
ghost use Rattle.ci_server_lookups.specs.Prelude.{IsKept};
ghost use Rattle.ci_server_events.specs.Planning.{PlansFor};

use crate::planned::Planned;
use ci_machine::change::Counter;
use ci_machine::records::Project;
use ci_machine::reply::Reply;
use ci_machine::request::{NewRunner, RunnerPause, Seed};
use ci_machine_plans::runners;
use ci_store::fault::StoreFault;
use ci_store::store::Store;
use std::alloc::Global;

/// A runner is to be made.
pub(crate) fn add_runner<T: Store>(
    alloc: Global,
    store: &mut T,
    new: NewRunner,
    seed: Seed,
) -> Result<Planned<Reply>, StoreFault>
    ensures { LoadsBy T.honest T.holds T.leaves store.old store.new result
        (λ k p. IsKept k → PlansFor k ((p.answer, p.changes) ≡ machine.add_runner k.state.next.runner (project_named k.state new.project) new seed) p) }
{
    let project = named(store, new.project)?;
    let next = store.next(Counter::Runner)?;
    let plan = runners::add_runner(alloc, next, project.as_ref(), new, seed)?;
    Ok(Planned::of_records(alloc, plan))
}

/// The project that a runner is to be of, if it is to be of one and that is there.
fn named<T: Store>(store: &mut T, number: Option<u64>) -> Result<Option<Project>, StoreFault>
    ensures { LoadsBy T.honest T.holds T.leaves store.old store.new result (λ k p. p ≡ project_named k.state number) }
{
    match number {
        None => Ok(None),
        Some(number) => store.project(number),
    }
}

/// A runner is to be paused, or to go on.
pub(crate) fn pause_runner<T: Store>(
    alloc: Global,
    store: &mut T,
    pause: RunnerPause,
) -> Result<Planned<Reply>, StoreFault>
    ensures { LoadsBy T.honest T.holds T.leaves store.old store.new result
        (λ k p. IsKept k → PlansFor k ((p.answer, p.changes) ≡ machine.pause_runner (runner_at k.state pause.runner) pause.paused) p) }
{
    let runner = store.runner(pause.runner)?;
    let plan = runners::pause_runner(alloc, runner, pause.paused)?;
    Ok(Planned::of_records(alloc, plan))
}
