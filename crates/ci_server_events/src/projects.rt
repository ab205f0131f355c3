//! What a request for a new project does, from what the store holds; and the project that a request names.

ghost use Rattle.std.specs.Prelude.{◌≡◌};
ghost use Rattle.std.specs.Result.{result_map_both};
ghost use Rattle.ci_machine_steps.specs.Prelude.{asked_project};
ghost use Rattle.ci_machine_steps.specs.Projects as machine;
ghost use Rattle.ci_store.specs.Prelude.{LoadsBy};
ghost use Rattle.ci_server_lookups.specs.Prelude.{IsKept};
ghost use Rattle.ci_server_events.specs.Planning.{PlansFor};

use crate::planned::Planned;
use ci_machine::change::Counter;
use ci_machine::records::Project;
use ci_machine::reply::{Code, Reply};
use ci_machine::request::Seed;
use ci_machine::text::Text;
use ci_machine_plans::projects;
use ci_store::fault::StoreFault;
use ci_store::store::Store;
use std::alloc::Global;

/// A project of this name is to be made.
pub(crate) fn add_project<T: Store>(
    alloc: Global,
    store: &mut T,
    name: Text,
    seed: Seed,
) -> Result<Planned<Reply>, StoreFault>
    ensures { LoadsBy T.honest T.holds T.leaves store.old store.new result
        (λ k p. IsKept k → PlansFor k ((p.answer, p.changes) ≡ machine.add_project k.state.next.project name seed) p) }
{
    let next = store.next(Counter::Project)?;
    let plan = projects::add_project(alloc, next, name, seed)?;
    Ok(Planned::of_records(alloc, plan))
}

/// The project with the token that came, where it is the one that is named. Refusals: those of the machine's `asked_project`.
pub(crate) fn asked(project: &Option<Project>, named: u64) -> Result<&Project, Code>
    ensures { result_map_both (λ p. p.now) (λ c. c) result ≡ asked_project project.now named }
{
    projects::asked_project(project.as_ref(), named)
}
