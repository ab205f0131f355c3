//! What a request that sets the process mode of a resource group does, or one that asks for it, from what the store holds.

ghost use Rattle.std.specs.Prelude.{◌≡◌, Ok, option_map};
ghost use Rattle.ci_machine_steps.specs.Prelude.{order_of, asked_project, project_with};
ghost use Rattle.ci_machine_steps.specs.Modes as machine;
ghost use Rattle.ci_store.specs.Prelude.{LoadsBy};
ghost use Rattle.ci_server_lookups.specs.Prelude.{IsKept};
ghost use Rattle.ci_server_events.specs.Planning.{PlansFor};

use crate::planned::Planned;
use crate::projects::asked;
use ci_machine::records::{GroupMode, GroupOrder, Project};
use ci_machine::reply::Reply;
use ci_machine::request::{GroupQuery, NewMode};
use ci_machine_plans::modes;
use ci_store::fault::StoreFault;
use ci_store::store::Store;
use std::alloc::Global;

/// A resource group of a project is to have a process mode, whichever it has.
pub(crate) fn set_mode<T: Store>(
    alloc: Global,
    store: &mut T,
    new: NewMode,
) -> Result<Planned<Reply>, StoreFault>
    ensures { LoadsBy T.honest T.holds T.leaves store.old store.new result
        (λ k p. IsKept k → PlansFor k ((p.answer, p.changes) ≡ machine.set_mode (asked_project (project_with k.state new.token) new.project) new) p) }
{
    let project = store.project_with(&new.token)?;
    let found = asked(&project, new.project);
    let plan = modes::set_mode(alloc, found, new)?;
    Ok(Planned::of_records(alloc, plan))
}

/// The process mode of a resource group of a project is asked for. It is looked up only where the token is the project's.
pub(crate) fn show_mode<T: Store>(
    alloc: Global,
    store: &mut T,
    query: &GroupQuery,
) -> Result<Planned<Reply>, StoreFault>
    ensures { LoadsBy T.honest T.holds T.leaves store.old store.new result
        (λ k p. IsKept k → PlansFor k ((p.answer, p.changes) ≡ machine.show_mode (asked_project (project_with k.state query.now.token) query.now.project) (order_of k.state.modes query.now.project query.now.group) query.now.group) p) }
{
    let project = store.project_with(&query.token)?;
    match asked(&project, query.project) {
        Ok(found) => mode_shown(alloc, store, found, query),
        Err(code) => Ok(Planned::refused(alloc, code)),
    }
}

/// The process mode of a resource group of this project is told.
fn mode_shown<T: Store>(
    alloc: Global,
    store: &mut T,
    project: &Project,
    query: &GroupQuery,
) -> Result<Planned<Reply>, StoreFault>
    ensures { LoadsBy T.honest T.holds T.leaves store.old store.new result
        (λ k p. IsKept k → PlansFor k ((p.answer, p.changes) ≡ machine.show_mode (Ok project.now) (order_of k.state.modes query.now.project query.now.group) query.now.group) p) }
{
    let mode = store.mode(query.project, &query.group)?;
    let order = order_in(mode);
    let plan = modes::show_mode(alloc, Ok(project), order, &query.group)?;
    Ok(Planned::unchanged(alloc, plan))
}

/// The order of a group with this mode, if it has one.
fn order_in(mode: Option<GroupMode>) -> Option<GroupOrder>
    ensures { result ≡ option_map (λ m. m.order) mode }
{
    match mode {
        Some(mode) => Some(mode.order),
        None => None,
    }
}
