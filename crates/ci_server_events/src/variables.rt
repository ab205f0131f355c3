//! What a request that sets a project's variable does, or one by which it goes, from what the store holds.

ghost use Rattle.std.specs.Prelude.{◌≡◌, Ok};
ghost use Rattle.ci_machine_steps.specs.Prelude.{asked_project, project_with, project_variables, variable_at};
ghost use Rattle.ci_machine_steps.specs.Variables as machine;
ghost use Rattle.ci_store.specs.Prelude.{LoadsBy};
ghost use Rattle.ci_server_lookups.specs.Prelude.{IsKept};
ghost use Rattle.ci_server_events.specs.Planning.{PlansFor};

use crate::planned::Planned;
use crate::projects::asked;
use ci_machine::records::Project;
use ci_machine::reply::Reply;
use ci_machine::request::{NewVariable, VariableQuery};
use ci_machine_plans::variables;
use ci_store::fault::StoreFault;
use ci_store::store::Store;
use std::alloc::Global;

/// A variable of a project is to have a value. Its variables are looked up only where the token is the project's.
pub(crate) fn set_variable<T: Store>(
    alloc: Global,
    store: &mut T,
    new: NewVariable,
) -> Result<Planned<Reply>, StoreFault>
    ensures { LoadsBy T.honest T.holds T.leaves store.old store.new result
        (λ k p. IsKept k → PlansFor k ((p.answer, p.changes) ≡ machine.set_variable (asked_project (project_with k.state new.token) new.project) (project_variables k.state new.project) new) p) }
{
    let project = store.project_with(&new.token)?;
    match asked(&project, new.project) {
        Ok(found) => set_in(alloc, store, found, new),
        Err(code) => Ok(Planned::refused(alloc, code)),
    }
}

/// A variable of this project is to have a value.
fn set_in<T: Store>(
    alloc: Global,
    store: &mut T,
    project: &Project,
    new: NewVariable,
) -> Result<Planned<Reply>, StoreFault>
    ensures { LoadsBy T.honest T.holds T.leaves store.old store.new result
        (λ k p. IsKept k → PlansFor k ((p.answer, p.changes) ≡ machine.set_variable (Ok project.now) (project_variables k.state new.project) new) p) }
{
    let all = store.variables_of(new.project)?;
    let plan = variables::set_variable(alloc, Ok(project), all.as_slice(), new)?;
    Ok(Planned::of_records(alloc, plan))
}

/// A variable of a project is to go. It is looked up only where the token is the project's.
pub(crate) fn delete_variable<T: Store>(
    alloc: Global,
    store: &mut T,
    query: &VariableQuery,
) -> Result<Planned<Reply>, StoreFault>
    ensures { LoadsBy T.honest T.holds T.leaves store.old store.new result
        (λ k p. IsKept k → PlansFor k ((p.answer, p.changes) ≡ machine.delete_variable (asked_project (project_with k.state query.now.token) query.now.project) (variable_at k.state query.now.project query.now.key)) p) }
{
    let project = store.project_with(&query.token)?;
    match asked(&project, query.project) {
        Ok(found) => delete_from(alloc, store, found, query),
        Err(code) => Ok(Planned::refused(alloc, code)),
    }
}

/// A variable of this project is to go.
fn delete_from<T: Store>(
    alloc: Global,
    store: &mut T,
    project: &Project,
    query: &VariableQuery,
) -> Result<Planned<Reply>, StoreFault>
    ensures { LoadsBy T.honest T.holds T.leaves store.old store.new result
        (λ k p. IsKept k → PlansFor k ((p.answer, p.changes) ≡ machine.delete_variable (Ok project.now) (variable_at k.state query.now.project query.now.key)) p) }
{
    let found = store.variable(query.project, &query.key)?;
    let plan = variables::delete_variable(alloc, Ok(project), found.as_ref())?;
    Ok(Planned::of_records(alloc, plan))
}
