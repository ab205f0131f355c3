//! The resource groups of a project are read, from what the store holds.

ghost use Rattle.std.specs.Prelude.{◌≡◌, map, option_map};
ghost use Rattle.ci_machine.specs.declared.request.Subject.TheVariants as subject;
ghost use Rattle.ci_machine_steps.specs.Prelude.{holders, holders_in};
ghost use Rattle.ci_machine_plans.specs.Objects.{told_group};
ghost use Rattle.ci_machine_steps.specs.Reads as machine;
ghost use Rattle.ci_store.specs.Prelude.{LoadsBy};
ghost use Rattle.ci_server_events.specs.Groups.{job_holding, group_by};
ghost use Rattle.ci_server_lookups.specs.Prelude.{IsKept};

use crate::group_lists::{by_attempt, holding, names};
use ci_machine::choose::order_of;
use ci_machine::records::{Attempt, GroupMode, Holder, Project};
use ci_machine::reply::{Body, Code};
use ci_machine::text::Text;
use ci_machine_plans::listed_jobs::ToldGroup;
use ci_machine_plans::listings;
use ci_store::fault::StoreFault;
use ci_store::store::Store;
use std::alloc::Global;

/// The resource groups of the project that have a process mode or are held are read.
pub(crate) fn groups<T: Store>(
    alloc: Global,
    store: &mut T,
    project: &Project,
) -> Result<Result<Body, Code>, StoreFault>
    ensures { LoadsBy T.honest T.holds T.leaves store.old store.new result
        (λ k body. IsKept k → body ≡ machine.read_subject k.state k.board project.now subject.ResourceGroups) }
{
    let modes = store.modes()?;
    let held = held_in(alloc, store, project.id)?;
    let names = names(alloc, held.as_slice(), modes.as_slice(), project.id)?;
    let groups = told(
        alloc,
        store,
        project.id,
        held.as_slice(),
        modes.as_slice(),
        names.as_slice(),
    )?;
    let body = listings::list(alloc, groups.as_slice())?;
    Ok(Ok(body))
}

/// What live attempts hold of a project that was found, by their numbers.
fn held_in<T: Store>(alloc: Global, store: &mut T, project: u64) -> Result<Vec<Holder>, StoreFault>
    ensures { LoadsBy T.honest T.holds T.leaves store.old store.new result (λ k held. IsKept k → held.items ≡ holders_in project (holders k.state)) }
{
    let rows = store.holders_in(project)?;
    let held = by_attempt(alloc, rows.as_slice())?;
    Ok(held)
}

/// The groups of a project with these names, by the rows of those that hold its groups, and by at least its modes.
fn told<T: Store>(
    alloc: Global,
    store: &mut T,
    project: u64,
    held: &[Holder],
    modes: &[GroupMode],
    names: &[Text],
) -> Result<Vec<ToldGroup>, StoreFault>
    ensures { LoadsBy T.honest T.holds T.leaves store.old store.new result (λ k groups. map told_group groups.items ≡ map (group_by k.state project held.now modes.now) names.now) }
{
    let mut groups = Vec::new(alloc);
    for name in names {
        let group = told_one(store, project, held, modes, name)?;
        groups.push(group)?;
    }
    Ok(groups)
}

fn told_one<T: Store>(
    store: &mut T,
    project: u64,
    held: &[Holder],
    modes: &[GroupMode],
    name: &Text,
) -> Result<ToldGroup, StoreFault>
    ensures { LoadsBy T.honest T.holds T.leaves store.old store.new result (λ k group. told_group group ≡ group_by k.state project held.now modes.now name.now) }
{
    let holder = job_of(store, holding(held, project, name))?;
    let order = order_of(modes, project, name);
    let key = name.clone()?;
    Ok(ToldGroup { key, order, holder })
}

/// The job of an attempt, if it is one.
fn job_of<T: Store>(store: &mut T, attempt: Option<u64>) -> Result<Option<u64>, StoreFault>
    ensures { LoadsBy T.honest T.holds T.leaves store.old store.new result (λ k job. job ≡ job_holding k.state attempt) }
{
    let Some(number) = attempt else {
        return Ok(None);
    };
    let found = store.attempt(number)?;
    Ok(number_of(&found))
}

fn number_of(attempt: &Option<Attempt>) -> Option<u64>
    ensures { result ≡ option_map (λ a. a.job) attempt.now }
{
    match attempt {
        Some(attempt) => Some(attempt.job),
        None => None,
    }
}
