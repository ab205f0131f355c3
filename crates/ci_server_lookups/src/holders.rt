//! Which resource groups are held, from what the store holds.

ghost use Rattle.std.specs.Prelude.{◌≡◌, ◌++◌, IfOk};
ghost use Rattle.std.specs.List.{list_any};
ghost use Rattle.ci_machine_steps.specs.Prelude.{holders};
ghost use Rattle.ci_store.specs.Prelude.{LoadsBy};
ghost use Rattle.ci_server_lookups.specs.Held.{HoldAlike, holder_for, frees, still_held};
ghost use Rattle.ci_server_lookups.specs.Keeps.{IsKept};

use ci_machine::change::IndexChange;
use ci_machine::records::{Holder, Job};
use ci_machine::text::Text;
use ci_store::fault::StoreFault;
use ci_store::store::Store;
use std::alloc::{AllocError, Global};

/// Who holds the resource groups of these jobs of a project that was found.
pub fn holders_of<T: Store>(
    alloc: Global,
    store: &mut T,
    project: u64,
    jobs: &[Job],
) -> Result<Vec<Holder>, StoreFault>
    ensures { LoadsBy T.honest T.holds T.leaves store.old store.new result (λ k found. IsKept k → HoldAlike found.items (holders k.state) project jobs.now) }
{
    let mut found = Vec::new(alloc);
    for job in jobs {
        push_holder(store, &mut found, project, &job.options.resource_group)?;
    }
    Ok(found)
}

/// Adds the holder of this resource group, if it is one and is held.
fn push_holder<T: Store>(
    store: &mut T,
    found: &mut Vec<Holder>,
    project: u64,
    group: &Option<Text>,
) -> Result<(), StoreFault>
    ensures { LoadsBy T.honest T.holds T.leaves store.old store.new result (λ k _. found.new.items ≡ found.old.items ++ holder_for project k.holders group.now) }
{
    let Some(group) = group else {
        return Ok(());
    };
    match store.holder(project, group)? {
        Some(holder) => Ok(found.push(holder)?),
        None => Ok(()),
    }
}

/// Those that still hold what they held after changes that hold no group.
pub fn still_held(
    alloc: Global,
    held: &[Holder],
    changes: &[IndexChange],
) -> Result<Vec<Holder>, AllocError>
    ensures { IfOk result (λ v. v.items ≡ still_held changes.now held.now) }
{
    let mut still = Vec::new(alloc);
    for holder in held {
        if !is_freed(holder, changes) {
            still.push(holder.clone()?)?;
        }
    }
    Ok(still)
}

fn is_freed(holder: &Holder, changes: &[IndexChange]) -> bool
    ensures { result ≡ list_any (frees holder.now) changes.now }
{
    changes.iter().any(|change| frees(holder, change))
}

fn frees(holder: &Holder, change: &IndexChange) -> bool
    ensures { result ≡ frees holder.now change.now }
{
    match change {
        IndexChange::Free(project, group) => {
            holder.project == *project && holder.group.is_same(group)
        }
        _ => false,
    }
}
