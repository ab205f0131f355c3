//! The process modes of resource groups: a group of a project is to have one, or is asked for its own.

ghost use Rattle.std.specs.Prelude.{◌≡◌, IfOk};
ghost use Rattle.std.specs.Result.{result_map_both};
ghost use Rattle.ci_machine_steps.specs.Modes as modes;

use crate::body;
use crate::replies::{fine, only, refused, unchanged};
use ci_machine::change::{Changes, Key, Record, RowChange};
use ci_machine::records::{GroupMode, GroupOrder, Project};
use ci_machine::reply::{Body, Code, Reply};
use ci_machine::request::NewMode;
use ci_machine::text::Text;
use std::alloc::{AllocError, Global};

/// A resource group of the project that was asked for, if it was, is to have a process mode, and is told with it (200).
///
/// Refusals: those of `asked_project`. Errors: memory was refused.
pub fn set_mode(
    alloc: Global,
    project: Result<&Project, Code>,
    new: NewMode,
) -> Result<(Reply, Changes), AllocError>
    ensures { IfOk result (λ plan. plan ≡ modes.set_mode (result_map_both (λ p. p.now) (λ c. c) project.entry) new) }
{
    let project = match project {
        Ok(project) => project,
        Err(code) => return Ok(refused(alloc, code)),
    };
    let NewMode { group, order, .. } = new;
    let reply = told(alloc, &group, order)?;
    let changes = only(alloc, mode_change(project.id, group, order))?;
    Ok((reply, changes))
}

/// The change after which the resource group of a project has this order: one that has none has no record.
fn mode_change(project: u64, group: Text, order: Option<GroupOrder>) -> RowChange
    ensures { result ≡ modes.mode_change project group order }
{
    match order {
        None => RowChange::Remove(Key::Mode(project, group)),
        Some(order) => RowChange::Put(Record::Mode(GroupMode {
            project,
            group,
            order,
        })),
    }
}

/// A resource group of the project that was asked for, if it was, is told with its process mode (200): this is the order that it has.
///
/// Refusals: those of `asked_project`. Errors: memory was refused.
pub fn show_mode(
    alloc: Global,
    project: Result<&Project, Code>,
    order: Option<GroupOrder>,
    group: &Text,
) -> Result<(Reply, Changes), AllocError>
    ensures { IfOk result (λ plan. plan ≡ modes.show_mode (result_map_both (λ p. p.now) (λ c. c) project.entry) order group.now) }
{
    if let Err(code) = project {
        return Ok(refused(alloc, code));
    }
    let reply = told(alloc, group, order)?;
    Ok(unchanged(alloc, reply))
}

/// The reply (200) that tells a resource group with its process mode.
fn told(alloc: Global, group: &Text, order: Option<GroupOrder>) -> Result<Reply, AllocError>
    ensures { IfOk result (λ reply. reply ≡ modes.mode_told group.now order) }
{
    let text = body::mode(alloc, group, order)?;
    Ok(fine(Body::Json(text)))
}
