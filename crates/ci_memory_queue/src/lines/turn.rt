//! Whose turn it is in a resource group with an order, by what is remembered of the jobs that wait for it.

ghost use Rattle.ci_machine_steps.specs.Prelude.{Kept, waiting};
ghost use Rattle.ci_store.specs.Prelude.{LoadsBy};
ghost use Rattle.ci_server_lookups.specs.Prelude.{IsKept, IsTurn};
ghost use Rattle.ci_memory_queue.specs.LineCovers.{line_of, jobs_of, Covers, IsRight, KeepsWaiting};
ghost use Rattle.ci_memory_queue.specs.First.{IsFirst};

use crate::lines::fill::filled;
use crate::lines::first::first_in;
use crate::lines::groups::index_of;
use crate::lines::{Line, Lines};
use crate::sorting::sort_fresh;
use ci_machine::records::GroupOrder;
use ci_machine::text::Text;
use ci_store::fault::StoreFault;
use ci_store::store::Store;
use std::alloc::Global;

/// The pipeline of a project whose jobs go first in a resource group by this order: that of the oldest job with the group that is created
/// or pending, or that of the newest one that is pending. What is remembered of the jobs that wait is filled where there is nothing, and
/// those that are in no line yet are put into those of their groups. Where it fails, nothing is remembered. Errors: the store's, or memory
/// was refused.
pub fn turn<T: Store>(
    alloc: Global,
    store: &mut T,
    lines: &mut Option<Lines>,
    project: u64,
    group: &Text,
    order: GroupOrder,
) -> Result<Option<u64>, StoreFault>
    ensures turn { LoadsBy T.honest T.holds T.leaves store.old store.new result (λ k turn. IsRight lines.old k → IsKept k → IsTurn order (waiting k.state k.board) project group.now turn) }
    ensures right { T.honest store.new → (k : Kept) → T.holds store.old k → IsRight lines.old k → IsRight lines.new k }
{
    let Lines {
        lines: mut known,
        notes,
    } = known_or_filled(alloc, store, lines.take())?;
    let notes = sort_fresh(alloc, store, &mut known, notes)?;
    let turn = first_among(store, &mut known, project, group, order)?;
    *lines = Some(Lines {
        lines: known,
        notes,
    });
    Ok(turn)
}

/// What is remembered, or else what is filled now.
fn known_or_filled<T: Store>(
    alloc: Global,
    store: &mut T,
    lines: Option<Lines>,
) -> Result<Lines, StoreFault>
    ensures { LoadsBy T.honest T.holds T.leaves store.old store.new result (λ k q. IsRight lines k → Covers q.lines.items q.notes k.state k.board) }
{
    match lines {
        Some(lines) => Ok(lines),
        None => filled(alloc, store),
    }
}

/// The pipeline of the first job in the line of the group.
fn first_among<T: Store>(
    store: &mut T,
    lines: &mut Vec<Line>,
    project: u64,
    group: &Text,
    order: GroupOrder,
) -> Result<Option<u64>, StoreFault>
    ensures keeps { LoadsBy T.honest T.holds T.leaves store.old store.new result (λ k _. KeepsWaiting k lines.old.items lines.new.items) }
    ensures first { LoadsBy T.honest T.holds T.leaves store.old store.new result (λ k found. IsFirst order k project group.now (jobs_of order (line_of lines.new.items project group.now)) found) }
{
    match index_of(lines.as_slice(), project, group) {
        Some(index) => first_in(store, order, &mut lines[index]),
        None => Ok(None),
    }
}
