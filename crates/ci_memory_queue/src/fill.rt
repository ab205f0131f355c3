//! The jobs that count as the store has them, to begin with: all of them are noted, and none is sorted yet.

ghost use Rattle.std.specs.Prelude.{◌≡◌, ◌++◌, map, OnOk};
ghost use Rattle.ci_machine_steps.specs.Prelude.{rows_with};
ghost use Rattle.ci_store.specs.Prelude.{LoadsBy};
ghost use Rattle.ci_memory_queue.specs.Covers.{Covers};

use crate::notes::notes_of;
use crate::queue::Queue;
use ci_board::facts::Status;
use ci_machine::records::BoardRow;
use ci_store::fault::StoreFault;
use ci_store::store::Store;
use std::alloc::{AllocError, Global};

/// All pending jobs. Errors: the store's, or memory was refused.
pub fn filled<T: Store>(alloc: Global, store: &mut T) -> Result<Queue, StoreFault>
    ensures { LoadsBy T.honest T.holds T.leaves store.old store.new result (λ k q. Covers q.classes.items q.notes k.state k.board) }
{
    let mut fresh = Vec::new(alloc);
    note_with(store, &mut fresh, Status::Pending)?;
    Ok(Queue {
        classes: Vec::new(alloc),
        notes: notes_of(fresh),
    })
}

/// Notes the jobs with this status. Errors: the store's, or memory was refused.
pub(crate) fn note_with<T: Store>(
    store: &mut T,
    jobs: &mut Vec<u64>,
    status: Status,
) -> Result<(), StoreFault>
    ensures { LoadsBy T.honest T.holds T.leaves store.old store.new result (λ k _. jobs.new.items ≡ jobs.old.items ++ map (λ r. r.job) (rows_with status k.board)) }
{
    let rows = store.rows_with(status)?;
    note_all(jobs, rows.as_slice())?;
    Ok(())
}

/// Notes the jobs of the rows.
fn note_all(jobs: &mut Vec<u64>, rows: &[BoardRow]) -> Result<(), AllocError>
    ensures { OnOk result (jobs.new.items ≡ jobs.old.items ++ map (λ r. r.job) rows.now) }
{
    for row in rows {
        jobs.push(row.job)?;
    }
    Ok(())
}
