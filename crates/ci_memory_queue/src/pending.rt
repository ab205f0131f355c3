//! Whether a job is pending, by its row.

ghost use Rattle.std.specs.Prelude.{◌≡◌, if◌then◌else◌, Some, None};
ghost use Rattle.ci_machine_steps.specs.Prelude.{Pending, is_status};
ghost use Rattle.ci_store.specs.Prelude.{LoadsBy};
ghost use Rattle.ci_memory_queue.specs.Offers.{IsPendingRow};

use ci_board::facts::Status;
use ci_machine::records::BoardRow;
use ci_store::fault::StoreFault;
use ci_store::store::Store;

/// The row of a job, if it is pending. Errors: the store's.
pub fn pending_row<T: Store>(store: &mut T, job: u64) -> Result<Option<BoardRow>, StoreFault>
    ensures { LoadsBy T.honest T.holds T.leaves store.old store.new result (λ k row. IsPendingRow k.board job row) }
{
    match store.row(job)? {
        Some(row) => Ok(if_pending(row)),
        None => Ok(None),
    }
}

fn if_pending(row: BoardRow) -> Option<BoardRow>
    ensures { result ≡ (if is_status row.row.status Pending then Some row else None) }
{
    if matches!(row.row.status, Status::Pending) {
        Some(row)
    } else {
        None
    }
}
