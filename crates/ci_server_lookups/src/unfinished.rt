//! The pipelines that aren't finished, from the rows of their jobs' statuses that the store holds.

ghost use Rattle.std.specs.Prelude.{◌≡◌, ◌==◌, ◌||◌, ℕ, OnOk};
ghost use Rattle.std.specs.List.{list_any};
ghost use Rattle.ci_machine_steps.specs.Prelude.{rows_with};
ghost use Rattle.ci_store.specs.Prelude.{LoadsBy};
ghost use Rattle.ci_server_lookups.specs.Keeps.{IsKept};
ghost use Rattle.ci_server_lookups.specs.Unfinished.{AreOpen, has_number, keeps_open, opens};

use ci_board::facts::Status;
use ci_machine::records::{BoardRow, Job};
use ci_store::fault::StoreFault;
use ci_store::store::Store;
use ci_values::when::AllowFailure;
use std::alloc::{AllocError, Global};

/// The numbers of the pipelines that aren't finished, each once: those with a job that is pending or running, or manual and may not be
/// left out. All rows with these statuses are looked up, and the job of each. Errors: the store's.
pub fn unfinished_of<T: Store>(alloc: Global, store: &mut T) -> Result<Vec<u64>, StoreFault>
    ensures { LoadsBy T.honest T.holds T.leaves store.old store.new result (λ k numbers. IsKept k → AreOpen k numbers.items) }
{
    let mut numbers = Vec::new(alloc);
    push_open(store, &mut numbers, Status::Running)?;
    push_open(store, &mut numbers, Status::Pending)?;
    push_open(store, &mut numbers, Status::Manual)?;
    Ok(each_once(numbers))
}

/// Adds the pipelines that aren't finished by a row with this status.
fn push_open<T: Store>(
    store: &mut T,
    numbers: &mut Vec<u64>,
    status: Status,
) -> Result<(), StoreFault>
    ensures { LoadsBy T.honest T.holds T.leaves store.old store.new result
        (λ k _. (n : ℕ) → has_number n numbers.new.items ≡ (has_number n numbers.old.items || list_any (opens k.state n) (rows_with status k.board))) }
{
    let rows = store.rows_with(status)?;
    push_each(store, numbers, rows.as_slice())
}

/// Adds the pipelines that aren't finished by one of these rows.
fn push_each<T: Store>(
    store: &mut T,
    numbers: &mut Vec<u64>,
    rows: &[BoardRow],
) -> Result<(), StoreFault>
    ensures { LoadsBy T.honest T.holds T.leaves store.old store.new result
        (λ k _. (n : ℕ) → has_number n numbers.new.items ≡ (has_number n numbers.old.items || list_any (opens k.state n) rows.now)) }
{
    for row in rows {
        push_by_row(store, numbers, row)?;
    }
    Ok(())
}

/// Adds the pipeline of the row's job, where by the row it isn't finished.
fn push_by_row<T: Store>(
    store: &mut T,
    numbers: &mut Vec<u64>,
    row: &BoardRow,
) -> Result<(), StoreFault>
    ensures { LoadsBy T.honest T.holds T.leaves store.old store.new result
        (λ k _. (n : ℕ) → has_number n numbers.new.items ≡ (has_number n numbers.old.items || opens k.state n row.now)) }
{
    let Some(job) = store.job(row.job)? else {
        return Err(StoreFault::Broken);
    };
    if !keeps_open(&job, row.row.status) {
        return Ok(());
    }
    Ok(push_unless_last(numbers, job.pipeline)?)
}

/// Isn't the job's pipeline finished while the job has this status?
fn keeps_open(job: &Job, status: Status) -> bool
    ensures { result ≡ keeps_open job.now.options.part.allow_failure status }
{
    match status {
        Status::Pending | Status::Running => true,
        Status::Manual => !matches!(job.options.part.allow_failure, AllowFailure::Yes),
        _ => false,
    }
}

/// Adds a number, unless it is the last one already: jobs of a pipeline are neighbours.
fn push_unless_last(numbers: &mut Vec<u64>, number: u64) -> Result<(), AllocError>
    ensures { OnOk result ((n : ℕ) → has_number n numbers.new.items ≡ (has_number n numbers.old.items || (number == n))) }
{
    match numbers.as_slice() {
        [.., last] if *last == number => Ok(()),
        _ => Ok(numbers.push(number)?),
    }
}

/// The same numbers in ascending order, each once.
fn each_once(mut numbers: Vec<u64>) -> Vec<u64>
    ensures { (n : ℕ) → has_number n result.items ≡ has_number n numbers.items }
{
    numbers.sort_unstable();
    numbers.dedup();
    numbers
}
