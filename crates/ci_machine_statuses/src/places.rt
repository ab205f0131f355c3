//! Where jobs stand among those of their pipeline.

ghost use Rattle.std.specs.Prelude.{◌≡◌, ◌<◌, true, false, map, length, slice_index_or, IfOk, IfErr, IfSome, OnOk, OnErr};
ghost use Rattle.std.specs.Ordering.{nat_cmp};
ghost use Rattle.std.specs.List.Sorted.{IsStrictlySortedBy};
ghost use Rattle.ci_machine.specs.Prelude.{is_among, AreWithin};
ghost use Rattle.ci_machine_steps.specs.Prelude.{place_in, pairs_among};
ghost use Rattle.ci_machine_statuses.specs.Lookups.{place_of};
ghost use Rattle.ci_machine_statuses.specs.Boards.{AreNamed};
ghost use Rattle.ci_machine_statuses.specs.declared.fault.StatusFault.TheVariants.{Broken};

use crate::fault::StatusFault;
use ci_machine::records::{BoardRow, Job, Need};
use std::alloc::{AllocError, Global};

/// The numbers of jobs.
pub fn numbers_of(alloc: Global, jobs: &[Job]) -> Result<Vec<u64>, AllocError>
    ensures { IfOk result (λ v. v.items ≡ map (λ j. j.id) jobs.now) }
{
    let mut numbers = Vec::with_capacity(alloc, jobs.len())?;
    for job in jobs {
        numbers.push(job.id)?;
    }
    Ok(numbers)
}

/// The jobs that rows are of.
pub fn jobs_of_rows(alloc: Global, rows: &[BoardRow]) -> Result<Vec<u64>, AllocError>
    ensures { IfOk result (λ v. v.items ≡ map (λ r. r.job) rows.now) }
{
    rows.iter().map(|row| row.job).collect(alloc)
}

/// Where a number stands among ascending ones, if it is one of them.
pub fn place_of(numbers: &[u64], n: u64) -> Option<usize>
    ensures within { IfSome result (λ place. place < length numbers.now) }
    ensures place { IsStrictlySortedBy nat_cmp numbers.now → result ≡ place_of numbers.now n }
{
    match place_in_row(numbers, n) {
        Some(place) => Some(place),
        None => numbers.binary_search(&n).ok(),
    }
}

/// Where a number stands among numbers in a row, as those of a pipeline's jobs mostly are. None where it isn't there.
fn place_in_row(numbers: &[u64], n: u64) -> Option<usize>
    ensures within { IfSome result (λ place. place < length numbers.now) }
    ensures there { IfSome result (λ place. slice_index_or numbers.now place 0 ≡ n) }
{
    let first = *numbers.first()?;
    let place = usize::try_from(n.checked_sub(first)?).ok()?;
    if place < numbers.len() && numbers[place] == n {
        return Some(place);
    }
    None
}

/// The pair of places that a need is. Errors: the job that it waits for is none of these.
fn pair_at(numbers: &[u64], job: usize, need: Need) -> Result<(usize, usize), StatusFault>
    requires { job < length numbers.now }
    ensures within { IfOk result (λ p. (p.0 < length numbers.now) × (p.1 < length numbers.now)) }
    ensures pair { IfOk result (λ p. IsStrictlySortedBy nat_cmp numbers.now → (p.0 ≡ place_in numbers.now need.pred) × (p.1 ≡ job)) }
    ensures named { OnOk result (IsStrictlySortedBy nat_cmp numbers.now → is_among numbers.now need.pred ≡ true) }
    ensures fault { OnErr result (IsStrictlySortedBy nat_cmp numbers.now → is_among numbers.now need.pred ≡ false) }
{
    match place_of(numbers, need.pred) {
        Some(pred) => Ok((pred, job)),
        None => Err(StatusFault::Broken),
    }
}

/// The pairs that the needs of the jobs with these numbers are, by the places of both jobs. Errors: memory was refused, or
/// such a job waits for one that is none of them.
pub fn pairs_among(
    alloc: Global,
    numbers: &[u64],
    needs: &[Need],
) -> Result<Vec<(usize, usize)>, StatusFault>
    ensures within { IfOk result (λ v. AreWithin (length numbers.now) v.items) }
    ensures pairs { IfOk result (λ v. IsStrictlySortedBy nat_cmp numbers.now → v.items ≡ pairs_among numbers.now needs.now) }
    ensures named { OnOk result (IsStrictlySortedBy nat_cmp numbers.now → AreNamed numbers.now needs.now) }
    ensures fault { IfErr result (λ f. f ≡ Broken → IsStrictlySortedBy nat_cmp numbers.now → AreNamed numbers.now needs.now → ⊥) }
{
    let mut pairs = Vec::with_capacity(alloc, needs.len())?;
    for need in needs {
        if let Some(job) = place_of(numbers, need.job) {
            pairs.push(pair_at(numbers, job, *need)?)?;
        }
    }
    Ok(pairs)
}
