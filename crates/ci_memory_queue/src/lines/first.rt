//! The job that goes first in a line.

ghost use Rattle.std.specs.Prelude.{◌≡◌, ◌≢◌, ◌<◌, ℕ, length, Contains, IfSome, IfNone};
ghost use Rattle.ci_machine_steps.specs.Prelude.{GroupOrder};
ghost use Rattle.ci_store.specs.Prelude.{LoadsBy};
ghost use Rattle.ci_memory_queue.specs.LineCovers.{jobs_in};
ghost use Rattle.ci_memory_queue.specs.First.{IsInGroup, IsFoundAt, GoesFirst, IsFirst};

use crate::lines::Line;
use crate::lines::places::{counts, is_in_group, place_of};
use ci_machine::records::GroupOrder;
use ci_machine::text::Text;
use ci_store::fault::StoreFault;
use ci_store::store::Store;
use std::collections::BTreeSet;

/// The pipeline of the job of a line that goes first by the order. Those before it, which don't wait or have another group now, are taken
/// out. Errors: the store's.
pub fn first_in<T: Store>(
    store: &mut T,
    order: GroupOrder,
    line: &mut Line,
) -> Result<Option<u64>, StoreFault>
    ensures project { line.new.project ≡ line.old.project }
    ensures group { line.new.group ≡ line.old.group }
    ensures keeps { LoadsBy T.honest T.holds T.leaves store.old store.new result
        (λ k _. (o : GroupOrder) (job pipeline : ℕ) → IsInGroup o k line.old.project line.old.group job pipeline → Contains (jobs_in o line.old) job → Contains (jobs_in o line.new) job) }
    ensures first { LoadsBy T.honest T.holds T.leaves store.old store.new result (λ k found. IsFirst order k line.old.project line.old.group (jobs_in order line.new) found) }
{
    match order {
        GroupOrder::OldestFirst => {
            first_of(store, order, line.project, &line.group, &mut line.waiting)
        }
        GroupOrder::NewestReadyFirst => {
            first_of(store, order, line.project, &line.group, &mut line.ready)
        }
    }
}

/// The pipeline of the first of the jobs that counts in the order and stands in this group. Those before it are taken out.
fn first_of<T: Store>(
    store: &mut T,
    order: GroupOrder,
    project: u64,
    group: &Text,
    jobs: &mut BTreeSet<u64>,
) -> Result<Option<u64>, StoreFault>
    ensures keeps { LoadsBy T.honest T.holds T.leaves store.old store.new result (λ k _. (job pipeline : ℕ) → IsInGroup order k project group.now job pipeline → Contains jobs.old.keys job → Contains jobs.new.keys job) }
    ensures first { LoadsBy T.honest T.holds T.leaves store.old store.new result (λ k found. IsFirst order k project group.now jobs.new.keys found) }
{
    while let Some(job) = end_of(order, jobs) {
        let found = pipeline_in(store, order, project, group, job)?;
        if found.is_some() {
            return Ok(found);
        }
        take_out(jobs, job);
    }
    Ok(None)
}

/// The job at the end of the line at which the order begins.
fn end_of(order: GroupOrder, jobs: &BTreeSet<u64>) -> Option<u64>
    ensures there { IfSome result (λ first. Contains jobs.now.keys first) }
    ensures first { IfSome result (λ first. (job : ℕ) → Contains jobs.now.keys job → GoesFirst order first job) }
    ensures none { IfNone result ((job : ℕ) → Contains jobs.now.keys job → ⊥) }
{
    match order {
        GroupOrder::OldestFirst => jobs.first().copied(),
        GroupOrder::NewestReadyFirst => jobs.last().copied(),
    }
}

fn take_out(jobs: &mut BTreeSet<u64>, job: u64)
    ensures others { (n : ℕ) → n ≢ job → Contains jobs.old.keys n → Contains jobs.new.keys n }
    ensures fewer { Contains jobs.old.keys job → length jobs.new.keys < length jobs.old.keys }
{
    jobs.remove(&job);
}

/// The pipeline of the job, if it counts in the order and stands in this group.
fn pipeline_in<T: Store>(
    store: &mut T,
    order: GroupOrder,
    project: u64,
    group: &Text,
    job: u64,
) -> Result<Option<u64>, StoreFault>
    ensures { LoadsBy T.honest T.holds T.leaves store.old store.new result (λ k found. IsFoundAt order k project group.now job found) }
{
    let row = store.row(job)?;
    if !counts(order, &row) {
        return Ok(None);
    }
    let place = place_of(store, job)?;
    if !is_in_group(&place, project, group) {
        return Ok(None);
    }
    Ok(Some(place.pipeline))
}
