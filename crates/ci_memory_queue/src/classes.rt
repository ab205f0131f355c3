//! Pending jobs are put into the classes of what they ask.

ghost use Rattle.std.specs.Prelude.{◌≡◌, ℕ, ◌<◌, length, slice_index_or, IfSome, OnOk, Contains};
ghost use Rattle.ci_memory_queue.specs.declared.queue.Asks.{Asks};
ghost use Rattle.ci_memory_queue.specs.declared.queue.Class.{Class};
ghost use Rattle.ci_store.specs.Prelude.{LoadsBy};
ghost use Rattle.ci_memory_queue.specs.Covers.{is_pending_at, IsAmong, IsSorted};
ghost use Rattle.ci_memory_queue.specs.Offers.{IsDemand};

use crate::asks::is_same;
use crate::pending::pending_row;
use crate::queue::{Asks, Class};
use crate::sorting::Sorts;
use ci_store::fault::StoreFault;
use ci_store::store::Store;
use std::alloc::{AllocError, Global};
use std::collections::BTreeSet;

impl Sorts for Class {
    ghost counts = { λ k n. is_pending_at k.board n };

    ghost IsPlaced = { λ k classes newest n. IsSorted k.state classes newest n };

    fn sort_in<T: Store>(
        alloc: Global,
        store: &mut T,
        classes: &mut Vec<Class>,
        newest_pipeline: &mut u64,
        job: u64,
    ) -> Result<(), StoreFault> {
        if pending_row(store, job)?.is_none() {
            return Ok(());
        }
        let Asked { pipeline, asks } = demand_of(store, job)?;
        *newest_pipeline = (*newest_pipeline).max(pipeline);
        put_in(alloc, classes, asks, job)?;
        Ok(())
    }
}

/// What a job asks, with its pipeline.
#[derive(Drop)]
struct Asked {
    pipeline: u64,
    asks: Asks,
}

/// What a job asks that is pending. Errors: the store's.
fn demand_of<T: Store>(store: &mut T, job: u64) -> Result<Asked, StoreFault>
    ensures { LoadsBy T.honest T.holds T.leaves store.old store.new result (λ k a. IsDemand k.state job a.pipeline a.asks) }
{
    let Some(demand) = store.demand(job)? else {
        return Err(StoreFault::Broken);
    };
    let Some(pipeline) = store.pipeline(demand.pipeline)? else {
        return Err(StoreFault::Broken);
    };
    Ok(Asked {
        pipeline: demand.pipeline,
        asks: Asks {
            project: pipeline.project,
            tags: demand.tags,
            group: demand.resource_group,
        },
    })
}

/// Puts a job into the class of what it asks, or into a new one. Errors: memory was refused.
pub fn put_in(
    alloc: Global,
    classes: &mut Vec<Class>,
    asks: Asks,
    job: u64,
) -> Result<(), AllocError>
    ensures there { OnOk result (IsAmong classes.new.items asks job) }
    ensures keeps { (a : Asks) (n : ℕ) → IsAmong classes.old.items a n → IsAmong classes.new.items a n }
{
    match place_of(classes.as_slice(), &asks) {
        Some(place) => put_at(classes, place, job),
        None => begin(alloc, classes, asks, job),
    }
}

/// The place of the class of those that ask this, if there is one.
fn place_of(classes: &[Class], asks: &Asks) -> Option<usize>
    ensures { IfSome result (λ i. (i < length classes.now) × ((d : Class) → (slice_index_or classes.now i d).asks ≡ asks.now)) }
{
    classes.iter().position(|class| is_same(&class.asks, asks))
}

fn put_at(classes: &mut Vec<Class>, place: usize, job: u64) -> Result<(), AllocError>
    requires { place < length classes.old.items }
    ensures there { OnOk result ((d : Class) → IsAmong classes.new.items (slice_index_or classes.old.items place d).asks job) }
    ensures keeps { (a : Asks) (n : ℕ) → IsAmong classes.old.items a n → IsAmong classes.new.items a n }
{
    put(&mut classes[place].jobs, job)
}

/// Adds a class that has this job alone.
fn begin(alloc: Global, classes: &mut Vec<Class>, asks: Asks, job: u64) -> Result<(), AllocError>
    ensures there { OnOk result (IsAmong classes.new.items asks job) }
    ensures keeps { (a : Asks) (n : ℕ) → IsAmong classes.old.items a n → IsAmong classes.new.items a n }
{
    let mut jobs = BTreeSet::new(alloc);
    put(&mut jobs, job)?;
    classes.push(Class { asks, jobs })?;
    Ok(())
}

/// Puts a job among others. Errors: memory was refused.
pub(crate) fn put(jobs: &mut BTreeSet<u64>, job: u64) -> Result<(), AllocError>
    ensures there { OnOk result (Contains jobs.new.keys job) }
    ensures keeps { (n : ℕ) → Contains jobs.old.keys n → Contains jobs.new.keys n }
{
    jobs.insert(job)?;
    Ok(())
}
