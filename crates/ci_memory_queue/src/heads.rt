//! The first job that is pending and asks what a class asks: of those that the class has, or of those of a pipeline.

ghost use Rattle.std.specs.Prelude.{◌≡◌, ◌≤◌, ℕ, true, false, IsTrue, IfSome, Contains, Some, slice_get, option_map};
ghost use Rattle.ci_machine_steps.specs.Prelude.{job_at, pipeline_at, jobs_of, queued_at};
ghost use Rattle.ci_machine_steps.specs.Step as step;
ghost use Rattle.ci_server_lookups.specs.Prelude.{IsKept};
ghost use Rattle.ci_store.specs.Prelude.{LoadsBy};
ghost use Rattle.ci_memory_queue.specs.Covers.{is_pending_at, asked_by, asked_of, asks_at};
ghost use Rattle.ci_memory_queue.specs.Offers.{UpTo, IsAhead, IsOfferAt, IsOfferAhead, IsFirst, IsFirstOf};

use crate::asks::{is_asked, may_ask};
use crate::pending::pending_row;
use crate::queue::Asks;
use ci_machine::records::{BoardRow, Job, QueuedJob};
use ci_server_lookups::search::Offer;
use ci_store::fault::StoreFault;
use ci_store::store::Store;
use std::collections::BTreeSet;

/// The first of the jobs that is pending and asks this, where its number is lesser than that of the offer that was found before. Those
/// before it, which aren't pending or ask something else, are taken out. Errors: the store's.
pub fn first_pending<T: Store>(
    store: &mut T,
    asks: &Asks,
    jobs: &mut BTreeSet<u64>,
    before: &Option<Offer>,
) -> Result<Option<Offer>, StoreFault>
    ensures keeps { LoadsBy T.honest T.holds T.leaves store.old store.new result (λ k _. (job : ℕ) → is_pending_at k.board job ≡ true → asks_at k.state job ≡ Some asks.now → Contains jobs.old.keys job → Contains jobs.new.keys job) }
    ensures first { LoadsBy T.honest T.holds T.leaves store.old store.new result (λ k found. IsFirst k asks.now jobs.new.keys before.now found) }
{
    while let Some(first) = least_of(jobs) {
        if !is_ahead(first, before) {
            return Ok(None);
        }
        let found = offer_at(store, asks, first)?;
        if found.is_some() {
            return Ok(found);
        }
        jobs.pop_first();
    }
    Ok(None)
}

/// The first job of a pipeline that is pending and asks this, where its number is lesser than that of the offer that was found before.
/// Errors: the store's.
pub fn first_of_pipeline<T: Store>(
    store: &mut T,
    asks: &Asks,
    pipeline: u64,
    before: &Option<Offer>,
) -> Result<Option<Offer>, StoreFault>
    ensures { LoadsBy T.honest T.holds T.leaves store.old store.new result (λ k found. IsKept k → IsFirstOf k asks.now pipeline before.now found) }
{
    let jobs = store.jobs_of(pipeline)?;
    first_among(store, asks, jobs.as_slice(), before)
}

/// The first of the jobs of a pipeline.
fn first_among<T: Store>(
    store: &mut T,
    asks: &Asks,
    jobs: &[Job],
    before: &Option<Offer>,
) -> Result<Option<Offer>, StoreFault>
    ensures { LoadsBy T.honest T.holds T.leaves store.old store.new result (λ k found. IsKept k → (pipeline : ℕ) → jobs.now ≡ jobs_of k.state pipeline → IsFirstOf k asks.now pipeline before.now found) }
{
    for job in jobs {
        let found = offer_ahead(store, asks, job, before)?;
        if found.is_some() {
            return Ok(found);
        }
    }
    Ok(None)
}

/// The job with its row, if it has a lesser number than the offer that was found before, is pending and asks this. One that asks for other
/// tags or another group is not looked up.
fn offer_ahead<T: Store>(
    store: &mut T,
    asks: &Asks,
    job: &Job,
    before: &Option<Offer>,
) -> Result<Option<Offer>, StoreFault>
    ensures { LoadsBy T.honest T.holds T.leaves store.old store.new result (λ k found. job_at k.state job.now.id ≡ Some job.now → IsOfferAhead k asks.now job.now.id before.now found) }
{
    if !is_ahead(job.id, before) {
        return Ok(None);
    }
    if !may_ask(asks, job) {
        return Ok(None);
    }
    offer_at(store, asks, job.id)
}

/// Has one of the jobs a lesser number than the offer's, if there is one?
pub fn is_any_ahead(jobs: &BTreeSet<u64>, before: &Option<Offer>) -> bool
    ensures { result ≡ false → (job : ℕ) → Contains jobs.now.keys job → UpTo before.now job }
{
    match least_of(jobs) {
        Some(first) => is_ahead(first, before),
        None => false,
    }
}

/// The least of the jobs.
fn least_of(jobs: &BTreeSet<u64>) -> Option<u64>
    ensures first { result ≡ slice_get jobs.now.keys 0 }
    ensures least { IfSome result (λ least. (job : ℕ) → Contains jobs.now.keys job → least ≤ job) }
{
    jobs.first().copied()
}

/// Has the job a lesser number than the offer's, if there is one?
fn is_ahead(job: u64, before: &Option<Offer>) -> bool
    ensures ahead { IsTrue result → IsAhead before.now job }
    ensures behind { result ≡ false → UpTo before.now job }
{
    match before {
        Some(offer) => job < offer.row.job,
        None => true,
    }
}

/// The job with its row, if it is pending and asks this.
fn offer_at<T: Store>(store: &mut T, asks: &Asks, job: u64) -> Result<Option<Offer>, StoreFault>
    ensures { LoadsBy T.honest T.holds T.leaves store.old store.new result (λ k found. IsOfferAt k asks.now job found) }
{
    let Some(row) = pending_row(store, job)? else {
        return Ok(None);
    };
    let offer = offer_of(store, row)?;
    if !is_asked(asks, &offer.queued) {
        return Ok(None);
    }
    Ok(Some(offer))
}

/// The job of a row, with the project of its pipeline.
fn offer_of<T: Store>(store: &mut T, row: BoardRow) -> Result<Offer, StoreFault>
    ensures { LoadsBy T.honest T.holds T.leaves store.old store.new result (λ k offer. (offer.row ≡ row) × (queued_at k.state row.job ≡ Some offer.queued) × (asks_at k.state row.job ≡ Some (asked_of offer.queued))) }
{
    match store.job(row.job)? {
        Some(job) => Ok(Offer {
            queued: queued(store, job)?,
            row,
        }),
        None => Err(StoreFault::Broken),
    }
}

/// The job with the project of its pipeline.
fn queued<T: Store>(store: &mut T, job: Job) -> Result<QueuedJob, StoreFault>
    ensures { LoadsBy T.honest T.holds T.leaves store.old store.new result (λ k q. (q ≡ step.queued k.state job) × (option_map (asked_by job) (pipeline_at k.state job.pipeline) ≡ Some (asked_of q))) }
{
    match store.pipeline(job.pipeline)? {
        Some(pipeline) => Ok(QueuedJob {
            job,
            project: pipeline.project,
        }),
        None => Err(StoreFault::Broken),
    }
}
