//! The least pending job of all classes that a runner may be given.

ghost use Rattle.std.specs.Prelude.{◌≡◌, ◌==◌, if◌then◌else◌, ℕ, true, Contains, Some, None};
ghost use Rattle.ci_store.specs.Prelude.{LoadsBy};
ghost use Rattle.ci_server_lookups.specs.Prelude.{IsKept};
ghost use Rattle.ci_memory_queue.specs.declared.queue.Asks.{Asks};
ghost use Rattle.ci_memory_queue.specs.declared.turns.Turn.TheVariants as turn;
ghost use Rattle.ci_memory_queue.specs.Covers.{is_pending_at, asks_at, IsAmong};
ghost use Rattle.ci_memory_queue.specs.Offers.{IsFirstFree, IsBetter, IsBest};
ghost use Rattle.ci_memory_queue.specs.Turns.{IsTurnOf};

use crate::heads::{first_of_pipeline, first_pending, is_any_ahead};
use crate::queue::{Asks, Class};
use crate::turns::{Turn, turn_of};
use ci_machine::choose::may_run;
use ci_machine::records::Runner;
use ci_server_lookups::search::Offer;
use ci_server_lookups::turns::Turns;
use ci_store::fault::StoreFault;
use ci_store::store::Store;
use std::alloc::Global;
use std::collections::BTreeSet;

/// The least pending job of the classes that the runner may be given. Jobs before it that aren't pending are taken out of their classes.
/// Errors: the store's, or memory was refused.
pub fn best_of<T: Turns>(
    alloc: Global,
    store: &mut T,
    runner: &Runner,
    classes: &mut [Class],
) -> Result<Option<Offer>, StoreFault>
    ensures keeps { LoadsBy T.honest T.holds T.leaves store.old store.new result (λ k _. (asks : Asks) (job : ℕ) → is_pending_at k.board job ≡ true → asks_at k.state job ≡ Some asks → IsAmong classes.old asks job → IsAmong classes.new asks job) }
    ensures best { LoadsBy T.honest T.holds T.leaves store.old store.new result (λ k best. IsKept k → IsBest k runner.now classes.new best) }
{
    let mut best = None;
    for class in classes.iter_mut() {
        best = better_of(alloc, store, runner, class, best)?;
    }
    Ok(best)
}

/// The first pending job of the class that the runner may be given, if its number is lesser than that of the offer that was found before;
/// else this one. Whose turn it is in the class's group is looked up only where a job of the class has a lesser number.
fn better_of<T: Turns>(
    alloc: Global,
    store: &mut T,
    runner: &Runner,
    class: &mut Class,
    before: Option<Offer>,
) -> Result<Option<Offer>, StoreFault>
    ensures asks { class.new.asks ≡ class.old.asks }
    ensures keeps { LoadsBy T.honest T.holds T.leaves store.old store.new result (λ k _. (job : ℕ) → is_pending_at k.board job ≡ true → asks_at k.state job ≡ Some class.old.asks → Contains class.old.jobs.keys job → Contains class.new.jobs.keys job) }
    ensures better { LoadsBy T.honest T.holds T.leaves store.old store.new result (λ k after. IsKept k → IsBetter k runner.now class.new before after) }
{
    if !may_run(runner, class.asks.project, class.asks.tags.as_slice()) {
        return Ok(before);
    }
    if !is_any_ahead(&class.jobs, &before) {
        return Ok(before);
    }
    let turn = turn_of(alloc, store, &class.asks)?;
    match first_by_turn(store, &class.asks, &mut class.jobs, turn, &before)? {
        Some(offer) => Ok(Some(offer)),
        None => Ok(before),
    }
}

/// The first of the jobs that is pending, asks this and need not wait for its group, where its number is lesser than that of the offer that
/// was found before.
fn first_by_turn<T: Store>(
    store: &mut T,
    asks: &Asks,
    jobs: &mut BTreeSet<u64>,
    turn: Turn,
    before: &Option<Offer>,
) -> Result<Option<Offer>, StoreFault>
    ensures keeps { LoadsBy T.honest T.holds T.leaves store.old store.new result (λ k _. (job : ℕ) → is_pending_at k.board job ≡ true → asks_at k.state job ≡ Some asks.now → Contains jobs.old.keys job → Contains jobs.new.keys job) }
    ensures first { LoadsBy T.honest T.holds T.leaves store.old store.new result (λ k found. IsKept k → IsTurnOf k asks.now turn → IsFirstFree k asks.now jobs.new.keys before.now found) }
{
    match turn {
        Turn::Anyone => first_pending(store, asks, jobs, before),
        Turn::Nobody => Ok(None),
        Turn::Oldest(pipeline) => first_of_oldest(store, asks, jobs, pipeline, before),
        Turn::Newest(pipeline) => first_of_pipeline(store, asks, pipeline, before),
    }
}

/// The first of the jobs that is pending and asks this, if it is of the pipeline whose turn it is: none of an older one is pending, so no job
/// behind it is of that pipeline where it isn't.
fn first_of_oldest<T: Store>(
    store: &mut T,
    asks: &Asks,
    jobs: &mut BTreeSet<u64>,
    pipeline: u64,
    before: &Option<Offer>,
) -> Result<Option<Offer>, StoreFault>
    ensures keeps { LoadsBy T.honest T.holds T.leaves store.old store.new result (λ k _. (job : ℕ) → is_pending_at k.board job ≡ true → asks_at k.state job ≡ Some asks.now → Contains jobs.old.keys job → Contains jobs.new.keys job) }
    ensures first { LoadsBy T.honest T.holds T.leaves store.old store.new result (λ k found. IsKept k → IsTurnOf k asks.now (turn.Oldest pipeline) → IsFirstFree k asks.now jobs.new.keys before.now found) }
{
    match first_pending(store, asks, jobs, before)? {
        Some(offer) => Ok(if_of(offer, pipeline)),
        None => Ok(None),
    }
}

fn if_of(offer: Offer, pipeline: u64) -> Option<Offer>
    ensures { result ≡ (if offer.queued.job.pipeline == pipeline then Some offer else None) }
{
    if offer.queued.job.pipeline == pipeline {
        Some(offer)
    } else {
        None
    }
}
