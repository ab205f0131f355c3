//! What a request to prune does, from what the store holds.

ghost use Rattle.std.specs.Prelude.{◌≡◌, false, map, Contains, Some, IfOk};
ghost use Rattle.ci_machine_steps.specs.Prelude.{is_open_in, jobs_of, jobs_in};
ghost use Rattle.ci_machine_steps.specs.Prunes as machine;
ghost use Rattle.ci_store.specs.Prelude.{LoadsBy};
ghost use Rattle.ci_server_lookups.specs.Prelude.{IsKept, HoldsKept};
ghost use Rattle.ci_server_events.specs.Planning.{PlansFor};

use crate::planned::Planned;
use ci_machine::moment::Moment;
use ci_machine::records::{Job, Pipeline};
use ci_machine::reply::Reply;
use ci_machine_plans::prunes;
use ci_machine_statuses::holder_laws::prune_is_indexed;
use ci_machine_statuses::laws::{prune_settles, prunes_are_of_records};
use ci_machine_statuses::load::range_of;
use ci_server_lookups::prunable::first_prunable;
use ci_server_lookups::searches::Searches;
use ci_store::fault::StoreFault;
use ci_store::store::Store;
use std::alloc::{AllocError, Global};

/// The finished pipeline of least number goes that was made before this moment, if there is one. Errors: the store's.
pub(crate) fn prune_one<T: Searches>(
    alloc: Global,
    store: &mut T,
    before: Moment,
) -> Result<Planned<Reply>, StoreFault>
    ensures { LoadsBy T.honest (HoldsKept T.holds) T.leaves store.old store.new result
        (λ k p. IsKept k → let found = machine.prunable_in k.state k.board before in
        PlansFor k ((p.answer, p.changes) ≡ machine.prune found (jobs_in k.state found) k.state.attempts) p) }
{
    match first_prunable(alloc, store, before)? {
        Some(pipeline) => prune(alloc, store, &pipeline),
        None => Ok(Planned::unchanged(alloc, prunes::nothing_to_prune(alloc))),
    }
}

/// The finished pipeline goes, with all that belongs to it.
fn prune<T: Store>(
    alloc: Global,
    store: &mut T,
    pipeline: &Pipeline,
) -> Result<Planned<Reply>, StoreFault>
    ensures { LoadsBy T.honest T.holds T.leaves store.old store.new result
        (λ k p. IsKept k → Contains k.state.pipelines pipeline.now → is_open_in k.state k.board pipeline.now ≡ false
        → PlansFor k ((p.answer, p.changes) ≡ machine.prune (Some pipeline.now) (jobs_of k.state pipeline.now.id) k.state.attempts) p) }
{
    prune_settles();
    prune_is_indexed();
    prunes_are_of_records();
    let jobs = store.jobs_of(pipeline.id)?;
    let Some((first, last)) = range_of(jobs.as_slice()) else {
        return Err(StoreFault::Broken);
    };
    let attempts = store.attempts_within(first, last)?;
    let cleared = numbers(alloc, jobs.as_slice())?;
    let plan = prunes::prune(alloc, pipeline, jobs.as_slice(), attempts.as_slice())?;
    Ok(Planned::clearing(alloc, plan, cleared))
}

fn numbers(alloc: Global, jobs: &[Job]) -> Result<Vec<u64>, AllocError>
    ensures { IfOk result (λ numbers. numbers.items ≡ map (λ j. j.id) jobs.now) }
{
    let mut numbers = Vec::with_capacity(alloc, jobs.len())?;
    for job in jobs {
        numbers.push(job.id)?;
    }
    Ok(numbers)
}
