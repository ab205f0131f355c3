//! Whether a job holds a pipeline back, though there is a newer one.

ghost use Rattle.std.specs.Prelude.{◌≡◌, ◌&&◌, ◌==◌};
ghost use Rattle.std.specs.List.{list_any};
ghost use Rattle.ci_machine_steps.specs.Prelude.{is_bound_to};
ghost use Rattle.ci_store.specs.Prelude.{LoadsBy};
ghost use Rattle.ci_server_lookups.specs.Prelude.{IsKept};
ghost use Rattle.ci_memory.specs.Redundant.{is_held_back};

use ci_machine::records::{Attempt, Job, Pipeline};
use ci_machine::redundant::is_bound_to;
use ci_machine_statuses::load::range_of;
use ci_store::fault::StoreFault;
use ci_store::store::Store;

/// Was a job of the pipeline tried that isn't interruptible?
pub(crate) fn is_held_back<T: Store>(store: &mut T, pipeline: &Pipeline) -> Result<bool, StoreFault>
    ensures { LoadsBy T.honest T.holds T.leaves store.old store.new result (λ k held. IsKept k → held ≡ is_held_back k.state pipeline.now) }
{
    let jobs = store.jobs_of(pipeline.id)?;
    let Some((first, last)) = range_of(jobs.as_slice()) else {
        return Err(StoreFault::Broken);
    };
    let attempts = store.attempts_within(first, last)?;
    Ok(is_any_held_back(pipeline, jobs.as_slice(), attempts.as_slice()))
}

/// Is one of the jobs not interruptible, of which there is an attempt among these?
fn is_any_held_back(pipeline: &Pipeline, jobs: &[Job], attempts: &[Attempt]) -> bool
    ensures { result ≡ list_any (λ j. is_bound_to pipeline.now j && list_any (λ a. a.job == j.id) attempts.now) jobs.now }
{
    jobs.iter().any(|job| is_bound_to(pipeline, job) && was_tried(attempts, job.id))
}

/// Is one of the attempts of the job with this number?
fn was_tried(attempts: &[Attempt], job: u64) -> bool
    ensures { result ≡ list_any (λ a. a.job == job) attempts.now }
{
    attempts.iter().any(|attempt| attempt.job == job)
}
