//! Attempts with the time limits of their jobs, from what the store holds.

ghost use Rattle.std.specs.Prelude.{◌≡◌, Some, option_map};
ghost use Rattle.ci_machine_steps.specs.Step as step;
ghost use Rattle.ci_store.specs.Prelude.{LoadsBy};

use ci_machine::lease::Lease;
use ci_machine::records::Attempt;
use ci_store::fault::StoreFault;
use ci_store::store::Store;

/// The attempt with the time limit of its job.
pub fn lease_of<T: Store>(store: &mut T, attempt: Attempt) -> Result<Lease, StoreFault>
    ensures { LoadsBy T.honest T.holds T.leaves store.old store.new result (λ k l. l ≡ step.lease_of k.state attempt) }
{
    let Leased { lease, pipeline: _ } = with_pipeline(store, attempt)?;
    Ok(lease)
}

/// The attempt with a number, with the time limit of its job.
pub fn lease_at<T: Store>(store: &mut T, attempt: u64) -> Result<Option<Lease>, StoreFault>
    ensures { LoadsBy T.honest T.holds T.leaves store.old store.new result (λ k l. l ≡ step.lease_at k.state attempt) }
{
    match leased_at(store, attempt)? {
        Some(leased) => Ok(Some(leased.lease)),
        None => Ok(None),
    }
}

/// A lease, with the pipeline of its job.
#[derive(Drop)]
pub struct Leased {
    pub lease: Lease,
    pub pipeline: u64,
}

/// The attempt with a number, with the time limit and the pipeline of its job.
pub fn leased_at<T: Store>(store: &mut T, attempt: u64) -> Result<Option<Leased>, StoreFault>
    ensures { LoadsBy T.honest T.holds T.leaves store.old store.new result (λ k l. option_map (λ x. x.lease) l ≡ step.lease_at k.state attempt) }
{
    match store.attempt(attempt)? {
        Some(attempt) => Ok(Some(with_pipeline(store, attempt)?)),
        None => Ok(None),
    }
}

/// The attempt with the time limit and the pipeline of its job.
fn with_pipeline<T: Store>(store: &mut T, attempt: Attempt) -> Result<Leased, StoreFault>
    ensures lease { LoadsBy T.honest T.holds T.leaves store.old store.new result (λ k l. l.lease ≡ step.lease_of k.state attempt) }
    ensures pipeline { LoadsBy T.honest T.holds T.leaves store.old store.new result (λ k l. option_map (λ j. j.pipeline) (step.job_at k.state attempt.job) ≡ Some l.pipeline) }
{
    match store.job(attempt.job)? {
        Some(job) => Ok(Leased {
            lease: Lease {
                attempt,
                limit: job.options.timeout,
            },
            pipeline: job.pipeline,
        }),
        None => Err(StoreFault::Broken),
    }
}
