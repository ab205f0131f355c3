//! The records of a pipeline from which the statuses of its jobs follow, as one is looked up or remembered.

ghost use Rattle.std.specs.Prelude.{◌≡◌, ◌==◌, true, All, IfSome};
ghost use Rattle.std.specs.List.{list_all, list_any};
ghost use Rattle.ci_machine_steps.specs.Prelude.{is_within};
ghost use Rattle.ci_store.specs.Prelude.{LoadsBy};
ghost use Rattle.ci_server_lookups.specs.Sheets.{IsRight};

use ci_graph::graph::Net;
use ci_machine::records::{Attempt, BoardRow, Job, Need};
use ci_store::fault::StoreFault;
use ci_store::store::Store;

/// The records of a pipeline.
#[derive(Drop)]
pub struct Sheet {
    pub pipeline: u64,
    /// No job of it has a lesser number.
    pub first: u64,
    /// No job of it has a greater number.
    pub last: u64,
    /// Its jobs, by number.
    pub jobs: Vec<Job>,
    /// What the jobs between the two numbers wait for, by the job and then by the one that it waits for.
    pub needs: Vec<Need>,
    /// Their attempts, by number.
    pub attempts: Vec<Attempt>,
    /// The rows of their statuses, by job.
    pub rows: Vec<BoardRow>,
    /// The graph of its jobs, where it was made since one of them changed.
    pub graph: Option<Net>,
}

impl Sheet {
    /// Does a job's number stand between the two?
    pub fn has_within(&self, job: u64) -> bool
        ensures { result ≡ is_within self.now.first self.now.last job }
    {
        self.first <= job && job <= self.last
    }

    /// Is the attempt with this number one of them?
    pub fn has_attempt(&self, id: u64) -> bool
        ensures { result ≡ list_any (λ a. a.id == id) self.now.attempts.items }
    {
        self.attempts.iter().any(|attempt| attempt.id == id)
    }
}

/// The records of a pipeline. None where it has no jobs, or where these don't stand between the first and the last of them. Errors: the
/// store's.
pub fn sheet_of<T: Store>(store: &mut T, pipeline: u64) -> Result<Option<Sheet>, StoreFault>
    ensures { LoadsBy T.honest T.holds T.leaves store.old store.new result (λ k found. IfSome found (λ m. IsRight m k × (m.pipeline ≡ pipeline))) }
{
    let jobs = store.jobs_of(pipeline)?;
    let Some((first, last)) = ends_of(jobs.as_slice()) else {
        return Ok(None);
    };
    let needs = store.needs_within(first, last)?;
    let attempts = store.attempts_within(first, last)?;
    let rows = store.rows_within(first, last)?;
    Ok(Some(Sheet {
        pipeline,
        first,
        last,
        jobs,
        needs,
        attempts,
        rows,
        graph: None,
    }))
}

/// The records of a pipeline that is there and has jobs. Errors: the store's, or there is no such pipeline.
pub fn sheet_there<T: Store>(store: &mut T, pipeline: u64) -> Result<Sheet, StoreFault>
    ensures { LoadsBy T.honest T.holds T.leaves store.old store.new result (λ k m. IsRight m k × (m.pipeline ≡ pipeline)) }
{
    match sheet_of(store, pipeline)? {
        Some(sheet) => Ok(sheet),
        None => Err(StoreFault::Broken),
    }
}

/// The numbers of the first of these jobs and of the last one, where all stand between them.
fn ends_of(jobs: &[Job]) -> Option<(u64, u64)>
    ensures { IfSome result (λ ends. All (λ j. is_within ends.0 ends.1 j.id ≡ true) jobs.now) }
{
    let (first, last) = (jobs.first()?.id, jobs.last()?.id);
    if !are_within(first, last, jobs) {
        return None;
    }
    Some((first, last))
}

fn are_within(first: u64, last: u64, jobs: &[Job]) -> bool
    ensures { result ≡ list_all (λ j. is_within first last j.id) jobs.now }
{
    jobs.iter().all(|job| first <= job.id && job.id <= last)
}
