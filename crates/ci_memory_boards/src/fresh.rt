//! From which numbers on pipelines and jobs are new: so all records of one that comes to be are known without a look-up.

ghost use Rattle.std.specs.Prelude.{◌≡◌, ◌≤◌, ◌<◌, [], ℕ, List, None, IfSome, IsTrue};
ghost use Rattle.ci_machine_steps.specs.Prelude.{IndexChange, Kept, cleared, written};
ghost use Rattle.ci_memory_boards.specs.Fresh.{IsFresh, IsNoLess, IsBefore};
ghost use Rattle.ci_server_lookups.specs.Prelude.{IsRight};

use crate::follows::{Follows, after_changes, after_rows};
use ci_machine::change::{Record, RowChange};
use ci_machine::records::{BoardRow, Job};
use ci_server_lookups::sheet::Sheet;
use std::alloc::Global;

/// From which numbers on pipelines and jobs are new.
#[derive(Clone, Copy, Drop)]
pub struct Fresh {
    /// No job is of a pipeline with this number or a greater one.
    pub pipeline: u64,
    /// No need, attempt or row is of a job with this number or a greater one.
    pub job: u64,
    /// For what is remembered of pipelines that come to be.
    pub alloc: Global,
}

impl Fresh {
    /// The sheet of the pipeline whose jobs the changes put, before they are made, if it is a new one: it has nothing yet. None where
    /// jobs wait for others.
    pub(crate) fn blank(&self, changes: &[RowChange]) -> Option<Sheet>
        ensures { IfSome result (λ m. (k : Kept) → IsFresh self.now k → IsRight m k) }
    {
        let first = first_job(changes)?;
        if !self.is_new(first) || has_need(changes) {
            return None;
        }
        let last = last_job(changes)?;
        Some(self.empty_sheet(first.pipeline, first.id, last.id))
    }

    /// Is the job new, and of a new pipeline?
    fn is_new(&self, job: &Job) -> bool
        ensures { IsTrue result → (self.now.pipeline ≤ job.now.pipeline) × (self.now.job ≤ job.now.id) }
    {
        self.pipeline <= job.pipeline && self.job <= job.id
    }

    fn empty_sheet(&self, pipeline: u64, first: u64, last: u64) -> Sheet
        ensures of { (result.pipeline ≡ pipeline) × (result.first ≡ first) × (result.last ≡ last) }
        ensures empty { (result.jobs.items ≡ []) × (result.needs.items ≡ []) × (result.attempts.items ≡ []) × (result.rows.items ≡ []) }
        ensures graph { result.graph ≡ None }
    {
        Sheet {
            pipeline,
            first,
            last,
            jobs: Vec::new(self.alloc),
            needs: Vec::new(self.alloc),
            attempts: Vec::new(self.alloc),
            rows: Vec::new(self.alloc),
            graph: None,
        }
    }

    /// The same after a commit. None where a number has no next one.
    pub(crate) fn after(self, changes: &[RowChange], rows: &[BoardRow]) -> Option<Fresh>
        ensures { IfSome result (λ f. (k : Kept) (indexes : List IndexChange) (gone : List ℕ) → IsFresh self k → IsFresh f (written changes.now rows.now indexes (cleared gone k))) }
    {
        after_rows(after_changes(self, changes)?, rows)
    }

    /// With numbers behind those of what the change puts.
    fn behind(self, change: &RowChange) -> Option<Fresh>
        ensures { IfSome result (λ f. IsNoLess self f × IsBefore change.now f) }
    {
        match change {
            RowChange::Put(Record::Job(job)) => self.behind_pipeline(job.pipeline),
            RowChange::Put(Record::Need(need)) => self.behind_job(need.job),
            RowChange::Put(Record::Attempt(attempt)) => self.behind_job(attempt.job),
            _ => Some(self),
        }
    }

    fn behind_pipeline(self, pipeline: u64) -> Option<Fresh>
        ensures { IfSome result (λ f. IsNoLess self f × (pipeline < f.pipeline)) }
    {
        let next = pipeline.checked_add(1)?;
        Some(Fresh {
            pipeline: self.pipeline.max(next),
            job: self.job,
            alloc: self.alloc,
        })
    }

    fn behind_job(self, job: u64) -> Option<Fresh>
        ensures { IfSome result (λ f. IsNoLess self f × (job < f.job)) }
    {
        let next = job.checked_add(1)?;
        Some(Fresh {
            pipeline: self.pipeline,
            job: self.job.max(next),
            alloc: self.alloc,
        })
    }
}

impl Follows for Fresh {
    ghost IsRightFor = { IsFresh };

    fn noted(self, change: &RowChange) -> Option<Fresh> {
        self.behind(change)
    }

    fn noted_row(self, row: BoardRow) -> Option<Fresh> {
        self.behind_job(row.job)
    }
}

/// The first job that is put.
fn first_job(changes: &[RowChange]) -> Option<&Job> {
    changes.iter().find_map(job_put)
}

/// The last one.
fn last_job(changes: &[RowChange]) -> Option<&Job> {
    changes.iter().rev().find_map(job_put)
}

/// Do the changes put a job that waits for another?
fn has_need(changes: &[RowChange]) -> bool {
    changes.iter().any(is_need)
}

fn job_put(change: &RowChange) -> Option<&Job> {
    match change {
        RowChange::Put(Record::Job(job)) => Some(job),
        _ => None,
    }
}

fn is_need(change: &RowChange) -> bool {
    matches!(change, RowChange::Put(Record::Need(_)))
}
