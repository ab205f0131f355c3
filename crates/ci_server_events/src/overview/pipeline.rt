//! A pipeline with its jobs, as a report tells them.

ghost use Rattle.std.specs.Prelude.{◌≡◌, ◌++◌, List, ℕ, length, map, IfOk, IfErr};
ghost use Rattle.ci_machine_steps.specs.Prelude.{BoardRow, held_claim, with_status, Kept, pipeline_at, job_rows, row_for};
ghost use Rattle.ci_server_lookups.specs.Prelude.{Memory, IsKept, IsWhole};
ghost use Rattle.ci_store.specs.Prelude.{LoadsBy};
ghost use Rattle.ci_server_events.specs.Told.{job_told, TellsPipeline};

use crate::shows::loaded;
use ci_board::facts::{Row, Status};
use ci_machine::records::{Attempt, Claim, Job, PipelineWithStatus};
use ci_machine::report::{JobRow, PipelineRows, ShownStatus};
use ci_machine_plans::body::status_of;
use ci_machine_plans::retries::attempts_of;
use ci_server_lookups::claims::claims_with;
use ci_server_lookups::records::{Whole, whole_of};
use ci_server_lookups::turns::Turns;
use ci_store::fault::StoreFault;
use ci_store::store::Store;
use std::alloc::{AllocError, Global};

/// The pipeline with a number, with its jobs by number, if it is there. Errors: the store's.
pub fn pipeline_rows<T: Turns>(
    alloc: Global,
    store: &mut T,
    id: u64,
) -> Result<Option<PipelineRows>, StoreFault>
    ensures { LoadsBy T.honest T.holds T.leaves store.old store.new result (λ k told. IsKept k → TellsPipeline k.state k.board (pipeline_at k.state id) told) }
{
    if store.pipeline(id)?.is_none() {
        return Ok(None);
    }
    let whole = whole_of(alloc, store, id)?;
    let (status, jobs) = told(alloc, &whole)?;
    let pipeline = whole.pipeline;
    Ok(Some(PipelineRows {
        head: PipelineWithStatus { pipeline, status },
        jobs,
    }))
}

/// The status of a pipeline that was looked up, and its jobs. Errors: memory was refused, or the records don't fit together.
fn told(alloc: Global, whole: &Whole) -> Result<(Status, Vec<JobRow>), StoreFault>
    ensures told { IfOk result (λ told. (k : Kept) (id : ℕ) → IsKept k → IsWhole k id whole.now
        → (told.0 ≡ (with_status k.state k.board whole.now.pipeline).status) × (told.1.items ≡ job_rows k.state k.board whole.now.pipeline)) }
    ensures fault { IfErr result (λ fault. (k : Kept) (id : ℕ) → IsKept k → IsWhole k id whole.now → fault ≡ Memory) }
{
    let claims = claims_on(alloc, whole)?;
    let records = &whole.records;
    let jobs = records.jobs.as_slice();
    let attempts = records.attempts.as_slice();
    let (facts, rows) = loaded(alloc, jobs, attempts, records.rows.as_slice())?;
    let status = status_of(alloc, jobs, facts.as_slice(), rows.as_slice())?;
    let told = job_rows(
        alloc,
        claims.as_slice(),
        whole.pipeline.project,
        attempts,
        jobs,
        rows.as_slice(),
    )?;
    Ok((status, told))
}

/// For which of the resource groups of its jobs they must wait: those that are held, and those in which others go first.
fn claims_on(alloc: Global, whole: &Whole) -> Result<Vec<Claim>, AllocError>
    ensures { IfOk result (λ claims. claims.items ≡ map held_claim whole.now.held.items ++ whole.now.ahead.items) }
{
    claims_with(alloc, whole.held.as_slice(), whole.ahead.as_slice())
}

/// The jobs of a project with these rows, by at least their attempts and the claims on their groups for which they must wait.
fn job_rows(
    alloc: Global,
    claims: &[Claim],
    project: u64,
    attempts: &[Attempt],
    jobs: &[Job],
    rows: &[Row],
) -> Result<Vec<JobRow>, AllocError>
    requires { length rows.now ≡ length jobs.now }
    ensures { IfOk result (λ told. (board : List BoardRow) → rows.now ≡ map (λ j. row_for board j.id) jobs.now → told.items ≡ map (job_told claims.now project attempts.now board) jobs.now) }
{
    let mut told = Vec::with_capacity(alloc, jobs.len())?;
    for i in 0..jobs.len() {
        let job = &jobs[i];
        told.push(JobRow {
            job: job.id,
            status: ShownStatus::of(claims, project, job, rows[i].status),
            tries: attempts_of(attempts, job.id),
            name: job.name.clone()?,
        })?;
    }
    Ok(told)
}
