//! What a question for a pipeline, for a job or for its trace does, from what the store holds.

ghost use Rattle.std.specs.Prelude.{◌≡◌, None, ℕ, List, length, IfOk, IfErr, option_copied};
ghost use Rattle.std.specs.List.{last_or};
ghost use Rattle.std.specs.Result.{result_map_both};
ghost use Rattle.ci_machine_steps.specs.Prelude.{BoardRow, Need, claims_in, State, Kept, asked_project, IsSound, jobs_of, facts_of, rows_of, status_for, AreBoard};
ghost use Rattle.ci_machine_steps.specs.Shows as machine;
ghost use Rattle.ci_machine_steps.specs.Step as step;
ghost use Rattle.ci_server_lookups.specs.Prelude.{AreRecords, Memory, IsKept};
ghost use Rattle.ci_store.specs.Prelude.{LoadsBy};
ghost use Rattle.ci_server_events.specs.Planning.{PlansFor};

use crate::planned::Planned;
use crate::projects;
use ci_board::facts::{Facts, Row};
use ci_machine::records::{Attempt, BoardRow, Claim, Job, Pipeline, Project};
use ci_machine::reply::{Code, Reply};
use ci_machine::request::{JobQuery, PipelineQuery};
use ci_machine::text::Bytes;
use ci_machine_plans::shows;
use ci_machine_statuses::load::{facts_and_rows, range_of};
use ci_machine_statuses::pending::status_of;
use ci_server_lookups::claims::claims_on;
use ci_server_lookups::faults::or_store_fault;
use ci_server_lookups::turns::Turns;
use ci_store::fault::StoreFault;
use ci_store::store::Store;
use std::alloc::Global;
use std::slice;

/// What a question names: the project with its token, the job with its number, and that job's pipeline, if they are there.
#[derive(Drop)]
pub struct Named {
    pub project: Option<Project>,
    pub job: Option<Job>,
    pub pipeline: Option<Pipeline>,
}

pub(crate) fn load_named<T: Store>(store: &mut T, query: &JobQuery) -> Result<Named, StoreFault>
    ensures { LoadsBy T.honest T.holds T.leaves store.old store.new result
        (λ k n. let job = step.job_at k.state query.now.job in
        n ≡ record { project = step.project_with k.state query.now.token; job = job; pipeline = step.pipeline_of k.state job }) }
{
    let project = store.project_with(&query.token)?;
    let job = store.job(query.job)?;
    let pipeline = pipeline_of(store, job.as_ref())?;
    Ok(Named {
        project,
        job,
        pipeline,
    })
}

/// The pipeline of a job, if there is one.
pub(crate) fn pipeline_of<T: Store>(
    store: &mut T,
    job: Option<&Job>,
) -> Result<Option<Pipeline>, StoreFault>
    ensures { LoadsBy T.honest T.holds T.leaves store.old store.new result (λ k p. p ≡ step.pipeline_of k.state (option_copied job.entry)) }
{
    match job {
        Some(job) => store.pipeline(job.pipeline),
        None => Ok(None),
    }
}

/// The job that a question names, of the project with its token. Refusals: those of the machine's `asked_job`.
pub(crate) fn asked<'a>(named: &'a Named, query: &JobQuery) -> Result<&'a Job, Code>
    ensures { result_map_both (λ j. j.now) (λ c. c) result ≡ machine.asked_job named.now.project named.now.job named.now.pipeline query.now }
{
    shows::asked_job(
        named.project.as_ref(),
        named.job.as_ref(),
        named.pipeline.as_ref(),
        query,
    )
}

/// A job with its status is asked for.
pub(crate) fn show_job<T: Turns>(
    alloc: Global,
    store: &mut T,
    query: &JobQuery,
) -> Result<Planned<Reply>, StoreFault>
    ensures { LoadsBy T.honest T.holds T.leaves store.old store.new result
        (λ k p. IsKept k → let job = step.job_at k.state query.now.job in
        PlansFor k ((p.answer, p.changes) ≡ machine.show_job (step.project_with k.state query.now.token) job (step.pipeline_of k.state job) (claims_in k.state k.board (step.pipeline_or_none job)) (status_for k.board query.now.job) query.now) p) }
{
    let named = load_named(store, query)?;
    match asked(&named, query) {
        Ok(job) => found_shown(alloc, store, query, job),
        Err(code) => Ok(Planned::refused(alloc, code)),
    }
}

/// The job that the query names is shown, by its row and by the resource groups for which it must wait.
fn found_shown<T: Turns>(
    alloc: Global,
    store: &mut T,
    query: &JobQuery,
    job: &Job,
) -> Result<Planned<Reply>, StoreFault>
    ensures { LoadsBy T.honest T.holds T.leaves store.old store.new result
        (λ k p. IsKept k → PlansFor k ((p.answer, p.changes) ≡ machine.job_shown (claims_in k.state k.board job.now.pipeline) query.now.project job.now (status_for k.board query.now.job)) p) }
{
    let row = store.row(query.job)?;
    let jobs = slice::from_ref(job);
    let claims = claims_on(alloc, store, query.project, job.pipeline, jobs)?;
    let status = status_of(row);
    let plan = shows::job_shown(alloc, claims.as_slice(), query.project, job, status)?;
    Ok(Planned::unchanged(alloc, plan))
}

/// The trace of a job's last attempt is asked for. It is looked up only where the job is the asking project's.
pub(crate) fn show_trace<T: Store>(
    alloc: Global,
    store: &mut T,
    query: &JobQuery,
) -> Result<Planned<Reply>, StoreFault>
    ensures { LoadsBy T.honest T.holds T.leaves store.old store.new result
        (λ k p. IsKept k → let job = step.job_at k.state query.now.job in
        PlansFor k ((p.answer, p.changes) ≡ machine.show_trace (step.project_with k.state query.now.token) job (step.pipeline_of k.state job) (step.trace_if_any k.state (step.last_attempt k.state query.now.job)) query.now) p) }
{
    let named = load_named(store, query)?;
    match asked(&named, query) {
        Ok(_) => {
            let trace = last_trace(alloc, store, query.job)?;
            Ok(Planned::unchanged(alloc, shows::trace_shown(alloc, trace)))
        }
        Err(code) => Ok(Planned::refused(alloc, code)),
    }
}

/// The trace of the last attempt of a job: it is empty where there is none.
fn last_trace<T: Store>(alloc: Global, store: &mut T, job: u64) -> Result<Bytes, StoreFault>
    ensures { LoadsBy T.honest T.holds T.leaves store.old store.new result
        (λ k trace. trace ≡ step.trace_if_any k.state (step.last_attempt k.state job)) }
{
    match last_attempt(store, job)? {
        Some(attempt) => store.trace_of(attempt.id),
        None => Ok(Bytes::new(Vec::new(alloc))),
    }
}

/// The last of the attempts of a job.
fn last_attempt<T: Store>(store: &mut T, job: u64) -> Result<Option<Attempt>, StoreFault>
    ensures { LoadsBy T.honest T.holds T.leaves store.old store.new result (λ k a. a ≡ step.last_attempt k.state job) }
{
    let attempts = store.attempts_of(job)?;
    Ok(last(attempts))
}

fn last(attempts: Vec<Attempt>) -> Option<Attempt>
    ensures { result ≡ last_or None attempts.items }
{
    let mut attempts = attempts;
    attempts.pop()
}

/// A pipeline with its jobs and their statuses is asked for. Its jobs are looked up only where it is the asking project's.
pub(crate) fn show_pipeline<T: Turns>(
    alloc: Global,
    store: &mut T,
    query: &PipelineQuery,
) -> Result<Planned<Reply>, StoreFault>
    ensures { LoadsBy T.honest T.holds T.leaves store.old store.new result
        (λ k p. IsKept k → let n = query.now.pipeline in
        PlansFor k ((p.answer, p.changes) ≡ machine.show_pipeline (machine.asked_pipeline (asked_project (step.project_with k.state query.now.token) query.now.project) (step.pipeline_at k.state n)) (claims_in k.state k.board n) (jobs_of k.state n) (facts_of k.state n) (rows_of k.state k.board n)) p) }
{
    let project = store.project_with(&query.token)?;
    let pipeline = store.pipeline(query.pipeline)?;
    match asked_pipeline(&project, &pipeline, query.project) {
        Ok(found) => pipeline_shown(alloc, store, found, query.pipeline),
        Err(code) => Ok(Planned::refused(alloc, code)),
    }
}

/// The pipeline that was found, where it is one of the project that is named. Refusals: those of the machine's `asked_pipeline`.
pub(crate) fn asked_pipeline<'a>(
    project: &Option<Project>,
    pipeline: &'a Option<Pipeline>,
    named: u64,
) -> Result<&'a Pipeline, Code>
    ensures { result_map_both (λ p. p.now) (λ c. c) result ≡ machine.asked_pipeline (asked_project project.now named) pipeline.now }
{
    shows::asked_pipeline(projects::asked(project, named), pipeline.as_ref())
}

/// The pipeline with this number is shown, with what is looked up of its jobs: their attempts and rows, and for which of their resource
/// groups they must wait.
fn pipeline_shown<T: Turns>(
    alloc: Global,
    store: &mut T,
    pipeline: &Pipeline,
    number: u64,
) -> Result<Planned<Reply>, StoreFault>
    ensures { LoadsBy T.honest T.holds T.leaves store.old store.new result
        (λ k p. IsKept k → PlansFor k ((p.answer, p.changes) ≡ machine.pipeline_shown pipeline.now (claims_in k.state k.board number) (jobs_of k.state number) (facts_of k.state number) (rows_of k.state k.board number)) p) }
{
    let jobs = store.jobs_of(number)?;
    let Some((first, last)) = range_of(jobs.as_slice()) else {
        return Err(StoreFault::Broken);
    };
    let attempts = store.attempts_within(first, last)?;
    let rows = store.rows_within(first, last)?;
    let claims = claims_on(alloc, store, pipeline.project, number, jobs.as_slice())?;
    jobs_shown(
        alloc,
        pipeline,
        claims.as_slice(),
        jobs.as_slice(),
        attempts.as_slice(),
        rows.as_slice(),
    )
}

/// The pipeline is shown with these jobs, by at least their attempts and rows.
fn jobs_shown(
    alloc: Global,
    pipeline: &Pipeline,
    claims: &[Claim],
    jobs: &[Job],
    attempts: &[Attempt],
    rows: &[BoardRow],
) -> Result<Planned<Reply>, StoreFault>
    ensures shown { IfOk result (λ p. (k : Kept) (number : ℕ) (needs : List Need) → IsKept k → AreRecords k.state k.board number jobs.now needs attempts.now rows.now
        → PlansFor k ((p.answer, p.changes) ≡ machine.pipeline_shown pipeline.now claims.now jobs.now (facts_of k.state number) (rows_of k.state k.board number)) p) }
    ensures fault { IfErr result (λ fault. (k : Kept) (number : ℕ) (needs : List Need) → IsKept k → AreRecords k.state k.board number jobs.now needs attempts.now rows.now → fault ≡ Memory) }
{
    let found = loaded(alloc, jobs, attempts, rows)?;
    let plan = shows::pipeline_shown(
        alloc,
        pipeline,
        claims,
        jobs,
        found.0.as_slice(),
        found.1.as_slice(),
    )?;
    Ok(Planned::unchanged(alloc, plan))
}

/// The facts and the rows of a pipeline's jobs. Errors: memory was refused, or the records don't fit together.
pub(crate) fn loaded(
    alloc: Global,
    jobs: &[Job],
    attempts: &[Attempt],
    rows: &[BoardRow],
) -> Result<(Vec<Facts>, Vec<Row>), StoreFault>
    ensures long { IfOk result (λ r. (length r.0.items ≡ length jobs.now) × (length r.1.items ≡ length jobs.now)) }
    ensures facts { IfOk result (λ r. (s : State) (board : List BoardRow) (number : ℕ) (needs : List Need) → IsSound s → AreBoard s board → AreRecords s board number jobs.now needs attempts.now rows.now → r.0.items ≡ facts_of s number) }
    ensures rows { IfOk result (λ r. (s : State) (board : List BoardRow) (number : ℕ) (needs : List Need) → IsSound s → AreBoard s board → AreRecords s board number jobs.now needs attempts.now rows.now → r.1.items ≡ rows_of s board number) }
    ensures fault { IfErr result (λ fault. (s : State) (board : List BoardRow) (number : ℕ) (needs : List Need) → IsSound s → AreBoard s board → AreRecords s board number jobs.now needs attempts.now rows.now → fault ≡ Memory) }
{
    or_store_fault(facts_and_rows(alloc, jobs, attempts, rows))
}
