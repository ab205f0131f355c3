//! What a user's act on jobs does, from what the store holds: a job is played, tried again or cancelled, or a pipeline is cancelled.

ghost use Rattle.std.specs.Prelude.{◌≡◌, ◌<◌, ◌++◌, ℕ, List, length, map, All, Contains, Some, None, Ok, IfOk, slice_index_or};
ghost use Rattle.ci_machine_steps.specs.Prelude.{Job, BoardRow, CancelsPipeline, CancelsSome, cancellable_jobs, held_claim, Kept, job_shown, IsSound, State, AreBoard, found_job};
ghost use Rattle.ci_machine_steps.specs.Prelude.{found_pipeline, sweep};
ghost use Rattle.ci_server_lookups.specs.Prelude.{IsOutcome, AreRecords, still_held, IsWhole, unleased, IsKept};
ghost use Rattle.ci_store.specs.Prelude.{LoadsBy};
ghost use Rattle.ci_server_events.specs.Acting.{refusal_of, ActsAs, changes_by, IsDone};
ghost use Rattle.ci_server_events.specs.Planning.{PlansFor};

use crate::planned::{Beside, Planned};
use crate::reads_pipelines::status_by;
use crate::shows::{asked, asked_pipeline, load_named};
use ci_board::facts::Status;
use ci_machine::change::{Changes, IndexChange};
use ci_machine::records::{Claim, Job, Pipeline};
use ci_machine::reply::{Code, Reply, Swept};
use ci_machine::request::{JobQuery, PipelineQuery};
use ci_machine_plans::body::status_of;
use ci_machine_plans::cancels::{cancel_job, cancel_jobs};
use ci_machine_plans::plays::play;
use ci_machine_plans::retries::retry;
use ci_machine_plans::sweeps;
use ci_machine_statuses::act::Act;
use ci_machine_statuses::holder_laws::acts_are_indexed;
use ci_machine_statuses::laws::{
    acted_jobs_are_asked, acts_are_of_records, acts_leave_lines, acts_settle, outcomes_are_shown,
};
use ci_machine_statuses::outcome::{Outcome, outcome_of};
use ci_machine_statuses::unfinished::of_pipeline;
use ci_server_lookups::claims::claims_with;
use ci_server_lookups::faults::or_store_fault;
use ci_server_lookups::holders::still_held;
use ci_server_lookups::records::{Records, Whole, whole_of};
use ci_server_lookups::turns::Turns;
use ci_store::fault::StoreFault;
use std::alloc::{AllocError, Global};

/// A user acts on the job that a query names. Refusals: those of the machine's `asked_job`, and then the act's own where the job's
/// status doesn't permit it.
pub(crate) fn act_on<T: Turns>(
    alloc: Global,
    store: &mut T,
    act: Act,
    query: &JobQuery,
) -> Result<Planned<Reply>, StoreFault>
    ensures { LoadsBy T.honest T.holds T.leaves store.old store.new result
        (λ k p. IsKept k → PlansFor k (ActsAs act k.state k.board (found_job k.state query.now) (p.answer, p.changes)) p) }
{
    let named = load_named(store, query)?;
    match asked(&named, query) {
        Ok(job) => act_on_found(alloc, store, act, job),
        Err(code) => Ok(Planned::refused(alloc, code)),
    }
}

/// A user acts on the job that was found. Its pipeline's records are looked up.
fn act_on_found<T: Turns>(
    alloc: Global,
    store: &mut T,
    act: Act,
    job: &Job,
) -> Result<Planned<Reply>, StoreFault>
    ensures { LoadsBy T.honest T.holds T.leaves store.old store.new result
        (λ k p. IsKept k → Contains k.state.jobs job.now → PlansFor k (ActsAs act k.state k.board (Ok job.now) (p.answer, p.changes)) p) }
{
    let whole = whole_of(alloc, store, job.pipeline)?;
    acted(alloc, act, job, &whole)
}

/// What is planned where a user acts on a job of this pipeline.
fn acted(alloc: Global, act: Act, job: &Job, whole: &Whole) -> Result<Planned<Reply>, StoreFault>
    ensures { IfOk result (λ p. (k : Kept) → IsKept k → Contains k.state.jobs job.now → IsWhole k job.now.pipeline whole.now
        → PlansFor k (ActsAs act k.state k.board (Ok job.now) (p.answer, p.changes)) p) }
{
    acts_settle();
    acts_are_of_records();
    acted_jobs_are_asked();
    outcomes_are_shown();
    let done = done_among(alloc, whole, act, Some(job.id))?;
    if done.outcome.places.is_empty() {
        return Ok(Planned::refused(alloc, refusal_of(act)));
    }
    let after = done.outcome.rows[done.outcome.places[0]].status;
    let plan = plan_of(alloc, act, whole, done.claims.as_slice(), job, after)?;
    Planned::with(alloc, plan, Ok(done.into_beside()))
}

/// The code that refuses an act to a job whose status doesn't permit it.
fn refusal_of(act: Act) -> Code
    ensures { result ≡ refusal_of act }
{
    match act {
        Act::Play => Code::M10,
        Act::Retry => Code::M11,
        Act::Cancel => Code::M12,
    }
}

/// The plan by which it is done to a job: the reply shows the job with its status after it, where these are the resource groups for which
/// it must wait then.
fn plan_of(
    alloc: Global,
    act: Act,
    whole: &Whole,
    claims: &[Claim],
    job: &Job,
    after: Status,
) -> Result<(Reply, Changes), AllocError>
    ensures { IfOk result (λ plan. plan ≡ ((job_shown claims.now whole.now.pipeline.project job.now after).0, changes_by act whole.now.records.attempts.items job.now)) }
{
    let project = whole.pipeline.project;
    let attempts = whole.records.attempts.as_slice();
    match act {
        Act::Play => play(alloc, claims, project, job, after),
        Act::Retry => retry(alloc, attempts, claims, project, job, after),
        Act::Cancel => cancel_job(alloc, attempts, claims, project, job, after),
    }
}

/// What a user's act does to jobs of a pipeline.
#[derive(Drop)]
struct Done {
    outcome: Outcome,
    /// The jobs to which it is done.
    chosen: Vec<Job>,
    indexes: Vec<IndexChange>,
    /// For which of their resource groups the pipeline's jobs must wait after it.
    claims: Vec<Claim>,
}

impl Done {
    /// What changes beside the records.
    fn into_beside(self) -> Beside
        ensures rows { result.rows ≡ self.outcome.changed }
        ensures indexes { result.indexes ≡ self.indexes }
    {
        let Done {
            outcome,
            chosen: _,
            indexes,
            claims: _,
        } = self;
        Beside {
            rows: outcome.changed,
            indexes,
        }
    }
}

/// What is done where a user acts on the job with this number, or on all jobs of the pipeline whose statuses permit it.
fn done_among(alloc: Global, whole: &Whole, act: Act, only: Option<u64>) -> Result<Done, StoreFault>
    ensures places { IfOk result (λ d. All (λ place. place < length whole.now.records.jobs.items) d.outcome.places.items) }
    ensures long { IfOk result (λ d. (length d.outcome.facts.items ≡ length whole.now.records.jobs.items) × (length d.outcome.rows.items ≡ length whole.now.records.jobs.items)) }
    ensures chosen { IfOk result (λ d. (other : Job) → d.chosen.items ≡ map (λ place. slice_index_or whole.now.records.jobs.items place other) d.outcome.places.items) }
    ensures done { IfOk result (λ d. (k : Kept) (pipeline : ℕ) → IsKept k → IsWhole k pipeline whole.now → IsDone act only k pipeline whole.now d.outcome d.indexes.items d.claims.items) }
{
    acts_are_indexed();
    acts_leave_lines();
    let jobs = whole.records.jobs.as_slice();
    let attempts = whole.records.attempts.as_slice();
    let before = status_by(alloc, jobs, attempts, whole.records.rows.as_slice())?;
    let outcome = outcome_among(alloc, &whole.records, act, only)?;
    let chosen = jobs_at(alloc, jobs, outcome.places.as_slice())?;
    let then = status_of(
        alloc,
        jobs,
        outcome.facts.as_slice(),
        outcome.rows.as_slice(),
    )?;
    let indexes = of_pipeline(
        alloc,
        &whole.pipeline,
        unleased(act, chosen.as_slice()),
        attempts,
        before,
        then,
    )?;
    let claims = claims_after(alloc, whole, indexes.as_slice())?;
    Ok(Done {
        outcome,
        chosen,
        indexes,
        claims,
    })
}

/// For which of their resource groups the pipeline's jobs must wait after these changes, which hold no group: for those that are held still,
/// and for those in which other jobs go first, as before.
fn claims_after(
    alloc: Global,
    whole: &Whole,
    changes: &[IndexChange],
) -> Result<Vec<Claim>, AllocError>
    ensures { IfOk result (λ v. v.items ≡ map held_claim (still_held changes.now whole.now.held.items) ++ whole.now.ahead.items) }
{
    let held = still_held(alloc, whole.held.as_slice(), changes)?;
    claims_with(alloc, held.as_slice(), whole.ahead.as_slice())
}

/// The jobs whose leases end where it is done to these.
fn unleased(act: Act, jobs: &[Job]) -> &[Job]
    ensures { result.now ≡ unleased act jobs.now }
{
    match act {
        Act::Cancel => jobs,
        Act::Play | Act::Retry => &[],
    }
}

/// What becomes of a pipeline's jobs where a user acts on one of them, or on all whose statuses permit it. Errors: memory was refused,
/// or the records don't fit together.
fn outcome_among(
    alloc: Global,
    records: &Records,
    act: Act,
    only: Option<u64>,
) -> Result<Outcome, StoreFault>
    ensures places { IfOk result (λ o. All (λ place. place < length records.now.jobs.items) o.places.items) }
    ensures long { IfOk result (λ o. (length o.facts.items ≡ length records.now.jobs.items) × (length o.rows.items ≡ length records.now.jobs.items)) }
    ensures outcome { IfOk result (λ o. (s : State) (board : List BoardRow) (pipeline : ℕ) → IsSound s → AreBoard s board
        → AreRecords s board pipeline records.now.jobs.items records.now.needs.items records.now.attempts.items records.now.rows.items → IsOutcome act only s board pipeline o) }
{
    or_store_fault(outcome_of(
        alloc,
        records.jobs.as_slice(),
        records.needs.as_slice(),
        records.attempts.as_slice(),
        records.rows.as_slice(),
        act,
        only,
    ))
}

/// The pipeline that a query names is cancelled: all its jobs that can be. Refusals: those of the machine's `asked_pipeline`, and then
/// M12 where no job can be.
pub(crate) fn cancel_pipeline<T: Turns>(
    alloc: Global,
    store: &mut T,
    query: &PipelineQuery,
) -> Result<Planned<Reply>, StoreFault>
    ensures { LoadsBy T.honest T.holds T.leaves store.old store.new result
        (λ k p. IsKept k → PlansFor k (CancelsPipeline k.state k.board (found_pipeline k.state query.now) (p.answer, p.changes)) p) }
{
    let project = store.project_with(&query.token)?;
    let pipeline = store.pipeline(query.pipeline)?;
    match asked_pipeline(&project, &pipeline, query.project) {
        Ok(found) => cancel_found(alloc, store, found),
        Err(code) => Ok(Planned::refused(alloc, code)),
    }
}

/// The pipeline that was found is cancelled. Its records are looked up.
fn cancel_found<T: Turns>(
    alloc: Global,
    store: &mut T,
    pipeline: &Pipeline,
) -> Result<Planned<Reply>, StoreFault>
    ensures { LoadsBy T.honest T.holds T.leaves store.old store.new result
        (λ k p. IsKept k → Contains k.state.pipelines pipeline.now → PlansFor k (CancelsSome k.state pipeline.now (cancellable_jobs k.state k.board pipeline.now.id) (p.answer, p.changes)) p) }
{
    let whole = whole_of(alloc, store, pipeline.id)?;
    cancelled(alloc, &whole)
}

/// What is planned where a pipeline is cancelled.
fn cancelled(alloc: Global, whole: &Whole) -> Result<Planned<Reply>, StoreFault>
    ensures { IfOk result (λ p. (k : Kept) → IsKept k → IsWhole k whole.now.pipeline.id whole.now
        → PlansFor k (CancelsSome k.state whole.now.pipeline (cancellable_jobs k.state k.board whole.now.pipeline.id) (p.answer, p.changes)) p) }
{
    acts_settle();
    acts_are_of_records();
    acted_jobs_are_asked();
    outcomes_are_shown();
    let done = done_among(alloc, whole, Act::Cancel, None)?;
    if done.chosen.is_empty() {
        return Ok(Planned::refused(alloc, Code::M12));
    }
    let plan = cancel_jobs(
        alloc,
        whole.records.attempts.as_slice(),
        done.chosen.as_slice(),
        &whole.pipeline,
        done.claims.as_slice(),
        whole.records.jobs.as_slice(),
        done.outcome.facts.as_slice(),
        done.outcome.rows.as_slice(),
    )?;
    Planned::with(alloc, plan, Ok(done.into_beside()))
}

/// A sweep cancels the redundant pipeline: all its jobs that can be.
pub(crate) fn cancel_redundant<T: Turns>(
    alloc: Global,
    store: &mut T,
    pipeline: &Pipeline,
) -> Result<Planned<Swept>, StoreFault>
    ensures { LoadsBy T.honest T.holds T.leaves store.old store.new result
        (λ k p. IsKept k → PlansFor k ((p.answer, p.changes) ≡ sweep None (Some pipeline.now) k.state.attempts (cancellable_jobs k.state k.board pipeline.now.id)) p) }
{
    acts_settle();
    acts_are_of_records();
    acted_jobs_are_asked();
    let whole = whole_of(alloc, store, pipeline.id)?;
    let done = done_among(alloc, &whole, Act::Cancel, None)?;
    let plan = sweeps::cancel_redundant(
        alloc,
        pipeline,
        whole.records.attempts.as_slice(),
        done.chosen.as_slice(),
    )?;
    Planned::with(alloc, plan, Ok(done.into_beside()))
}

/// The jobs at these places.
fn jobs_at(alloc: Global, jobs: &[Job], places: &[usize]) -> Result<Vec<Job>, AllocError>
    requires { All (λ place. place < length jobs.now) places.now }
    ensures { IfOk result (λ v. (other : Job) → v.items ≡ map (λ place. slice_index_or jobs.now place other) places.now) }
{
    let mut chosen = Vec::with_capacity(alloc, places.len())?;
    for i in 0..places.len() {
        let place = places[i];
        chosen.push(jobs[place].clone()?)?;
    }
    Ok(chosen)
}
