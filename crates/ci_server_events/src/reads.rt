//! What a question for a project does, or for what it has, from what the store holds: nothing more is looked up than what is asked for.

ghost use Rattle.std.specs.Prelude.{◌≡◌, Ok};
ghost use Rattle.ci_machine_steps.specs.Prelude.{job_at, pipeline_of, project_with, asked_project, job_within};
ghost use Rattle.ci_machine.specs.declared.request.Subject.TheVariants as subject;
ghost use Rattle.ci_machine_steps.specs.Reads as machine;
ghost use Rattle.ci_store.specs.Prelude.{LoadsBy};
ghost use Rattle.ci_server_lookups.specs.Prelude.{IsKept};
ghost use Rattle.ci_server_events.specs.Planning.{PlansFor};

use crate::planned::Planned;
use crate::projects::asked;
use crate::reads_groups::groups;
use crate::reads_jobs::jobs;
use crate::reads_pipelines::pipelines;
use crate::shows::pipeline_of;
use ci_machine::records::{Attempt, Job, Pipeline, Project};
use ci_machine::reply::{Body, Code, Reply};
use ci_machine::request::{ReadQuery, Subject};
use ci_machine_plans::listings;
use ci_server_lookups::turns::Turns;
use ci_store::fault::StoreFault;
use ci_store::store::Store;
use std::alloc::Global;

/// A project is asked for, or what it has. It is looked up only where the token is the project's.
pub(crate) fn read<T: Turns>(
    alloc: Global,
    store: &mut T,
    query: &ReadQuery,
) -> Result<Planned<Reply>, StoreFault>
    ensures { LoadsBy T.honest T.holds T.leaves store.old store.new result
        (λ k p. IsKept k → PlansFor k ((p.answer, p.changes) ≡ machine.read k.state k.board (asked_project (project_with k.state query.now.token) query.now.project) query.now.subject) p) }
{
    let project = store.project_with(&query.token)?;
    match asked(&project, query.project) {
        Ok(found) => read_of(alloc, store, found, query.subject),
        Err(code) => Ok(Planned::refused(alloc, code)),
    }
}

/// This project is told, or what it has.
fn read_of<T: Turns>(
    alloc: Global,
    store: &mut T,
    project: &Project,
    what: Subject,
) -> Result<Planned<Reply>, StoreFault>
    ensures { LoadsBy T.honest T.holds T.leaves store.old store.new result
        (λ k p. IsKept k → PlansFor k ((p.answer, p.changes) ≡ machine.read k.state k.board (Ok project.now) what) p) }
{
    let body = read_subject(alloc, store, project, what)?;
    Ok(Planned::unchanged(alloc, listings::told(alloc, body)))
}

/// What is read of this project, or why nothing is.
fn read_subject<T: Turns>(
    alloc: Global,
    store: &mut T,
    project: &Project,
    what: Subject,
) -> Result<Result<Body, Code>, StoreFault>
    ensures { LoadsBy T.honest T.holds T.leaves store.old store.new result
        (λ k body. IsKept k → body ≡ machine.read_subject k.state k.board project.now what) }
{
    match what {
        Subject::Project => Ok(Ok(listings::project(alloc, project)?)),
        Subject::Pipelines => pipelines(alloc, store, project),
        Subject::Jobs(number) => jobs(alloc, store, project, number),
        Subject::Attempts(number) => attempts(alloc, store, project, number),
        Subject::Trace(number, attempt) => trace(store, project, number, attempt),
        Subject::ResourceGroups => groups(alloc, store, project),
    }
}

/// The attempts of the job with this number, where its pipeline is the project's.
fn attempts<T: Store>(
    alloc: Global,
    store: &mut T,
    project: &Project,
    number: u64,
) -> Result<Result<Body, Code>, StoreFault>
    ensures { LoadsBy T.honest T.holds T.leaves store.old store.new result
        (λ k body. body ≡ machine.read_subject k.state k.board project.now (subject.Attempts number)) }
{
    match job_of(store, project.id, number)? {
        Ok(job) => attempts_told(alloc, store, &job),
        Err(code) => Ok(Err(code)),
    }
}

/// The attempts of this job.
fn attempts_told<T: Store>(
    alloc: Global,
    store: &mut T,
    job: &Job,
) -> Result<Result<Body, Code>, StoreFault>
    ensures { LoadsBy T.honest T.holds T.leaves store.old store.new result (λ k body. body ≡ machine.attempts_read k.state (Ok job.now)) }
{
    let attempts = store.attempts_of(job.id)?;
    let runners = store.runners()?;
    let body = listings::attempts(alloc, runners.as_slice(), attempts.as_slice())?;
    Ok(Ok(body))
}

/// The trace of an attempt of the job with this number, where its pipeline is the project's.
fn trace<T: Store>(
    store: &mut T,
    project: &Project,
    number: u64,
    attempt: u64,
) -> Result<Result<Body, Code>, StoreFault>
    ensures { LoadsBy T.honest T.holds T.leaves store.old store.new result
        (λ k body. body ≡ machine.read_subject k.state k.board project.now (subject.Trace number attempt)) }
{
    match job_of(store, project.id, number)? {
        Ok(job) => trace_told(store, &job, attempt),
        Err(code) => Ok(Err(code)),
    }
}

/// The trace of an attempt, where it is one of this job. It is looked up only then.
fn trace_told<T: Store>(
    store: &mut T,
    job: &Job,
    attempt: u64,
) -> Result<Result<Body, Code>, StoreFault>
    ensures { LoadsBy T.honest T.holds T.leaves store.old store.new result
        (λ k body. body ≡ machine.trace_read k.state (machine.attempt_of k.state (Ok job.now) attempt)) }
{
    let found = store.attempt(attempt)?;
    match attempt_within(found, job.id) {
        Ok(attempt) => Ok(Ok(Body::Plain(store.trace_of(attempt.id)?))),
        Err(code) => Ok(Err(code)),
    }
}

/// The attempt, where it is one of the job. Refusals: M3 where there is none, or it is another job's.
fn attempt_within(attempt: Option<Attempt>, job: u64) -> Result<Attempt, Code>
    ensures { result ≡ machine.attempt_within attempt job }
{
    match attempt {
        Some(attempt) if attempt.job == job => Ok(attempt),
        _ => Err(Code::M3),
    }
}

/// The job with this number, where its pipeline is the project's. Refusals: M3 where there is none, or it is another project's.
fn job_of<T: Store>(
    store: &mut T,
    project: u64,
    number: u64,
) -> Result<Result<Job, Code>, StoreFault>
    ensures { LoadsBy T.honest T.holds T.leaves store.old store.new result
        (λ k found. let job = job_at k.state number in found ≡ job_within job (pipeline_of k.state job) project) }
{
    let job = store.job(number)?;
    let pipeline = pipeline_of(store, job.as_ref())?;
    Ok(within(job, pipeline, project))
}

/// The job, where its pipeline is the project's.
fn within(job: Option<Job>, pipeline: Option<Pipeline>, project: u64) -> Result<Job, Code>
    ensures { result ≡ job_within job pipeline project }
{
    match (job, pipeline) {
        (Some(job), Some(pipeline)) if pipeline.project == project => Ok(job),
        _ => Err(Code::M3),
    }
}
