//! A pipeline of a project is asked for, a job of one, or the trace of a job's last attempt.

ghost use Rattle.std.specs.Prelude.{◌≡◌, IfOk, length, option_copied};
ghost use Rattle.std.specs.Result.{result_map_both};
ghost use Rattle.ci_machine_steps.specs.Shows as shows;

use crate::body;
use crate::replies::{fine, unchanged};
use ci_board::facts::{Facts, Row, Status};
use ci_machine::change::Changes;
use ci_machine::records::{Claim, Job, Pipeline, Project};
use ci_machine::reply::{Body, Code, Reply};
use ci_machine::report::ShownStatus;
use ci_machine::request::JobQuery;
use ci_machine::text::Bytes;
use std::alloc::{AllocError, Global};

/// The job, where its pipeline is the project's.
fn job_within<'a>(
    job: Option<&'a Job>,
    pipeline: Option<&Pipeline>,
    project: u64,
) -> Result<&'a Job, Code>
    ensures { result_map_both (λ j. j.now) (λ c. c) result ≡ shows.job_within (option_copied job.entry) (option_copied pipeline.entry) project }
{
    match (job, pipeline) {
        (Some(job), Some(pipeline)) if pipeline.project == project => Ok(job),
        _ => Err(Code::M3),
    }
}

/// The job that a query names, of the project with the query's token, the job with its number, and that job's pipeline.
///
/// Refusals, in order: M1 where there is no such project; M2 where it isn't the one that the query names; M3 where there
/// is no such job, or its pipeline isn't the project's.
pub fn asked_job<'a>(
    project: Option<&Project>,
    job: Option<&'a Job>,
    pipeline: Option<&Pipeline>,
    query: &JobQuery,
) -> Result<&'a Job, Code>
    ensures { result_map_both (λ j. j.now) (λ c. c) result ≡ shows.asked_job (option_copied project.entry) (option_copied job.entry) (option_copied pipeline.entry) query.now }
{
    match project {
        None => Err(Code::M1),
        Some(project) if project.id != query.project => Err(Code::M2),
        Some(project) => job_within(job, pipeline, project.id),
    }
}

/// The job of a project that `asked_job` gives is shown with its status (200). The claims are the resource groups for which it must wait, at
/// least its own.
pub fn job_shown(
    alloc: Global,
    claims: &[Claim],
    project: u64,
    job: &Job,
    status: Status,
) -> Result<(Reply, Changes), AllocError>
    ensures { IfOk result (λ plan. plan ≡ shows.job_shown claims.now project job.now status) }
{
    let reply = job_reply(alloc, claims, project, job, status)?;
    Ok(unchanged(alloc, reply))
}

/// The reply (200) that shows a job of a project with its status, where these are the resource groups for which it must wait.
pub(crate) fn job_reply(
    alloc: Global,
    claims: &[Claim],
    project: u64,
    job: &Job,
    status: Status,
) -> Result<Reply, AllocError>
    ensures { IfOk result (λ reply. reply ≡ (shows.job_shown claims.now project job.now status).0) }
{
    let status = ShownStatus::of(claims, project, job, status).as_str();
    let text = body::job(alloc, status, job)?;
    Ok(fine(Body::Json(text)))
}

/// The trace of the last attempt of the job that `asked_job` gives is shown (200): it is empty where there is no attempt.
pub fn trace_shown(alloc: Global, trace: Bytes) -> (Reply, Changes)
    ensures { result ≡ shows.trace_shown trace }
{
    unchanged(alloc, fine(Body::Plain(trace)))
}

/// The pipeline that was found, if there is one, where it is one of the project that was asked for.
///
/// Refusals, in order: those of `asked_project`; M3 where there is no such pipeline, or it isn't the project's.
pub fn asked_pipeline<'a>(
    project: Result<&Project, Code>,
    pipeline: Option<&'a Pipeline>,
) -> Result<&'a Pipeline, Code>
    ensures { result_map_both (λ p. p.now) (λ c. c) result ≡ shows.asked_pipeline (result_map_both (λ p. p.now) (λ c. c) project.entry) (option_copied pipeline.entry) }
{
    let project = match project {
        Ok(project) => project,
        Err(code) => return Err(code),
    };
    match pipeline {
        Some(pipeline) if pipeline.project == project.id => Ok(pipeline),
        _ => Err(Code::M3),
    }
}

/// The pipeline that `asked_pipeline` gives is shown with its jobs, which have these facts and rows (200). The claims are the resource groups
/// for which its jobs must wait, at least those of the jobs.
pub fn pipeline_shown(
    alloc: Global,
    pipeline: &Pipeline,
    claims: &[Claim],
    jobs: &[Job],
    facts: &[Facts],
    rows: &[Row],
) -> Result<(Reply, Changes), AllocError>
    requires facts { length facts.now ≡ length jobs.now }
    requires rows { length rows.now ≡ length jobs.now }
    ensures { IfOk result (λ plan. plan ≡ shows.pipeline_shown pipeline.now claims.now jobs.now facts.now rows.now) }
{
    let reply = pipeline_reply(alloc, pipeline, claims, jobs, facts, rows)?;
    Ok(unchanged(alloc, reply))
}

/// The reply (200) that shows a pipeline with its jobs, which have these facts and rows, where these are the resource groups for which they
/// must wait.
pub(crate) fn pipeline_reply(
    alloc: Global,
    pipeline: &Pipeline,
    claims: &[Claim],
    jobs: &[Job],
    facts: &[Facts],
    rows: &[Row],
) -> Result<Reply, AllocError>
    requires facts { length facts.now ≡ length jobs.now }
    requires rows { length rows.now ≡ length jobs.now }
    ensures { IfOk result (λ reply. reply ≡ (shows.pipeline_shown pipeline.now claims.now jobs.now facts.now rows.now).0) }
{
    let text = body::pipeline(alloc, pipeline, claims, jobs, facts, rows)?;
    Ok(fine(Body::Json(text)))
}
