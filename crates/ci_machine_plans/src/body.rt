//! The bodies of replies: compact JSON, the members of each object in the order of their bytes.

ghost use Rattle.std.specs.Prelude.{◌≡◌, ◌≤◌, map, codes, length, count_by, IfOk, OnOk};
ghost use Rattle.std.specs.List.{list_any};
ghost use Rattle.std.specs.Ordering.{nat_cmp, is_lt};
ghost use Rattle.std.specs.Cmp.Lexicographic.{slice_cmp};
ghost use Rattle.std.specs.Str.{bytes_eq};
ghost use Rattle.std.specs.Fmt.{decimal};
ghost use Rattle.serde_json.specs.Data.{array, object, string};
ghost use Rattle.serde_json.specs.View.{view, items_of};
ghost use Rattle.serde_json.specs.Written.{compact_text};
ghost use Rattle.ci_machine_steps.specs.Prelude.{fault_data, created_data, paused_data, pruned_data, mode_data, job_data, file_data, jobs_data, status_of_jobs, pipeline_data};
ghost use Rattle.ci_machine_steps.specs.Prelude.{variable_data, with_default, granted_variables, grant_data};
ghost use Rattle.ci_machine_plans.specs.Objects.{members_of, job_info_data};

use crate::object::Object;
use ci_board::facts::{Facts, Row, Status};
use ci_board::pipeline::pipeline_status;
use ci_graph::part::Part;
use ci_machine::records::{Claim, GroupOrder, Job, JobVariable, Pipeline, QueuedJob, process_mode};
use ci_machine::reply::Detail;
use ci_machine::report::ShownStatus;
use ci_machine::text::Text;
use serde_json::Value;
use std::alloc::{AllocError, Global};

/// The body of a fault of what was to be made.
pub fn fault(alloc: Global, detail: &Detail) -> Result<Text, AllocError>
    ensures { IfOk result (λ t. t ≡ compact_text (fault_data detail.now)) }
{
    let detail = detail.text(alloc)?;
    let body = Object::new(alloc).with_text(alloc, "code", "M14")?;
    let body = body.with_text(alloc, "detail", detail.as_str())?;
    body.into_text(alloc)
}

/// The body of a new project or runner.
pub fn created(alloc: Global, id: u64, token: &Text) -> Result<Text, AllocError>
    ensures { IfOk result (λ t. t ≡ compact_text (created_data id token.now)) }
{
    let body = Object::new(alloc).with_number(alloc, "id", id)?;
    let body = body.with_text(alloc, "token", token.as_str())?;
    body.into_text(alloc)
}

/// The body of a runner that was paused, or goes on.
pub fn paused(alloc: Global, id: u64, paused: bool) -> Result<Text, AllocError>
    ensures { IfOk result (λ t. t ≡ compact_text (paused_data id paused)) }
{
    let body = Object::new(alloc).with_number(alloc, "id", id)?;
    let body = body.with_flag(alloc, "paused", paused)?;
    body.into_text(alloc)
}

/// The body of a pipeline that was pruned.
pub fn pruned(alloc: Global, pipeline: u64) -> Result<Text, AllocError>
    ensures { IfOk result (λ t. t ≡ compact_text (pruned_data pipeline)) }
{
    let body = Object::new(alloc).with_number(alloc, "pruned", pipeline)?;
    body.into_text(alloc)
}

/// The body that tells a resource group with its process mode, by its order.
pub fn mode(alloc: Global, group: &Text, order: Option<GroupOrder>) -> Result<Text, AllocError>
    ensures { IfOk result (λ t. t ≡ compact_text (mode_data group.now order)) }
{
    let body = Object::new(alloc).with_text(alloc, "key", group.as_str())?;
    let body = body.with_text(alloc, "process_mode", process_mode(order))?;
    body.into_text(alloc)
}

/// The body that shows a job with its status.
pub fn job(alloc: Global, status: &str, job: &Job) -> Result<Text, AllocError>
    ensures { IfOk result (λ t. t ≡ compact_text (job_data status.now job.now)) }
{
    job_object(alloc, status, job)?.into_text(alloc)
}

fn job_object(alloc: Global, status: &str, job: &Job) -> Result<Object, AllocError>
    ensures { IfOk result (λ o. object (members_of o) ≡ job_data status.now job.now) }
{
    let shown = Object::new(alloc).with_number(alloc, "id", job.id)?;
    let shown = shown.with_text(alloc, "name", job.name.as_str())?;
    let shown = shown.with_text(alloc, "stage", job.stage.as_str())?;
    shown.with_text(alloc, "status", status)
}

/// The body that tells how many jobs of a file aren't hidden.
pub fn file(alloc: Global, jobs: usize) -> Result<Text, AllocError>
    ensures { IfOk result (λ t. t ≡ compact_text (file_data jobs)) }
{
    let body = Object::new(alloc).with_number(alloc, "jobs", jobs as u64)?;
    body.into_text(alloc)
}

/// The jobs of a project, each with the status of its row, where these are the resource groups for which they must wait.
fn jobs_with_rows(
    alloc: Global,
    claims: &[Claim],
    project: u64,
    jobs: &[Job],
    rows: &[Row],
) -> Result<Value, AllocError>
    requires { length rows.now ≡ length jobs.now }
    ensures { IfOk result (λ v. view v ≡ array (items_of (jobs_data claims.now project jobs.now rows.now))) }
{
    let mut items = Vec::new(alloc);
    for i in 0..jobs.len() {
        let job = &jobs[i];
        let status = ShownStatus::of(claims, project, job, rows[i].status).as_str();
        let shown = job_object(alloc, status, job)?;
        items.push(shown.into_value())?;
    }
    Ok(Value::Array(items))
}

/// The parts of jobs.
fn parts_of(alloc: Global, jobs: &[Job]) -> Result<Vec<Part>, AllocError>
    ensures { IfOk result (λ v. v.items ≡ map (λ j. j.options.part) jobs.now) }
{
    let mut parts = Vec::with_capacity(alloc, jobs.len())?;
    for job in jobs {
        parts.push(job.options.part.clone()?)?;
    }
    Ok(parts)
}

/// The status of a pipeline whose jobs have these facts and rows, both in the order of the jobs. That of a pipeline without jobs is
/// skipped. Errors: memory was refused.
pub fn status_of(
    alloc: Global,
    jobs: &[Job],
    facts: &[Facts],
    rows: &[Row],
) -> Result<Status, AllocError>
    requires facts { length facts.now ≡ length jobs.now }
    requires rows { length rows.now ≡ length jobs.now }
    ensures { IfOk result (λ s. s ≡ status_of_jobs jobs.now facts.now rows.now) }
{
    let parts = parts_of(alloc, jobs)?;
    Ok(pipeline_status(parts.as_slice(), facts, rows))
}

/// The body that shows a pipeline with its jobs, which have these facts and rows. The claims are the resource groups for which its jobs must
/// wait, at least those of the jobs.
pub fn pipeline(
    alloc: Global,
    pipeline: &Pipeline,
    claims: &[Claim],
    jobs: &[Job],
    facts: &[Facts],
    rows: &[Row],
) -> Result<Text, AllocError>
    requires facts { length facts.now ≡ length jobs.now }
    requires rows { length rows.now ≡ length jobs.now }
    ensures { IfOk result (λ t. t ≡ compact_text (pipeline_data pipeline.now claims.now jobs.now facts.now rows.now)) }
{
    pipeline_object(alloc, pipeline, claims, jobs, facts, rows)?.into_text(alloc)
}

fn pipeline_object(
    alloc: Global,
    pipeline: &Pipeline,
    claims: &[Claim],
    jobs: &[Job],
    facts: &[Facts],
    rows: &[Row],
) -> Result<Object, AllocError>
    requires facts { length facts.now ≡ length jobs.now }
    requires rows { length rows.now ≡ length jobs.now }
    ensures { IfOk result (λ o. object (members_of o) ≡ pipeline_data pipeline.now claims.now jobs.now facts.now rows.now) }
{
    let status = status_of(alloc, jobs, facts, rows)?;
    let jobs = jobs_with_rows(alloc, claims, pipeline.project, jobs, rows)?;
    let shown = Object::new(alloc).with(alloc, "jobs", jobs)?;
    let shown = shown.with_number(alloc, "id", pipeline.id)?;
    let shown = shown.with_text(alloc, "ref", pipeline.git_ref.as_str())?;
    let shown = shown.with_text(alloc, "source", pipeline.source.as_str())?;
    shown.with_text(alloc, "status", status.as_str())
}

/// Texts, one after the other.
pub(crate) fn lines(alloc: Global, texts: &[Text]) -> Result<Value, AllocError>
    ensures { IfOk result (λ v. view v ≡ array (items_of (map string texts.now))) }
{
    let mut items = Vec::new(alloc);
    for text in texts {
        items.push(Value::try_from_str(alloc, text.as_str())?)?;
    }
    Ok(Value::Array(items))
}

fn variable(alloc: Global, variable: &JobVariable) -> Result<Value, AllocError>
    ensures { IfOk result (λ v. view v ≡ variable_data variable.now) }
{
    let shown = Object::new(alloc).with_text(alloc, "key", variable.key.as_str())?;
    let shown = shown.with_text(alloc, "value", variable.value.as_str())?;
    Ok(shown.into_value())
}

fn variables(alloc: Global, variables: &[JobVariable]) -> Result<Value, AllocError>
    ensures { IfOk result (λ v. view v ≡ array (items_of (map variable_data variables.now))) }
{
    let mut items = Vec::new(alloc);
    for one in variables {
        items.push(variable(alloc, one)?)?;
    }
    Ok(Value::Array(items))
}

fn has_key(variables: &[JobVariable], key: &Text) -> bool
    ensures { result ≡ list_any (λ w. bytes_eq w.key key.now) variables.now }
{
    variables.iter().any(|one| one.key.is_same(key))
}

/// How many of the variables come before a key.
fn place_of(variables: &[JobVariable], key: &Text) -> usize
    ensures place { result ≡ count_by (λ w. is_lt (slice_cmp nat_cmp w.key key.now)) variables.now }
    ensures within { result ≤ length variables.now }
{
    variables
        .iter()
        .filter(|one| one.key.is_before(key))
        .count()
}

/// Adds a variable at its place, where none has its key.
fn add_default(variables: &mut Vec<JobVariable>, variable: JobVariable) -> Result<(), AllocError>
    ensures { OnOk result (variables.new.items ≡ with_default variable variables.old.items) }
{
    if has_key(variables.as_slice(), &variable.key) {
        return Ok(());
    }
    let place = place_of(variables.as_slice(), &variable.key);
    variables.insert(place, variable)?;
    Ok(())
}

fn number_variable(
    alloc: Global,
    job: u64,
    key: &str,
    number: u64,
) -> Result<JobVariable, AllocError>
    ensures { IfOk result (λ v. v ≡ record { job = job; key = key.now; value = decimal number }) }
{
    let value = Text::new(format!(in alloc; "{number}")?);
    let key = Text::copy_of(alloc, key)?;
    Ok(JobVariable { job, key, value })
}

/// The variables of a grant: the job's, and the numbers of its pipeline and of the attempt.
fn all_variables(
    alloc: Global,
    job: &Job,
    attempt: u64,
    variables: &[JobVariable],
) -> Result<Vec<JobVariable>, AllocError>
    ensures { IfOk result (λ all. all.items ≡ granted_variables job.now attempt variables.now) }
{
    let mut all = variables.to_vec(alloc)?;
    let pipeline_id = number_variable(alloc, job.id, "CI_PIPELINE_ID", job.pipeline)?;
    add_default(&mut all, pipeline_id)?;
    let job_id = number_variable(alloc, job.id, "CI_JOB_ID", attempt)?;
    add_default(&mut all, job_id)?;
    Ok(all)
}

/// The body of a grant.
pub fn grant(
    alloc: Global,
    attempt: u64,
    token: &Text,
    queued: &QueuedJob,
    variables: &[JobVariable],
) -> Result<Text, AllocError>
    ensures { IfOk result (λ t. t ≡ compact_text (grant_data attempt token.now queued.now variables.now)) }
{
    grant_object(alloc, attempt, token, queued, variables)?.into_text(alloc)
}

fn grant_object(
    alloc: Global,
    attempt: u64,
    token: &Text,
    queued: &QueuedJob,
    job_variables: &[JobVariable],
) -> Result<Object, AllocError>
    ensures { IfOk result (λ o. object (members_of o) ≡ grant_data attempt token.now queued.now job_variables.now) }
{
    let job = &queued.job;
    let all = all_variables(alloc, job, attempt, job_variables)?;
    let all = variables(alloc, all.as_slice())?;
    let shown = Object::new(alloc).with(alloc, "variables", all)?;
    let shown = shown.with(
        alloc,
        "script",
        lines(alloc, job.options.script.as_slice())?,
    )?;
    let shown = shown.with(alloc, "job_info", job_info(alloc, queued)?)?;
    let shown = shown.with_number(alloc, "id", attempt)?;
    let shown = shown.with_number(alloc, "timeout", job.options.timeout as u64)?;
    shown.with_text(alloc, "token", token.as_str())
}

/// What a grant says of the job itself.
fn job_info(alloc: Global, queued: &QueuedJob) -> Result<Value, AllocError>
    ensures { IfOk result (λ v. view v ≡ job_info_data queued.now) }
{
    let shown = Object::new(alloc).with_text(alloc, "name", queued.job.name.as_str())?;
    let shown = shown.with_number(alloc, "project_id", queued.project)?;
    let shown = shown.with_text(alloc, "stage", queued.job.stage.as_str())?;
    Ok(shown.into_value())
}
