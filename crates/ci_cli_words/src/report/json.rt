//! The reports as compact JSON, for programs: a list of objects in a line, whose members stand in the order of their bytes.

ghost use Rattle.std.specs.Prelude.{◌≡◌, false, [], ◌∷◌, IfOk, string_bytes};
ghost use Rattle.serde_json.specs.Data.{Data};
ghost use Rattle.serde_json.specs.View.{view};
ghost use Rattle.serde_json.specs.Written.{has_float};
ghost use Rattle.ci_machine.specs.Prelude.{listed};
ghost use Rattle.ci_cli_words.specs.JsonText.{line_of, queued_data, queue_json, job_data, pipeline_data, pipeline_json, grant_data, runner_data, runner_json};

use ci_machine::moment::{Moment, stamp_text};
use ci_machine::report::{JobRow, PipelineRows, QueueRow, RunnerRow};
use serde_json::{Value, json};
use std::alloc::{AllocError, Global};

/// The line of a value without a float. Errors: memory was refused.
fn line_of(alloc: Global, value: Value) -> Result<String, AllocError>
    requires { has_float (view value) ≡ false }
    ensures { IfOk result (λ text. string_bytes text ≡ line_of (view value)) }
{
    let mut text = value.to_string(alloc)?;
    text.push('\n')?;
    Ok(text)
}

/// A row of a report.
trait Told {
    /// What is told of it.
    ghost told: { Self → Data };

    /// That as a value. Errors: memory was refused.
    fn value(&self, alloc: Global) -> Result<Value, AllocError>
        ensures { IfOk result (λ v. view v ≡ told self.now) };
}

/// The list of what is told of rows. Errors: memory was refused.
fn listed<T: Told>(alloc: Global, rows: &[T]) -> Result<Value, AllocError>
    ensures { IfOk result (λ v. view v ≡ listed T.told rows.now) }
{
    let mut items = Vec::new(alloc);
    for row in rows {
        items.push(row.value(alloc)?)?;
    }
    Ok(Value::Array(items))
}

/// A pending job.
impl Told for QueueRow {
    ghost told = { queued_data };

    fn value(&self, alloc: Global) -> Result<Value, AllocError> {
        let name = self.name.as_str();
        let status = self.status.as_str();
        json!(in alloc; {"id": self.job, "name": name, "project": self.project, "status": status})
    }
}

/// The report of pending jobs, in the order of their rows. Errors: memory was refused.
pub fn queue_json(alloc: Global, rows: &[QueueRow]) -> Result<String, AllocError>
    ensures { IfOk result (λ text. string_bytes text ≡ queue_json rows.now) }
{
    let jobs = listed(alloc, rows)?;
    line_of(alloc, jobs)
}

/// A job of a pipeline.
impl Told for JobRow {
    ghost told = { job_data };

    fn value(&self, alloc: Global) -> Result<Value, AllocError> {
        let name = self.name.as_str();
        let status = self.status.as_str();
        json!(in alloc; {"id": self.job, "name": name, "status": status, "tries": self.tries})
    }
}

/// A pipeline with its jobs.
fn pipeline_value(alloc: Global, rows: &PipelineRows) -> Result<Value, AllocError>
    ensures { IfOk result (λ v. view v ≡ pipeline_data rows.now) }
{
    let pipeline = &rows.head.pipeline;
    let created = stamp_text(alloc, pipeline.created)?;
    let created = created.as_str();
    let jobs = listed(alloc, rows.jobs.as_slice())?;
    let git_ref = pipeline.git_ref.as_str();
    let source = pipeline.source.as_str();
    let status = rows.head.status.as_str();
    json!(in alloc; {
        "created": created, "id": pipeline.id, "jobs": jobs, "project": pipeline.project,
        "ref": git_ref, "source": source, "status": status
    })
}

/// A list of it alone.
fn pipelines_value(alloc: Global, rows: &PipelineRows) -> Result<Value, AllocError>
    ensures { IfOk result (λ v. view v ≡ listed pipeline_data (rows.now ∷ [])) }
{
    let pipeline = pipeline_value(alloc, rows)?;
    json!(in alloc; [pipeline])
}

/// The report of a pipeline with its jobs, in the order of their rows: a list of it alone. Errors: memory was refused.
pub fn pipeline_json(alloc: Global, pipeline: &PipelineRows) -> Result<String, AllocError>
    ensures { IfOk result (λ text. string_bytes text ≡ pipeline_json pipeline.now) }
{
    let pipelines = pipelines_value(alloc, pipeline)?;
    line_of(alloc, pipelines)
}

/// The moment of a last grant, or null where there was none. Errors: memory was refused.
fn grant_value(alloc: Global, last_grant: Option<Moment>) -> Result<Value, AllocError>
    ensures { IfOk result (λ v. view v ≡ grant_data last_grant) }
{
    match last_grant {
        Some(moment) => Ok(Value::String(stamp_text(alloc, moment)?)),
        None => Ok(Value::Null),
    }
}

/// A runner.
impl Told for RunnerRow {
    ghost told = { runner_data };

    fn value(&self, alloc: Global) -> Result<Value, AllocError> {
        let grant = grant_value(alloc, self.last_grant)?;
        let name = self.name.as_str();
        json!(in alloc; {
            "id": self.runner, "last_grant": grant, "live": self.live, "name": name, "paused": self.paused
        })
    }
}

/// The report of runners, in the order of their rows. Errors: memory was refused.
pub fn runner_json(alloc: Global, rows: &[RunnerRow]) -> Result<String, AllocError>
    ensures { IfOk result (λ text. string_bytes text ≡ runner_json rows.now) }
{
    let runners = listed(alloc, rows)?;
    line_of(alloc, runners)
}
