//! What is read of a project and of what it has: as compact JSON, the members of each object in the order of their bytes.

ghost use Rattle.std.specs.Prelude.{◌≡◌, false, find, map, ◌==◌, codes, IfOk, option_copied};
ghost use Rattle.serde_json.specs.Data.{array, member, no_members};
ghost use Rattle.serde_json.specs.View.{view, items_of};
ghost use Rattle.serde_json.specs.Written.{compact_text, has_float};
ghost use Rattle.ci_machine_steps.specs.Prelude.{number_or_null, text_or_null, listed, project_data, is_tag, exit_of, reason_of, runner_or_null};
ghost use Rattle.ci_machine_steps.specs.Prelude.{attempt_data};
ghost use Rattle.ci_machine.specs.Listings.{attempts_among};
ghost use Rattle.ci_machine_steps.specs.Reads as reads;
ghost use Rattle.ci_machine_plans.specs.Objects.{members_of};

use crate::object::Object;
use crate::replies::{fine, refused, unchanged};
use ci_machine::change::Changes;
use ci_machine::records::{
    Attempt, AttemptState, PipelineWithStatus, Project, RefKind, Runner, cause_text,
};
use ci_machine::reply::{Body, Code, JobStatus, Reply};
use ci_machine::text::Text;
use serde_json::{Number, Value};
use std::alloc::{AllocError, Global};

/// What is told in a list.
pub trait Listed {
    ghost use Rattle.std.specs.Prelude.{◌≡◌, false, IfOk};
    ghost use Rattle.serde_json.specs.Data.{Data};
    ghost use Rattle.serde_json.specs.View.{view};
    ghost use Rattle.serde_json.specs.Written.{has_float};

    /// What is told of one.
    ghost as_data: { Self → Data };

    /// One, as it is told. Errors: memory was refused.
    fn value(&self, alloc: Global) -> Result<Value, AllocError>
        ensures { IfOk result (λ v. view v ≡ as_data self.now) };

    /// It has no float.
    ghost plain: { (x : Self) → has_float (as_data x) ≡ false };
}

/// A number, or null where there is none.
pub(crate) fn number_or_null(number: Option<u64>) -> Value
    ensures { view result ≡ number_or_null number }
{
    match number {
        Some(n) => Value::Number(Number::from(n)),
        None => Value::Null,
    }
}

/// The exit code that its runner sent of an attempt in this state, or null where none was.
fn exit_value(state: AttemptState) -> Value
    ensures { view result ≡ number_or_null (exit_of state) }
{
    match state {
        AttemptState::Succeeded(Some(exit)) | AttemptState::Failed(_, Some(exit)) => {
            Value::Number(Number::from(exit as u64))
        }
        AttemptState::Succeeded(None)
        | AttemptState::Failed(_, None)
        | AttemptState::Live
        | AttemptState::Cancelled => Value::Null,
    }
}

/// Why an attempt in this state failed, or null where it didn't.
fn reason_value(alloc: Global, state: AttemptState) -> Result<Value, AllocError>
    ensures { IfOk result (λ v. view v ≡ text_or_null (reason_of state)) }
{
    match state {
        AttemptState::Failed(cause, _) => Value::try_from_str(alloc, cause_text(cause)),
        AttemptState::Live | AttemptState::Succeeded(_) | AttemptState::Cancelled => {
            Ok(Value::Null)
        }
    }
}

/// The runner with this number, if there is one.
fn runner_at(runners: &[Runner], id: u64) -> Option<&Runner>
    ensures { option_copied result ≡ find (λ r. r.id == id) runners.now }
{
    runners.iter().find(|runner| runner.id == id)
}

/// A runner, or null where there is none.
fn runner_or_null(alloc: Global, runner: Option<&Runner>) -> Result<Value, AllocError>
    ensures { IfOk result (λ v. view v ≡ runner_or_null (option_copied runner.entry)) }
{
    match runner {
        Some(runner) => {
            let told = Object::new(alloc).with_number(alloc, "id", runner.id)?;
            let told = told.with_text(alloc, "name", runner.name.as_str())?;
            Ok(told.into_value())
        }
        None => Ok(Value::Null),
    }
}

/// How an attempt in this state ended, of what is told of it.
fn ended_object(alloc: Global, state: AttemptState) -> Result<Object, AllocError>
    ensures { IfOk result (λ o. members_of o ≡ member (codes "exit_code") (number_or_null (exit_of state)) (member (codes "failure_reason") (text_or_null (reason_of state)) no_members)) }
{
    let reason = reason_value(alloc, state)?;
    let told = Object::new(alloc).with(alloc, "exit_code", exit_value(state))?;
    told.with(alloc, "failure_reason", reason)
}

/// An attempt of one of these runners.
fn attempt_value(alloc: Global, runners: &[Runner], attempt: &Attempt) -> Result<Value, AllocError>
    ensures { IfOk result (λ v. view v ≡ attempt_data runners.now attempt.now) }
{
    let runner = runner_or_null(alloc, runner_at(runners, attempt.runner))?;
    let told = ended_object(alloc, attempt.state)?;
    let told = told.with_moment(alloc, "heard_at", attempt.seen)?;
    let told = told.with_number(alloc, "id", attempt.id)?;
    let told = told.with(alloc, "runner", runner)?;
    let told = told.with_moment(alloc, "started_at", attempt.granted)?;
    let told = told.with_text(alloc, "status", JobStatus::of(attempt.state).as_str())?;
    Ok(told.into_value())
}

/// These attempts, of these runners.
fn attempts_value(
    alloc: Global,
    runners: &[Runner],
    attempts: &[Attempt],
) -> Result<Value, AllocError>
    ensures { IfOk result (λ v. view v ≡ listed (attempt_data runners.now) attempts.now) }
{
    let mut items = Vec::new(alloc);
    for attempt in attempts {
        items.push(attempt_value(alloc, runners, attempt)?)?;
    }
    Ok(Value::Array(items))
}

/// Those among these attempts that are of a job, of these runners.
pub(crate) fn attempts_value_of(
    alloc: Global,
    runners: &[Runner],
    attempts: &[Attempt],
    job: u64,
) -> Result<Value, AllocError>
    ensures { IfOk result (λ v. view v ≡ array (items_of (map (attempt_data runners.now) (attempts_among attempts.now job)))) }
{
    let mut items = Vec::new(alloc);
    for attempt in attempts {
        if attempt.job == job {
            items.push(attempt_value(alloc, runners, attempt)?)?;
        }
    }
    Ok(Value::Array(items))
}

/// A project.
fn project_value(alloc: Global, project: &Project) -> Result<Value, AllocError>
    ensures { IfOk result (λ v. view v ≡ project_data project.now) }
{
    let told = Object::new(alloc).with_number(alloc, "id", project.id)?;
    let told = told.with_text(alloc, "name", project.name.as_str())?;
    Ok(told.into_value())
}

/// Is what a pipeline runs for a tag?
fn is_tag(kind: RefKind) -> bool
    ensures { result ≡ is_tag kind }
{
    match kind {
        RefKind::Branch => false,
        RefKind::Tag => true,
    }
}

impl Listed for PipelineWithStatus {
    ghost use Rattle.std.specs.Prelude.{refl};
    ghost use Rattle.ci_machine_steps.specs.Prelude.{listed_pipeline_data};

    ghost as_data = { listed_pipeline_data };

    ghost plain = { λ _. refl };

    fn value(&self, alloc: Global) -> Result<Value, AllocError> {
        let pipeline = &self.pipeline;
        let told = Object::new(alloc).with_moment(alloc, "created_at", pipeline.created)?;
        let told = told.with_number(alloc, "id", pipeline.id)?;
        let told = told.with_text(alloc, "ref", pipeline.git_ref.as_str())?;
        let told = told.with_text(alloc, "source", pipeline.source.as_str())?;
        let told = told.with_text(alloc, "status", self.status.as_str())?;
        let told = told.with_flag(alloc, "tag", is_tag(pipeline.kind))?;
        Ok(told.into_value())
    }
}

/// These, one after the other.
fn list_value<T: Listed>(alloc: Global, all: &[T]) -> Result<Value, AllocError>
    ensures { IfOk result (λ v. view v ≡ listed T.as_data all.now) }
{
    let mut items = Vec::new(alloc);
    for one in all {
        items.push(one.value(alloc)?)?;
    }
    Ok(Value::Array(items))
}

/// The body that a value without a float makes. Errors: memory was refused.
pub(crate) fn body_of(alloc: Global, value: Value) -> Result<Body, AllocError>
    requires { has_float (view value) ≡ false }
    ensures { IfOk result (λ body. body ≡ reads.json (view value)) }
{
    let text = value.to_string(alloc)?;
    Ok(Body::Json(Text::new(text)))
}

/// The body that tells a project. Errors: memory was refused.
pub fn project(alloc: Global, project: &Project) -> Result<Body, AllocError>
    ensures { IfOk result (λ body. body ≡ reads.json (project_data project.now)) }
{
    let value = project_value(alloc, project)?;
    body_of(alloc, value)
}

/// The body that lists attempts of these runners, in the order of the slice. Errors: memory was refused.
pub fn attempts(alloc: Global, runners: &[Runner], attempts: &[Attempt]) -> Result<Body, AllocError>
    ensures { IfOk result (λ body. body ≡ reads.json (listed (attempt_data runners.now) attempts.now)) }
{
    let value = attempts_value(alloc, runners, attempts)?;
    body_of(alloc, value)
}

/// The body that lists these, in the order of the slice. Errors: memory was refused.
pub fn list<T: Listed>(alloc: Global, all: &[T]) -> Result<Body, AllocError>
    ensures { IfOk result (λ body. body ≡ reads.json (listed T.as_data all.now)) }
{
    let value = list_value(alloc, all)?;
    body_of(alloc, value)
}

/// The plan that tells what was read (200), or refuses to; nothing changes.
pub fn told(alloc: Global, body: Result<Body, Code>) -> (Reply, Changes)
    ensures { result ≡ reads.told body }
{
    match body {
        Ok(body) => unchanged(alloc, fine(body)),
        Err(code) => refused(alloc, code),
    }
}
