//! How often a job is tried again, and after which causes.

ghost use Rattle.std.specs.Prelude.{◌≡◌, map, codes, IfOk};
ghost use Rattle.std.specs.List.{list_any};
ghost use Rattle.serde_json.specs.View.{view};
ghost use Rattle.ci_machine.specs.Prelude.{Causes, Retry};
ghost use Rattle.ci_store_rows.specs.JsonText.{cause_text, causes_data, retry_data};
ghost use Rattle.ci_store_rows.specs.Reads.{is_text};

use crate::json::lists::{member, number_of};
use ci_machine::records::Cause;
use ci_store::fault::StoreFault;
use ci_values::when::{Causes, Retry};
use serde_json::{Map, Value, put};
use std::alloc::{AllocError, Global};

/// Every cause, in the order of their names in the text.
const CAUSES: [Cause; 6] = [
    Cause::UnknownFailure,
    Cause::ScriptFailure,
    Cause::ApiFailure,
    Cause::StuckOrTimeoutFailure,
    Cause::RunnerSystemFailure,
    Cause::JobExecutionTimeout,
];

/// The cause in GitLab's words.
fn cause_text(cause: Cause) -> &'static str
    ensures { result.now ≡ cause_text cause }
{
    match cause {
        Cause::UnknownFailure => "unknown_failure",
        Cause::ScriptFailure => "script_failure",
        Cause::ApiFailure => "api_failure",
        Cause::StuckOrTimeoutFailure => "stuck_or_timeout_failure",
        Cause::RunnerSystemFailure => "runner_system_failure",
        Cause::JobExecutionTimeout => "job_execution_timeout",
    }
}

fn causes_value(alloc: Global, causes: Causes) -> Result<Value, AllocError>
    ensures { IfOk result (λ v. view v ≡ causes_data causes) }
{
    let mut names = Vec::new(alloc);
    for cause in CAUSES {
        if causes.contains(cause) {
            names.push(Value::try_from_str(alloc, cause_text(cause))?)?;
        }
    }
    Ok(Value::Array(names))
}

/// The JSON object of how often, and after which causes. Errors: memory was refused.
pub(crate) fn retry_value(alloc: Global, retry: Retry) -> Result<Value, AllocError>
    ensures { IfOk result (λ v. view v ≡ retry_data retry) }
{
    let causes = causes_value(alloc, retry.causes)?;
    let mut members = Map::new(alloc);
    put(&mut members, alloc, "causes", causes)?;
    put(&mut members, alloc, "max", Value::from(retry.max))?;
    Ok(Value::Object(members))
}

/// Is the text one of the items?
fn has_text(items: &[Value], text: &str) -> bool
    ensures { result ≡ list_any (is_text text.now) (map view items.now) }
{
    for item in items {
        if item.as_str() == Some(text) {
            return true;
        }
    }
    false
}

fn causes_of(value: &Value) -> Result<Causes, StoreFault>
    ensures { IfOk result (λ causes. (other : Causes) → view value.now ≡ causes_data other → causes ≡ other) }
{
    let names = value.as_array().ok_or(StoreFault::Broken)?;
    let names = names.as_slice();
    Ok(Causes {
        unknown_failure: has_text(names, cause_text(Cause::UnknownFailure)),
        script_failure: has_text(names, cause_text(Cause::ScriptFailure)),
        api_failure: has_text(names, cause_text(Cause::ApiFailure)),
        stuck_or_timeout_failure: has_text(names, cause_text(Cause::StuckOrTimeoutFailure)),
        runner_system_failure: has_text(names, cause_text(Cause::RunnerSystemFailure)),
        job_execution_timeout: has_text(names, cause_text(Cause::JobExecutionTimeout)),
    })
}

/// What `retry_value` made. Errors: the value is no such object.
pub(crate) fn retry_of(value: &Value) -> Result<Retry, StoreFault>
    ensures { IfOk result (λ retry. (other : Retry) → view value.now ≡ retry_data other → retry ≡ other) }
{
    let causes = causes_of(member(value, "causes")?)?;
    let max = number_of(member(value, "max")?)?;
    match u8::try_from(max) {
        Ok(max) => Ok(Retry { max, causes }),
        Err(_) => Err(StoreFault::Broken),
    }
}
