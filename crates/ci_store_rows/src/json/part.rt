//! What a job's status depends on.

ghost use Rattle.std.specs.Prelude.{◌≡◌, IfOk, IfSome};
ghost use Rattle.serde_json.specs.Data.{string};
ghost use Rattle.serde_json.specs.View.{view};
ghost use Rattle.ci_store.specs.Prelude.{JobOptions};
ghost use Rattle.ci_store_rows.specs.JsonText.{when_text, allow_data, spec_data};

use crate::json::causes::retry_of;
use crate::json::lists::{flag_of, member, numbers_of, numbers_value};
use ci_graph::part::Part;
use ci_store::fault::StoreFault;
use ci_values::when::{AllowFailure, When};
use serde_json::Value;
use std::alloc::{AllocError, Global};

/// When a job runs, in GitLab's words.
pub(crate) fn when_text(when: When) -> &'static str
    ensures { result.now ≡ when_text «when» }
{
    match when {
        When::OnSuccess => "on_success",
        When::OnFailure => "on_failure",
        When::Always => "always",
        When::Manual => "manual",
    }
}

fn when_named(text: &str) -> Option<When>
    ensures { IfSome result (λ w. text.now ≡ when_text w) }
{
    match text {
        "on_success" => Some(When::OnSuccess),
        "on_failure" => Some(When::OnFailure),
        "always" => Some(When::Always),
        "manual" => Some(When::Manual),
        _ => None,
    }
}

fn when_of(value: &Value) -> Result<When, StoreFault>
    ensures { IfOk result (λ w. view value.now ≡ string (when_text w)) }
{
    let text = value.as_str().ok_or(StoreFault::Broken)?;
    when_named(text).ok_or(StoreFault::Broken)
}

/// The JSON value of whether a pipeline goes on. Errors: memory was refused.
pub(crate) fn allow_value(alloc: Global, allow: &AllowFailure) -> Result<Value, AllocError>
    ensures { IfOk result (λ v. view v ≡ allow_data allow.now) }
{
    match allow {
        AllowFailure::No => Ok(Value::from(false)),
        AllowFailure::Yes => Ok(Value::from(true)),
        AllowFailure::ExitCodes(codes) => numbers_value(alloc, codes.as_slice()),
    }
}

fn allow_of(alloc: Global, value: &Value) -> Result<AllowFailure, StoreFault>
    ensures { IfOk result (λ allow. view value.now ≡ allow_data allow) }
{
    match value.as_bool() {
        Some(true) => Ok(AllowFailure::Yes),
        Some(false) => Ok(AllowFailure::No),
        None => Ok(AllowFailure::ExitCodes(numbers_of(alloc, value)?)),
    }
}

/// What is kept of the part in a job's object. Errors: memory was refused, or the value is no such object.
pub(crate) fn part_of(alloc: Global, value: &Value) -> Result<Part, StoreFault>
    ensures { IfOk result (λ part. (other : JobOptions) → view value.now ≡ spec_data other → part ≡ other.part) }
{
    let when = when_of(member(value, "when")?)?;
    let retry = retry_of(member(value, "retry")?)?;
    let gives_needs = flag_of(member(value, "needs")?)?;
    let allow_failure = allow_of(alloc, member(value, "allow_failure")?)?;
    Ok(Part {
        when,
        allow_failure,
        retry,
        gives_needs,
    })
}
