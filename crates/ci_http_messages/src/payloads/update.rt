//! What a runner says of an attempt.

ghost use Rattle.std.specs.Prelude.{◌≡◌, Some, IfOk, IfErr, option_map};
ghost use Rattle.std.specs.Prelude.{codes};
ghost use Rattle.serde_json.specs.Find.{get};
ghost use Rattle.serde_json.specs.View.{view};
ghost use Rattle.ci_http_messages.specs.Json.{MayBeJson};
ghost use Rattle.ci_http_messages.specs.Refusals.{IsWhyNot};
ghost use Rattle.ci_http_messages.specs.Updates.{cause_named, exit_of, report_by, report_of, update_in};

use crate::payloads::copy::copy_of;
use crate::payloads::json::{object_in, text_or_empty};
use ci_config::MAX_EXIT_CODE;
use ci_machine::records::Cause;
use ci_machine::reply::Code;
use ci_machine::request::{JobUpdate, Report};
use serde_json::Value;
use std::alloc::Global;

/// The update of an attempt that a body asks for: a JSON object with `token`, `state`,
/// `failure_reason` and `exit_code`, of which all but `state` may be missing.
///
/// Errors: the body is something else (H7); memory was refused (M16).
pub fn update_in(alloc: Global, attempt: u64, body: &[u8]) -> Result<JobUpdate, Code>
    ensures ok { IfOk result (λ update. update_in attempt body.now ≡ Some update) }
    ensures err { IfErr result (λ why. IsWhyNot (MayBeJson body.now) why (update_in attempt body.now)) }
{
    let object = object_in(alloc, body)?;
    let Some(token) = text_or_empty(object.get("token")) else {
        return Err(Code::H7);
    };
    let Some(report) = report_in(&object) else {
        return Err(Code::H7);
    };
    let token = copy_of(alloc, token)?;
    Ok(JobUpdate {
        attempt,
        token,
        report,
    })
}

// What an update says of its attempt.
fn report_in(object: &Value) -> Option<Report>
    ensures { result ≡ report_of (get (codes "state") (view object.now)) (get (codes "failure_reason") (view object.now)) (get (codes "exit_code") (view object.now)) }
{
    let state = text_or_empty(object.get("state"))?;
    let reason = text_or_empty(object.get("failure_reason"))?;
    let exit = exit_of(object.get("exit_code"))?;
    report_by(state, cause_named(reason), exit)
}

// The report of a state.
fn report_by(state: &str, cause: Cause, exit: Option<u32>) -> Option<Report>
    ensures { result ≡ report_by state.now cause exit }
{
    if state == "running" {
        Some(Report::Running)
    } else if state == "success" {
        Some(Report::Success(exit))
    } else if state == "failed" {
        Some(Report::Failed(cause, exit))
    } else {
        None
    }
}

// The cause that a failure's reason names.
fn cause_named(reason: &str) -> Cause
    ensures { result ≡ cause_named reason.now }
{
    if reason == "script_failure" {
        Cause::ScriptFailure
    } else if reason == "api_failure" {
        Cause::ApiFailure
    } else if reason == "stuck_or_timeout_failure" {
        Cause::StuckOrTimeoutFailure
    } else if reason == "runner_system_failure" {
        Cause::RunnerSystemFailure
    } else if reason == "job_execution_timeout" {
        Cause::JobExecutionTimeout
    } else {
        Cause::UnknownFailure
    }
}

// The exit code, or that there is none, or `None` where the member is no exit code.
fn exit_of(member: Option<&Value>) -> Option<Option<u32>>
    ensures { result ≡ exit_of (option_map (λ value. view value.now) member.entry) }
{
    let Some(value) = member else {
        return Some(None);
    };
    match value.as_u64() {
        Some(n) if n <= u64::from(MAX_EXIT_CODE) => Some(Some(n as u32)),
        _ => None,
    }
}
