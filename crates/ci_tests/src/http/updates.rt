use ci_http_messages::payloads::update::update_in;
use ci_machine::records::Cause;
use ci_machine::reply::Code;
use ci_machine::request::Report;
use std::alloc::Global;
use std::test::Fail;

fn cause_text(cause: Cause) -> &'static str {
    match cause {
        Cause::UnknownFailure => "unknown",
        Cause::ScriptFailure => "script",
        Cause::ApiFailure => "api",
        Cause::StuckOrTimeoutFailure => "stuck",
        Cause::RunnerSystemFailure => "system",
        Cause::JobExecutionTimeout => "timeout",
    }
}

fn exit_text(alloc: Global, exit: Option<u32>) -> Result<String, Fail> {
    Ok(match exit {
        Some(n) => format!(in alloc; "{n}")?,
        None => format!(in alloc; "-")?,
    })
}

fn report_text(alloc: Global, report: Report) -> Result<String, Fail> {
    Ok(match report {
        Report::Running => format!(in alloc; "running")?,
        Report::Success(exit) => format!(in alloc; "success {}", exit_text(alloc, exit)?)?,
        Report::Failed(cause, exit) => {
            format!(in alloc; "failed {} {}", cause_text(cause), exit_text(alloc, exit)?)?
        }
    })
}

// The update of attempt 7 that a body asks for, in words, or the code that refuses it.
fn update_text(alloc: Global, body: &str) -> Result<String, Fail> {
    Ok(match update_in(alloc, 7, body.as_bytes()) {
        Ok(update) => {
            let report = report_text(alloc, update.report)?;
            format!(in alloc; "{} {} {report}", update.attempt, update.token.as_str())?
        }
        Err(Code::H7) => format!(in alloc; "H7")?,
        Err(_) => format!(in alloc; "another code")?,
    })
}

// Bodies, and the update that each asks for.
const UPDATES: &[(&str, &str)] = &[
    (
        "{\"token\":\"j7-ab\",\"state\":\"running\"}",
        "7 j7-ab running",
    ),
    ("{\"state\":\"running\",\"x\":[]}", "7  running"),
    ("{\"token\":\"t\",\"state\":\"success\"}", "7 t success -"),
    (
        "{\"token\":\"t\",\"state\":\"success\",\"exit_code\":0,\"failure_reason\":\"script_failure\"}",
        "7 t success 0",
    ),
    (
        "{\"token\":\"t\",\"state\":\"failed\"}",
        "7 t failed unknown -",
    ),
    (
        "{\"token\":\"t\",\"state\":\"failed\",\"failure_reason\":\"always\"}",
        "7 t failed unknown -",
    ),
    (
        "{\"token\":\"t\",\"state\":\"failed\",\"failure_reason\":\"unknown_failure\"}",
        "7 t failed unknown -",
    ),
    (
        "{\"token\":\"t\",\"state\":\"failed\",\"failure_reason\":\"script_failure\",\"exit_code\":4294967295}",
        "7 t failed script 4294967295",
    ),
    (
        "{\"token\":\"t\",\"state\":\"failed\",\"failure_reason\":\"api_failure\"}",
        "7 t failed api -",
    ),
    (
        "{\"token\":\"t\",\"state\":\"failed\",\"failure_reason\":\"stuck_or_timeout_failure\"}",
        "7 t failed stuck -",
    ),
    (
        "{\"token\":\"t\",\"state\":\"failed\",\"failure_reason\":\"runner_system_failure\"}",
        "7 t failed system -",
    ),
    (
        "{\"token\":\"t\",\"state\":\"failed\",\"failure_reason\":\"job_execution_timeout\"}",
        "7 t failed timeout -",
    ),
    (
        "{\"token\":\"a\",\"state\":\"failed\",\"state\":\"success\",\"token\":\"b\",\"exit_code\":1,\"exit_code\":2}",
        "7 b success 2",
    ),
];

#[test]
fn updates(rt: HostRuntime) -> Result<(), Fail> {
    for (body, wanted) in UPDATES {
        assert!(&rt;
            update_text(rt.alloc(), body)?.as_str() == *wanted,
            "{body}"
        );
    }
    Ok(())
}

// Bodies that ask for no update.
const WRONG_UPDATES: &[&str] = &[
    "",
    "[]",
    "null",
    "{}",
    "{\"token\":\"t\"}",
    "{\"token\":\"t\",\"state\":\"\"}",
    "{\"token\":\"t\",\"state\":\"done\"}",
    "{\"token\":\"t\",\"state\":\"Running\"}",
    "{\"token\":\"t\",\"state\":null}",
    "{\"token\":\"t\",\"state\":true}",
    "{\"token\":1,\"state\":\"running\"}",
    "{\"token\":null,\"state\":\"running\"}",
    "{\"state\":\"running\",\"failure_reason\":null}",
    "{\"state\":\"failed\",\"failure_reason\":3}",
    "{\"state\":\"running\",\"exit_code\":4294967296}",
    "{\"state\":\"running\",\"exit_code\":18446744073709551616}",
    "{\"state\":\"failed\",\"exit_code\":3e0}",
    "{\"state\":\"failed\",\"exit_code\":3.0}",
    "{\"state\":\"failed\",\"exit_code\":-1}",
    "{\"state\":\"failed\",\"exit_code\":-0}",
    "{\"state\":\"failed\",\"exit_code\":01}",
    "{\"state\":\"failed\",\"exit_code\":\"1\"}",
    "{\"state\":\"failed\",\"exit_code\":null}",
    "{\"state\":\"running\",\"state\":\"done\"}",
];

#[test]
fn wrong_updates(rt: HostRuntime) -> Result<(), Fail> {
    for body in WRONG_UPDATES {
        assert!(&rt; update_text(rt.alloc(), body)?.as_str() == "H7", "{body}");
    }
    Ok(())
}
