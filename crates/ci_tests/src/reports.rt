//! The reports for an operator: each public function once, and texts that were laid out by hand.

use ci_board::facts::Status;
use ci_cli_words::report::json::{pipeline_json, queue_json, runner_json};
use ci_cli_words::report::pipeline::pipeline_report;
use ci_cli_words::report::queue::queue_report;
use ci_cli_words::report::runner::runner_report;
use ci_machine::moment::{Moment, moment_text, stamp_text};
use ci_machine::records::{MAX_NUMBER, Pipeline, PipelineWithStatus, RefKind, Source};
use ci_machine::report::{JobRow, PipelineRows, QueueRow, RunnerRow, ShownStatus};
use ci_machine::text::Text;
use std::alloc::{AllocError, Global};
use std::test::Fail;

fn at(seconds: u64) -> Result<Moment, Fail> {
    Ok(Moment::new(seconds).ok_or("moment")?)
}

/// Moments, with the first and the last one, and ends of February in years with and without a 29th.
const MOMENTS: &[(u64, &str)] = &[
    (0, "1970-01-01 00:00:00"),
    (1000, "1970-01-01 00:16:40"),
    (951_868_799, "2000-02-29 23:59:59"),
    (951_868_800, "2000-03-01 00:00:00"),
    (1_709_210_096, "2024-02-29 12:34:56"),
    (4_107_542_399, "2100-02-28 23:59:59"),
    (4_107_542_400, "2100-03-01 00:00:00"),
    (253_402_300_799, "9999-12-31 23:59:59"),
];

#[test]
fn moments_are_told_in_utc(rt: HostRuntime) -> Result<(), Fail> {
    for (seconds, wanted) in MOMENTS {
        let text = moment_text(rt.alloc(), at(*seconds)?)?;
        assert!(rt; text.as_str() == *wanted, "{seconds}");
    }
    Ok(())
}

#[test]
fn moments_are_told_as_stamps(rt: HostRuntime) -> Result<(), Fail> {
    let text = stamp_text(rt.alloc(), at(1000)?)?;
    assert!(rt; text.as_str() == "1970-01-01T00:16:40Z");
    let text = stamp_text(rt.alloc(), at(253_402_300_799)?)?;
    assert!(rt; text.as_str() == "9999-12-31T23:59:59Z");
    Ok(())
}

const QUEUE: &str = "     JOB PROJECT STATUS               NAME
       1       1 pending              slow
       3       1 pending              lint
jobs: 2
";

const WIDE_QUEUE: &str = "     JOB PROJECT STATUS               NAME
123456789 12345678 waiting_for_resource lint
jobs: 1
";

const EMPTY_QUEUE: &str = "     JOB PROJECT STATUS               NAME
jobs: 0
";

/// A pending job of the project 1, which waits for no group.
fn pending_job(alloc: Global, job: u64, name: &str) -> Result<QueueRow, Fail> {
    Ok(QueueRow {
        job,
        project: 1,
        status: ShownStatus::Plain(Status::Pending),
        name: Text::copy_of(alloc, name)?,
    })
}

#[test]
fn the_queue_is_told(rt: HostRuntime) -> Result<(), Fail> {
    let first = pending_job(rt.alloc(), 1, "slow")?;
    let second = pending_job(rt.alloc(), 3, "lint")?;
    let wide = QueueRow {
        job: 123_456_789,
        project: 12_345_678,
        status: ShownStatus::WaitsForResource,
        name: Text::copy_of(rt.alloc(), "lint")?,
    };
    let text = queue_report(rt.alloc(), &[first, second])?;
    assert!(rt; text.as_str() == QUEUE);
    let text = queue_report(rt.alloc(), &[wide])?;
    assert!(rt; text.as_str() == WIDE_QUEUE);
    let text = queue_report(rt.alloc(), &[])?;
    assert!(rt; text.as_str() == EMPTY_QUEUE);
    Ok(())
}

/// A pipeline of the project 1 that a request made at 1000.
fn pending_pipeline(alloc: Global) -> Result<PipelineWithStatus, Fail> {
    Ok(PipelineWithStatus {
        pipeline: Pipeline {
            id: 1,
            project: 1,
            git_ref: Text::copy_of(alloc, "main")?,
            kind: RefKind::Branch,
            source: Source::Api,
            created: at(1000)?,
        },
        status: Status::Pending,
    })
}

fn job_row(
    alloc: Global,
    job: u64,
    status: Status,
    tries: u64,
    name: &str,
) -> Result<JobRow, Fail> {
    Ok(JobRow {
        job,
        status: ShownStatus::Plain(status),
        tries,
        name: Text::copy_of(alloc, name)?,
    })
}

const PIPELINE: &str =
    "pipeline 1 project 1 ref main source api status pending created 1970-01-01 00:16:40
     JOB STATUS               TRIES NAME
       1 pending                  0 slow
       2 created                  0 pack
       3 pending                  0 lint
";

const WIDE_PIPELINE: &str =
    "pipeline 1 project 1 ref main source api status pending created 1970-01-01 00:16:40
     JOB STATUS               TRIES NAME
9007199254740991 canceled             100000 slow
";

#[test]
fn a_pipeline_is_told(rt: HostRuntime) -> Result<(), Fail> {
    let alloc = rt.alloc();
    let mut jobs = Vec::new(alloc);
    jobs.push(job_row(alloc, 1, Status::Pending, 0, "slow")?)?;
    jobs.push(job_row(alloc, 2, Status::Created, 0, "pack")?)?;
    jobs.push(job_row(alloc, 3, Status::Pending, 0, "lint")?)?;
    let head = pending_pipeline(alloc)?;
    let text = pipeline_report(alloc, &PipelineRows { head, jobs })?;
    assert!(rt; text.as_str() == PIPELINE);
    let mut jobs = Vec::new(alloc);
    jobs.push(job_row(alloc, MAX_NUMBER, Status::Canceled, 100_000, "slow")?)?;
    let head = pending_pipeline(alloc)?;
    let text = pipeline_report(alloc, &PipelineRows { head, jobs })?;
    assert!(rt; text.as_str() == WIDE_PIPELINE);
    Ok(())
}

const RUNNERS: &str = "  RUNNER PAUSED LIVE LAST GRANT          NAME
       1 no        2 1970-01-01 00:16:40 r
       2 yes       0 -                   s
";

const NO_RUNNERS: &str = "  RUNNER PAUSED LIVE LAST GRANT          NAME
";

#[test]
fn runners_are_told(rt: HostRuntime) -> Result<(), Fail> {
    let first = RunnerRow {
        runner: 1,
        paused: false,
        live: 2,
        last_grant: Some(at(1000)?),
        name: Text::copy_of(rt.alloc(), "r")?,
    };
    let second = RunnerRow {
        runner: 2,
        paused: true,
        live: 0,
        last_grant: None,
        name: Text::copy_of(rt.alloc(), "s")?,
    };
    let text = runner_report(rt.alloc(), &[first, second])?;
    assert!(rt; text.as_str() == RUNNERS);
    let text = runner_report(rt.alloc(), &[])?;
    assert!(rt; text.as_str() == NO_RUNNERS);
    Ok(())
}

const QUEUE_JSON: &str =
    r#"[{"id":1,"name":"the \"slow\" one","project":1,"status":"pending"},{"id":3,"name":"lint","project":1,"status":"waiting_for_resource"}]
"#;

const PIPELINE_JSON: &str =
    r#"[{"created":"1970-01-01T00:16:40Z","id":1,"jobs":[{"id":2,"name":"pack","status":"created","tries":3}],"project":1,"ref":"main","source":"api","status":"pending"}]
"#;

const RUNNERS_JSON: &str =
    r#"[{"id":1,"last_grant":"1970-01-01T00:16:40Z","live":2,"name":"r","paused":false},{"id":2,"last_grant":null,"live":0,"name":"s","paused":true}]
"#;

#[test]
fn reports_are_told_as_json(rt: HostRuntime) -> Result<(), Fail> {
    let alloc = rt.alloc();
    let first = pending_job(alloc, 1, "the \"slow\" one")?;
    let mut second = pending_job(alloc, 3, "lint")?;
    second.status = ShownStatus::WaitsForResource;
    let text = queue_json(alloc, &[first, second])?;
    assert!(rt; text.as_str() == QUEUE_JSON);
    let text = queue_json(alloc, &[])?;
    assert!(rt; text.as_str() == "[]\n");
    let mut jobs = Vec::new(alloc);
    jobs.push(job_row(alloc, 2, Status::Created, 3, "pack")?)?;
    let head = pending_pipeline(alloc)?;
    let text = pipeline_json(alloc, &PipelineRows { head, jobs })?;
    assert!(rt; text.as_str() == PIPELINE_JSON);
    let first = RunnerRow {
        runner: 1,
        paused: false,
        live: 2,
        last_grant: Some(at(1000)?),
        name: Text::copy_of(alloc, "r")?,
    };
    let second = RunnerRow {
        runner: 2,
        paused: true,
        live: 0,
        last_grant: None,
        name: Text::copy_of(alloc, "s")?,
    };
    let text = runner_json(alloc, &[first, second])?;
    assert!(rt; text.as_str() == RUNNERS_JSON);
    Ok(())
}
