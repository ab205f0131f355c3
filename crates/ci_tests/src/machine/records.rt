//! Records and rows, by what statuses depend on.

use ci_board::facts::{Row, Status};
use ci_graph::part::Part;
use ci_machine::moment::Moment;
use ci_machine::records::{Attempt, AttemptState, BoardRow, Cause, Job, JobOptions, Need};
use ci_machine::text::{Text, Texts};
use ci_values::when::{Causes, Retry, When};
use std::alloc::{AllocError, Global};
use std::test::Fail;

/// A part of a job that is tried again so many times after a system failure.
pub fn part(when: When, retries: u8) -> Part {
    let plain = Part::plain();
    let causes = Causes {
        runner_system_failure: true,
        unknown_failure: false,
        script_failure: false,
        api_failure: false,
        stuck_or_timeout_failure: false,
        job_execution_timeout: false,
    };
    Part {
        when,
        allow_failure: plain.allow_failure,
        retry: Retry {
            max: retries,
            causes,
        },
        gives_needs: false,
    }
}

/// A job of the pipeline 1, of which so many attempts are set aside.
pub fn job(alloc: Global, id: u64, part: Part, set_aside: u64) -> Result<Job, AllocError> {
    let plain = JobOptions::plain(alloc, Texts::new(Vec::new(alloc)));
    Ok(Job {
        id,
        pipeline: 1,
        position: 0,
        name: Text::copy_of(alloc, "job")?,
        stage: Text::copy_of(alloc, "test")?,
        options: JobOptions { part, ..plain },
        played: false,
        cancelled: false,
        set_aside,
    })
}

/// An attempt at a job.
pub fn attempt(alloc: Global, id: u64, job: u64, state: AttemptState) -> Result<Attempt, Fail> {
    let moment = Moment::new(1000).ok_or("moment")?;
    Ok(Attempt {
        id,
        job,
        runner: 1,
        token: Text::copy_of(alloc, "j1")?,
        granted: moment,
        seen: moment,
        state,
    })
}

/// The job waits for another.
pub fn need(job: u64, pred: u64) -> Need {
    Need { job, pred }
}

/// A row with its numbers of open, failed and barring predecessors.
pub fn row(job: u64, status: Status, opens: usize, failed: usize, barred: usize) -> BoardRow {
    BoardRow {
        job,
        row: Row {
            status,
            opens,
            failed,
            barred,
        },
    }
}

/// Are both the same?
pub fn is_same(a: BoardRow, b: BoardRow) -> bool {
    a.job == b.job
        && a.row.status == b.row.status
        && a.row.opens == b.row.opens
        && a.row.failed == b.row.failed
        && a.row.barred == b.row.barred
}

/// Are these the rows?
pub fn are_same(rows: &[BoardRow], wanted: &[BoardRow]) -> bool {
    rows.len() == wanted.len() && rows.iter().zip(wanted).all(|(a, b)| is_same(*a, *b))
}

/// A failure of the runner's system.
pub fn system_failure() -> AttemptState {
    AttemptState::Failed(Cause::RunnerSystemFailure, None)
}
