//! What becomes of a pipeline's jobs where a user acts on them, worked out by hand.

use crate::machine::records::{are_same, attempt, job, need, part, row};
use ci_board::facts::Facts;
use ci_board::facts::Status::{Canceled, Created, Failed, Manual, Pending, Running, Skipped};
use ci_machine::records::{Attempt, AttemptState, BoardRow, Cause, Job, Need};
use ci_machine_statuses::act::Act;
use ci_machine_statuses::outcome::{Outcome, outcome_of};
use ci_values::when::When;
use std::alloc::Global;
use std::process::Abort;
use std::test::Fail;

/// How the first job of the pipeline stands before the act.
#[derive(Clone, Copy)]
enum Before {
    Running,
    FailedByScript,
    Manual,
}

// The jobs 1, 3 and 4 of a pipeline, of which 4 runs after a failure alone.
fn jobs(alloc: Global, before: Before) -> Result<Vec<Job>, Fail> {
    let first = match before {
        Before::Manual => When::Manual,
        Before::Running | Before::FailedByScript => When::OnSuccess,
    };
    let mut jobs = Vec::new(alloc);
    jobs.push(job(alloc, 1, part(first, 0), 0)?)?;
    jobs.push(job(alloc, 3, part(When::OnSuccess, 0), 0)?)?;
    jobs.push(job(alloc, 4, part(When::OnFailure, 0), 0)?)?;
    Ok(jobs)
}

// 3 waits for 1, and 4 for both.
fn needs() -> [Need; 3] {
    [need(3, 1), need(4, 1), need(4, 3)]
}

// An attempt of another pipeline's job, and that of 1.
fn attempts(alloc: Global, before: Before) -> Result<Vec<Attempt>, Fail> {
    let mut attempts = Vec::new(alloc);
    attempts.push(attempt(alloc, 8, 2, AttemptState::Live)?)?;
    match before {
        Before::Running => attempts.push(attempt(alloc, 9, 1, AttemptState::Live)?)?,
        Before::FailedByScript => {
            let state = AttemptState::Failed(Cause::ScriptFailure, None);
            attempts.push(attempt(alloc, 9, 1, state)?)?;
        }
        Before::Manual => {}
    }
    Ok(attempts)
}

fn rows(before: Before) -> [BoardRow; 3] {
    match before {
        Before::Running => [
            row(1, Running, 0, 0, 0),
            row(3, Created, 1, 0, 0),
            row(4, Created, 2, 0, 0),
        ],
        Before::FailedByScript => [
            row(1, Failed, 0, 0, 0),
            row(3, Skipped, 0, 1, 0),
            row(4, Pending, 0, 1, 0),
        ],
        Before::Manual => [
            row(1, Manual, 0, 0, 0),
            row(3, Created, 1, 0, 0),
            row(4, Created, 2, 0, 0),
        ],
    }
}

// The act on one job, or on all, is done at these places, and puts these rows.
fn done(
    rt: &impl Abort,
    alloc: Global,
    before: Before,
    act: Act,
    only: Option<u64>,
    places: &[usize],
    changed: &[BoardRow],
) -> Result<Outcome, Fail> {
    let jobs = jobs(alloc, before)?;
    let attempts = attempts(alloc, before)?;
    let outcome = outcome_of(
        alloc,
        jobs.as_slice(),
        needs().as_slice(),
        attempts.as_slice(),
        rows(before).as_slice(),
        act,
        only,
    );
    let Ok(outcome) = outcome else {
        return Err("no outcome")?;
    };
    assert!(rt; outcome.places.as_slice() == places);
    assert!(rt; are_same(outcome.changed.as_slice(), changed));
    assert!(rt; outcome.facts.len() == 3 && outcome.rows.len() == 3);
    Ok(outcome)
}

fn is_so(facts: Option<&Facts>, attempts: u64, cancelled: bool, played: bool) -> bool {
    facts.is_some_and(|f| {
        f.attempts == attempts && f.cancelled == cancelled && f.played == played
    })
}

#[test]
fn all_jobs_are_cancelled_at_once(rt: HostRuntime) -> Result<(), Fail> {
    // each bars those that wait for it, but they are cancelled themselves
    let changed = [
        row(1, Canceled, 0, 0, 0),
        row(3, Canceled, 0, 0, 1),
        row(4, Canceled, 0, 0, 2),
    ];
    let outcome = done(
        &rt,
        rt.alloc(),
        Before::Running,
        Act::Cancel,
        None,
        [0, 1, 2].as_slice(),
        changed.as_slice(),
    )?;
    assert!(rt; is_so(outcome.facts.get(0), 1, true, false));
    assert!(rt; is_so(outcome.facts.get(2), 0, true, false));
    let first = outcome.facts.get(0).and_then(|facts| facts.last);
    assert!(rt; matches!(first, Some(AttemptState::Cancelled)));
    Ok(())
}

#[test]
fn one_job_is_cancelled(rt: HostRuntime) -> Result<(), Fail> {
    // 3 is barred and so skipped, which is good for 4; but nothing has failed, so 4 is skipped too
    let changed = [
        row(1, Canceled, 0, 0, 0),
        row(3, Skipped, 0, 0, 1),
        row(4, Skipped, 0, 0, 1),
    ];
    let outcome = done(
        &rt,
        rt.alloc(),
        Before::Running,
        Act::Cancel,
        Some(1),
        [0].as_slice(),
        changed.as_slice(),
    )?;
    assert!(rt; is_so(outcome.facts.get(0), 1, true, false));
    assert!(rt; is_so(outcome.facts.get(1), 0, false, false));
    Ok(())
}

#[test]
fn a_failed_job_is_tried_again(rt: HostRuntime) -> Result<(), Fail> {
    let changed = [
        row(1, Pending, 0, 0, 0),
        row(3, Created, 1, 0, 0),
        row(4, Created, 2, 0, 0),
    ];
    let outcome = done(
        &rt,
        rt.alloc(),
        Before::FailedByScript,
        Act::Retry,
        Some(1),
        [0].as_slice(),
        changed.as_slice(),
    )?;
    assert!(rt; is_so(outcome.facts.get(0), 0, false, false));
    Ok(())
}

#[test]
fn a_manual_job_is_played(rt: HostRuntime) -> Result<(), Fail> {
    let changed = [row(1, Pending, 0, 0, 0)];
    let outcome = done(
        &rt,
        rt.alloc(),
        Before::Manual,
        Act::Play,
        Some(1),
        [0].as_slice(),
        changed.as_slice(),
    )?;
    assert!(rt; is_so(outcome.facts.get(0), 0, false, true));
    Ok(())
}

#[test]
fn it_is_done_to_no_other_status(rt: HostRuntime) -> Result<(), Fail> {
    let alloc = rt.alloc();
    let (none, nothing): ([usize; 0], [BoardRow; 0]) = ([], []);
    let refused = [
        (Before::Running, Act::Play, 1),
        (Before::Running, Act::Retry, 3),
        (Before::FailedByScript, Act::Cancel, 1),
        (Before::FailedByScript, Act::Retry, 4),
        (Before::Manual, Act::Play, 3),
        // no job of this pipeline
        (Before::Running, Act::Cancel, 2),
    ];
    for (before, act, job) in refused.iter() {
        let (before, act, only) = (*before, *act, Some(*job));
        let (none, nothing) = (none.as_slice(), nothing.as_slice());
        let _ = done(&rt, alloc, before, act, only, none, nothing)?;
    }
    Ok(())
}
