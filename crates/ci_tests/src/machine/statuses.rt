//! Each public call, with what it answers worked out by hand.

use crate::machine::records::{are_same, attempt, is_same, job, need, part, row, system_failure};
use ci_board::facts::Status::{Created, Failed, Manual, Pending, Running, Skipped, Success};
use ci_graph::part::Part;
use ci_machine::records::{Attempt, AttemptState, BoardRow, Cause, Holder, Job, Need};
use ci_machine::text::Text;
use ci_machine_statuses::creation::rows_of_creation;
use ci_machine_statuses::end::{Ended, end_of};
use ci_machine_statuses::fault::StatusFault;
use ci_machine_statuses::groups::claims_of;
use ci_machine_statuses::load::{graph_for, range_of};
use ci_machine_statuses::pending::{started, status_of};
use ci_values::when::When;
use std::alloc::Global;
use std::process::Abort;
use std::test::Fail;

// The jobs 1, 3 and 4 of a pipeline; 2 is another's. The first may be tried again once.
fn three_jobs(alloc: Global, set_aside: u64) -> Result<Vec<Job>, Fail> {
    let mut jobs = Vec::new(alloc);
    jobs.push(job(alloc, 1, part(When::OnSuccess, 1), set_aside)?)?;
    jobs.push(job(alloc, 3, part(When::OnSuccess, 0), 0)?)?;
    jobs.push(job(alloc, 4, part(When::OnFailure, 0), 0)?)?;
    Ok(jobs)
}

// 3 waits for 1, and 4 for both; 2 waits for a job of its own pipeline.
fn their_needs() -> [Need; 4] {
    [need(2, 1), need(3, 1), need(4, 1), need(4, 3)]
}

// While 1 runs.
fn their_rows() -> [BoardRow; 4] {
    [
        row(1, Running, 0, 0, 0),
        row(2, Created, 1, 0, 0),
        row(3, Created, 1, 0, 0),
        row(4, Created, 2, 0, 0),
    ]
}

// So many attempts of the job 1, of which the last is live, and after the first of them one of the job 2.
fn attempts_of_first(alloc: Global, count: u64) -> Result<Vec<Attempt>, Fail> {
    let mut attempts = Vec::new(alloc);
    for n in 1..count {
        attempts.push(attempt(alloc, n, 1, system_failure())?)?;
    }
    attempts.push(attempt(alloc, 8, 2, AttemptState::Live)?)?;
    attempts.push(attempt(alloc, 9, 1, AttemptState::Live)?)?;
    Ok(attempts)
}

// What becomes of jobs with these needs, by a graph that is made of them.
fn end_with(
    alloc: Global,
    jobs: &[Job],
    needs: &[Need],
    attempts: &[Attempt],
    rows: &[BoardRow],
    after: &Attempt,
) -> Result<Ended, StatusFault> {
    let graph = graph_for(alloc, jobs, needs)?;
    end_of(alloc, graph, jobs, attempts, rows, after)
}

// The end of the attempt 9 of the job 1, which is its last of so many, puts these rows.
fn ends(
    rt: &impl Abort,
    alloc: Global,
    state: AttemptState,
    attempts: u64,
    set_aside: u64,
    wanted: &[BoardRow],
) -> Result<(), Fail> {
    let jobs = three_jobs(alloc, set_aside)?;
    let attempts = attempts_of_first(alloc, attempts)?;
    let after = attempt(alloc, 9, 1, state)?;
    let ended = end_with(
        alloc,
        jobs.as_slice(),
        their_needs().as_slice(),
        attempts.as_slice(),
        their_rows().as_slice(),
        &after,
    );
    assert!(rt; matches!(&ended, Ok(ended) if are_same(ended.settled.changed.as_slice(), wanted)));
    Ok(())
}

#[test]
fn a_success_opens_the_next(rt: HostRuntime) -> Result<(), Fail> {
    let wanted = [
        row(1, Success, 0, 0, 0),
        row(3, Pending, 0, 0, 0),
        row(4, Created, 1, 0, 0),
    ];
    let state = AttemptState::Succeeded(Some(0));
    ends(&rt, rt.alloc(), state, 1, 0, wanted.as_slice())
}

#[test]
fn a_failure_skips_and_calls(rt: HostRuntime) -> Result<(), Fail> {
    // 3 is skipped, which is good for 4, and 4 runs since 1 has failed
    let wanted = [
        row(1, Failed, 0, 0, 0),
        row(3, Skipped, 0, 1, 0),
        row(4, Pending, 0, 1, 0),
    ];
    let state = AttemptState::Failed(Cause::ScriptFailure, None);
    ends(&rt, rt.alloc(), state, 1, 0, wanted.as_slice())
}

#[test]
fn it_is_tried_again_once(rt: HostRuntime) -> Result<(), Fail> {
    let again = [row(1, Pending, 0, 0, 0)];
    let failed = [
        row(1, Failed, 0, 0, 0),
        row(3, Skipped, 0, 1, 0),
        row(4, Pending, 0, 1, 0),
    ];
    let alloc = rt.alloc();
    ends(&rt, alloc, system_failure(), 1, 0, again.as_slice())?;
    ends(&rt, alloc, system_failure(), 2, 0, failed.as_slice())?;
    ends(&rt, alloc, system_failure(), 2, 1, again.as_slice())?;
    ends(&rt, alloc, system_failure(), 3, 1, failed.as_slice())
}

#[test]
fn kept_counts_are_taken_as_they_are(rt: HostRuntime) -> Result<(), Fail> {
    // 3 is said to wait for two: a board built anew would say pending
    let alloc = rt.alloc();
    let jobs = three_jobs(alloc, 0)?;
    let attempts = attempts_of_first(alloc, 1)?;
    let after = attempt(alloc, 9, 1, AttemptState::Succeeded(None))?;
    let kept = [
        row(1, Running, 0, 0, 0),
        row(3, Created, 2, 0, 0),
        row(4, Created, 2, 0, 0),
    ];
    let wanted = [
        row(1, Success, 0, 0, 0),
        row(3, Created, 1, 0, 0),
        row(4, Created, 1, 0, 0),
    ];
    let ended = end_with(
        alloc,
        jobs.as_slice(),
        their_needs().as_slice(),
        attempts.as_slice(),
        kept.as_slice(),
        &after,
    );
    assert!(rt;
        matches!(&ended, Ok(ended) if are_same(ended.settled.changed.as_slice(), wanted.as_slice()))
    );
    Ok(())
}

// What is looked up doesn't fit together.
fn is_broken(
    rt: &impl Abort,
    alloc: Global,
    set_aside: u64,
    needs: &[Need],
    rows: &[BoardRow],
    ended: u64,
) -> Result<(), Fail> {
    let jobs = three_jobs(alloc, set_aside)?;
    let attempts = attempts_of_first(alloc, 1)?;
    let after = attempt(alloc, 9, ended, AttemptState::Succeeded(None))?;
    let found = end_with(
        alloc,
        jobs.as_slice(),
        needs,
        attempts.as_slice(),
        rows,
        &after,
    );
    assert!(rt; matches!(found, Err(StatusFault::Broken)));
    Ok(())
}

#[test]
fn what_does_not_fit_is_broken(rt: HostRuntime) -> Result<(), Fail> {
    let alloc = rt.alloc();
    let needs = their_needs();
    let rows = their_rows();
    // more are set aside than there are
    is_broken(&rt, alloc, 2, needs.as_slice(), rows.as_slice(), 1)?;
    // 3 waits for a job that is none of its pipeline's
    let foreign = [need(3, 2)];
    is_broken(&rt, alloc, 0, foreign.as_slice(), rows.as_slice(), 1)?;
    // 1 waits for itself by way of 3
    let circle = [need(1, 3), need(3, 1)];
    is_broken(&rt, alloc, 0, circle.as_slice(), rows.as_slice(), 1)?;
    // 4 has no row
    is_broken(&rt, alloc, 0, needs.as_slice(), &rows[..3], 1)?;
    // the attempt's job is none of them
    is_broken(&rt, alloc, 0, needs.as_slice(), rows.as_slice(), 2)
}

#[test]
fn a_graph_serves_the_next_end(rt: HostRuntime) -> Result<(), Fail> {
    let alloc = rt.alloc();
    let jobs = three_jobs(alloc, 0)?;
    let attempts = attempts_of_first(alloc, 1)?;
    let after = attempt(alloc, 9, 1, AttemptState::Succeeded(Some(0)))?;
    let first = end_with(
        alloc,
        jobs.as_slice(),
        their_needs().as_slice(),
        attempts.as_slice(),
        their_rows().as_slice(),
        &after,
    )?;
    // one runs, and then 3 is pending behind an attempt of its pipeline
    assert!(rt; first.before == Running && first.then == Running);
    // the job 3 has an attempt then, and its end opens nothing: 4 runs after a failure alone
    let mut attempts = Vec::new(alloc);
    attempts.push(attempt(alloc, 9, 1, AttemptState::Succeeded(Some(0)))?)?;
    attempts.push(attempt(alloc, 10, 3, AttemptState::Live)?)?;
    let after = attempt(alloc, 10, 3, AttemptState::Succeeded(Some(0)))?;
    let rows = [
        row(1, Success, 0, 0, 0),
        row(3, Running, 0, 0, 0),
        row(4, Created, 1, 0, 0),
    ];
    let wanted = [row(3, Success, 0, 0, 0), row(4, Skipped, 0, 0, 0)];
    let second = end_of(
        alloc,
        first.graph,
        jobs.as_slice(),
        attempts.as_slice(),
        rows.as_slice(),
        &after,
    )?;
    assert!(rt; are_same(second.settled.changed.as_slice(), wanted.as_slice()));
    assert!(rt; second.before == Running && second.then == Success);
    // a graph of three jobs is none of one
    let mut one = Vec::new(alloc);
    one.push(job(alloc, 3, Part::plain(), 0)?)?;
    let found = end_of(
        alloc,
        second.graph,
        one.as_slice(),
        attempts.as_slice(),
        rows.as_slice(),
        &after,
    );
    assert!(rt; matches!(found, Err(StatusFault::Broken)));
    Ok(())
}

#[test]
fn a_new_pipeline_has_its_rows(rt: HostRuntime) -> Result<(), Fail> {
    let alloc = rt.alloc();
    let mut jobs = Vec::new(alloc);
    jobs.push(job(alloc, 5, Part::plain(), 0)?)?;
    jobs.push(job(alloc, 6, part(When::Manual, 0), 0)?)?;
    jobs.push(job(alloc, 7, Part::plain(), 0)?)?;
    let needs = [need(7, 5), need(7, 6)];
    let wanted = [
        row(5, Pending, 0, 0, 0),
        row(6, Manual, 0, 0, 0),
        row(7, Created, 2, 0, 0),
    ];
    let rows = rows_of_creation(alloc, jobs.as_slice(), needs.as_slice());
    assert!(rt; matches!(&rows, Ok(rows) if are_same(rows.as_slice(), wanted.as_slice())));
    let circle = [need(5, 7), need(7, 5)];
    let none = rows_of_creation(alloc, jobs.as_slice(), circle.as_slice());
    assert!(rt; matches!(none, Err(StatusFault::Broken)));
    Ok(())
}

#[test]
fn a_range_is_from_first_to_last(rt: HostRuntime) -> Result<(), Fail> {
    let alloc = rt.alloc();
    let jobs = three_jobs(alloc, 0)?;
    assert!(rt; range_of(jobs.as_slice()) == Some((1, 4)));
    let mut one = Vec::new(alloc);
    assert!(rt; range_of(one.as_slice()) == None);
    one.push(job(alloc, 3, Part::plain(), 0)?)?;
    assert!(rt; range_of(one.as_slice()) == Some((3, 3)));
    Ok(())
}

#[test]
fn one_row_shows_and_starts_a_job(rt: HostRuntime) -> Result<(), Fail> {
    let pending = row(3, Pending, 0, 1, 0);
    assert!(rt; status_of(Some(pending)) == Pending);
    assert!(rt; status_of(None) == Created);
    assert!(rt; is_same(started(pending), row(3, Running, 0, 1, 0)));
    Ok(())
}

// The attempt holds this group of a project.
fn holder(alloc: Global, project: u64, group: &str, attempt: u64) -> Result<Holder, Fail> {
    Ok(Holder {
        project,
        group: Text::copy_of(alloc, group)?,
        attempt,
    })
}

#[test]
fn who_holds_a_group_claims_it(rt: HostRuntime) -> Result<(), Fail> {
    let alloc = rt.alloc();
    let holders = [
        holder(alloc, 2, "disk", 7)?,
        holder(alloc, 1, "production", 9)?,
    ];
    let claims = claims_of(alloc, &holders)?;
    assert!(rt; claims.len() == 2);
    assert!(rt; claims[0].project == 2 && claims[0].group.as_str() == "disk");
    assert!(rt; claims[1].project == 1 && claims[1].group.as_str() == "production");
    Ok(())
}
