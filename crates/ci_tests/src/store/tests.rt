//! What is committed is loaded back: each test is a list of steps over tables that have a record of each kind.

use crate::disks::discard;
use crate::store::plain::{Load, close, filled, is_committed, is_made, let_go, reopened, shown};
use crate::store::records::{Change, Gone, Made, Work, row_of};
use ci_board::facts::Status;
use ci_machine::change::Counter;
use ci_machine::records::{AttemptState, GroupOrder, RefKind};
use ci_store_sqlite::Alter;
use ci_store_sqlite::tables::Tables;
use std::alloc::Global;
use std::process::Abort;
use std::test::Fail;

/// A step of a test.
#[derive(Drop)]
enum Step {
    /// The changes are made in one commit.
    Makes(&'static [Change]),
    /// They are refused, all of them.
    Refuses(&'static [Change]),
    /// A load answers this, or nothing where the text is empty.
    Shows(Load, &'static str),
    /// A load answers records with these numbers.
    Finds(Load, &'static [u64]),
}

fn takes<S: Alter>(
    rt: &impl Abort,
    alloc: Global,
    tables: &mut Tables<S>,
    at: usize,
    step: &Step,
) -> Result<(), Fail> {
    match step {
        Step::Makes(changes) => assert!(rt; is_made(alloc, tables, changes)?, "step {at}"),
        Step::Refuses(changes) => assert!(rt; !is_made(alloc, tables, changes)?, "step {at}"),
        Step::Shows(load, want) => {
            let found = shown(alloc, tables, *load)?;
            assert_eq!(rt; found.text.as_str(), *want, "step {at}");
        }
        Step::Finds(load, want) => {
            let found = shown(alloc, tables, *load)?;
            assert_eq!(rt; found.numbers.as_slice(), *want, "step {at}");
        }
    }
    Ok(())
}

fn takes_all<S: Alter>(
    rt: &impl Abort,
    alloc: Global,
    tables: &mut Tables<S>,
    steps: &[Step],
) -> Result<(), Fail> {
    for (at, step) in steps.iter().enumerate() {
        takes(rt, alloc, tables, at, step)?;
    }
    Ok(())
}

/// Takes the first steps, opens the tables again, and takes the others.
fn tells(rt: &impl Abort, alloc: Global, first: &[Step], then: &[Step]) -> Result<(), Fail> {
    let mut tables = filled(alloc)?;
    takes_all(rt, alloc, &mut tables, first)?;
    let mut tables = reopened(tables)?;
    takes_all(rt, alloc, &mut tables, then)?;
    let_go(tables);
    Ok(())
}

// ---- records

const RECORDS: &[Step] = &[
    Step::Shows(Load::Project(1), "1 one p1 -"),
    Step::Shows(Load::ProjectWith("p1"), "1 one p1 -"),
    Step::Shows(Load::VariablesOf(1), "1 LEVEL=0"),
    Step::Shows(
        Load::RunnerWith("r1"),
        "1 runner r1 Some(1) [gpu, a \"quoted\" tag] true false",
    ),
    Step::Shows(
        Load::Runner(1),
        "1 runner r1 Some(1) [gpu, a \"quoted\" tag] true false",
    ),
    Step::Shows(Load::Runner(2), ""),
    Step::Shows(Load::Pipeline(1), "1 1 main tag schedule 60"),
    Step::Shows(
        Load::Job(2),
        "2 1 0 build test [make, make check] 3600 s [gpu] prod true always failure [1, 137] retry 2 010001 needs true true false 2",
    ),
    Step::Shows(Load::Demand(2), "2 1 [gpu] prod"),
    Step::Shows(Load::Demand(3), ""),
    Step::Shows(Load::JobVariables(1), "1 CI=1; 1 KEY=1"),
    Step::Shows(
        Load::AttemptsOf(1),
        "1 1 1 j1 100 130 script_failure Some(2)",
    ),
    Step::Finds(Load::JobsOf(1), &[1, 2]),
    Step::Shows(Load::Next(Counter::Job), "3"),
    Step::Shows(Load::Attempt(1), "1 1 1 j1 100 130 script_failure Some(2)"),
    Step::Shows(Load::Mode(1, "prod"), "1 prod oldest_first"),
    Step::Shows(Load::Modes, "1 prod oldest_first"),
];

#[test]
fn each_kind_of_record_is_loaded_back(rt: HostRuntime) -> Result<(), Fail> {
    tells(&rt, rt.alloc(), &[], RECORDS)
}

const NAMED_BY_OTHERS: &[Step] = &[
    Step::Refuses(&[Change::Remove(Gone::Project(1))]),
    Step::Refuses(&[Change::Remove(Gone::Pipeline(1))]),
    Step::Refuses(&[Change::Remove(Gone::Job(1))]),
    Step::Makes(&[Change::Remove(Gone::Job(2))]),
    Step::Makes(&[Change::Remove(Gone::JobVariable(1, "CI"))]),
];

#[test]
fn a_row_that_others_name_is_not_removed(rt: HostRuntime) -> Result<(), Fail> {
    tells(&rt, rt.alloc(), NAMED_BY_OTHERS, &[])
}

/// The first number over the greatest integer of SQL.
const OVER: u64 = 9_223_372_036_854_775_808;

const OVER_THE_GREATEST: &[Step] = &[
    Step::Shows(Load::Project(OVER), ""),
    Step::Shows(Load::Pipeline(OVER), ""),
    Step::Shows(Load::Job(OVER), ""),
    Step::Shows(Load::Attempt(OVER), ""),
    Step::Shows(Load::Demand(OVER), ""),
    Step::Shows(Load::Runner(OVER), ""),
    Step::Shows(Load::Project(u64::MAX), ""),
    Step::Shows(Load::Pipeline(u64::MAX), ""),
    Step::Shows(Load::Job(u64::MAX), ""),
    Step::Shows(Load::Attempt(u64::MAX), ""),
    Step::Shows(Load::Demand(u64::MAX), ""),
    Step::Shows(Load::Runner(u64::MAX), ""),
];

#[test]
fn a_number_over_the_greatest_integer_of_sql_is_no_rows(rt: HostRuntime) -> Result<(), Fail> {
    tells(&rt, rt.alloc(), OVER_THE_GREATEST, &[])
}

// ---- variables of projects

/// Three of project 1, not in the order of their keys, and one of project 2. One is put in the place of another.
const FOUR_VARIABLES: &[Change] = &[
    Change::Put(Made::Project(2, "two", "p2")),
    Change::Put(Made::Variable(1, "a", "1")),
    Change::Put(Made::Variable(1, "_", "2")),
    Change::Put(Made::Variable(2, "a", "3")),
    Change::Put(Made::Variable(1, "Z", "4")),
    Change::Put(Made::Variable(1, "_", "5")),
];

/// By the bytes of their keys; and those keys are missing that are of another case, of another project or of none.
const VARIABLES: &[Step] = &[
    Step::Shows(Load::VariablesOf(1), "1 LEVEL=0; 1 Z=4; 1 _=5; 1 a=1"),
    Step::Shows(Load::VariablesOf(2), "2 a=3"),
    Step::Shows(Load::VariablesOf(3), ""),
    Step::Shows(Load::Variable(1, "_"), "1 _=5"),
    Step::Shows(Load::Variable(1, "a"), "1 a=1"),
    Step::Shows(Load::Variable(2, "a"), "2 a=3"),
    Step::Shows(Load::Variable(1, "A"), ""),
    Step::Shows(Load::Variable(1, "z"), ""),
    Step::Shows(Load::Variable(2, "_"), ""),
    Step::Shows(Load::Variable(2, "LEVEL"), ""),
    Step::Shows(Load::Variable(3, "a"), ""),
];

#[test]
fn variables_come_by_the_bytes_of_their_keys(rt: HostRuntime) -> Result<(), Fail> {
    tells(&rt, rt.alloc(), &[Step::Makes(FOUR_VARIABLES)], VARIABLES)
}

/// Project 2 stays as long as it has a variable, and that of project 1 with the same key goes alone.
const VARIABLES_GO: &[Step] = &[
    Step::Refuses(&[Change::Remove(Gone::Project(2))]),
    Step::Makes(&[Change::Remove(Gone::Variable(1, "a"))]),
    Step::Refuses(&[Change::Remove(Gone::Project(2))]),
    Step::Makes(&[Change::Remove(Gone::Variable(2, "a"))]),
    Step::Makes(&[Change::Remove(Gone::Project(2))]),
    Step::Shows(Load::VariablesOf(1), "1 LEVEL=0; 1 Z=4; 1 _=5"),
    Step::Shows(Load::Project(2), ""),
];

#[test]
fn a_project_with_a_variable_is_not_removed(rt: HostRuntime) -> Result<(), Fail> {
    tells(
        &rt,
        rt.alloc(),
        &[Step::Makes(FOUR_VARIABLES)],
        VARIABLES_GO,
    )
}

// ---- process modes

/// Two more of project 1 and one of project 2, not in the order of their keys.
const FOUR_MODES: &[Change] = &[
    Change::Put(Made::Project(2, "two", "p2")),
    Change::Put(Made::Mode(2, "prod", GroupOrder::NewestReadyFirst)),
    Change::Put(Made::Mode(1, "test", GroupOrder::NewestReadyFirst)),
    Change::Put(Made::Mode(1, "Prod", GroupOrder::OldestFirst)),
];

/// By the project and then by the bytes of the group; and those groups have none that are of another case, of another project or of none.
const MODES: &[Step] = &[
    Step::Shows(
        Load::Modes,
        "1 Prod oldest_first; 1 prod oldest_first; 1 test newest_ready_first; 2 prod newest_ready_first",
    ),
    Step::Shows(Load::Mode(1, "prod"), "1 prod oldest_first"),
    Step::Shows(Load::Mode(1, "test"), "1 test newest_ready_first"),
    Step::Shows(Load::Mode(2, "prod"), "2 prod newest_ready_first"),
    Step::Shows(Load::Mode(1, "Test"), ""),
    Step::Shows(Load::Mode(1, "pro"), ""),
    Step::Shows(Load::Mode(2, "test"), ""),
    Step::Shows(Load::Mode(2, "Prod"), ""),
    Step::Shows(Load::Mode(3, "prod"), ""),
];

#[test]
fn modes_come_by_project_and_group(rt: HostRuntime) -> Result<(), Fail> {
    tells(&rt, rt.alloc(), &[Step::Makes(FOUR_MODES)], MODES)
}

/// Each order is put in the place of the other, in two commits and in one. Two modes go, and then again, with some that were never there.
const MODES_CHANGE: &[Step] = &[
    Step::Makes(FOUR_MODES),
    Step::Makes(&[
        Change::Put(Made::Mode(1, "prod", GroupOrder::NewestReadyFirst)),
        Change::Put(Made::Mode(1, "test", GroupOrder::OldestFirst)),
        Change::Put(Made::Mode(1, "late", GroupOrder::OldestFirst)),
        Change::Put(Made::Mode(1, "late", GroupOrder::NewestReadyFirst)),
    ]),
    Step::Makes(&[
        Change::Remove(Gone::Mode(1, "Prod")),
        Change::Remove(Gone::Mode(2, "prod")),
    ]),
    Step::Shows(Load::Mode(1, "prod"), "1 prod newest_ready_first"),
    Step::Shows(Load::Mode(2, "prod"), ""),
    Step::Makes(&[
        Change::Remove(Gone::Mode(2, "prod")),
        Change::Remove(Gone::Mode(2, "test")),
        Change::Remove(Gone::Mode(1, "pro")),
        Change::Remove(Gone::Mode(3, "prod")),
    ]),
];

const MODES_THEN: &[Step] = &[
    Step::Shows(
        Load::Modes,
        "1 late newest_ready_first; 1 prod newest_ready_first; 1 test oldest_first",
    ),
    Step::Shows(Load::Mode(1, "Prod"), ""),
    Step::Shows(Load::Mode(1, "test"), "1 test oldest_first"),
    Step::Shows(Load::Mode(2, "prod"), ""),
];

#[test]
fn a_mode_is_put_in_the_place_of_another_and_removed(rt: HostRuntime) -> Result<(), Fail> {
    tells(&rt, rt.alloc(), MODES_CHANGE, MODES_THEN)
}

/// Project 2 stays as long as it has a mode; and a project that isn't there gets none.
const MODES_GO: &[Step] = &[
    Step::Refuses(&[Change::Remove(Gone::Project(2))]),
    Step::Makes(&[Change::Remove(Gone::Mode(1, "prod"))]),
    Step::Refuses(&[Change::Remove(Gone::Project(2))]),
    Step::Makes(&[Change::Remove(Gone::Mode(2, "prod"))]),
    Step::Makes(&[Change::Remove(Gone::Project(2))]),
    Step::Refuses(&[Change::Put(Made::Mode(2, "prod", GroupOrder::OldestFirst))]),
    Step::Shows(
        Load::Modes,
        "1 Prod oldest_first; 1 test newest_ready_first",
    ),
    Step::Shows(Load::Project(2), ""),
];

#[test]
fn a_project_with_a_mode_is_not_removed(rt: HostRuntime) -> Result<(), Fail> {
    tells(&rt, rt.alloc(), &[Step::Makes(FOUR_MODES)], MODES_GO)
}

// ---- traces

/// Bytes that fill four blocks, and some behind them.
const LONG_AND_SHORT: &[Change] = &[
    Change::AppendMany(65_530),
    Change::Append(b"wor\0ld"),
    Change::Append(b"!"),
];

const TRACES: &[Step] = &[
    Step::Shows(Load::TraceOf(1), "65530 wor\0ld!"),
    Step::Shows(Load::TraceSize(1), "65537"),
    Step::Shows(Load::TraceOf(2), "0 "),
    Step::Shows(Load::TraceSize(2), "0"),
    Step::Makes(&[Change::Append(b"")]),
    Step::Shows(Load::TraceSize(1), "65537"),
    Step::Refuses(&[Change::Remove(Gone::Attempt(1))]),
    Step::Makes(&[Change::Remove(Gone::Trace(1))]),
    Step::Shows(Load::TraceOf(1), "0 "),
    Step::Shows(Load::TraceSize(1), "0"),
    Step::Makes(&[Change::Append(b"one, "), Change::Append(b"two")]),
    Step::Shows(Load::TraceOf(1), "0 one, two"),
    Step::Makes(&[
        Change::Remove(Gone::Trace(1)),
        Change::Remove(Gone::Attempt(1)),
    ]),
];

#[test]
fn a_trace_grows_and_is_removed(rt: HostRuntime) -> Result<(), Fail> {
    tells(&rt, rt.alloc(), &[Step::Makes(LONG_AND_SHORT)], TRACES)
}

const TWO_LIVE: &[Change] = &[
    Change::Put(Made::Attempt(3, 1, AttemptState::Live)),
    Change::Put(Made::Attempt(2, 1, AttemptState::Live)),
];

const ONE_ENDS: &[Change] = &[Change::Put(Made::Attempt(2, 1, AttemptState::Succeeded(Some(0))))];

const LIVE: &[Step] = &[
    Step::Shows(Load::LiveAttempts, ""),
    Step::Makes(TWO_LIVE),
    Step::Shows(
        Load::LiveAttempts,
        "2 1 1 j1 100 130 live; 3 1 1 j1 100 130 live",
    ),
    Step::Makes(ONE_ENDS),
];

#[test]
fn an_attempt_that_has_ended_is_not_live(rt: HostRuntime) -> Result<(), Fail> {
    let then = [Step::Shows(Load::LiveAttempts, "3 1 1 j1 100 130 live")];
    tells(&rt, rt.alloc(), LIVE, &then)
}

// ---- rows of statuses

/// The jobs 3 to 50 of pipeline 1, and job 51 of pipeline 2.
fn push_jobs(alloc: Global, work: &mut Work) -> Result<(), Fail> {
    for id in 3u64..51 {
        work.push(alloc, &Change::Put(Made::Job(id, 1)))?;
    }
    work.push(
        alloc,
        &Change::Put(Made::Pipeline(2, 1, "main", RefKind::Tag)),
    )?;
    work.push(alloc, &Change::Put(Made::Job(51, 2)))
}

/// Each fifth job is created, and 40 are pending. The last row comes first.
fn push_rows(work: &mut Work) -> Result<(), Fail> {
    for before in 0u64..50 {
        let id = 50u64.saturating_sub(before);
        let status = if id % 5 == 0 {
            Status::Created
        } else {
            Status::Pending
        };
        work.rows.push(row_of(id, status))?;
    }
    Ok(())
}

const OF_FIFTY: &[Step] = &[
    Step::Finds(
        Load::RowsWith(Status::Pending),
        &[
            1, 2, 3, 4, 6, 7, 8, 9, 11, 12, 13, 14, 16, 17, 18, 19, 21, 22, 23, 24, 26, 27, 28, 29,
            31, 32, 33, 34, 36, 37, 38, 39, 41, 42, 43, 44, 46, 47, 48, 49,
        ],
    ),
    Step::Finds(
        Load::RowsWith(Status::Created),
        &[5, 10, 15, 20, 25, 30, 35, 40, 45, 50],
    ),
    Step::Shows(Load::RowsWith(Status::Manual), ""),
    Step::Shows(
        Load::RowsWithin(9, 11),
        "9 pending 2 1 3; 10 created 2 1 3; 11 pending 2 1 3",
    ),
    Step::Shows(Load::RowsWithin(50, 60), "50 created 2 1 3"),
    Step::Shows(Load::RowsWithin(0, 1), "1 pending 2 1 3"),
    Step::Shows(Load::RowsWithin(51, 51), ""),
    Step::Shows(Load::RowsWithin(11, 9), ""),
    Step::Finds(
        Load::JobsOf(1),
        &[
            1, 2, 3, 4, 5, 6, 7, 8, 9, 10, 11, 12, 13, 14, 15, 16, 17, 18, 19, 20, 21, 22, 23, 24,
            25, 26, 27, 28, 29, 30, 31, 32, 33, 34, 35, 36, 37, 38, 39, 40, 41, 42, 43, 44, 45, 46,
            47, 48, 49, 50,
        ],
    ),
    Step::Finds(Load::JobsOf(2), &[51]),
];

#[test]
fn rows_come_by_status_and_by_ranges_of_jobs(rt: HostRuntime) -> Result<(), Fail> {
    let alloc = rt.alloc();
    let mut fifty = Work::nothing(alloc);
    push_jobs(alloc, &mut fifty)?;
    push_rows(&mut fifty)?;
    let mut tables = filled(alloc)?;
    assert!(rt; is_committed(&mut tables, fifty));
    let mut tables = reopened(tables)?;
    takes_all(&rt, alloc, &mut tables, OF_FIFTY)?;
    let_go(tables);
    Ok(())
}

/// A row is put in the place of one, and then another twice.
const PUT_OVER: &[Step] = &[
    Step::Shows(Load::Row(1), "1 manual 2 1 3"),
    Step::Makes(&[
        Change::Row(1, Status::Running),
        Change::Row(2, Status::Pending),
        Change::Row(2, Status::Skipped),
    ]),
];

const OVER_ONE: &[Step] = &[
    Step::Shows(Load::Row(1), "1 running 2 1 3"),
    Step::Shows(Load::Row(2), "2 skipped 2 1 3"),
    Step::Finds(Load::RowsWithin(1, 2), &[1, 2]),
    Step::Shows(Load::Row(3), ""),
];

#[test]
fn a_row_is_put_in_the_place_of_one(rt: HostRuntime) -> Result<(), Fail> {
    tells(&rt, rt.alloc(), PUT_OVER, OVER_ONE)
}

// ---- new jobs

/// Where the next number of jobs is put, jobs from the one before on are new, with what names them, and others are put in their places.
const NEW_BESIDE_OLD: &[Step] = &[
    Step::Makes(&[
        Change::SetNext(Counter::Job, 4),
        Change::Put(Made::Job(3, 1)),
        Change::Put(Made::Job(2, 1)),
        Change::Put(Made::JobVariable("KEY")),
        Change::Put(Made::Need(3, 2)),
        Change::Put(Made::Need(2, 1)),
        Change::Row(3, Status::Created),
        Change::Row(1, Status::Running),
    ]),
    Step::Finds(Load::JobsOf(1), &[1, 2, 3]),
    Step::Makes(&[
        Change::SetNext(Counter::Job, 5),
        Change::Put(Made::Need(3, 2)),
        Change::Put(Made::Job(3, 1)),
        Change::Row(3, Status::Pending),
    ]),
];

const NEW_AND_OLD: &[Step] = &[
    Step::Shows(Load::Next(Counter::Job), "5"),
    Step::Finds(Load::JobsOf(1), &[1, 2, 3]),
    Step::Shows(Load::NeedsWithin(1, 9), "2 for 1; 3 for 2"),
    Step::Shows(Load::Row(1), "1 running 2 1 3"),
    Step::Shows(Load::Row(3), "3 pending 2 1 3"),
];

#[test]
fn new_jobs_are_put_beside_others(rt: HostRuntime) -> Result<(), Fail> {
    tells(&rt, rt.alloc(), NEW_BESIDE_OLD, NEW_AND_OLD)
}

// ---- pairs of graphs

/// The pairs (3, 1), (3, 2), (4, 3) and (5, 3), not in their order, and two attempts.
const FOUR_PAIRS: &[Change] = &[
    Change::Put(Made::Job(3, 1)),
    Change::Put(Made::Job(4, 1)),
    Change::Put(Made::Job(5, 1)),
    Change::Put(Made::Need(5, 3)),
    Change::Put(Made::Need(3, 2)),
    Change::Put(Made::Need(4, 3)),
    Change::Put(Made::Need(3, 1)),
    Change::Put(Made::Attempt(2, 4, AttemptState::Live)),
    Change::Put(Made::Attempt(3, 3, AttemptState::Live)),
];

const PAIRS: &[Step] = &[
    Step::Shows(Load::NeedsWithin(3, 4), "3 for 1; 3 for 2; 4 for 3"),
    Step::Shows(Load::NeedsWithin(4, 9), "4 for 3; 5 for 3"),
    Step::Shows(Load::NeedsWithin(1, 2), ""),
    Step::Finds(Load::AttemptsWithin(1, 3), &[1, 3]),
    Step::Finds(Load::AttemptsWithin(3, 4), &[2, 3]),
];

#[test]
fn pairs_and_attempts_are_found_by_the_range_of_their_jobs(rt: HostRuntime) -> Result<(), Fail> {
    tells(&rt, rt.alloc(), &[Step::Makes(FOUR_PAIRS)], PAIRS)
}

/// Job 5 waits for job 3, so neither goes before the pair; job 1 has a row, and stays.
const PAIRS_GO: &[Step] = &[
    Step::Makes(FOUR_PAIRS),
    Step::Refuses(&[Change::Remove(Gone::Job(3))]),
    Step::Refuses(&[Change::Remove(Gone::Job(5))]),
    Step::Makes(&[Change::Remove(Gone::Need(5, 3))]),
    Step::Makes(&[Change::Remove(Gone::Job(5))]),
    Step::Refuses(&[Change::Remove(Gone::Job(1))]),
];

#[test]
fn a_job_that_another_waits_for_is_not_removed(rt: HostRuntime) -> Result<(), Fail> {
    tells(&rt, rt.alloc(), PAIRS_GO, &[])
}

// ---- groups that are held

/// Another project, live attempts 2 and 3 of the jobs 1 and 2, and three groups that they hold, two of them of one name in two projects.
const THREE_HELD: &[Change] = &[
    Change::Put(Made::Project(2, "two", "p2")),
    Change::Put(Made::Attempt(2, 1, AttemptState::Live)),
    Change::Put(Made::Attempt(3, 2, AttemptState::Live)),
    Change::Hold(1, "prod", 2),
    Change::Hold(2, "prod", 3),
    Change::Hold(1, "test", 3),
];

const HELD: &[Step] = &[
    Step::Shows(Load::Holder(1, "prod"), "1 prod 2"),
    Step::Shows(Load::Holder(1, "test"), "1 test 3"),
    Step::Shows(Load::Holder(2, "prod"), "2 prod 3"),
    Step::Shows(Load::Holder(2, "test"), ""),
    Step::Shows(Load::Holder(1, "Prod"), ""),
    Step::Shows(Load::Holder(1, "pro"), ""),
    Step::Shows(Load::Holder(3, "prod"), ""),
    // a held group is not held again
    Step::Refuses(&[Change::Hold(1, "prod", 3)]),
    // attempt 2 holds a group, and so does attempt 3; attempt 1 holds none
    Step::Refuses(&[Change::Remove(Gone::Attempt(2))]),
    Step::Refuses(&[Change::Remove(Gone::Attempt(3))]),
    Step::Makes(&[Change::Remove(Gone::Attempt(1))]),
];

#[test]
fn groups_are_held(rt: HostRuntime) -> Result<(), Fail> {
    tells(&rt, rt.alloc(), &[Step::Makes(THREE_HELD)], HELD)
}

/// The group `prod` of project 1 is free, and one that wasn't held.
const TWO_FREE: &[Step] = &[
    Step::Makes(THREE_HELD),
    Step::Makes(&[Change::Free(1, "prod"), Change::Free(2, "test")]),
];

const HELD_THEN: &[Step] = &[
    Step::Shows(Load::Holder(1, "prod"), ""),
    Step::Shows(Load::Holder(1, "test"), "1 test 3"),
    Step::Shows(Load::Holder(2, "prod"), "2 prod 3"),
    Step::Shows(Load::Holder(2, "test"), ""),
    Step::Shows(Load::Holder(1, "Prod"), ""),
    Step::Shows(Load::Holder(1, "pro"), ""),
    Step::Shows(Load::Holder(3, "prod"), ""),
];

#[test]
fn groups_are_free(rt: HostRuntime) -> Result<(), Fail> {
    tells(&rt, rt.alloc(), TWO_FREE, HELD_THEN)
}

// ---- newer pipelines

/// Seven more pipelines.
const MANY_PIPELINES: &[Change] = &[
    Change::Put(Made::Project(2, "two", "p2")),
    Change::Put(Made::Pipeline(2, 1, "main", RefKind::Branch)),
    Change::Put(Made::Pipeline(3, 1, "next", RefKind::Tag)),
    Change::Put(Made::Pipeline(4, 2, "main", RefKind::Tag)),
    Change::Put(Made::Pipeline(5, 1, "main", RefKind::Tag)),
    Change::Put(Made::Pipeline(6, 1, "main", RefKind::Tag)),
    Change::Put(Made::Pipeline(7, 1, "Main", RefKind::Tag)),
    Change::Put(Made::Pipeline(8, 1, "main", RefKind::Branch)),
];

/// The first one is of a tag `main` too.
const NEWER: &[Step] = &[
    Step::Shows(Load::NewerThan(1), "5 1 main tag schedule 60"),
    Step::Shows(Load::NewerThan(2), "8 1 main branch schedule 60"),
    Step::Shows(Load::NewerThan(3), ""),
    Step::Shows(Load::NewerThan(4), ""),
    Step::Shows(Load::NewerThan(5), "6 1 main tag schedule 60"),
    Step::Shows(Load::NewerThan(6), ""),
    Step::Shows(Load::NewerThan(7), ""),
    Step::Shows(Load::NewerThan(8), ""),
    // no table has which pipelines aren't finished
    Step::Makes(&[Change::Open(2), Change::Open(2), Change::Close(5)]),
];

#[test]
fn a_newer_pipeline_is_of_the_same_ref(rt: HostRuntime) -> Result<(), Fail> {
    tells(&rt, rt.alloc(), &[Step::Makes(MANY_PIPELINES)], NEWER)
}

// ---- old pipelines

/// Four more, of which two were made before the first one.
const OLD_AND_NEW: &[Step] = &[Step::Makes(&[
    Change::Put(Made::PipelineAt(5, 50)),
    Change::Put(Made::PipelineAt(2, 59)),
    Change::Put(Made::PipelineAt(3, 70)),
    Change::Put(Made::PipelineAt(4, 60)),
])];

const OLD: &[Step] = &[
    Step::Finds(Load::PipelinesBefore(60, 9), &[2, 5]),
    Step::Finds(Load::PipelinesBefore(60, 1), &[2]),
    Step::Finds(Load::PipelinesBefore(61, 9), &[1, 2, 4, 5]),
    Step::Finds(Load::PipelinesBefore(61, 3), &[1, 2, 4]),
    Step::Shows(Load::PipelinesBefore(51, 9), "5 1 old branch push 50"),
    Step::Shows(Load::PipelinesBefore(50, 9), ""),
    Step::Shows(Load::PipelinesBefore(99, 0), ""),
    Step::Shows(Load::PipelinesBefore(60, OVER), "broken"),
    Step::Shows(Load::SomeBefore(51, 9), "5 1 old branch push 50"),
    Step::Shows(Load::SomeBefore(51, 1), "5 1 old branch push 50"),
    Step::Shows(Load::SomeBefore(50, 9), ""),
    Step::Shows(Load::SomeBefore(99, 0), ""),
];

#[test]
fn pipelines_are_found_that_were_made_before_a_moment(rt: HostRuntime) -> Result<(), Fail> {
    tells(&rt, rt.alloc(), OLD_AND_NEW, OLD)
}

/// Pipeline 1 has a trace, a pair and two rows of statuses then, and pipeline 2 a pair and two rows.
const TWO_PIPELINES: &[Change] = &[
    Change::Put(Made::PipelineAt(2, 70)),
    Change::Put(Made::Job(3, 2)),
    Change::Put(Made::Job(4, 2)),
    Change::Put(Made::Need(2, 1)),
    Change::Put(Made::Need(4, 3)),
    Change::AppendMany(16_384),
    Change::Append(b"one"),
    Change::Row(2, Status::Success),
    Change::Row(3, Status::Success),
    Change::Row(4, Status::Success),
];

/// What names a job or an attempt goes before it, but for the rows of statuses.
const ALL_BUT_ROWS: &[Change] = &[
    Change::Remove(Gone::Trace(1)),
    Change::Remove(Gone::Attempt(1)),
    Change::Remove(Gone::JobVariables(1)),
    Change::Remove(Gone::Needs(2)),
    Change::Remove(Gone::Job(1)),
    Change::Remove(Gone::Job(2)),
    Change::Remove(Gone::Pipeline(1)),
];

/// The same, with the rows, which are named last and go first.
const ALL: &[Change] = &[
    Change::Remove(Gone::Trace(1)),
    Change::Remove(Gone::Attempt(1)),
    Change::Remove(Gone::JobVariables(1)),
    Change::Remove(Gone::Needs(2)),
    Change::Remove(Gone::Job(1)),
    Change::Remove(Gone::Job(2)),
    Change::Remove(Gone::Pipeline(1)),
    Change::Clear(1),
    Change::Clear(2),
];

const PIPELINE_GOES: &[Step] = &[
    Step::Makes(TWO_PIPELINES),
    Step::Refuses(ALL_BUT_ROWS),
    Step::Makes(ALL),
];

/// What is left is pipeline 2's.
const LEFT: &[Step] = &[
    Step::Shows(Load::Pipeline(1), ""),
    Step::Shows(Load::JobsOf(1), ""),
    Step::Shows(Load::JobVariables(1), ""),
    Step::Shows(Load::AttemptsWithin(1, 9), ""),
    Step::Shows(Load::TraceOf(1), "0 "),
    Step::Shows(Load::NeedsWithin(1, 9), "4 for 3"),
    Step::Finds(Load::RowsWithin(1, 9), &[3, 4]),
    Step::Finds(Load::JobsOf(2), &[3, 4]),
];

#[test]
fn a_pipeline_goes_with_all_its_rows(rt: HostRuntime) -> Result<(), Fail> {
    tells(&rt, rt.alloc(), PIPELINE_GOES, LEFT)
}

// ---- texts in the file

const TEXTS: &[(&str, &str)] = &[(
    "SELECT spec FROM job WHERE id = 1",
    r#"{"allow_failure":[1,137],"interruptible":true,"needs":true,"resource_group":"prod","retry":{"causes":["script_failure","job_execution_timeout"],"max":2},"script":["make","make check"],"tags":["gpu"],"timeout":3600,"when":"always"}"#,
)];

#[test]
fn texts_in_the_file_are_these(rt: HostRuntime) -> Result<(), Fail> {
    let mut conn = close(filled(rt.alloc())?);
    for (query, wants) in TEXTS {
        let rows = conn.query_all(query, &[])?;
        let found: String = rows.as_slice().first().ok_or("no row")?.get(0)?;
        assert_eq!(rt; found.as_str(), *wants, "{query}");
    }
    discard(conn);
    Ok(())
}
