//! Worked examples: what the statuses are, and which rows each change moves.

ghost use Rattle.std.specs.Prelude.{◌≡◌, ◌<◌};

use crate::board::within::{are_positions, are_within};
use ci_board::board::Board;
use ci_board::facts::Status::{
    Canceled, Created, Failed, Manual, Pending, Running, Skipped, Success,
};
use ci_board::facts::{Facts, FactsChange, Status};
use ci_graph::graph::Graph;
use ci_graph::part::{GraphFault, Part};
use ci_values::attempts::{AttemptState, Cause};
use ci_values::items::Items;
use ci_values::when::{AllowFailure, Causes, Retry, When};
use std::alloc::Global;
use std::marker::Brand;
use std::process::Abort;
use std::sync::ledger::{Blank, Ledger};
use std::test::Fail;

const NEVER: Retry = Retry {
    max: 0,
    causes: Causes {
        unknown_failure: true,
        script_failure: true,
        api_failure: true,
        stuck_or_timeout_failure: true,
        runner_system_failure: true,
        job_execution_timeout: true,
    },
};

const TWICE_FOR_SYSTEM: Retry = Retry {
    max: 2,
    causes: Causes {
        unknown_failure: false,
        script_failure: false,
        api_failure: false,
        stuck_or_timeout_failure: false,
        runner_system_failure: true,
        job_execution_timeout: false,
    },
};

fn part(when: When, gives_needs: bool) -> Part {
    Part {
        when,
        allow_failure: AllowFailure::No,
        retry: NEVER,
        gives_needs,
    }
}

fn manual(allow_failure: AllowFailure) -> Part {
    Part {
        when: When::Manual,
        allow_failure,
        retry: NEVER,
        gives_needs: false,
    }
}

// The facts of a job by its last attempt and how many aren't set aside.
fn facts(last: Option<AttemptState>, attempts: u64) -> Facts {
    Facts {
        last,
        attempts,
        cancelled: false,
        played: false,
    }
}

fn idle() -> Facts {
    facts(None, 0)
}

fn live() -> Facts {
    facts(Some(AttemptState::Live), 1)
}

fn succeeded() -> Facts {
    facts(Some(AttemptState::Succeeded(None)), 1)
}

fn failed(cause: Cause, exit: Option<u32>, attempts: u64) -> Facts {
    facts(Some(AttemptState::Failed(cause, exit)), attempts)
}

fn to(position: usize, facts: Facts) -> FactsChange {
    FactsChange { position, facts }
}

// One or two changes at once, the positions that they must answer, and the statuses that stand then: of each job, and
// of the pipeline.
#[derive(Drop)]
struct Step<'a> {
    first: Option<FactsChange>,
    second: Option<FactsChange>,
    answer: &'a [usize],
    statuses: &'a [Status],
    pipeline: Status,
}

// No change: nothing is answered.
fn no_change<'a>(statuses: &'a [Status], pipeline: Status) -> Step<'a> {
    Step {
        first: None,
        second: None,
        answer: [].as_slice(),
        statuses,
        pipeline,
    }
}

// Two changes at once.
fn after_both<'a>(
    first: FactsChange,
    second: FactsChange,
    answer: &'a [usize],
    statuses: &'a [Status],
    pipeline: Status,
) -> Step<'a> {
    Step {
        first: Some(first),
        second: Some(second),
        answer,
        statuses,
        pipeline,
    }
}

fn after<'a>(
    change: FactsChange,
    answer: &'a [usize],
    statuses: &'a [Status],
    pipeline: Status,
) -> Step<'a> {
    Step {
        first: Some(change),
        second: None,
        answer,
        statuses,
        pipeline,
    }
}

fn holds<L: Ledger>(
    rt: &impl Abort,
    alloc: Global,
    board: &mut Board<L>,
    wanted: &[Status],
) -> Result<(), Fail> {
    assert_eq!(rt; board.size(), wanted.len());
    for j in 0..wanted.len() {
        let size = board.size();
        assert!(rt; j < size);
        assert_eq!(rt; board.status(j), wanted[j], "at {j}");
        assert_eq!(rt; board.slow_status(alloc, j)?, wanted[j], "slowly, at {j}");
    }
    Ok(())
}

fn make<L: Ledger>(
    rt: &impl Abort,
    alloc: Global,
    board: &mut Board<L>,
    step: &Step<'_>,
) -> Result<(), Fail> {
    let mut changes = Vec::new(alloc);
    if let Some(change) = step.first {
        changes.push(change)?;
    }
    if let Some(change) = step.second {
        changes.push(change)?;
    }
    let size = board.size();
    assert!(rt; are_positions(size, changes.as_slice()));
    let answer = board.apply(alloc, changes.as_slice())?;
    assert_eq!(rt; answer.as_slice(), step.answer);
    assert_eq!(rt; board.pipeline_status(), step.pipeline);
    holds(rt, alloc, board, step.statuses)
}

// Makes the steps one after the other, from jobs of which none was tried.
fn play(
    rt: &impl Abort,
    alloc: Global,
    parts: Vec<Part>,
    pairs: &[(usize, usize)],
    steps: &[Step<'_>],
) -> Result<(), Fail> {
    play_on::<Brand>(rt, alloc, Blank::new(1), parts, pairs, steps)
}

fn play_on<L: Ledger>(
    rt: &impl Abort,
    alloc: Global,
    blank: Blank,
    parts: Vec<Part>,
    pairs: &[(usize, usize)],
    steps: &[Step<'_>],
) -> Result<(), Fail>
    requires name { blank.name ≡ L.name }
    requires parts { blank.parts ≡ L.parts }
    requires one { 0 < blank.parts }
{
    let count = parts.len();
    assert!(rt; are_within(count, pairs));
    let facts = vec![in alloc; idle(); count]?;
    let made = Graph::<L>::new(alloc, blank, parts, pairs);
    assert!(rt; made.is_ok());
    if let Ok(graph) = made {
        let mut board = Board::build(alloc, graph, facts)?;
        for step in steps {
            make(rt, alloc, &mut board, step)?;
        }
    }
    Ok(())
}

#[test]
fn stage_after_stage(rt: HostRuntime) -> Result<(), Fail> {
    let alloc = rt.alloc();
    // build; unit, of the stage behind
    let parts = vec![in alloc; part(When::OnSuccess, false), part(When::OnSuccess, false)]?;
    let steps = [
        no_change([Pending, Created].as_slice(), Pending),
        after(
            to(0, live()),
            [0].as_slice(),
            [Running, Created].as_slice(),
            Running,
        ),
        after(
            to(0, succeeded()),
            [0, 1].as_slice(),
            [Success, Pending].as_slice(),
            Running,
        ),
        after(
            to(1, succeeded()),
            [1].as_slice(),
            [Success, Success].as_slice(),
            Success,
        ),
    ];
    play(&rt, alloc, parts, [(0, 1)].as_slice(), steps.as_slice())
}

#[test]
fn no_needs_before_earlier_stages(rt: HostRuntime) -> Result<(), Fail> {
    let alloc = rt.alloc();
    // slow; pack, of the stage behind; lint, which needs nothing
    let parts = vec![in alloc;
        part(When::OnSuccess, false),
        part(When::OnSuccess, false),
        part(When::OnSuccess, true),
    ]?;
    let steps = [
        no_change([Pending, Created, Pending].as_slice(), Pending),
        after(
            to(2, live()),
            [2].as_slice(),
            [Pending, Created, Running].as_slice(),
            Running,
        ),
    ];
    play(&rt, alloc, parts, [(0, 1)].as_slice(), steps.as_slice())
}

#[test]
fn manual_and_on_failure(rt: HostRuntime) -> Result<(), Fail> {
    let alloc = rt.alloc();
    // run, hand and alarm of one stage; later, of the stage behind
    let parts = vec![in alloc;
        part(When::OnSuccess, false),
        manual(AllowFailure::Yes),
        part(When::OnFailure, false),
        part(When::OnSuccess, false),
    ]?;
    let steps = [after(
        to(0, live()),
        [0].as_slice(),
        [Running, Manual, Skipped, Created].as_slice(),
        Running,
    )];
    play(
        &rt,
        alloc,
        parts,
        [(0, 3), (1, 3), (2, 3)].as_slice(),
        steps.as_slice(),
    )
}

#[test]
fn failure_and_retry(rt: HostRuntime) -> Result<(), Fail> {
    let alloc = rt.alloc();
    // g = 0 needs s = 1; f = 2, w = 3 and s need a = 4; two pairs come again
    let parts = vec![in alloc;
        part(When::OnSuccess, true),
        part(When::OnSuccess, true),
        part(When::OnFailure, true),
        part(When::Always, true),
        part(When::OnSuccess, false),
    ]?;
    let pairs = [(1, 0), (4, 1), (4, 2), (4, 3), (4, 2), (1, 0)];
    let steps = [
        after(
            to(4, live()),
            [4].as_slice(),
            [Created, Created, Created, Created, Running].as_slice(),
            Running,
        ),
        after(
            to(4, failed(Cause::ScriptFailure, None, 1)),
            [0, 1, 2, 3, 4].as_slice(),
            [Skipped, Skipped, Pending, Pending, Failed].as_slice(),
            Running,
        ),
        after(
            to(2, live()),
            [2].as_slice(),
            [Skipped, Skipped, Running, Pending, Failed].as_slice(),
            Running,
        ),
        after(
            to(2, succeeded()),
            [2].as_slice(),
            [Skipped, Skipped, Success, Pending, Failed].as_slice(),
            Running,
        ),
        // a user retries a: its attempt is set aside
        after(
            to(4, failed(Cause::ScriptFailure, None, 0)),
            [0, 1, 2, 3, 4].as_slice(),
            [Created, Created, Success, Created, Pending].as_slice(),
            Running,
        ),
        no_change(
            [Created, Created, Success, Created, Pending].as_slice(),
            Running,
        ),
    ];
    play(&rt, alloc, parts, pairs.as_slice(), steps.as_slice())
}

#[test]
fn play_of_a_manual_job(rt: HostRuntime) -> Result<(), Fail> {
    let alloc = rt.alloc();
    let mut played = idle();
    played.played = true;
    let mut done = succeeded();
    done.played = true;
    // hand; ship, of the stage behind
    let parts = vec![in alloc; manual(AllowFailure::Yes), part(When::OnSuccess, false)]?;
    let steps = [
        no_change([Manual, Pending].as_slice(), Pending),
        after(
            to(0, played),
            [0, 1].as_slice(),
            [Pending, Created].as_slice(),
            Pending,
        ),
        after(
            to(0, done),
            [0, 1].as_slice(),
            [Success, Pending].as_slice(),
            Running,
        ),
    ];
    play(&rt, alloc, parts, [(0, 1)].as_slice(), steps.as_slice())?;
    // the pipeline waits for a manual job that isn't allowed to be left out
    let parts = vec![in alloc; manual(AllowFailure::No), part(When::OnSuccess, false)]?;
    let steps = [no_change([Manual, Created].as_slice(), Manual)];
    play(&rt, alloc, parts, [(0, 1)].as_slice(), steps.as_slice())
}

#[test]
fn tries_by_itself(rt: HostRuntime) -> Result<(), Fail> {
    let alloc = rt.alloc();
    let mut twice = part(When::OnSuccess, false);
    twice.retry = TWICE_FOR_SYSTEM;
    let parts = vec![in alloc; twice]?;
    let steps = [
        after(
            to(0, failed(Cause::ScriptFailure, None, 1)),
            [0].as_slice(),
            [Failed].as_slice(),
            Failed,
        ),
        after(
            to(0, failed(Cause::RunnerSystemFailure, None, 1)),
            [0].as_slice(),
            [Pending].as_slice(),
            Running,
        ),
        after(
            to(0, failed(Cause::RunnerSystemFailure, None, 2)),
            [].as_slice(),
            [Pending].as_slice(),
            Running,
        ),
        after(
            to(0, failed(Cause::RunnerSystemFailure, None, 3)),
            [0].as_slice(),
            [Failed].as_slice(),
            Failed,
        ),
    ];
    play(&rt, alloc, parts, [].as_slice(), steps.as_slice())
}

#[test]
fn allowed_exit_codes(rt: HostRuntime) -> Result<(), Fail> {
    let alloc = rt.alloc();
    let codes = vec![in alloc; 3]?;
    let mut lint = part(When::OnSuccess, false);
    lint.allow_failure = AllowFailure::ExitCodes(Items::new(codes));
    // lint; ship, of the stage behind
    let parts = vec![in alloc; lint, part(When::OnSuccess, false)]?;
    let mut cancelled = idle();
    cancelled.cancelled = true;
    let steps = [
        after_both(
            to(0, failed(Cause::ScriptFailure, Some(3), 1)),
            to(1, succeeded()),
            [0, 1].as_slice(),
            [Failed, Success].as_slice(),
            Success,
        ),
        after(
            to(0, failed(Cause::ScriptFailure, Some(4), 1)),
            [1].as_slice(),
            [Failed, Success].as_slice(),
            Failed,
        ),
        // a cancelled job that isn't allowed bars those behind it
        after_both(
            to(0, cancelled),
            to(1, idle()),
            [0, 1].as_slice(),
            [Canceled, Skipped].as_slice(),
            Canceled,
        ),
    ];
    play(&rt, alloc, parts, [(0, 1)].as_slice(), steps.as_slice())
}

fn has_cycle<L: Ledger>(
    rt: &impl Abort,
    alloc: Global,
    blank: Blank,
    pairs: &[(usize, usize)],
) -> Result<bool, Fail>
    requires name { blank.name ≡ L.name }
    requires parts { blank.parts ≡ L.parts }
    requires one { 0 < blank.parts }
{
    let parts = vec![in alloc;
        part(When::OnSuccess, true),
        part(When::OnSuccess, true),
        part(When::OnSuccess, true),
    ]?;
    assert!(rt; are_within(parts.len(), pairs));
    match Graph::<L>::new(alloc, blank, parts, pairs) {
        Ok(_) => Ok(false),
        Err(fault) => {
            assert_eq!(rt; fault, GraphFault::G3);
            Ok(true)
        }
    }
}

fn cycle(rt: &impl Abort, alloc: Global, pairs: &[(usize, usize)]) -> Result<bool, Fail> {
    has_cycle::<Brand>(rt, alloc, Blank::new(1), pairs)
}

#[test]
fn cycles(rt: HostRuntime) -> Result<(), Fail> {
    let alloc = rt.alloc();
    assert!(rt; cycle(&rt, alloc, [(0, 0)].as_slice())?);
    assert!(rt; cycle(&rt, alloc, [(0, 1), (1, 0)].as_slice())?);
    assert!(rt; cycle(&rt, alloc, [(2, 1), (1, 0), (0, 2)].as_slice())?);
    assert!(rt; cycle(&rt, alloc, [(0, 1), (1, 2), (2, 1)].as_slice())?);
    assert!(rt; !cycle(&rt, alloc, [].as_slice())?);
    assert!(rt; !cycle(&rt, alloc, [(0, 1), (0, 1), (1, 2), (0, 2)].as_slice())?);
    assert!(rt; !cycle(&rt, alloc, [(2, 1), (2, 0), (1, 0)].as_slice())?);
    Ok(())
}
