//! Random graphs under thousands of changes: the rows that `apply` leaves against those that `build` makes.

ghost use Rattle.std.specs.Prelude.{◌≡◌, ◌<◌, ◌≤◌, ◌^◌, length, IfOk};

use crate::board::within::{are_positions, are_within};
use ci_board::board::Board;
use ci_board::facts::{Facts, FactsChange, Row};
use ci_graph::graph::Graph;
use ci_graph::part::Part;
use ci_values::attempts::{AttemptState, Cause};
use ci_values::items::Items;
use ci_values::when::{AllowFailure, Causes, Retry, When};
use std::alloc::{AllocError, Global};
use std::marker::Brand;
use std::process::Abort;
use std::sync::ledger::{Blank, Ledger};
use std::test::Fail;

const JOBS: usize = 200;

const CHANGES: usize = 2000;

// A new board takes long, and what one change did wrong stands in the rows behind it: so many changes go between two.
const BETWEEN: usize = 10;

// Numbers that look like chance, the same in each run.
#[derive(Drop)]
struct Chance {
    state: u64,
}

fn below(chance: &mut Chance, n: u64) -> u64
    requires { 0 < n }
    ensures { result < n }
{
    chance.state = chance
        .state
        .wrapping_mul(6_364_136_223_846_793_005)
        .wrapping_add(1_442_695_040_888_963_407);
    (chance.state >> 33) % n
}

fn coin(chance: &mut Chance) -> bool {
    below(chance, 2) == 1
}

fn random_when(chance: &mut Chance) -> When {
    match below(chance, 6) {
        0 => When::OnFailure,
        1 => When::Always,
        2 => When::Manual,
        _ => When::OnSuccess,
    }
}

fn random_causes(chance: &mut Chance) -> Causes {
    Causes {
        unknown_failure: coin(chance),
        script_failure: coin(chance),
        api_failure: coin(chance),
        stuck_or_timeout_failure: coin(chance),
        runner_system_failure: coin(chance),
        job_execution_timeout: coin(chance),
    }
}

fn random_allow(alloc: Global, chance: &mut Chance) -> Result<AllowFailure, AllocError> {
    match below(chance, 4) {
        0 => Ok(AllowFailure::Yes),
        1 => {
            let codes = vec![in alloc; 3, 4]?;
            Ok(AllowFailure::ExitCodes(Items::new(codes)))
        }
        _ => Ok(AllowFailure::No),
    }
}

fn random_part(alloc: Global, chance: &mut Chance) -> Result<Part, AllocError> {
    let allow_failure = random_allow(alloc, chance)?;
    let max = match below(chance, 3) {
        0 => 0,
        1 => 1,
        _ => 2,
    };
    Ok(Part {
        when: random_when(chance),
        allow_failure,
        retry: Retry {
            max,
            causes: random_causes(chance),
        },
        gives_needs: coin(chance),
    })
}

// The same parts come of the same chance.
fn random_parts(alloc: Global, state: u64) -> Result<Vec<Part>, AllocError>
    ensures { IfOk result (λ v. length v.items ≡ JOBS) }
{
    let mut chance = Chance { state };
    let mut parts = Vec::with_capacity(alloc, JOBS)?;
    for _j in 0..JOBS {
        parts.push(random_part(alloc, &mut chance)?)?;
    }
    Ok(parts)
}

// Up to 50 predecessors of j, repeats among them, each below it or, turned round, above it.
fn random_needs(
    chance: &mut Chance,
    pairs: &mut Vec<(usize, usize)>,
    j: usize,
    turned: bool,
) -> Result<(), AllocError>
    requires some { 0 < j }
    requires few { j < JOBS }
{
    let needs = below(chance, 51);
    for _k in 0..needs {
        let i = below(chance, j as u64) as usize;
        if turned {
            pairs.push((JOBS - 1 - i, JOBS - 1 - j))?;
        } else {
            pairs.push((i, j))?;
        }
    }
    Ok(())
}

fn random_pairs(
    alloc: Global,
    chance: &mut Chance,
    turned: bool,
) -> Result<Vec<(usize, usize)>, AllocError> {
    let mut pairs = Vec::new(alloc);
    for j in 1..JOBS {
        random_needs(chance, &mut pairs, j, turned)?;
    }
    Ok(pairs)
}

fn random_cause(chance: &mut Chance) -> Cause {
    match below(chance, 3) {
        0 => Cause::ScriptFailure,
        1 => Cause::RunnerSystemFailure,
        _ => Cause::JobExecutionTimeout,
    }
}

fn random_last(chance: &mut Chance) -> Option<AttemptState> {
    match below(chance, 6) {
        0 => None,
        1 => Some(AttemptState::Live),
        2 => Some(AttemptState::Failed(random_cause(chance), Some(3))),
        3 => Some(AttemptState::Failed(random_cause(chance), None)),
        4 => Some(AttemptState::Cancelled),
        _ => Some(AttemptState::Succeeded(None)),
    }
}

fn random_facts(chance: &mut Chance) -> Facts {
    Facts {
        last: random_last(chance),
        attempts: below(chance, 4),
        cancelled: below(chance, 8) == 0,
        played: coin(chance),
    }
}

// As a change to the board and to the facts beside it.
fn random_change(chance: &mut Chance, facts: &mut [Facts]) -> FactsChange
    requires { length facts.old ≡ JOBS }
    ensures { length facts.new ≡ JOBS }
{
    let position = below(chance, JOBS as u64) as usize;
    let fresh = random_facts(chance);
    facts[position] = fresh;
    FactsChange {
        position,
        facts: fresh,
    }
}

fn same(a: Row, b: Row) -> bool {
    a.status == b.status && a.opens == b.opens && a.failed == b.failed && a.barred == b.barred
}

// The rows that a new board of these parts, pairs and facts has.
fn built_rows<L: Ledger>(
    rt: &impl Abort,
    alloc: Global,
    blank: Blank,
    state: u64,
    pairs: &[(usize, usize)],
    facts: &[Facts],
) -> Result<Vec<Row>, Fail>
    requires name { blank.name ≡ L.name }
    requires parts { blank.parts ≡ L.parts }
    requires one { 0 < blank.parts }
    requires facts { length facts.now ≡ JOBS }
{
    let parts = random_parts(alloc, state)?;
    let mut rows = Vec::new(alloc);
    assert!(rt; are_within(JOBS, pairs));
    if let Ok(graph) = Graph::<L>::new(alloc, blank, parts, pairs) {
        let board = Board::build(alloc, graph, Vec::from_slice(alloc, facts)?)?;
        for j in 0..board.size() {
            rows.push(board.row(j))?;
        }
    }
    Ok(rows)
}

fn agree<L: Ledger>(rt: &impl Abort, board: &Board<L>, rows: &[Row]) {
    assert_eq!(rt; board.size(), rows.len());
    for j in 0..rows.len() {
        let size = board.size();
        assert!(rt; j < size);
        assert!(rt; same(board.row(j), rows[j]), "at {j}");
    }
}

// Two changes at once, so often, and then both boards against each other.
fn change_both<L: Ledger>(
    rt: &impl Abort,
    alloc: Global,
    board: &mut Board<L>,
    chance: &mut Chance,
    state: u64,
    pairs: &[(usize, usize)],
    facts: &mut [Facts],
) -> Result<(), Fail>
    requires { length facts.old ≡ JOBS }
    ensures { length facts.new ≡ JOBS }
{
    for _k in 0..BETWEEN {
        let changes = [random_change(chance, facts), random_change(chance, facts)];
        let size = board.size();
        assert!(rt; are_positions(size, changes.as_slice()));
        board.apply(alloc, changes.as_slice())?;
    }
    let rows = built_rows::<Brand>(rt, alloc, Blank::new(1), state, pairs, facts)?;
    agree(rt, board, rows.as_slice());
    Ok(())
}

fn change_often<L: Ledger>(
    rt: &impl Abort,
    alloc: Global,
    blank: Blank,
    state: u64,
    turned: bool,
) -> Result<(), Fail>
    requires name { blank.name ≡ L.name }
    requires parts { blank.parts ≡ L.parts }
    requires one { 0 < blank.parts }
{
    let mut chance = Chance { state };
    let pairs = random_pairs(alloc, &mut chance, turned)?;
    let parts = random_parts(alloc, state)?;
    let never = Facts {
        last: None,
        attempts: 0,
        cancelled: false,
        played: false,
    };
    let mut facts = vec![in alloc; never; JOBS]?;
    let start = vec![in alloc; never; JOBS]?;
    assert!(rt; are_within(JOBS, pairs.as_slice()));
    let made = Graph::<L>::new(alloc, blank, parts, pairs.as_slice());
    assert!(rt; made.is_ok());
    if let Ok(graph) = made {
        let mut board = Board::build(alloc, graph, start)?;
        for _k in 0..CHANGES / BETWEEN {
            change_both(
                rt,
                alloc,
                &mut board,
                &mut chance,
                state,
                pairs.as_slice(),
                facts.as_mut_slice(),
            )?;
        }
    }
    Ok(())
}

#[test]
fn apply_against_build(rt: HostRuntime) -> Result<(), Fail> {
    change_often::<Brand>(&rt, rt.alloc(), Blank::new(1), 1, false)
}

#[test]
fn apply_against_build_turned(rt: HostRuntime) -> Result<(), Fail> {
    change_often::<Brand>(&rt, rt.alloc(), Blank::new(1), 2, true)
}
