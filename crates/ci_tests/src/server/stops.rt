//! Each call of the log fails in turn as what a command asks for is handled. Then the program stops, or the machine, and a server is opened over what is
//! left.

use crate::disks::{ALL_CALLS, Image, OnDisks, stopped};
use crate::server::acts::{Act, PATH};
use crate::server::answers::{STORE_FAILED, is};
use crate::server::changes::{Row, of_commands};
use crate::server::rows::{all_rows, rows_of};
use crate::server::servers::{Server, image_after, is_closed, left, opened, over, server_of, tell};
use std::alloc::Global;
use std::process::Abort;
use std::test::Fail;

/// When a row's event comes, in seconds.
const SECONDS: u64 = 1010;

/// What stands before a row's event, and all that the store has before and after it.
#[derive(Drop)]
struct Case {
    row: Row,
    image: Image,
    before: String,
    after: String,
}

fn wrong(row: Row, what: &str) -> Fail {
    let name = row.name;
    Fail::new(format_args!("{name}: {what}"))
}

fn case_of(alloc: Global, row: Row) -> Result<Case, Fail> {
    let path = PATH.get(..row.path).ok_or("no path")?;
    let image = image_after(alloc, path, row.more)?;
    let mut server = server_of(alloc, &image)?;
    let answer = tell(alloc, &mut server, SECONDS, row.act)?;
    let before = rows_of(alloc, &image)?;
    let after = all_rows(alloc, &mut left(server))?;
    if !is(&answer, row.first) || before == after {
        return Err(wrong(row, "nothing changes, or another answer"));
    }
    Ok(Case {
        row,
        image,
        before,
        after,
    })
}

/// Has the event happened, by all that a stop has left? A server that is opened over it answers the event as at first, or as once more.
fn has_happened(alloc: Global, case: &Case, image: &Image) -> Result<bool, Fail> {
    if image.is_same(&case.image) {
        return Ok(false);
    }
    let mut conn = image.connect(alloc, ALL_CALLS).ok_or("not connected")?;
    let rows = all_rows(alloc, &mut conn)?;
    let want = if rows == case.before {
        case.row.first
    } else if rows == case.after {
        case.row.again
    } else {
        return Err(wrong(case.row, "torn or lost"));
    };
    let mut server = over(conn)?;
    let answer = tell(alloc, &mut server, SECONDS, case.row.act)?;
    if !is(&answer, want) {
        return Err(wrong(case.row, "another answer after the stop"));
    }
    Ok(rows == case.after)
}

/// Sends the event over a log that fails. Is it answered, and not M17? What comes behind it is answered M17: the event once more, or
/// else, since no call of the log is left, another one.
fn is_answered(alloc: Global, server: &mut Server<OnDisks>, row: Row) -> Result<bool, Fail> {
    let answer = tell(alloc, server, SECONDS, row.act)?;
    let answered = is(&answer, row.first) && !is_closed(server);
    let next = if answered {
        Act::AddProject("next")
    } else {
        row.act
    };
    let behind = tell(alloc, server, SECONDS, next)?;
    if (answered || is(&answer, STORE_FAILED)) && is(&behind, STORE_FAILED) && is_closed(server) {
        return Ok(answered);
    }
    Err(wrong(row, "neither answered nor M17"))
}

/// How an event ended.
#[derive(Clone, Copy)]
enum Ended {
    /// The server didn't open.
    Unopened,
    /// It was answered M17. A stop of the program then left it as not happened, or happened.
    Failed(bool),
    Answered,
}

/// Sends the event over a log that fails behind so many calls, stops, and opens a server again.
fn tried(alloc: Global, case: &Case, calls: u64) -> Result<Ended, Fail> {
    let Some(mut server) = opened(case.image.connect(alloc, calls)) else {
        return Ok(Ended::Unopened);
    };
    let answered = is_answered(alloc, &mut server, case.row)?;
    let stop = stopped(alloc, left(server))?;
    let by_program = has_happened(alloc, case, &stop.program)?;
    let by_machine = if stop.machine.is_same(&stop.program) {
        by_program
    } else {
        has_happened(alloc, case, &stop.machine)?
    };
    match (answered, by_program, by_machine) {
        (true, true, true) => Ok(Ended::Answered),
        (true, _, _) => Err(wrong(case.row, "an answered event is lost")),
        (false, happened, _) => Ok(Ended::Failed(happened)),
    }
}

/// Lets each number of calls through, from one on with which no server opens, until the event is answered. The last number with which none opens.
fn stop_each(rt: &impl Abort, alloc: Global, row: Row, unopened: u64) -> Result<u64, Fail> {
    let case = case_of(alloc, row)?;
    let (mut opens, mut before, mut after) = (unopened, 0u64, 0u64);
    for calls in unopened..200 {
        match tried(alloc, &case, calls)? {
            Ended::Unopened => {
                assert!(rt; before == 0 && after == 0, "{}", row.name);
                opens = calls.saturating_add(1);
            }
            Ended::Failed(false) => before = before.saturating_add(1),
            Ended::Failed(true) => after = after.saturating_add(1),
            Ended::Answered => {
                assert!(rt; unopened < opens && before > 0 && after > 0, "{}", row.name);
                return Ok(opens.saturating_sub(1));
            }
        }
    }
    Err(wrong(row, "never answered"))
}

/// An opening of files that were closed makes as many calls whatever they have. So the calls of the first row's fail, each in turn, and of the
/// others' only the last.
#[test]
fn each_call_fails_as_a_command_changes_something(rt: HostRuntime) -> Result<(), Fail> {
    let alloc = rt.alloc();
    let mut unopened = 0u64;
    for row in &of_commands() {
        unopened = stop_each(&rt, alloc, *row, unopened)?;
    }
    Ok(())
}
