//! Lists of events that are handled by one call.

use crate::disks::{ALL_CALLS, Image, Remains, stopped};
use crate::server::acts::{Act, PATH, RUNNING};
use crate::server::answers::{STORE_FAILED, Want, first, is};
use crate::server::rows::{all_rows, rows_of};
use crate::server::servers::{image_after, is_closed, left, opened, over, run, server_of, tell};
use ci_machine::reply::{Answer, JobStatus};
use std::alloc::Global;
use std::test::Fail;

/// Each event with its moment in seconds and its answer.
fn listed() -> [(u64, Act, Want); 12] {
    [
        (1000, PATH[0], first(PATH[0])),
        (1000, PATH[1], first(PATH[1])),
        (1000, PATH[2], first(PATH[2])),
        (1000, PATH[3], first(PATH[3])),
        (1000, PATH[4], first(PATH[4])),
        (1010, RUNNING, first(RUNNING)),
        // The lease is over 120 seconds after that.
        (1129, Act::Sweep, Want::Nothing),
        (1130, Act::Sweep, first(Act::Sweep)),
        (1130, Act::Sweep, Want::Nothing),
        (1130, Act::Show, Want::Job(JobStatus::Failed)),
        (1130, Act::RetryJob, first(Act::RetryJob)),
        (1130, Act::CancelJob, first(Act::CancelJob)),
    ]
}

/// So many of these.
const LEN: usize = 12;

/// So many of them over a log that fails, up to the end of the lease. An opening takes the longer the more stands in the log.
const FEW: usize = 8;

/// All that a store has before the first event and behind each, where they are handled one by one. Each must be answered as it is to be.
fn states(alloc: Global, image: &Image) -> Result<Vec<String>, Fail> {
    let mut states = Vec::new(alloc);
    let mut conn = image.connect(alloc, ALL_CALLS).ok_or("not connected")?;
    states.push(all_rows(alloc, &mut conn)?)?;
    for (seconds, act, want) in &listed() {
        let mut server = over(conn)?;
        let answer = tell(alloc, &mut server, *seconds, *act)?;
        conn = left(server);
        states.push(all_rows(alloc, &mut conn)?)?;
        if !is(&answer, *want) {
            return Err("another answer to one event")?;
        }
    }
    Ok(states)
}

#[test]
fn a_list_is_answered_as_its_events_one_by_one(rt: HostRuntime) -> Result<(), Fail> {
    let alloc = rt.alloc();
    let image = image_after(alloc, &[], &[])?;
    let states = states(alloc, &image)?;
    let mut server = server_of(alloc, &image)?;
    let answers = run(alloc, &mut server, &listed())?;
    let closed = is_closed(&server);
    let rows = all_rows(alloc, &mut left(server))?;
    assert!(rt; answers.len() == LEN && !closed);
    for (place, (answer, (_, _, want))) in answers.iter().zip(&listed()).enumerate() {
        assert!(rt; is(answer, *want), "answer {place}");
    }
    assert!(rt; states.last() == Some(&rows));
    Ok(())
}

/// How many answers are those of the events, before the others, which must all be M17?
fn answered(answers: &[Answer]) -> Result<usize, Fail> {
    let mut answered = 0usize;
    for (place, (answer, (_, _, want))) in answers.iter().zip(&listed()).enumerate() {
        if is(answer, *want) && answered == place {
            answered = place.saturating_add(1);
        } else if !is(answer, STORE_FAILED) {
            return Err("neither its answer nor M17")?;
        }
    }
    Ok(answered)
}

/// What stands on files, and all that a store has by it.
#[derive(Drop)]
struct Seen {
    image: Image,
    rows: String,
}

fn look_at(alloc: Global, image: Image) -> Result<Seen, Fail> {
    let rows = rows_of(alloc, &image)?;
    Ok(Seen { image, rows })
}

/// Has it happened up to so many events, or to the one behind them?
fn is_behind(seen: &Seen, states: &[String], count: usize) -> bool {
    states
        .iter()
        .skip(count)
        .take(2)
        .any(|state| *state == seen.rows)
}

/// Has the first of the list handled over a log that fails behind so many calls, and again where it failed. How many events were answered, if the
/// server opens? What a stop leaves then has happened up to the last of these, or to the one behind it. Most stops of the machine leave what
/// the one before left: that is looked at once.
fn tried(
    alloc: Global,
    image: &Image,
    states: &[String],
    calls: u64,
    last: &mut Seen,
) -> Result<Option<usize>, Fail> {
    let Some(mut server) = opened(image.connect(alloc, calls)) else {
        return Ok(None);
    };
    let list = listed();
    let few = list.get(..FEW).ok_or("a shorter list")?;
    let count = answered(&run(alloc, &mut server, few)?)?;
    if is_closed(&server) != (count < FEW) {
        return Err("closed, or not, against its answers")?;
    }
    if count < FEW && answered(&run(alloc, &mut server, few)?)? > 0 {
        return Err("a closed server answers")?;
    }
    let Remains { program, machine } = stopped(alloc, left(server))?;
    if !machine.is_same(&last.image) {
        *last = look_at(alloc, machine)?;
    }
    if !is_behind(last, states, count) || !is_behind(&look_at(alloc, program)?, states, count) {
        return Err("torn or lost")?;
    }
    Ok(Some(count))
}

#[test]
fn a_list_stops_at_a_fault_of_the_store(rt: HostRuntime) -> Result<(), Fail> {
    let alloc = rt.alloc();
    let image = image_after(alloc, &[], &[])?;
    let states = states(alloc, &image)?;
    let mut counts = Vec::new(alloc);
    let mut last = look_at(alloc, image_after(alloc, &[], &[])?)?;
    for calls in 0..200 {
        let Some(count) = tried(alloc, &image, states.as_slice(), calls, &mut last)? else {
            continue;
        };
        if counts.last() != Some(&count) {
            counts.push(count)?;
        }
        if count == FEW {
            break;
        }
    }
    // It stops at each event that changes something, which is all but the first sweep.
    assert!(rt; counts.as_slice() == [0, 1, 2, 3, 4, 5, 7, 8].as_slice());
    Ok(())
}
