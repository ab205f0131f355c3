//! What becomes of peers, by a clock that the test moves.

use super::fakes::{Fake, Left, Line, Parrot};
use ci_http_peers::door::Door;
use ci_http_peers::hall::Hall;
use ci_http_peers::peers::MAX_PEERS;
use std::alloc::Global;
use std::cell::Cell;
use std::io::ErrorKind;
use std::process::Abort;
use std::test::Fail;

/// How long peers have, in milliseconds.
const PATIENCE: u64 = 10_000;

fn hall<'a>(rt: &HostRuntime) -> Result<Hall<Fake<'a>>, Fail> {
    Ok(Hall::new(rt.alloc(), PATIENCE)?)
}

fn parrot(alloc: Global, reply: usize) -> Parrot {
    Parrot {
        alloc,
        reply,
        asked: Cell::new(0),
    }
}

/// A request in pieces is answered once, when it is whole, and its size is asked no more once it is known. Where a byte came behind it,
/// what comes then is taken for half a second.
#[test]
fn a_request_in_pieces(rt: HostRuntime) -> Result<(), Fail> {
    let line = Line::new(3, 1000);
    let (mut hall, parrot) = (hall(&rt)?, parrot(rt.alloc(), 100));
    let mut left: Left = 5;
    hall.admit(line.connect(), &parrot, &mut left, 0)?;
    assert!(rt; hall.next_deadline() == Some(10_000));
    for piece in 1..=6 {
        line.came.set(1);
        hall.go_on(0, &parrot, &mut left, piece)?;
        assert!(rt; line.sent.get() == 0 && left == 5);
    }
    line.came.set(2);
    hall.go_on(0, &parrot, &mut left, 9_000)?;
    assert!(rt; line.sent.get() == 100 && left == 4 && line.ended.get());
    assert!(rt; parrot.asked.get() == 2);
    assert!(rt; hall.next_deadline() == Some(9_500));
    line.came.set(20);
    hall.go_on(0, &parrot, &mut left, 9_100)?;
    hall.end_late(9_499);
    assert!(rt; line.open.get() && left == 4);
    hall.end_late(9_500);
    assert!(rt; !line.open.get() && hall.next_deadline() == None);
    Ok(())
}

/// A peer that sends no more is over, with its request or without; and one that sent just its request, once the reply went.
#[test]
fn peers_that_end(rt: HostRuntime) -> Result<(), Fail> {
    let (part, whole, more) = (Line::new(9, 1000), Line::new(10, 1000), Line::new(11, 1000));
    let (mut hall, parrot) = (hall(&rt)?, parrot(rt.alloc(), 100));
    let mut left: Left = 5;
    part.closed.set(true);
    more.closed.set(true);
    hall.admit(part.connect(), &parrot, &mut left, 0)?;
    assert!(rt; !part.open.get() && part.sent.get() == 0 && left == 5);
    hall.admit(whole.connect(), &parrot, &mut left, 0)?;
    assert!(rt; !whole.open.get() && whole.sent.get() == 100 && left == 4);
    assert!(rt; !whole.ended.get() && hall.next_deadline() == None);
    hall.admit(more.connect(), &parrot, &mut left, 0)?;
    assert!(rt; more.open.get() && more.ended.get() && more.sent.get() == 100);
    hall.go_on(0, &parrot, &mut left, 1)?;
    assert!(rt; !more.open.get() && left == 3);
    Ok(())
}

/// A peer that is silent, or that never reads, goes at its deadline and no sooner.
#[test]
fn silent_and_deaf_peers(rt: HostRuntime) -> Result<(), Fail> {
    let (silent, deaf, slow) = (Line::new(0, 1000), Line::new(10, 60), Line::new(11, 60));
    let (mut hall, parrot) = (hall(&rt)?, parrot(rt.alloc(), 100));
    let mut left: Left = 5;
    hall.admit(silent.connect(), &parrot, &mut left, 0)?;
    hall.admit(deaf.connect(), &parrot, &mut left, 5)?;
    hall.admit(slow.connect(), &parrot, &mut left, 6)?;
    hall.end_late(9_999);
    assert!(rt; silent.open.get());
    hall.end_late(10_000);
    assert!(rt; !silent.open.get() && deaf.open.get() && deaf.sent.get() == 60);
    slow.room.set(60);
    hall.go_on(2, &parrot, &mut left, 10_001)?;
    assert!(rt; slow.sent.get() == 100 && slow.ended.get());
    hall.end_late(10_005);
    assert!(rt; !deaf.open.get() && slow.open.get() && !deaf.ended.get());
    Ok(())
}

/// Silent peers at all places, each a millisecond after the one before.
fn fill<'a>(
    hall: &mut Hall<Fake<'a>>,
    lines: &'a [Line],
    parrot: &Parrot,
    left: &mut Left,
) -> Result<(), Fail> {
    let mut now = 0;
    for line in lines {
        hall.admit(line.connect(), parrot, left, now)?;
        now = now.saturating_add(1);
    }
    Ok(())
}

fn silent_lines(alloc: Global) -> Result<Vec<Line>, Fail> {
    let mut lines = Vec::new(alloc);
    for _ in 0..MAX_PEERS {
        lines.push(Line::new(0, 1000))?;
    }
    Ok(lines)
}

/// Is the connection of this line open?
fn is_open(lines: &[Line], place: usize) -> bool {
    match lines.get(place) {
        Some(line) => line.open.get(),
        None => false,
    }
}

/// Where the table is full, the peer that has been reading longest gives way, but not one whose request has come meanwhile.
#[test]
fn one_peer_more(rt: HostRuntime) -> Result<(), Fail> {
    let lines = silent_lines(rt.alloc())?;
    let (next, other) = (Line::new(0, 1000), Line::new(0, 1000));
    let (mut hall, parrot) = (hall(&rt)?, parrot(rt.alloc(), 100));
    let mut left: Left = 5;
    fill(&mut hall, lines.as_slice(), &parrot, &mut left)?;
    hall.admit(next.connect(), &parrot, &mut left, 300)?;
    assert!(rt; !is_open(lines.as_slice(), 0) && is_open(lines.as_slice(), 1) && next.open.get());
    // The second has sent its request by now, and a byte behind it.
    if let Some(line) = lines.get(1) {
        line.came.set(11);
    }
    hall.admit(other.connect(), &parrot, &mut left, 301)?;
    assert!(rt; left == 4 && is_open(lines.as_slice(), 1));
    assert!(rt; !is_open(lines.as_slice(), 2) && is_open(lines.as_slice(), 3) && next.open.get());
    Ok(())
}

/// Replies of 8 MiB, of which four have room: the fifth has the one go that has been going longest.
#[test]
fn replies_for_which_is_no_room(rt: HostRuntime) -> Result<(), Fail> {
    let lines = [
        Line::new(10, 1),
        Line::new(10, 1),
        Line::new(10, 1),
        Line::new(10, 1),
        Line::new(10, 1),
    ];
    let silent = Line::new(0, 0);
    let (mut hall, parrot) = (hall(&rt)?, parrot(rt.alloc(), 8_388_608));
    let mut left: Left = 9;
    hall.admit(silent.connect(), &parrot, &mut left, 0)?;
    let mut now = 1;
    for line in lines.iter() {
        hall.admit(line.connect(), &parrot, &mut left, now)?;
        now = now.saturating_add(1);
    }
    assert!(rt; left == 4 && silent.open.get());
    assert!(rt; !is_open(&lines, 0) && is_open(&lines, 1) && is_open(&lines, 4));
    Ok(())
}

/// What comes after the reply is taken up to 256 KiB, where a byte came behind the request.
#[test]
fn what_comes_after_the_reply(rt: HostRuntime) -> Result<(), Fail> {
    let line = Line::new(11, 1000);
    let (mut hall, parrot) = (hall(&rt)?, parrot(rt.alloc(), 100));
    let mut left: Left = 5;
    hall.admit(line.connect(), &parrot, &mut left, 0)?;
    line.came.set(262_143);
    hall.go_on(0, &parrot, &mut left, 1)?;
    assert!(rt; line.open.get() && line.came.get() == 0);
    line.came.set(1);
    hall.go_on(0, &parrot, &mut left, 2)?;
    assert!(rt; !line.open.get() && left == 4);
    Ok(())
}

/// A door after each kind of failure: when the next connection is to be accepted, and how many are left.
#[test]
fn accepts_that_fail(rt: HostRuntime) -> Result<(), Fail> {
    let mut door = Door::new(4);
    assert!(rt; !door.is_open(7) && door.opens_at() == None);
    door.knock(7);
    assert!(rt; door.is_open(7) && door.opens_at() == Some(7));
    door.fail(ErrorKind::Interrupted, 8);
    assert!(rt; door.is_open(8));
    for kind in [ErrorKind::Uncategorized, ErrorKind::OutOfMemory] {
        door.fail(kind, 10);
        door.knock(11);
        assert!(rt; door.opens_at() == Some(110) && !door.is_open(109) && door.is_open(110));
    }
    door.fail(ErrorKind::ConnectionAborted, 110);
    assert!(rt; door.is_open(110) && !door.is_done());
    door.fail(ErrorKind::WouldBlock, 111);
    assert!(rt; door.opens_at() == None && !door.is_open(200));
    door.knock(200);
    door.count();
    assert!(rt; door.is_done() && !door.is_open(200) && door.opens_at() == None);
    Ok(())
}

/// Where no request can be answered any more it is told why.
#[test]
fn no_more_answers(rt: HostRuntime) -> Result<(), Fail> {
    let line = Line::new(10, 1000);
    let (mut hall, parrot) = (hall(&rt)?, parrot(rt.alloc(), 100));
    let mut left: Left = 0;
    assert!(rt; hall.admit(line.connect(), &parrot, &mut left, 0) == Err("no more"));
    Ok(())
}
