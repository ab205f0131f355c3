//! Who sits at the places of a table, and who gives way.

ghost use Rattle.std.specs.Prelude.{◌≡◌, ◌<◌, ◌≤◌, ◌↔◌, ◌⊎◌, ℕ, [], map, length, replicate, slice_get, slice_set, Some, None, IsTrue, IfOk, IfSome, IfNone};
ghost use Rattle.ci_http_peers.specs.Peers.{IsFree, IsNext, IsNextDeadline, IsNoneOf, IsSoonest, IsTooMany, bytes_of, bytes_held, kept, nearer_of};

use crate::peer::{Among, Peer, Stage};
use std::alloc::{AllocError, Global};

/// The most peers at a time.
pub const MAX_PEERS: usize = 256;

/// The most bytes of replies that lie in memory in all, for peers that take them slowly.
pub(crate) const MAX_REPLY_BYTES: usize = 33_554_432;

/// A table that has nothing at any place. Errors: memory was refused.
pub(crate) fn places<A: Drop>(alloc: Global) -> Result<Vec<Option<A>>, AllocError>
    ensures { IfOk result (λ seats. seats.items ≡ replicate MAX_PEERS None) }
{
    let mut seats = Vec::with_capacity(alloc, MAX_PEERS)?;
    for _ in 0..MAX_PEERS {
        seats.push(None)?;
    }
    Ok(seats)
}

/// A place has a peer or a connection from now on, or none. A place that isn't there stays so.
pub(crate) fn put<A: Drop>(table: &mut [Option<A>], place: usize, item: Option<A>)
    ensures { table.new ≡ slice_set table.old place item }
{
    if place < table.len() {
        table[place] = item;
    }
}

/// The place of one more peer. Where none is free the peer that has been reading longest gives way to it, or, where none is reading,
/// the one whose deadline is the nearest. None where there are no places.
pub(crate) fn next_place(seats: &[Option<Peer>]) -> Option<usize>
    ensures { IsNext seats.now result }
{
    if let Some(place) = free_place(seats) {
        return Some(place);
    }
    if let Some(place) = soonest(seats, Among::Reading) {
        return Some(place);
    }
    soonest(seats, Among::All)
}

/// The first place that is free.
fn free_place(seats: &[Option<Peer>]) -> Option<usize>
    ensures { IsFree seats.now result }
{
    for place in 0..seats.len() {
        if seats[place].is_none() {
            return Some(place);
        }
    }
    None
}

/// The place of the peer among these whose deadline is the nearest.
pub(crate) fn soonest(seats: &[Option<Peer>], among: Among) -> Option<usize>
    ensures { IsSoonest seats.now among result }
{
    let mut best = None;
    for place in 0..seats.len() {
        best = nearer(best, place, seats[place], among);
    }
    best.map(|(place, _)| place)
}

/// The nearer of the nearest deadline so far, with its place, and that of who sits at the next place, if it is one of these.
fn nearer(
    best: Option<(usize, u64)>,
    place: usize,
    seat: Option<Peer>,
    among: Among,
) -> Option<(usize, u64)>
    ensures { result ≡ nearer_of among best place seat }
{
    let Some(peer) = seat else {
        return best;
    };
    if !among.has(peer.stage) {
        return best;
    }
    match best {
        Some((_, deadline)) if deadline <= peer.deadline => best,
        _ => Some((place, peer.deadline)),
    }
}

/// The nearest deadline of all peers, in milliseconds. None where nobody sits.
pub(crate) fn next_deadline(seats: &[Option<Peer>]) -> Option<u64>
    ensures { IsNextDeadline seats.now result }
{
    let place = soonest(seats, Among::All)?;
    match seats.get(place) {
        Some(Some(peer)) => Some(peer.deadline),
        _ => None,
    }
}

/// Has the peers go whose time is over, and no others.
pub(crate) fn end_late(seats: &mut [Option<Peer>], now: u64)
    ensures { seats.new ≡ map (kept now) seats.old }
{
    for seat in seats.iter_mut() {
        *seat = kept(*seat, now);
    }
}

/// Who sits at a place, or nobody where their time is over.
fn kept(seat: Option<Peer>, now: u64) -> Option<Peer>
    ensures { result ≡ kept now seat }
{
    match seat {
        Some(peer) if !peer.is_late(now) => Some(peer),
        _ => None,
    }
}

/// Has peers go until the replies have room in memory: of those that are taking one, the one that has been longest, again and again.
pub(crate) fn make_room(seats: &mut [Option<Peer>])
    ensures room { bytes_held seats.new ≤ MAX_REPLY_BYTES }
    ensures others { (k : ℕ) → IsNoneOf Among.Writing (slice_get seats.old k) → slice_get seats.new k ≡ slice_get seats.old k }
    ensures kept { bytes_held seats.old ≤ MAX_REPLY_BYTES → seats.new ≡ seats.old }
    ensures only_go { (k : ℕ) → (slice_get seats.new k ≡ slice_get seats.old k) ⊎ (slice_get seats.new k ≡ Some None) }
{
    while let Some(place) = too_many(seats) {
        put(seats, place, None);
    }
}

/// The place of the peer that has been taking its reply longest, where the replies have no room in memory.
fn too_many(seats: &[Option<Peer>]) -> Option<usize>
    ensures { IsTooMany seats.now result }
{
    if have_room(seats) {
        return None;
    }
    soonest(seats, Among::Writing)
}

/// Have the replies room in memory in all?
pub(crate) fn have_room(seats: &[Option<Peer>]) -> bool
    ensures { IsTrue result ↔ (bytes_held seats.now ≤ MAX_REPLY_BYTES) }
{
    let mut room = MAX_REPLY_BYTES;
    for place in 0..seats.len() {
        let bytes = bytes_of(seats[place]);
        if bytes > room {
            return false;
        }
        room -= bytes;
    }
    true
}

/// How many bytes of a reply lie in memory for who sits at a place.
fn bytes_of(seat: Option<Peer>) -> usize
    ensures { result ≡ bytes_of seat }
{
    match seat {
        Some(peer) => match peer.stage {
            Stage::Writing(bytes) => bytes,
            Stage::Reading | Stage::Ending => 0,
        },
        None => 0,
    }
}
