//! Positions that wait for one another in a circle.

ghost use Rattle.std.specs.Prelude.{◌≡◌, ◌<◌, ◌==◌, ◌&&◌, ℕ, true, false, length, slice_index_or, Contains, IfOk, IfSome, IfNone};
ghost use Rattle.ci_machine.specs.Prelude.{AreWithin, HasCycle};
ghost use Rattle.ci_plan.specs.Circles.{IsCircle, is_left, IsClosed, KeepsCycles};

use std::alloc::{AllocError, Global};

/// Is the position among those that are left?
fn is_left(left: &[bool], place: usize) -> bool
    ensures { result ≡ is_left left.now place }
{
    match left.get(place) {
        Some(flag) => *flag,
        None => false,
    }
}

/// Does this position wait for the first of the pair, and is that left?
fn waits_for_left(left: &[bool], pair: (usize, usize), place: usize) -> bool
    ensures { result ≡ ((pair.1 == place) && is_left left.now pair.0) }
{
    pair.1 == place && is_left(left, pair.0)
}

/// A position that is left and that this one waits for, if there is one.
fn left_before(pairs: &[(usize, usize)], left: &[bool], place: usize) -> Option<usize>
    ensures some { IfSome result (λ p. Contains pairs.now (p, place) × (is_left left.now p ≡ true)) }
    ensures none { IfNone result ((p : ℕ) → Contains pairs.now (p, place) → is_left left.now p ≡ false) }
{
    for pair in pairs {
        if waits_for_left(left, *pair, place) {
            return Some(pair.0);
        }
    }
    None
}

/// Is the position left, and waits for none that is left?
fn is_open(pairs: &[(usize, usize)], left: &[bool], place: usize) -> bool
    ensures open { result ≡ true → (is_left left.now place ≡ true) × ((p : ℕ) → Contains pairs.now (p, place) → is_left left.now p ≡ false) }
    ensures other { result ≡ false → is_left left.now place ≡ true → (p : ℕ) × Contains pairs.now (p, place) × (is_left left.now p ≡ true) }
{
    if !is_left(left, place) {
        return false;
    }
    match left_before(pairs, left, place) {
        Some(_) => false,
        None => true,
    }
}

/// A position that is left and waits for none that is left, if there is one.
fn open_place(pairs: &[(usize, usize)], left: &[bool]) -> Option<usize>
    ensures some { IfSome result (λ j. (j < length left.now) × (is_left left.now j ≡ true) × ((p : ℕ) → Contains pairs.now (p, j) → is_left left.now p ≡ false)) }
    ensures none { IfNone result (IsClosed pairs.now left.now) }
{
    for place in 0..left.len() {
        if is_open(pairs, left, place) {
            return Some(place);
        }
    }
    None
}

/// The first position that is left.
fn first_left(left: &[bool]) -> Option<usize>
    ensures some { IfSome result (λ j. is_left left.now j ≡ true) }
    ensures none { IfNone result ((j : ℕ) → is_left left.now j ≡ false) }
{
    for place in 0..left.len() {
        if is_left(left, place) {
            return Some(place);
        }
    }
    None
}

/// Of so many positions those that are left once each has gone which waits for none that is left: each that is left waits for another, and
/// those of circles are.
fn stuck(alloc: Global, count: usize, pairs: &[(usize, usize)]) -> Result<Vec<bool>, AllocError>
    requires { AreWithin count pairs.now }
    ensures closed { IfOk result (λ left. IsClosed pairs.now left.items) }
    ensures cycles { IfOk result (λ left. KeepsCycles pairs.now left.items) }
{
    let mut left = vec![in alloc; true; count]?;
    while let Some(place) = open_place(pairs, &left) {
        left[place] = false;
    }
    Ok(left)
}

/// Where a position stands in a list.
fn index_of(places: &[usize], place: usize) -> Option<usize>
    ensures some { IfSome result (λ k. (k < length places.now) × (slice_index_or places.now k place ≡ place)) }
    ensures none { IfNone result (Contains places.now place → ⊥) }
{
    for (i, one) in places.iter().enumerate() {
        if *one == place {
            return Some(i);
        }
    }
    None
}

/// The circle that one comes to from a position that is left, going on from each to one that it waits for.
fn trail(
    alloc: Global,
    pairs: &[(usize, usize)],
    left: &[bool],
    start: usize,
) -> Result<Vec<usize>, AllocError>
    requires closed { IsClosed pairs.now left.now }
    requires start { is_left left.now start ≡ true }
    ensures { IfOk result (λ circle. IsCircle pairs.now circle.items) }
{
    let mut fresh = Vec::from_slice(alloc, left)?;
    let mut passed: Vec<usize> = Vec::new(alloc);
    let mut place = start;
    'round: loop {
        if let Some(first) = index_of(&passed, place) {
            return Vec::from_slice(alloc, &passed[first..]);
        }
        passed.push(place)?;
        fresh[place] = false;
        match left_before(pairs, left, place) {
            Some(before) => place = before,
            None => unreachable!(),
        }
    }
}

/// Positions that wait for one another in a circle, where some of these pairs do: each of them waits for the next one, and the last
/// one for the first. In a pair the first is waited for by the second. Errors: memory was refused.
pub fn circle(
    alloc: Global,
    count: usize,
    pairs: &[(usize, usize)],
) -> Result<Vec<usize>, AllocError>
    requires within { AreWithin count pairs.now }
    requires some { HasCycle pairs.now }
    ensures { IfOk result (λ circle. IsCircle pairs.now circle.items) }
{
    let left = stuck(alloc, count, pairs)?;
    match first_left(&left) {
        Some(start) => trail(alloc, pairs, &left, start),
        None => unreachable!(),
    }
}
