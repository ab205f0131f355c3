//! An order of the positions, predecessors first.

ghost use Rattle.std.specs.Prelude.{◌≡◌, ◌<◌, ◌≤◌, ◌-◌, ◌==◌, ◌++◌, ℕ, List, map, filter, length, IfOk, OnOk, IfSome, IfNone, true, false};
ghost use Rattle.ci_graph.specs.Lists.{list_at, number_at, times, once, IsOrder, IsStuck};
ghost use Rattle.ci_graph.specs.Pairs.{AreWithin, GiveNeighbours};

use crate::positions::Positions;
use std::alloc::{AllocError, Global};

/// How many predecessors each position has.
fn counts(alloc: Global, predecessors: &[Positions]) -> Result<Vec<usize>, AllocError>
    ensures { IfOk result (λ v. v.items ≡ map length predecessors.now) }
{
    let mut left = Vec::with_capacity(alloc, predecessors.len())?;
    for j in 0..predecessors.len() {
        left.push(predecessors[j].len())?;
    }
    Ok(left)
}

/// The positions that have none left.
fn starts(alloc: Global, left: &[usize]) -> Result<Vec<usize>, AllocError>
    ensures each { IfOk result (λ v. (i : ℕ) → i < length left.now → times i v.items ≡ once (number_at left.now i == 0)) }
    ensures inside { IfOk result (λ v. (i : ℕ) → 0 < times i v.items → i < length left.now) }
{
    let mut queue = Vec::with_capacity(alloc, left.len())?;
    for j in 0..left.len() {
        if left[j] == 0 {
            queue.push(j)?;
        }
    }
    Ok(queue)
}

/// Takes one from the numbers of these successors, none of which is named twice, and puts those with none left into the queue.
fn release(
    successors: &Positions,
    queue: &mut Vec<usize>,
    left: &mut [usize],
) -> Result<(), AllocError>
    requires inside { (k : ℕ) → k < length successors.now → number_at successors.now k < length left.old }
    requires each_once { (i : ℕ) → times i successors.now ≤ 1 }
    ensures left { OnOk result ((i : ℕ) → number_at left.new i ≡ number_at left.old i - times i successors.now) }
    ensures queue { OnOk result (queue.new.items ≡ queue.old.items ++ filter (λ s. number_at left.old s - 1 == 0) successors.now) }
{
    for k in 0..successors.len() {
        let s = successors.at(k);
        let number = left[s].saturating_sub(1);
        left[s] = number;
        if number == 0 {
            queue.push(s)?;
        }
    }
    Ok(())
}

/// Takes position j: one less is left of each of its successors.
fn take_one(
    successors: &[Positions],
    j: usize,
    queue: &mut Vec<usize>,
    left: &mut [usize],
) -> Result<(), AllocError>
    requires job { j < length successors.now }
    requires inside { (k : ℕ) → k < length (list_at successors.now j) → number_at (list_at successors.now j) k < length left.old }
    requires each_once { (i : ℕ) → times i (list_at successors.now j) ≤ 1 }
    ensures left { OnOk result ((i : ℕ) → number_at left.new i ≡ number_at left.old i - times i (list_at successors.now j)) }
    ensures queue { OnOk result (queue.new.items ≡ queue.old.items ++ filter (λ s. number_at left.old s - 1 == 0) (list_at successors.now j)) }
{
    release(&successors[j], queue, left)
}

/// Whether the queue came to have each position.
fn take_all(
    predecessors: &[Positions],
    successors: &[Positions],
    queue: &mut Vec<usize>,
    left: &mut [usize],
) -> Result<bool, AllocError>
    requires pairs { (pairs : List (ℕ × ℕ)) × AreWithin (length predecessors.now) pairs × GiveNeighbours (length predecessors.now) pairs predecessors.now successors.now }
    requires left { left.old ≡ map length predecessors.now }
    requires each { (i : ℕ) → i < length left.old → times i queue.old.items ≡ once (number_at left.old i == 0) }
    requires inside { (i : ℕ) → 0 < times i queue.old.items → i < length left.old }
    ensures order { IfOk result (λ b. b ≡ true → IsOrder (length predecessors.now) predecessors.now queue.new.items) }
    ensures stuck { IfOk result (λ b. b ≡ false → IsStuck (length predecessors.now) predecessors.now queue.new.items) }
{
    for k in 0..predecessors.len() {
        if k >= queue.len() {
            return Ok(false);
        }
        let j = queue[k];
        take_one(successors, j, queue, left)?;
    }
    Ok(true)
}

/// The positions, predecessors first; none where some are left.
pub fn order_of(
    alloc: Global,
    predecessors: &[Positions],
    successors: &[Positions],
) -> Result<Option<Vec<usize>>, AllocError>
    requires pairs { (pairs : List (ℕ × ℕ)) × AreWithin (length predecessors.now) pairs × GiveNeighbours (length predecessors.now) pairs predecessors.now successors.now }
    ensures order { IfOk result (λ o. IfSome o (λ v. IsOrder (length predecessors.now) predecessors.now v.items)) }
    ensures stuck { IfOk result (λ o. IfNone o ((taken : List ℕ) × IsStuck (length predecessors.now) predecessors.now taken)) }
{
    let mut left = counts(alloc, predecessors)?;
    let mut queue = starts(alloc, left.as_slice())?;
    if take_all(predecessors, successors, &mut queue, left.as_mut_slice())? {
        Ok(Some(queue))
    } else {
        Ok(None)
    }
}
