//! Lists of positions.

ghost use Rattle.std.specs.Prelude.{◌≡◌, ◌<◌, ◌++◌, ◌∷◌, [], true, length, replicate, slice_index, IfOk, OnOk, OnErr};
ghost use Rattle.ci_graph.specs.Lists.{distinct};

use std::alloc::{AllocError, Global};
use std::marker::Model;

/// Positions of jobs, seen as a list.
#[derive(Drop)]
pub struct Positions {
    positions: Vec<usize>,
}

impl Model for Positions {
    ghost use Rattle.std.specs.Prelude.{ℕ, List};

    ghost Value = { List ℕ };

    ghost view = { λ p. p.positions.items };
}

impl Positions {
    /// No position, with room for so many.
    pub fn with_room(alloc: Global, room: usize) -> Result<Positions, AllocError>
        ensures { IfOk result (λ p. p ≡ []) }
    {
        let positions = Vec::with_capacity(alloc, room)?;
        Ok(Positions { positions })
    }

    /// How many there are.
    pub fn len(&self) -> usize
        ensures { result ≡ length self.now }
    {
        self.positions.len()
    }

    /// The k-th, from 0.
    pub fn at(&self, k: usize) -> usize
        requires { k < length self.now }
        ensures { result ≡ slice_index self.now k }
    {
        self.positions[k]
    }

    /// Is each greater than the one before it? Then none stands twice.
    pub fn rises(&self) -> bool
        ensures { result ≡ true → distinct self.now ≡ self.now }
    {
        for k in 1..self.positions.len() {
            if self.positions[k] <= self.positions[k - 1] {
                return false;
            }
        }
        true
    }

    /// Puts one at the end; where memory is refused the list stays as it was.
    pub fn push(&mut self, i: usize) -> Result<(), AllocError>
        ensures ok { OnOk result (self.new ≡ self.old ++ i ∷ []) }
        ensures err { OnErr result (self.new ≡ self.old) }
    {
        self.positions.push(i)?;
        Ok(())
    }
}

/// Lists of no position, each with its room.
pub fn empty_lists(alloc: Global, rooms: &[usize]) -> Result<Vec<Positions>, AllocError>
    ensures { IfOk result (λ v. v.items ≡ replicate (length rooms.now) []) }
{
    let mut lists = Vec::with_capacity(alloc, rooms.len())?;
    for k in 0..rooms.len() {
        lists.push(Positions::with_room(alloc, rooms[k])?)?;
    }
    Ok(lists)
}
