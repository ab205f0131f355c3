//! Whether pairs have a cycle.

ghost use Rattle.std.specs.Prelude.{◌≡◌, true, false, IfOk};
ghost use Rattle.ci_graph.specs.Pairs.{AreWithin, IsAcyclic, HasCycle};

use crate::neighbours::neighbours;
use crate::order::order_of;
use std::alloc::{AllocError, Global};

/// Have these pairs of so many positions no cycle: does no walk along them return to its start? Errors: memory was refused.
pub fn are_acyclic(
    alloc: Global,
    count: usize,
    pairs: &[(usize, usize)],
) -> Result<bool, AllocError>
    requires within { AreWithin count pairs.now }
    ensures acyclic { IfOk result (λ none. none ≡ true → IsAcyclic pairs.now) }
    ensures cycle { IfOk result (λ none. none ≡ false → HasCycle pairs.now) }
{
    let (predecessors, successors) = neighbours(alloc, count, pairs)?;
    match order_of(alloc, predecessors.as_slice(), successors.as_slice())? {
        Some(_) => Ok(true),
        None => Ok(false),
    }
}
