//! Laws of graphs.

ghost use Rattle.std.specs.Prelude.{◌≡◌, ◌↔◌, ◌<◌, ◌⊎◌, ℕ, List, length};
ghost use Rattle.ci_graph.specs.Pairs.{AreWithin, IsAcyclic, IsRanked, HasCycle};

/// Pairs have no circle exactly where a list ranks them.
pub fn acyclic()
    ensures { (n : ℕ) (pairs : List (ℕ × ℕ)) → AreWithin n pairs → IsAcyclic pairs ↔ ((order : List ℕ) × IsRanked n pairs order) }
{}
