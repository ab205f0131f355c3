//! Worked examples of the definitions. These functions do nothing: what they ensure is what the checker computes.

ghost use Rattle.std.specs.Prelude.{◌≡◌, [], ◌∷◌, Some, None, codes, replicate};
ghost use Rattle.ci_graph_layout.specs.Examples.{bare, job, need, optional_need, needing, ruled_by, if_a, never, file, names_of, pairs_of, fault_of};
ghost use Rattle.ci_graph_layout.specs.declared.fault.GraphCode.TheVariants.{G1, G2, G4, G5};

use crate::limits::MAX_SEARCH_COST;

/// What looking for a file's patterns may cost.
pub fn has_this_limit()
    ensures { MAX_SEARCH_COST ≡ 1500000000 }
{}

/// Jobs stand by stage and then by the file; one that gives `needs`, be it an empty list, waits for those alone.
pub fn order_examples()
    ensures by_stage { names_of bare (file (job (codes "lint") (codes "deploy") ∷ job (codes "slow") (codes "build") ∷ job (codes "pack") (codes "test") ∷ [])) ≡ codes "slow" ∷ codes "pack" ∷ codes "lint" ∷ [] }
    ensures no_needs { pairs_of (file (job (codes "slow") (codes "build") ∷ job (codes "pack") (codes "test") ∷ needing [] (job (codes "lint") (codes "deploy")) ∷ [])) ≡ (0, 1) ∷ [] }
    ensures stages { pairs_of (file (job (codes "a") (codes "build") ∷ job (codes "b") (codes "build") ∷ job (codes "c") (codes "test") ∷ [])) ≡ (0, 2) ∷ (1, 2) ∷ [] }
    ensures circle { pairs_of (file (needing (need (codes "b") ∷ []) (job (codes "a") (codes "test")) ∷ needing (need (codes "a") ∷ []) (job (codes "b") (codes "test")) ∷ [])) ≡ (1, 0) ∷ (0, 1) ∷ [] }
    ensures twice { pairs_of (file (job (codes "a") (codes "test") ∷ needing (need (codes "a") ∷ need (codes "a") ∷ []) (job (codes "b") (codes "test")) ∷ [])) ≡ (0, 1) ∷ (0, 1) ∷ [] }
{}

/// Faults of graphs, and graphs without one.
pub fn fault_examples()
    ensures left_out { fault_of (file (ruled_by (if_a ∷ []) (job (codes "a") (codes "build")) ∷ needing (need (codes "a") ∷ []) (job (codes "b") (codes "test")) ∷ [])) ≡ Some G1 }
    ensures optional { fault_of (file (ruled_by (if_a ∷ []) (job (codes "a") (codes "build")) ∷ needing (optional_need (codes "a") ∷ []) (job (codes "b") (codes "test")) ∷ [])) ≡ None }
    ensures later { fault_of (file (needing (need (codes "b") ∷ []) (job (codes "a") (codes "build")) ∷ job (codes "b") (codes "test") ∷ [])) ≡ Some G2 }
    ensures no_rule { fault_of (file (ruled_by [] (job (codes "a") (codes "build")) ∷ [])) ≡ Some G4 }
    ensures only_pre { fault_of (file (job (codes "a") (codes ".pre") ∷ job (codes "b") (codes ".post") ∷ [])) ≡ Some G4 }
    ensures fifty { fault_of (file (needing (replicate 50 (need (codes "a"))) (job (codes "b") (codes "test")) ∷ job (codes "a") (codes "build") ∷ [])) ≡ None }
    ensures fifty_one { fault_of (file (needing (replicate 51 (need (codes "a"))) (job (codes "b") (codes "test")) ∷ job (codes "a") (codes "build") ∷ [])) ≡ Some G5 }
    ensures many_before_unmet { fault_of (file (needing (replicate 51 (need (codes "z"))) (job (codes "b") (codes "test")) ∷ [])) ≡ Some G5 }
    ensures unmet_before_later { fault_of (file (needing (need (codes "b") ∷ need (codes "z") ∷ []) (job (codes "a") (codes "build")) ∷ job (codes "b") (codes "test") ∷ [])) ≡ Some G1 }
{}
