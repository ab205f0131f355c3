//! Worked examples of the definitions. These functions do nothing: what they ensure is what the checker computes.

ghost use Rattle.std.specs.Prelude.{◌≡◌, [], ◌∷◌};
ghost use Rattle.ci_board.specs.Examples.{two_stages, no_needs, failing, live, succeeded, failed, retried, AreStatuses, edges, edges_of_none, chain};
ghost use Rattle.ci_board.specs.Rows.{no_facts};
ghost use Rattle.ci_board.specs.declared.facts.Status.TheVariants.{Created, Pending, Running, Success, Failed, Skipped};

/// The statuses of some pipelines, job by job.
pub fn status_examples()
    ensures two_stages { AreStatuses two_stages (live ∷ no_facts ∷ []) (Running ∷ Created ∷ []) }
    ensures no_needs { AreStatuses no_needs (no_facts ∷ no_facts ∷ no_facts ∷ []) (Pending ∷ Created ∷ Pending ∷ []) }
    ensures after_failure { AreStatuses failing (failed ∷ no_facts ∷ no_facts ∷ no_facts ∷ no_facts ∷ []) (Failed ∷ Pending ∷ Pending ∷ Skipped ∷ Skipped ∷ []) }
    ensures after_retry { AreStatuses failing (retried failed ∷ succeeded ∷ no_facts ∷ no_facts ∷ no_facts ∷ []) (Pending ∷ Success ∷ Created ∷ Created ∷ Created ∷ []) }
{}

/// How many edges `apply` may look at: where a job starts, where nothing changes, where a job is retried and all rows differ, and
/// where the last job but one of a chain ends.
pub fn edge_examples()
    ensures first_starts { edges two_stages 0 (0 ∷ []) ≡ 1 }
    ensures lint_starts { edges no_needs 2 (2 ∷ []) ≡ 0 }
    ensures no_change { edges_of_none no_needs ≡ 0 }
    ensures retry { edges failing 0 (0 ∷ 1 ∷ 2 ∷ 3 ∷ 4 ∷ []) ≡ 4 }
    ensures short_chain { edges (chain 10) 8 (8 ∷ 9 ∷ []) ≡ 1 }
    ensures long_chain { edges (chain 200) 198 (198 ∷ 199 ∷ []) ≡ 1 }
{}
