//! What is due at a moment ends, by so many sweeps.

ghost use Rattle.std.specs.Prelude.{List, [], ◌∷◌, ◌++◌, length, ℕ, ◌≡◌, ◌≤◌, All};
ghost use Rattle.ci_machine_steps.specs.Prelude.{AreBoard, Seed, State, IsReached, NoneIsDue, NoneIsRedundant, HasOneBoard};
ghost use Rattle.ci_machine_laws.specs.Sweeping.{Sweeps, unended, EndsBy};
ghost use Rattle.ci_machine_laws.specs.Examples.{swept};
ghost use Rattle.ci_machine_laws.specs.SweepExamples.{overtaken, third_waits, swept_once, swept_twice};

use ci_board::facts::Status;
use ci_board::laws::one_assignment;
use ci_machine::records::Cause;
use ci_machine::reply::Swept;

/// From each state that a history leads to, sweeps at one moment, one after the other: once one finds nothing, no live attempt is due at that
/// moment and no pipeline is redundant. Before it there are no more than there were live attempts and unfinished pipelines. And there is such a
/// one: a sweep can always be made, and so many at most do something.
pub fn what_is_due_ends()
    ensures none_left { (s t : State) (now : ℕ) (did : List Swept) → IsReached s → Sweeps now s (did ++ (Swept.Nothing ∷ [])) t → NoneIsDue t now × NoneIsRedundant t }
    ensures so_many { (s t : State) (now : ℕ) (did : List Swept) (one : HasOneBoard s) → IsReached s → Sweeps now s did t → All (λ d. d ≡ Swept.Nothing → ⊥) did → length did ≤ unended s one.board }
    ensures ends { (s : State) (now : ℕ) (seed : Seed) (one : HasOneBoard s) → IsReached s → EndsBy now s one.board }
{
    one_assignment();
}

/// Of two pipelines of `main` the older one's first job was granted at 1000, and is interruptible. At 1120 a sweep ends its lease, which leaves both
/// pipelines unfinished; the next cancels the older pipeline, for its second job is pending; and the third finds nothing. A second earlier
/// the lease isn't over, and the first sweep cancels the pipeline at once.
#[tactic(auto, using(crate::proofs::Computed::computed))]
pub fn sweep_examples()
    ensures before { AreBoard overtaken (third_waits Status.Running Status.Pending) }
    ensures count { unended overtaken (third_waits Status.Running Status.Pending) ≡ 3 }
    ensures first { (swept overtaken (third_waits Status.Running Status.Pending) 1120).0 ≡ Swept.Ended 1 Cause.StuckOrTimeoutFailure }
    ensures once { AreBoard swept_once (third_waits Status.Failed Status.Pending) }
    ensures count_once { unended swept_once (third_waits Status.Failed Status.Pending) ≡ 2 }
    ensures second { (swept swept_once (third_waits Status.Failed Status.Pending) 1120).0 ≡ Swept.Cancelled 1 }
    ensures twice { AreBoard swept_twice (third_waits Status.Failed Status.Canceled) }
    ensures count_twice { unended swept_twice (third_waits Status.Failed Status.Canceled) ≡ 1 }
    ensures third { swept swept_twice (third_waits Status.Failed Status.Canceled) 1120 ≡ (Swept.Nothing, []) }
    ensures all { Sweeps 1120 overtaken (Swept.Ended 1 Cause.StuckOrTimeoutFailure ∷ Swept.Cancelled 1 ∷ Swept.Nothing ∷ []) swept_twice }
    ensures too_early { (swept overtaken (third_waits Status.Running Status.Pending) 1119).0 ≡ Swept.Cancelled 1 }
{}
