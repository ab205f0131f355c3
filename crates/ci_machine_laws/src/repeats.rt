//! What a runner sends again, as it does where a reply was lost.

ghost use Rattle.std.specs.Prelude.{List, ℕ, ◌≡◌, true};
ghost use Rattle.ci_machine_steps.specs.Prelude.{Event, Seed, Answer, State, Step, Past, Leads, IsReached};
ghost use Rattle.ci_machine_laws.specs.Repeats.{is_of_runner, RepeatsChangeNothing};

/// In each history, what a runner sent again changed nothing. What it sent twice at one moment, where nothing changed between, left the
/// state that it left once. A final state to which any earlier line had been answered 200 changed nothing when it came again, whatever had come
/// between: it was answered as at first while its attempt was there, and M5 once that had gone with its pipeline, which a line of the
/// history had pruned. The first is said of a single step, too, in each state that a history leads to.
pub fn repeats_change_nothing()
    ensures history { (h : List Past) (s : State) → Leads h s → RepeatsChangeNothing h s }
    ensures twice { (s t u : State) (e : Event) (now : ℕ) (first again : Seed) (a b : Answer) → IsReached s → is_of_runner e ≡ true → Step s e now first a t → Step t e now again b u → u ≡ t }
{}
