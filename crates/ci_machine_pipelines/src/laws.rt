//! Laws of what is answered. These functions do nothing: what they ensure is what the checker proves.

ghost use Rattle.std.specs.Prelude.{◌≡◌, ℕ, List, Some, None, Ok, Err};
ghost use Rattle.ci_machine_steps.specs.Prelude.{State, Variable, NewPipeline, M15, Detail, Plan, refused, faulted, given_by, ShowsCreated, Creates};
ghost use Rattle.ci_machine_pipelines.specs.declared.creation.Creation.{Creation};
ghost use Rattle.ci_machine_pipelines.specs.declared.files.FileFault.TheVariants.{Fault};
ghost use Rattle.ci_machine_pipelines.specs.Creations.{origin, LaysOut, creation_view};

/// What `lay_out` answers, with the next numbers of a state, leads to the plans of the event's definition: its records, shown as they stand in
/// the state after, make the pipeline; where it has none, a number is over the limit (M15); and its fault is that of the file (M14).
pub fn laid_out_creates()
    ensures made { (s : State) (text : List ℕ) (new : NewPipeline) (vs : List Variable) (now : ℕ) (c : Creation) (plan : Plan) → LaysOut text (origin s.next.pipeline s.next.job new vs now) (Ok (Some c)) → ShowsCreated s s.next.job (creation_view c) plan → Creates s new (given_by new vs) now (Ok text) plan }
    ensures lacking { (s : State) (text : List ℕ) (new : NewPipeline) (vs : List Variable) (now : ℕ) (plan : Plan) → LaysOut text (origin s.next.pipeline s.next.job new vs now) (Ok None) → plan ≡ refused M15 → Creates s new (given_by new vs) now (Ok text) plan }
    ensures faulty { (s : State) (text : List ℕ) (new : NewPipeline) (vs : List Variable) (now : ℕ) (detail : Detail) (plan : Plan) → LaysOut text (origin s.next.pipeline s.next.job new vs now) (Err (Fault detail)) → plan ≡ faulted detail → Creates s new (given_by new vs) now (Ok text) plan }
{}
