//! What an event leads to from a state is fixed.

ghost use Rattle.std.specs.Prelude.{ℕ, ◌≡◌, codes, Some, None};
ghost use Rattle.ci_machine_steps.specs.Prelude.{Event, Seed, JobQuery, PipelineQuery, NewPipeline, Answer, Reply, State, Step, IsReached};
ghost use Rattle.ci_machine_laws.specs.ShownAgain.{ActsOnJob, asks_for};
ghost use Rattle.ci_machine_laws.specs.OneOutcome.{text_read, OneOutcome};
ghost use Rattle.ci_machine_laws.specs.Examples.{with_file, new_file, by_token};

use ci_board::laws::one_assignment;
use ci_config::laws::reads_alike;
use ci_machine::request::Request;
use ci_yaml::laws::{has_not_both, has_one_fault, has_one_tree};

/// From a state that a history leads to, an event has at a moment and with a seed one answer, and one state after it; or one of two answers is K13 X8,
/// and then the event reads a CI file that holds an expression with a pattern.
pub fn an_event_has_one_outcome()
    ensures { (s t u : State) (e : Event) (now : ℕ) (seed : Seed) (a b : Answer) → IsReached s → Step s e now seed a t → Step s e now seed b u → OneOutcome s e a t b u }
{
    one_assignment();
    reads_alike();
    has_not_both();
    has_one_fault();
    has_one_tree();
}

/// Where a job is played, cancelled or tried again, or a pipeline is cancelled, and this isn't refused, the reply is the one that is given where the
/// job or the pipeline is asked for next. Where a pipeline is made, its body is.
pub fn an_act_is_shown_again()
    ensures job { (s t u : State) (request : Request) (query : JobQuery) (now later : ℕ) (seed other : Seed) (a b : Reply) → IsReached s → ActsOnJob query request → Step s (Event.Request request) now seed (Answer.Reply a) t → a.code ≡ None
        → Step t (Event.Request (Request.ShowJob query)) later other (Answer.Reply b) u → b ≡ a }
    ensures pipeline { (s t u : State) (query : PipelineQuery) (now later : ℕ) (seed other : Seed) (a b : Reply) → IsReached s → Step s (Event.Request (Request.CancelPipeline query)) now seed (Answer.Reply a) t → a.code ≡ None
        → Step t (Event.Request (Request.ShowPipeline query)) later other (Answer.Reply b) u → b ≡ a }
    ensures made { (s t u : State) (new : NewPipeline) (now later : ℕ) (seed other : Seed) (a b : Reply) → IsReached s → Step s (Event.Request (Request.CreatePipeline new)) now seed (Answer.Reply a) t → a.code ≡ None
        → Step t (Event.Request (Request.ShowPipeline (asks_for new s.next.pipeline))) later other (Answer.Reply b) u → b.body ≡ a.body }
{
    one_assignment();
}

/// Which text an event reads: of a file that is to be set its own, of a pipeline that is to be made its project's, if there is one; and of any
/// other event none.
pub fn reading_examples()
    ensures set { text_read (with_file None) (Event.Request (Request.SetFile (new_file (codes "build:")))) ≡ Some (codes "build:") }
    ensures made { text_read (with_file (Some (codes "unit:"))) (Event.Request (Request.CreatePipeline (by_token (codes "p")))) ≡ Some (codes "unit:") }
    ensures no_file { text_read (with_file None) (Event.Request (Request.CreatePipeline (by_token (codes "p")))) ≡ None }
    ensures no_project { text_read (with_file (Some (codes "unit:"))) (Event.Request (Request.CreatePipeline (by_token (codes "q")))) ≡ None }
    ensures asks { text_read (with_file (Some (codes "unit:"))) (Event.Request (Request.AskJob (codes "p"))) ≡ None }
    ensures sweep { text_read (with_file (Some (codes "unit:"))) Event.Sweep ≡ None }
{}
