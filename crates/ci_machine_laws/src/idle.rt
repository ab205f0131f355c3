//! A runner that asks for a job, and is told that there is none.

ghost use Rattle.std.specs.Prelude.{List, [], ◌∷◌, ℕ, ◌≡◌, codes, true, false, Some};
ghost use Rattle.ci_machine_steps.specs.Prelude.{BoardRow, Job, Runner, Event, Seed, Answer, Reply, State, AreBoard, Step, IsReached, IsLeastEligible};
ghost use Rattle.ci_machine_laws.specs.NoJob.{IsNotFor, HasNoJob};
ghost use Rattle.ci_machine_laws.specs.Examples.{rows};
ghost use Rattle.ci_machine_laws.specs.WaitingExamples.{some_runner, tagged, waits, tagged_job, ship};
ghost use Rattle.ci_machine_laws.specs.ModeExamples.{prod_in, three, third_is, third_tried};

use ci_board::facts::Status;
use ci_board::laws::one_assignment;
use ci_machine::records::{AttemptState, GroupOrder};
use ci_machine::reply::HttpStatus;
use ci_machine::request::Request;

/// Where a request for a job is answered 204, in a state that a history leads to, no pending job of the state is one that the runner may be given:
/// the runner is paused, or another project's, or doesn't take the job's tags, or the job must wait for its resource group. These are
/// reasons: of a job that is granted none of them holds.
pub fn no_runner_is_left_without_its_job()
    ensures none { (s t : State) (token : List ℕ) (now : ℕ) (seed : Seed) (reply : Reply) → IsReached s → Step s (Event.Request (Request.AskJob token)) now seed (Answer.Reply reply) t → reply.status ≡ HttpStatus.NoContent → HasNoJob s token }
    ensures reasons { (s : State) (board : List BoardRow) (runner : Runner) (job : Job) → IsReached s → AreBoard s board → IsLeastEligible s runner job → IsNotFor s board runner job → ⊥ }
{
    one_assignment();
}

/// Why a pending job isn't for a runner: of one with the tags `linux` and `arm` the second is lacking; untagged, another project's, paused.
/// Of three pipelines each of whose jobs has the resource group `prod`, the first job waits while the third is live, and where the newest goes
/// first; the second where the oldest goes first; and where no attempt holds the group and it is unordered, the first is for the runner.
pub fn idle_examples()
    ensures lacks_tag { IsNotFor (waits (codes "linux" ∷ codes "arm" ∷ []) (tagged (codes "linux" ∷ []))) (rows Status.Pending) (tagged (codes "linux" ∷ [])) (tagged_job (codes "linux" ∷ codes "arm" ∷ [])) }
    ensures untagged { IsNotFor (waits [] (tagged (codes "arm" ∷ []))) (rows Status.Pending) (tagged (codes "arm" ∷ [])) (tagged_job []) }
    ensures other_project { IsNotFor (waits [] (record some_runner { project = Some 2 })) (rows Status.Pending) (record some_runner { project = Some 2 }) (tagged_job []) }
    ensures paused { IsNotFor (waits [] (record some_runner { paused = true })) (rows Status.Pending) (record some_runner { paused = true }) (tagged_job []) }
    ensures held { IsNotFor (three [] (third_tried AttemptState.Live)) (third_is Status.Running) some_runner (ship false 1) }
    ensures newest_first { IsNotFor (three (prod_in 1 GroupOrder.NewestReadyFirst) []) (third_is Status.Pending) some_runner (ship false 1) }
    ensures oldest_first { IsNotFor (three (prod_in 1 GroupOrder.OldestFirst) []) (third_is Status.Pending) some_runner (ship false 2) }
    ensures unordered { IsNotFor (three [] []) (third_is Status.Pending) some_runner (ship false 1) → ⊥ }
{}
