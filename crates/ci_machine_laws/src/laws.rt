//! What holds of every step and of each reached state, and worked examples.

ghost use Rattle.std.specs.Prelude.{List, [], ◌∷◌, ℕ, ◌≡◌, map, codes, replicate, All, Contains, true, false, Some, None, Ok, Err};
ghost use Rattle.ci_machine_steps.specs.Prelude.{Pipeline, Job, Attempt, BoardRow, Event, Seed, TracePart, NewMode, Reply, Answer, State, applied, jobs_of, attempts_of, AreBoard};
ghost use Rattle.ci_machine_steps.specs.Prelude.{Plan, refused, faulted, add_project, made_project, add_runner, made_runner, Variables, set_variable, delete_variable, mode_told};
ghost use Rattle.ci_machine_steps.specs.Prelude.{set_mode, plain, refusal, lacks_numbers, may_create, nothing_to_run, unleased, accepted_to, not_accepted, is_name, Does, Step};
ghost use Rattle.ci_machine_steps.specs.Prelude.{Stepped, outcome_of, detail_text, IsRefusal, Laws, Past, Leads, IsReached, IsSound, HasNoCircle, HasOneBoard, WasPending, holders};
ghost use Rattle.ci_machine_steps.specs.Prelude.{prunable_in, pruned_reply, nothing_to_prune, without_pipeline, project_at, trace_of, leases, renewed, is_over, deadline, accepted};
ghost use Rattle.ci_machine_steps.specs.Prelude.{size_after, finished, cause_of};
ghost use Rattle.ci_machine_steps.specs.Reports.{told};
ghost use Rattle.ci_machine_laws.specs.Examples.{reply_text, project_added, with_project, new_runner, runner_added, pipeline, made, given, pipeline_made, granted, with_pipeline, with_attempt, token, two_rows, rows, asked, project_of, pair, with_variables, set_to, stage_by, new_variable, old_variable, hundred, put_variable, seed, attempt, lease, leased, after, sent, said, swept, query, job_shown, trace_shown, hello, hello_world};
ghost use Rattle.ci_machine_laws.specs.ActExamples.{pipeline_query, board_from, pipeline_after, four, four_board, all_cancelled, cancelled_rows, cancel_marks, run_cancelled, run_cancelled_rows, five, five_board, first_retried, retried_rows, two, two_board, hand_played, played_rows, succeeded, succeeded_board, hand_retried};
ghost use Rattle.ci_machine_laws.specs.WaitingExamples.{some_runner, tagged, waits, pause, both, answer_of, with_tags, for_project, of_a_minute, heard_at, replies_at, moments, ships, shipping, after_asking};
ghost use Rattle.ci_machine_laws.specs.ModeExamples.{new_mode, mode_shown, prod_in, has_order, has_none, offered, three, third_is, third_tried, pairs, pairs_running, pairs_done};
ghost use Rattle.ci_machine_laws.specs.ShownExamples.{three_rows, oldest, all_wait, second_cancelled, first_cancelled, third_done, third_retried};
ghost use Rattle.ci_machine_laws.specs.PruneExamples.{second_day, both_done, both_board, first_pruned, second_left, second_board, second_pruned, running, waiting, with_second};
ghost use Rattle.ci_machine_laws.specs.Pieces.{GoesBehind};
ghost use Rattle.ci_machine_laws.specs.Unchanged.{LeadsOrStays, AreSome};
ghost use Rattle.ci_machine_laws.specs.Modes.{SetsMode};

use ci_board::facts::Status;
use ci_board::laws::one_assignment;
use ci_machine::lease::{LeaseFault, PieceFault};
use ci_machine::records::{AttemptState, Cause, GroupOrder};
use ci_machine::reply::{Code, Detail, FaultCode, HttpStatus, JobStatus, Swept};
use ci_machine::request::{Report, Request};

/// A step that refuses leaves the state as it was.
pub fn a_refusal_changes_nothing()
    ensures { (s t : State) (e : Event) (now : ℕ) (seed : Seed) (a : Answer) → Step s e now seed a t → IsRefusal a → t ≡ s }
{}

/// The machine answers neither M16 nor M17: these say that there was no step.
pub fn a_step_is_answered()
    ensures { (s t : State) (e : Event) (now : ℕ) (seed : Seed) (a : Answer) → Step s e now seed a t → outcome_of a ≡ Stepped }
{}

/// A piece of a trace that is accepted begins where the trace of its attempt ended, and goes behind it; the reply tells the size that the
/// trace has then, which is 4 MiB at most. Each other trace stays as it was.
pub fn an_accepted_piece_goes_behind_its_trace()
    ensures { (s t : State) (part : TracePart) (now : ℕ) (seed : Seed) (reply : Reply) → Step s (Event.Request (Request.AppendTrace part)) now seed (Answer.Reply reply) t → reply.status ≡ HttpStatus.Accepted → GoesBehind s t part reply }
{}

/// A request that sets the process mode of a resource group, and isn't refused, changes nothing but the modes: the group has that mode then,
/// or is unordered, and each other group of the project, or of another, has the one that it had. No other event changes a mode, in each state
/// that a history leads to.
pub fn a_mode_is_of_its_group_alone()
    ensures set { (s t : State) (new : NewMode) (now : ℕ) (seed : Seed) (a : Answer) → Step s (Event.Request (Request.SetMode new)) now seed a t → (IsRefusal a → ⊥) → SetsMode s t new }
    ensures stay { (s t : State) (e : Event) (now : ℕ) (seed : Seed) (a : Answer) → IsReached s → ((new : NewMode) → e ≡ Event.Request (Request.SetMode new) → ⊥) → Step s e now seed a t → t.modes ≡ s.modes }
{}

/// The worked examples come out of the definitions, byte for byte.
#[tactic(auto, unfolding(crate::proofs::Computed::digits, crate::proofs::Computed::serde_json_on_literals, crate::proofs::Computed::hex_on_literals))]
pub fn worked_examples()
    ensures project { reply_text project_added ≡ codes "{\"id\":1,\"token\":\"p1-abababababababababababababababab\"}" }
    ensures runner { reply_text runner_added ≡ codes "{\"id\":1,\"token\":\"r1-abababababababababababababababab\"}" }
    ensures pipeline { reply_text pipeline_made ≡ codes "{\"id\":1,\"jobs\":[{\"id\":1,\"name\":\"build\",\"stage\":\"build\",\"status\":\"pending\"},{\"id\":2,\"name\":\"unit\",\"stage\":\"test\",\"status\":\"created\"}],\"ref\":\"main\",\"source\":\"api\",\"status\":\"pending\"}" }
    ensures granted { reply_text granted ≡ codes "{\"id\":1,\"job_info\":{\"name\":\"build\",\"project_id\":1,\"stage\":\"build\"},\"script\":[\"make\"],\"timeout\":3600,\"token\":\"j1-abababababababababababababababab\",\"variables\":[{\"key\":\"CI\",\"value\":\"true\"},{\"key\":\"CI_COMMIT_BRANCH\",\"value\":\"main\"},{\"key\":\"CI_COMMIT_REF_NAME\",\"value\":\"main\"},{\"key\":\"CI_JOB_ID\",\"value\":\"1\"},{\"key\":\"CI_JOB_NAME\",\"value\":\"build\"},{\"key\":\"CI_JOB_STAGE\",\"value\":\"build\"},{\"key\":\"CI_PIPELINE_ID\",\"value\":\"1\"},{\"key\":\"CI_PIPELINE_SOURCE\",\"value\":\"api\"},{\"key\":\"CI_PROJECT_ID\",\"value\":\"1\"}]}" }
    ensures asked_again { asked with_attempt (two_rows Status.Running) token ≡ nothing_to_run }
    ensures unknown_token { asked with_attempt (two_rows Status.Running) (codes "nope") ≡ refused Code.M4 }
    ensures unknown_body { reply_text (asked with_attempt (two_rows Status.Running) (codes "nope")) ≡ codes "{\"code\":\"M4\"}" }
{}

/// The rows with which the examples go on are those of their states.
#[tactic(auto, using(crate::proofs::Computed::computed), unfolding(crate::proofs::Computed::digits, crate::proofs::Computed::hex_on_literals))]
pub fn example_boards()
    ensures made { AreBoard with_pipeline (two_rows Status.Pending) }
    ensures granted { AreBoard with_attempt (two_rows Status.Running) }
    ensures leased { AreBoard leased (rows Status.Running) }
    ensures ended { AreBoard (after (swept leased (rows Status.Running) 1120) leased) (rows Status.Failed) }
{}

/// What refuses a pipeline before its file is read, in the order in which it is looked for.
pub fn refusal_examples()
    ensures unknown { may_create (Err Code.M1) pipeline ≡ Err (refused Code.M1) }
    ensures bad_ref { may_create (project_of None) (record pipeline { git_ref = []; variables = replicate 101 (pair (codes "1A") []) }) ≡ Err (faulted (Detail.Code (FaultCode.K 16))) }
    ensures many { may_create (project_of None) (with_variables (replicate 101 (pair (codes "1A") []))) ≡ Err (faulted (Detail.Code (FaultCode.K 11))) }
    ensures bad_name { may_create (project_of None) (with_variables (pair (codes "1A") [] ∷ [])) ≡ Err (faulted (Detail.Code (FaultCode.K 12))) }
    ensures twice { may_create (project_of None) (with_variables (pair (codes "A") [] ∷ pair (codes "B") [] ∷ pair (codes "A") [] ∷ [])) ≡ Err (faulted (Detail.Code (FaultCode.K 12))) }
    ensures no_file { may_create (project_of None) (with_variables (pair (codes "A") [] ∷ [])) ≡ Err (refused Code.M13) }
    ensures its_file { may_create (project_of (Some (codes "x"))) (with_variables (pair (codes "A") [] ∷ [])) ≡ Ok (codes "x") }
{}

/// The value of `CI_JOB_STAGE` where each layer gives it, and where the highest ones are taken away in turn.
pub fn layer_examples()
    ensures of_pipeline { stage_by (set_to (codes "1")) (set_to (codes "2")) (set_to (codes "3")) (set_to (codes "4")) (set_to (codes "5")) ≡ codes "1" ∷ [] }
    ensures of_project { stage_by [] (set_to (codes "2")) (set_to (codes "3")) (set_to (codes "4")) (set_to (codes "5")) ≡ codes "2" ∷ [] }
    ensures of_rule { stage_by [] [] (set_to (codes "3")) (set_to (codes "4")) (set_to (codes "5")) ≡ codes "3" ∷ [] }
    ensures of_job { stage_by [] [] [] (set_to (codes "4")) (set_to (codes "5")) ≡ codes "4" ∷ [] }
    ensures of_file { stage_by [] [] [] [] (set_to (codes "5")) ≡ codes "5" ∷ [] }
    ensures predefined { stage_by [] [] [] [] [] ≡ codes "test" ∷ [] }
{}

/// Variables of a project: one more than a hundred, one that is there already, a name that is none, and one that goes.
pub fn variable_examples()
    ensures set { set_variable (project_of None) [] (new_variable (codes "A")) ≡ (plain HttpStatus.Fine, put_variable (codes "A")) }
    ensures one_more { set_variable (project_of None) (hundred (codes "B")) (new_variable (codes "1A")) ≡ faulted (Detail.Code (FaultCode.K 11)) }
    ensures again { set_variable (project_of None) (hundred (codes "A")) (new_variable (codes "A")) ≡ (plain HttpStatus.Fine, put_variable (codes "A")) }
    ensures bad_name { set_variable (project_of None) [] (new_variable (codes "1A")) ≡ faulted (Detail.Code (FaultCode.K 12)) }
    ensures none { delete_variable (project_of None) None ≡ refused Code.M3 }
    ensures unknown { delete_variable (Err Code.M2) (Some (old_variable (codes "A"))) ≡ refused Code.M2 }
{}

/// What the details of faults print, worked out by hand.
#[tactic(auto, unfolding(crate::proofs::Computed::digits))]
pub fn detail_examples()
    ensures code { detail_text (Detail.Code (FaultCode.G 3)) ≡ codes "G3" }
    ensures keyword { detail_text (Detail.Keyword (FaultCode.K 2) (codes "image")) ≡ codes "K2 image" }
    ensures expression { detail_text (Detail.Expression (FaultCode.K 13) (FaultCode.X 2)) ≡ codes "K13 X2" }
    ensures line { detail_text (Detail.Line (FaultCode.Y 5) 3) ≡ codes "Y5 line 3" }
{}

/// The limits, at their last value and one past it.
pub fn limits()
    ensures longest_name { is_name (replicate 255 97) ≡ true }
    ensures too_long_name { is_name (replicate 256 97) ≡ false }
    ensures empty_name { is_name [] ≡ false }
    ensures space { is_name (32 ∷ []) ≡ true }
    ensures last_control { is_name (31 ∷ []) ≡ false }
    ensures delete { is_name (97 ∷ 127 ∷ []) ≡ false }

    ensures last_project { add_project 9007199254740991 (codes "p") seed ≡ made_project 9007199254740991 (codes "p") seed }
    ensures past_last_project { add_project 9007199254740992 (codes "p") seed ≡ refused Code.M15 }
    ensures last_runner { add_runner 9007199254740991 None new_runner seed ≡ made_runner 9007199254740991 new_runner seed }
    ensures past_last_runner { add_runner 9007199254740992 None new_runner seed ≡ refused Code.M15 }

    ensures last_pipeline { lacks_numbers 9007199254740991 1 1 ≡ false }
    ensures past_last_pipeline { lacks_numbers 9007199254740992 1 1 ≡ true }
    ensures last_jobs { lacks_numbers 1 9007199254740990 2 ≡ false }
    ensures past_last_jobs { lacks_numbers 1 9007199254740990 3 ≡ true }
    ensures past_all_jobs { lacks_numbers 1 9007199254740992 1 ≡ true }
{}

/// Leases worked out by hand: attempts granted at 1000, with a limit of an hour or of a minute.
pub fn lease_examples()
    ensures heard { renewed (attempt 1000 AttemptState.Live) 3600 1119 ≡ Ok 1119 }
    ensures not_over { is_over (attempt 1119 AttemptState.Live) 3600 1238 ≡ false }
    ensures over { is_over (attempt 1119 AttemptState.Live) 3600 1239 ≡ true }
    ensures late_piece { accepted (attempt 1119 AttemptState.Live) 3600 1239 0 0 1 ≡ Err (PieceFault.Unleased LeaseFault.LeaseOver) }
    ensures stuck { cause_of (lease 1119 3600) ≡ Cause.StuckOrTimeoutFailure }

    ensures went_back { renewed (attempt 1050 AttemptState.Live) 60 1005 ≡ Ok 1050 }
    ensures within_limit { is_over (attempt 1050 AttemptState.Live) 60 1059 ≡ false }
    ensures past_limit { is_over (attempt 1050 AttemptState.Live) 60 1060 ≡ true }
    ensures timed_out { cause_of (lease 1050 60) ≡ Cause.JobExecutionTimeout }
    ensures later_deadline { deadline (attempt 1100 AttemptState.Live) 3600 ≡ 1220 }

    ensures next_piece { size_after 5 5 5 ≡ Ok 10 }
    ensures repeated_piece { size_after 5 0 5 ≡ Err (PieceFault.WrongOffset 5) }
    ensures gap { size_after 10 11 2 ≡ Err (PieceFault.WrongOffset 10) }
    ensures full { size_after 4194300 4194300 4 ≡ Ok 4194304 }
    ensures past_full { size_after 4194300 4194300 5 ≡ Err PieceFault.TraceFull }

    ensures same_end { finished (attempt 1000 (AttemptState.Succeeded None)) 3600 9000 (AttemptState.Succeeded None) ≡ Ok (AttemptState.Succeeded None) }
    ensures other_exit { finished (attempt 1000 (AttemptState.Succeeded None)) 3600 1000 (AttemptState.Succeeded (Some 1)) ≡ Err (LeaseFault.NotLive (AttemptState.Succeeded None)) }
    ensures late_end { finished (attempt 1000 AttemptState.Live) 3600 1120 (AttemptState.Succeeded None) ≡ Err LeaseFault.LeaseOver }
    ensures in_time { finished (attempt 1000 AttemptState.Live) 3600 1119 (AttemptState.Succeeded None) ≡ Ok (AttemptState.Succeeded None) }
{}

/// Traces, final states and sweeps worked out by hand, of an attempt granted at 1000 with a limit of an hour.
#[tactic(auto, unfolding(crate::proofs::Computed::digits, crate::proofs::Computed::serde_json_on_literals))]
pub fn trace_examples()
    ensures first_piece { (sent leased 0 (codes "hello") 1119).0 ≡ accepted_to 5 }
    ensures repeated_piece { sent hello 0 (codes "hello") 1119 ≡ (not_accepted (PieceFault.WrongOffset 5), []) }
    ensures next_piece { (sent hello 5 (codes "world") 1119).0 ≡ accepted_to 10 }
    ensures gap { sent hello_world 11 (codes "ab") 1119 ≡ (not_accepted (PieceFault.WrongOffset 10), []) }
    ensures traces { hello_world.traces ≡ record { attempt = 1; bytes = codes "helloworld" } ∷ [] }
    ensures trace { reply_text (trace_shown hello_world (query 1 1 (codes "p"))) ≡ codes "helloworld" }

    ensures too_early { swept hello_world (rows Status.Running) 1238 ≡ (Swept.Nothing, []) }
    ensures late_piece { sent hello_world 10 (codes "!") 1239 ≡ refused Code.M7 }
    ensures ended { (swept hello_world (rows Status.Running) 1239).0 ≡ Swept.Ended 1 Cause.StuckOrTimeoutFailure }
    ensures ended_once { swept (after (swept hello_world (rows Status.Running) 1239) hello_world) (rows Status.Failed) 1240 ≡ (Swept.Nothing, []) }

    ensures went_back { (after (said (after (said leased [] Report.Running 1100) leased) [] Report.Running 1050) leased).attempts ≡ attempt 1100 AttemptState.Live ∷ [] }
    ensures succeeded { (said leased [] (Report.Success None) 1119).0 ≡ told JobStatus.Success }
    ensures repeated { said (after (said leased [] (Report.Success None) 1119) leased) [] (Report.Success None) 9000 ≡ (told JobStatus.Success, []) }
    ensures other_exit { said (after (said leased [] (Report.Success None) 1119) leased) [] (Report.Success (Some 1)) 1119 ≡ (unleased (LeaseFault.NotLive (AttemptState.Succeeded None)), []) }
    ensures late_end { said leased [] (Report.Success None) 1120 ≡ refused Code.M7 }
    ensures other_token { said leased (codes "j") Report.Running 1000 ≡ refused Code.M5 }

    ensures unknown_project { job_shown leased (rows Status.Running) (query 1 1 (codes "q")) ≡ refused Code.M1 }
    ensures other_project { job_shown leased (rows Status.Running) (query 2 1 (codes "p")) ≡ refused Code.M2 }
    ensures unknown_job { job_shown leased (rows Status.Running) (query 1 2 (codes "p")) ≡ refused Code.M3 }
    ensures running { reply_text (job_shown leased (rows Status.Running) (query 1 1 (codes "p"))) ≡ codes "{\"id\":1,\"name\":\"build\",\"stage\":\"build\",\"status\":\"running\"}" }
    ensures failed { reply_text (job_shown (after (swept leased (rows Status.Running) 1120) leased) (rows Status.Failed) (query 1 1 (codes "p"))) ≡ codes "{\"id\":1,\"name\":\"build\",\"stage\":\"build\",\"status\":\"failed\"}" }
{}

/// A pipeline is cancelled: at once all its jobs that can be, with the live attempt of one, and not the one that was skipped.
/// Where one job alone is cancelled, the one that waits for it is skipped.
#[tactic(auto, using(crate::proofs::Computed::computed), unfolding(crate::proofs::Computed::digits, crate::proofs::Computed::serde_json_on_literals))]
pub fn cancel_examples()
    ensures before { AreBoard four four_board }
    ensures all { Does four four_board (Request.CancelPipeline (pipeline_query 1 1 (codes "p"))) 1100 seed all_cancelled }
    ensures reply { reply_text all_cancelled ≡ codes "{\"id\":1,\"jobs\":[{\"id\":1,\"name\":\"run\",\"stage\":\"build\",\"status\":\"canceled\"},{\"id\":2,\"name\":\"hand\",\"stage\":\"build\",\"status\":\"canceled\"},{\"id\":3,\"name\":\"alarm\",\"stage\":\"build\",\"status\":\"skipped\"},{\"id\":4,\"name\":\"later\",\"stage\":\"test\",\"status\":\"canceled\"}],\"ref\":\"main\",\"source\":\"api\",\"status\":\"canceled\"}" }
    ensures marks { cancel_marks (after all_cancelled four) ≡ true ∷ true ∷ false ∷ true ∷ [] }
    ensures attempts { (after all_cancelled four).attempts ≡ attempt 1000 AttemptState.Cancelled ∷ [] }
    ensures board { AreBoard (after all_cancelled four) (board_from 1 cancelled_rows) }
    ensures told { said (after all_cancelled four) [] (Report.Success None) 1100 ≡ (record (refusal Code.M6) { job_status = Some JobStatus.Canceled }, []) }
    ensures again { Does (after all_cancelled four) (board_from 1 cancelled_rows) (Request.CancelPipeline (pipeline_query 1 1 (codes "p"))) 1100 seed (refused Code.M12) }

    ensures one { Does four four_board (Request.CancelJob (query 1 1 (codes "p"))) 1100 seed run_cancelled }
    ensures one_reply { reply_text run_cancelled ≡ codes "{\"id\":1,\"name\":\"run\",\"stage\":\"build\",\"status\":\"canceled\"}" }
    ensures one_board { AreBoard (after run_cancelled four) (board_from 1 run_cancelled_rows) }

    ensures play_of_created { Does four four_board (Request.Play (query 1 4 (codes "p"))) 1100 seed (refused Code.M10) }
    ensures retry_of_created { Does four four_board (Request.RetryJob (query 1 4 (codes "p"))) 1100 seed (refused Code.M11) }
    ensures cancel_of_skipped { Does four four_board (Request.CancelJob (query 1 3 (codes "p"))) 1100 seed (refused Code.M12) }
    ensures unknown_job { Does four four_board (Request.CancelJob (query 1 5 (codes "p"))) 1100 seed (refused Code.M3) }
    ensures other_project { Does four four_board (Request.CancelPipeline (pipeline_query 2 1 (codes "p"))) 1100 seed (refused Code.M2) }
{}

/// A job that failed is tried again: those that were skipped since are taken back, and one that ran since stays.
#[tactic(auto, using(crate::proofs::Computed::computed), unfolding(crate::proofs::Computed::digits, crate::proofs::Computed::serde_json_on_literals))]
pub fn retry_examples()
    ensures before { AreBoard five five_board }
    ensures retried { Does five five_board (Request.RetryJob (query 1 1 (codes "p"))) 1100 seed first_retried }
    ensures reply { reply_text first_retried ≡ codes "{\"id\":1,\"name\":\"a\",\"stage\":\"build\",\"status\":\"pending\"}" }
    ensures board { AreBoard (after first_retried five) (board_from 1 retried_rows) }
    ensures pipeline { reply_text (pipeline_after (after first_retried five) [] retried_rows) ≡ codes "{\"id\":1,\"jobs\":[{\"id\":1,\"name\":\"a\",\"stage\":\"build\",\"status\":\"pending\"},{\"id\":2,\"name\":\"f\",\"stage\":\"test\",\"status\":\"success\"},{\"id\":3,\"name\":\"w\",\"stage\":\"test\",\"status\":\"created\"},{\"id\":4,\"name\":\"s\",\"stage\":\"test\",\"status\":\"created\"},{\"id\":5,\"name\":\"g\",\"stage\":\"deploy\",\"status\":\"created\"}],\"ref\":\"main\",\"source\":\"api\",\"status\":\"running\"}" }
{}

/// A manual job is played, succeeds, and is tried again: it doesn't wait for a user then.
#[tactic(auto, using(crate::proofs::Computed::computed), unfolding(crate::proofs::Computed::digits, crate::proofs::Computed::serde_json_on_literals))]
pub fn play_examples()
    ensures before { AreBoard two two_board }
    ensures played { Does two two_board (Request.Play (query 1 1 (codes "p"))) 1100 seed hand_played }
    ensures reply { reply_text hand_played ≡ codes "{\"id\":1,\"name\":\"hand\",\"stage\":\"test\",\"status\":\"pending\"}" }
    ensures board { AreBoard (after hand_played two) (board_from 1 played_rows) }
    ensures succeeded { AreBoard succeeded succeeded_board }
    ensures retried { Does succeeded succeeded_board (Request.RetryJob (query 1 1 (codes "p"))) 1100 seed hand_retried }
    ensures board_again { AreBoard (after hand_retried succeeded) (board_from 1 played_rows) }
{}

/// What an act on a job with a resource group answers is told of the state after it, and so is what is asked then. Three pipelines have a job each
/// of one group, which takes the oldest first. The second waits for the first: it is cancelled, and waits no more. Where the first is cancelled,
/// the second waits no more. The third succeeded: it is tried again, and waits for the first.
#[tactic(auto, using(crate::proofs::Computed::computed), unfolding(crate::proofs::Computed::digits, crate::proofs::Computed::serde_json_on_literals))]
pub fn shown_examples()
    ensures before { AreBoard oldest all_wait }
    ensures waits { reply_text (job_shown oldest all_wait (query 1 2 (codes "p"))) ≡ codes "{\"id\":2,\"name\":\"ship\",\"stage\":\"test\",\"status\":\"waiting_for_resource\"}" }
    ensures second_board { AreBoard (after second_cancelled oldest) (three_rows Status.Pending Status.Canceled Status.Pending) }
    ensures second { Does oldest all_wait (Request.CancelJob (query 1 2 (codes "p"))) 1100 seed second_cancelled }
    ensures second_reply { reply_text second_cancelled ≡ codes "{\"id\":2,\"name\":\"ship\",\"stage\":\"test\",\"status\":\"canceled\"}" }
    ensures second_asked { (job_shown (after second_cancelled oldest) (three_rows Status.Pending Status.Canceled Status.Pending) (query 1 2 (codes "p"))).0 ≡ second_cancelled.0 }
    ensures first_board { AreBoard (after first_cancelled oldest) (three_rows Status.Canceled Status.Pending Status.Pending) }
    ensures first { Does oldest all_wait (Request.CancelJob (query 1 1 (codes "p"))) 1100 seed first_cancelled }
    ensures waits_no_more { reply_text (job_shown (after first_cancelled oldest) (three_rows Status.Canceled Status.Pending Status.Pending) (query 1 2 (codes "p"))) ≡ codes "{\"id\":2,\"name\":\"ship\",\"stage\":\"test\",\"status\":\"pending\"}" }
    ensures third_board { AreBoard third_done (three_rows Status.Pending Status.Pending Status.Success) }
    ensures third_before { reply_text (job_shown third_done (three_rows Status.Pending Status.Pending Status.Success) (query 1 3 (codes "p"))) ≡ codes "{\"id\":3,\"name\":\"ship\",\"stage\":\"test\",\"status\":\"success\"}" }
    ensures retried_board { AreBoard (after third_retried third_done) all_wait }
    ensures retried { Does third_done (three_rows Status.Pending Status.Pending Status.Success) (Request.RetryJob (query 1 3 (codes "p"))) 1100 seed third_retried }
    ensures retried_reply { reply_text third_retried ≡ codes "{\"id\":3,\"name\":\"ship\",\"stage\":\"test\",\"status\":\"waiting_for_resource\"}" }
    ensures retried_asked { (job_shown (after third_retried third_done) all_wait (query 1 3 (codes "p"))).0 ≡ third_retried.0 }
{}

/// Runners that are to be made, and refused in the order in which it is looked for: 33 tags, a name or a tag that isn't a name, a project that
/// isn't there.
pub fn new_runner_examples()
    ensures many { add_runner 1 None (record (with_tags (replicate 33 [])) { name = [] }) seed ≡ faulted (Detail.Code (FaultCode.K 11)) }
    ensures bad_name { add_runner 1 None (record (for_project (Some 2)) { name = [] }) seed ≡ faulted (Detail.Code (FaultCode.K 16)) }
    ensures bad_tag { add_runner 1 None (record (with_tags (codes "a" ∷ [] ∷ [])) { project = Some 2 }) seed ≡ faulted (Detail.Code (FaultCode.K 16)) }
    ensures no_project { add_runner 9007199254740992 None (for_project (Some 2)) seed ≡ refused Code.M2 }
    ensures full { add_runner 1 None (with_tags (replicate 32 (codes "a"))) seed ≡ made_runner 1 (with_tags (replicate 32 (codes "a"))) seed }
    ensures of_project { add_runner 2 (project_at with_project 1) (for_project (Some 1)) seed ≡ made_runner 2 (for_project (Some 1)) seed }
{}

/// Which runner a pending job of project 1 is given to: by its tags, by the runner's project, and not while the runner is paused.
#[tactic(auto, unfolding(crate::proofs::Computed::digits, crate::proofs::Computed::serde_json_on_literals))]
pub fn runner_examples()
    ensures one_tag { answer_of (waits (codes "linux" ∷ codes "arm" ∷ []) (tagged (codes "linux" ∷ []))) (rows Status.Pending) ≡ HttpStatus.NoContent }
    ensures all_tags { answer_of (waits (codes "linux" ∷ codes "arm" ∷ []) (tagged (codes "arm" ∷ codes "linux" ∷ codes "x" ∷ []))) (rows Status.Pending) ≡ HttpStatus.Created }
    ensures untagged { answer_of (waits [] (tagged (codes "arm" ∷ []))) (rows Status.Pending) ≡ HttpStatus.NoContent }
    ensures other_project { answer_of (waits [] (record some_runner { project = Some 2 })) (rows Status.Pending) ≡ HttpStatus.NoContent }
    ensures own_project { answer_of (waits [] (record some_runner { project = Some 1 })) (rows Status.Pending) ≡ HttpStatus.Created }

    ensures pausing { reply_text (pause true (waits [] some_runner)) ≡ codes "{\"id\":1,\"paused\":true}" }
    ensures paused { answer_of (after (pause true (waits [] some_runner)) (waits [] some_runner)) (rows Status.Pending) ≡ HttpStatus.NoContent }
    ensures resumed { answer_of (after (pause false (waits [] (record some_runner { paused = true }))) (waits [] (record some_runner { paused = true }))) (rows Status.Pending) ≡ HttpStatus.Created }
    ensures no_runner { pause true leased ≡ refused Code.M3 }
{}

/// A job with a time limit of a minute: its runner is heard of in time, but its lease ends with the minute.
pub fn limit_examples()
    ensures heard { replies_at moments of_a_minute ≡ replicate 6 HttpStatus.Fine }
    ensures too_early { swept (heard_at moments of_a_minute) (rows Status.Running) 1059 ≡ (Swept.Nothing, []) }
    ensures ended { (swept (heard_at moments of_a_minute) (rows Status.Running) 1060).0 ≡ Swept.Ended 1 Cause.JobExecutionTimeout }
{}

/// Two pipelines of `main`, each with a job that has the resource group `prod`: while the first job's attempt is live the second waits, and
/// a newer pipeline makes the first redundant only if its job is interruptible.
#[tactic(auto, unfolding(crate::proofs::Computed::digits, crate::proofs::Computed::serde_json_on_literals, crate::proofs::Computed::hex_on_literals))]
pub fn group_examples()
    ensures first { (shipping false (codes "main")).attempts ≡ record (attempt 1000 AttemptState.Live) { token = codes "j1-abababababababababababababababab" } ∷ [] }
    ensures held { holders (shipping false (codes "main")) ≡ record { project = 1; group = codes "prod"; attempt = 1 } ∷ [] }
    ensures shown { reply_text (job_shown (shipping false (codes "main")) (both Status.Running Status.Pending) (query 1 2 (codes "p"))) ≡ codes "{\"id\":2,\"name\":\"ship\",\"stage\":\"test\",\"status\":\"waiting_for_resource\"}" }
    ensures waiting { answer_of (shipping false (codes "main")) (both Status.Running Status.Pending) ≡ HttpStatus.NoContent }
    ensures kept { swept (shipping false (codes "main")) (both Status.Running Status.Pending) 1001 ≡ (Swept.Nothing, []) }
    ensures ended { (swept (shipping false (codes "main")) (both Status.Running Status.Pending) 1120).0 ≡ Swept.Ended 1 Cause.StuckOrTimeoutFailure }
    ensures freed { holders (after (swept (shipping false (codes "main")) (both Status.Running Status.Pending) 1120) (shipping false (codes "main"))) ≡ [] }
    ensures second { map (λ a. a.job) (after_asking (after (swept (shipping false (codes "main")) (both Status.Running Status.Pending) 1120) (shipping false (codes "main"))) (both Status.Failed Status.Pending)).attempts ≡ 1 ∷ 2 ∷ [] }

    ensures redundant { (swept (shipping true (codes "main")) (both Status.Running Status.Pending) 1001).0 ≡ Swept.Cancelled 1 }
    ensures cancelled { map (λ a. a.state) (after (swept (shipping true (codes "main")) (both Status.Running Status.Pending) 1001) (shipping true (codes "main"))).attempts ≡ AttemptState.Cancelled ∷ [] }
    ensures then_second { map (λ a. a.job) (after_asking (after (swept (shipping true (codes "main")) (both Status.Running Status.Pending) 1001) (shipping true (codes "main"))) (both Status.Canceled Status.Pending)).attempts ≡ 1 ∷ 2 ∷ [] }
    ensures untried { (swept (ships false (codes "main")) (both Status.Pending Status.Pending) 1001).0 ≡ Swept.Cancelled 1 }
    ensures other_ref { swept (shipping true (codes "next")) (both Status.Running Status.Pending) 1001 ≡ (Swept.Nothing, []) }
    ensures finished { swept (ships true (codes "main")) (both Status.Success Status.Pending) 1001 ≡ (Swept.Nothing, []) }
{}

/// Which job of a resource group is offered by its process mode, and which ones wait. Three pipelines have a job each, all pending: the newest
/// goes first, or the oldest, and a mode of another project counts for nothing. Of two pipelines the newer one's job is pending while the older
/// one's is created yet: by `oldest_first` it waits for that, and in no other mode; once both are pending the mode decides. The rows are those
/// of the states, in every mode: no status depends on it. A mode is set, in the place of the one that was, and goes.
#[tactic(auto, using(crate::proofs::Computed::computed), unfolding(crate::proofs::Computed::digits, crate::proofs::Computed::serde_json_on_literals))]
pub fn mode_examples()
    ensures all_pending { AreBoard (three [] []) (third_is Status.Pending) }
    ensures third_runs { AreBoard (three [] (third_tried AttemptState.Live)) (third_is Status.Running) }
    ensures third_done { AreBoard (three [] (third_tried (AttemptState.Succeeded None))) (third_is Status.Success) }
    ensures newest { offered (three (prod_in 1 GroupOrder.NewestReadyFirst) []) (third_is Status.Pending) ≡ Some 3 }
    ensures newest_first_waits { reply_text (job_shown (three (prod_in 1 GroupOrder.NewestReadyFirst) []) (third_is Status.Pending) (query 1 1 (codes "p"))) ≡ codes "{\"id\":1,\"name\":\"ship\",\"stage\":\"test\",\"status\":\"waiting_for_resource\"}" }
    ensures newest_second_waits { reply_text (job_shown (three (prod_in 1 GroupOrder.NewestReadyFirst) []) (third_is Status.Pending) (query 1 2 (codes "p"))) ≡ codes "{\"id\":2,\"name\":\"ship\",\"stage\":\"test\",\"status\":\"waiting_for_resource\"}" }
    ensures newest_third { reply_text (job_shown (three (prod_in 1 GroupOrder.NewestReadyFirst) []) (third_is Status.Pending) (query 1 3 (codes "p"))) ≡ codes "{\"id\":3,\"name\":\"ship\",\"stage\":\"test\",\"status\":\"pending\"}" }
    ensures newest_held { offered (three (prod_in 1 GroupOrder.NewestReadyFirst) (third_tried AttemptState.Live)) (third_is Status.Running) ≡ None }
    ensures newest_then { offered (three (prod_in 1 GroupOrder.NewestReadyFirst) (third_tried (AttemptState.Succeeded None))) (third_is Status.Success) ≡ Some 2 }
    ensures newest_then_waits { reply_text (job_shown (three (prod_in 1 GroupOrder.NewestReadyFirst) (third_tried (AttemptState.Succeeded None))) (third_is Status.Success) (query 1 1 (codes "p"))) ≡ codes "{\"id\":1,\"name\":\"ship\",\"stage\":\"test\",\"status\":\"waiting_for_resource\"}" }
    ensures oldest { offered (three (prod_in 1 GroupOrder.OldestFirst) []) (third_is Status.Pending) ≡ Some 1 }
    ensures oldest_waits { reply_text (job_shown (three (prod_in 1 GroupOrder.OldestFirst) []) (third_is Status.Pending) (query 1 2 (codes "p"))) ≡ codes "{\"id\":2,\"name\":\"ship\",\"stage\":\"test\",\"status\":\"waiting_for_resource\"}" }
    ensures unordered { offered (three [] []) (third_is Status.Pending) ≡ Some 1 }
    ensures unordered_pending { reply_text (job_shown (three [] []) (third_is Status.Pending) (query 1 2 (codes "p"))) ≡ codes "{\"id\":2,\"name\":\"ship\",\"stage\":\"test\",\"status\":\"pending\"}" }
    ensures of_other_project { offered (three (prod_in 2 GroupOrder.NewestReadyFirst) []) (third_is Status.Pending) ≡ Some 1 }

    ensures first_runs { AreBoard (pairs [] AttemptState.Live) pairs_running }
    ensures first_done { AreBoard (pairs [] (AttemptState.Succeeded None)) pairs_done }
    ensures created_goes_first { offered (pairs (prod_in 1 GroupOrder.OldestFirst) AttemptState.Live) pairs_running ≡ None }
    ensures waits_for_created { reply_text (job_shown (pairs (prod_in 1 GroupOrder.OldestFirst) AttemptState.Live) pairs_running (query 1 4 (codes "p"))) ≡ codes "{\"id\":4,\"name\":\"ship\",\"stage\":\"test\",\"status\":\"waiting_for_resource\"}" }
    ensures created_before { offered (pairs (prod_in 1 GroupOrder.OldestFirst) (AttemptState.Succeeded None)) pairs_done ≡ Some 2 }
    ensures ready_alone { offered (pairs (prod_in 1 GroupOrder.NewestReadyFirst) AttemptState.Live) pairs_running ≡ Some 4 }
    ensures ready_newest { offered (pairs (prod_in 1 GroupOrder.NewestReadyFirst) (AttemptState.Succeeded None)) pairs_done ≡ Some 4 }
    ensures any_ready { offered (pairs [] AttemptState.Live) pairs_running ≡ Some 4 }
    ensures any_first { offered (pairs [] (AttemptState.Succeeded None)) pairs_done ≡ Some 2 }

    ensures set { set_mode (project_of None) (new_mode (Some GroupOrder.OldestFirst)) ≡ (mode_told (codes "prod") (Some GroupOrder.OldestFirst), has_order GroupOrder.OldestFirst) }
    ensures set_reply { reply_text (set_mode (project_of None) (new_mode (Some GroupOrder.OldestFirst))) ≡ codes "{\"key\":\"prod\",\"process_mode\":\"oldest_first\"}" }
    ensures unset { (set_mode (project_of None) (new_mode None)).1 ≡ has_none }
    ensures set_once { (after (set_mode (project_of None) (new_mode (Some GroupOrder.OldestFirst))) (three (prod_in 1 GroupOrder.NewestReadyFirst) [])).modes ≡ prod_in 1 GroupOrder.OldestFirst }
    ensures gone { (after (set_mode (project_of None) (new_mode None)) (three (prod_in 1 GroupOrder.NewestReadyFirst) [])).modes ≡ [] }
    ensures told { reply_text (mode_shown (three (prod_in 1 GroupOrder.NewestReadyFirst) [])) ≡ codes "{\"key\":\"prod\",\"process_mode\":\"newest_ready_first\"}" }
    ensures told_unordered { reply_text (mode_shown (three (prod_in 2 GroupOrder.OldestFirst) [])) ≡ codes "{\"key\":\"prod\",\"process_mode\":\"unordered\"}" }
{}

/// Two finished pipelines, made at 1000 and at 90000: of those made before the second day the first goes, with its jobs, their variables, what
/// they wait for, their attempts and their traces, and then there is none. No next number changes. Of two that may go the one of least
/// number goes; one that was made at the very moment stays, and so does one with a job that runs or is pending.
#[tactic(auto, using(crate::proofs::Computed::computed), unfolding(crate::proofs::Computed::digits, crate::proofs::Computed::serde_json_on_literals))]
pub fn prune_examples()
    ensures before { AreBoard both_done both_board }
    ensures pruned { Does both_done both_board (Request.PruneOne second_day) 90060 seed first_pruned }
    ensures reply { reply_text first_pruned ≡ codes "{\"pruned\":1}" }
    ensures left { after first_pruned both_done ≡ second_left }
    ensures next { (after first_pruned both_done).next.pipeline ≡ 3 }
    ensures board { AreBoard second_left second_board }
    ensures nothing { Does second_left second_board (Request.PruneOne second_day) 90060 seed (plain HttpStatus.NoContent, []) }

    ensures least { Does both_done both_board (Request.PruneOne 90001) 90060 seed first_pruned }
    ensures second { Does second_left second_board (Request.PruneOne 90001) 90060 seed second_pruned }
    ensures second_reply { reply_text second_pruned ≡ codes "{\"pruned\":2}" }
    ensures at_the_moment { Does second_left second_board (Request.PruneOne 90000) 90060 seed nothing_to_prune }

    ensures runs { AreBoard running (with_second Status.Running) }
    ensures running { Does running (with_second Status.Running) (Request.PruneOne second_day) 90060 seed nothing_to_prune }
    ensures waits { AreBoard waiting (with_second Status.Pending) }
    ensures waiting { Does waiting (with_second Status.Pending) (Request.PruneOne second_day) 90060 seed nothing_to_prune }
{}

/// A request to prune that finds a pipeline to prune says its number, and leads to the state without that pipeline: no next number changes, and no
/// record but those that belong to it. Each other pipeline has its jobs, each of these its attempts, and each of these its trace. A finished
/// pipeline has no live attempt, so each lease stands, and each resource group is held as it was, and has its process mode.
pub fn a_prune_leaves_the_rest()
    ensures reply { (s : State) (board : List BoardRow) (before now : ℕ) (seed : Seed) (plan : Plan) (p : Pipeline) → Does s board (Request.PruneOne before) now seed plan → prunable_in s board before ≡ Some p → plan.0 ≡ pruned_reply p.id }
    ensures left { (s : State) (board : List BoardRow) (before now : ℕ) (seed : Seed) (plan : Plan) (p : Pipeline) → IsSound s → Does s board (Request.PruneOne before) now seed plan → prunable_in s board before ≡ Some p → applied plan.1 s ≡ without_pipeline s p.id }
    ensures no_jobs { (s : State) (n : ℕ) → IsSound s → jobs_of (without_pipeline s n) n ≡ [] }
    ensures jobs { (s : State) (n m : ℕ) → IsSound s → (m ≡ n → ⊥) → jobs_of (without_pipeline s n) m ≡ jobs_of s m }
    ensures attempts { (s : State) (n : ℕ) (j : Job) → IsSound s → Contains (without_pipeline s n).jobs j → attempts_of (without_pipeline s n) j.id ≡ attempts_of s j.id }
    ensures traces { (s : State) (n : ℕ) (a : Attempt) → IsSound s → Contains (without_pipeline s n).attempts a → trace_of (without_pipeline s n) a.id ≡ trace_of s a.id }
    ensures leases { (s : State) (board : List BoardRow) (before : ℕ) (p : Pipeline) → IsSound s → AreBoard s board → prunable_in s board before ≡ Some p → leases (without_pipeline s p.id) ≡ leases s }
    ensures groups { (s : State) (board : List BoardRow) (before : ℕ) (p : Pipeline) → IsSound s → AreBoard s board → prunable_in s board before ≡ Some p → holders (without_pipeline s p.id) ≡ holders s }
    ensures modes { (s : State) (n : ℕ) → (without_pipeline s n).modes ≡ s.modes }
{}

/// In each state that a history leads to, each job has at most one live attempt, and so has each resource group of a project; each
/// attempt was granted by just one request, with its runner's token, in a state in which its job was pending and, of those that its
/// runner may be given, the one of least number, and the step that made the job's pipeline included the job by its rules; each trace is the bytes that were accepted of its attempt, joined in the order of the history. An
/// attempt that had ended in an earlier state stands as it ended, and no record of an earlier state is gone, unless a line of the history
/// pruned its pipeline: projects and runners are never gone. The records that others name are there; and there are rows of its jobs' statuses. Each
/// sweep of the history ended the due attempt of least number; where there was none, it cancelled the redundant pipeline of least number, or
/// there was none either. Each request to prune pruned the finished pipeline of least number that was made before its moment, or there
/// was none; and each grant gave the variables of its job in the order of their keys.
#[tactic(auto, using(crate::proofs::AllLaws::laws))]
pub fn laws_of_each_reached_state()
    ensures { (h : List Past) (s : State) → Leads h s → Laws h s }
{}

/// In each state that a history leads to, records stand in the order of their numbers, which are below those that come
/// next, and jobs of newer pipelines have greater ones; what a record names is there; and the live attempt of a job, if it has one, is its last.
pub fn sound_of_each_reached_state()
    ensures { (s : State) → IsReached s → IsSound s }
{}

/// Where each line of an earlier program was a step of this machine, or left the state as it was, as a refusal does that this machine wouldn't
/// give, the state is reached: some of the lines, in their order, are a history that leads to it.
#[tactic(auto, using(crate::proofs::LeftOut::without_idle))]
pub fn a_line_that_changes_nothing_can_be_left_out()
    ensures { (lines : List Past) (s : State) → LeadsOrStays lines s → (h : List Past) × AreSome h lines × Leads h s }
{}

/// In each state that a history leads to, each job that waits for another is of the other's pipeline, and no job waits for
/// itself, by way of whatever others. So the statuses of its jobs are one assignment, and there is one list of rows of them: what is
/// said of some board is said of this one. In the state before the grant of an attempt its job had the status pending.
#[tactic(auto, using(crate::proofs::OneBoard::no_circle, crate::proofs::OneBoard::one_board, crate::proofs::OneBoard::all_pending))]
pub fn one_board_of_each_reached_state()
    ensures circles { (h : List Past) (s : State) → Leads h s → HasNoCircle s }
    ensures board { (h : List Past) (s : State) → Leads h s → HasOneBoard s }
    ensures pending { (h : List Past) (s : State) → Leads h s → All (WasPending h) s.attempts }
{
    one_assignment();
}
