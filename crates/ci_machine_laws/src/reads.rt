//! What is read of a project, and of what it has.

ghost use Rattle.std.specs.Prelude.{List, [], ◌∷◌, ℕ, ◌≡◌, codes, None};
ghost use Rattle.ci_machine_steps.specs.Prelude.{BoardRow, Event, ReadQuery, Seed, Answer, Reply, State, AreBoard, refused, Does, Step, IsReached};
ghost use Rattle.ci_machine_laws.specs.Reads.{TellsNewest, TellsGroups};
ghost use Rattle.ci_machine_laws.specs.Examples.{reply_text};
ghost use Rattle.ci_machine_laws.specs.ReadExamples.{two_projects, two_projects_board, read_query, read_by, read_first, numbers_listed, down_from};

use ci_machine::reply::Code;
use ci_machine::request::{Request, Subject};

/// A read changes nothing.
#[tactic(auto, using(crate::proofs::Newest::read_keeps))]
pub fn a_read_changes_nothing()
    ensures { (s t : State) (query : ReadQuery) (now : ℕ) (seed : Seed) (a : Answer) → Step s (Event.Request (Request.Read query)) now seed a t → t ≡ s }
{}

/// Where the pipelines of a project are read, in a state that a history leads to, and this isn't refused, the reply tells the newest: each is one of
/// the project, their numbers fall, and each other pipeline of the project has a lesser number than all of them, which are a hundred then. Each is
/// told with its status.
pub fn the_newest_pipelines_are_told()
    ensures { (s t : State) (query : ReadQuery) (now : ℕ) (seed : Seed) (reply : Reply) → IsReached s → query.subject ≡ Subject.Pipelines → Step s (Event.Request (Request.Read query)) now seed (Answer.Reply reply) t → reply.code ≡ None → TellsNewest s query.project reply }
{}

/// Where the resource groups of a project are read, in a state that a history leads to, and this isn't refused, the reply tells those of the project
/// that have a process mode or are held, and no others, each once and by the bytes of its key; each with its mode, and with the job whose live
/// attempt holds it, where one does.
pub fn the_groups_of_a_project_are_told()
    ensures { (s t : State) (query : ReadQuery) (now : ℕ) (seed : Seed) (reply : Reply) → IsReached s → query.subject ≡ Subject.ResourceGroups → Step s (Event.Request (Request.Read query)) now seed (Answer.Reply reply) t → reply.code ≡ None → TellsGroups s query.project reply }
{}

/// What is read of two projects, of which one has two pipelines: the project, its pipelines, newest first, and its resource groups by the bytes of
/// their keys: one has a mode and is held by none, one is held and has none, and one has both. What is another project's isn't told,
/// nor the oldest of a hundred and one pipelines.
#[tactic(auto, using(crate::proofs::Computed::computed), unfolding(crate::proofs::Computed::digits, crate::proofs::Computed::serde_json_on_literals, crate::proofs::Computed::day_at, crate::proofs::Computed::stamp_text))]
pub fn read_examples()
    ensures board { AreBoard two_projects two_projects_board }
    ensures step { (query : ReadQuery) (now : ℕ) (seed : Seed) → Does two_projects two_projects_board (Request.Read query) now seed (read_by query) }
    ensures project { reply_text (read_first Subject.Project) ≡ codes "{\"id\":1,\"name\":\"hello\"}" }
    ensures pipelines { reply_text (read_first Subject.Pipelines) ≡ codes "[{\"created_at\":\"1970-01-02T01:01:01Z\",\"id\":3,\"ref\":\"v1\",\"source\":\"push\",\"status\":\"running\",\"tag\":true},{\"created_at\":\"1970-01-01T00:16:40Z\",\"id\":1,\"ref\":\"main\",\"source\":\"api\",\"status\":\"success\",\"tag\":false}]" }
    ensures other_pipelines { reply_text (read_by (read_query 2 (codes "q") Subject.Pipelines)) ≡ codes "[{\"created_at\":\"1970-01-01T00:16:45Z\",\"id\":2,\"ref\":\"main\",\"source\":\"web\",\"status\":\"running\",\"tag\":false}]" }
    ensures groups { reply_text (read_first Subject.ResourceGroups) ≡ codes "[{\"holder\":null,\"key\":\"Zone\",\"process_mode\":\"newest_ready_first\"},{\"holder\":4,\"key\":\"edge\",\"process_mode\":\"unordered\"},{\"holder\":5,\"key\":\"prod\",\"process_mode\":\"oldest_first\"}]" }
    ensures other_groups { reply_text (read_by (read_query 2 (codes "q") Subject.ResourceGroups)) ≡ codes "[{\"holder\":3,\"key\":\"prod\",\"process_mode\":\"newest_ready_first\"}]" }
    ensures hundred { numbers_listed 100 ≡ down_from 100 100 }
    ensures one_more { numbers_listed 101 ≡ down_from 100 101 }
{}

/// The jobs of a pipeline, with the attempts of each: one that was tried again, with the tags that its runner must have; one that is allowed to fail, and
/// waited for another; one that a user played; one that waits for its resource group; and one that waits for two others. The attempts of a job
/// by themselves: a runner's failure with its exit code, a success, a cancelled one, one that ran over its time and one that is live.
#[tactic(auto, unfolding(crate::proofs::Computed::digits, crate::proofs::Computed::serde_json_on_literals, crate::proofs::Computed::day_at, crate::proofs::Computed::stamp_text))]
pub fn listed_job_examples()
    ensures jobs { reply_text (read_first (Subject.Jobs 1)) ≡ codes "[{\"allow_failure\":false,\"attempts\":[{\"exit_code\":2,\"failure_reason\":\"script_failure\",\"heard_at\":\"1970-01-01T00:17:00Z\",\"id\":1,\"runner\":{\"id\":1,\"name\":\"shell\"},\"started_at\":\"1970-01-01T00:16:50Z\",\"status\":\"failed\"},{\"exit_code\":0,\"failure_reason\":null,\"heard_at\":\"1970-01-01T00:18:10Z\",\"id\":2,\"runner\":{\"id\":2,\"name\":\"big\"},\"started_at\":\"1970-01-01T00:17:10Z\",\"status\":\"success\"}],\"id\":1,\"name\":\"build\",\"needs\":[],\"resource_group\":null,\"stage\":\"build\",\"status\":\"success\",\"tag_list\":[\"gpu\",\"arm\"],\"when\":\"on_success\"},{\"allow_failure\":true,\"attempts\":[{\"exit_code\":null,\"failure_reason\":null,\"heard_at\":\"1970-01-01T00:19:20Z\",\"id\":3,\"runner\":{\"id\":1,\"name\":\"shell\"},\"started_at\":\"1970-01-01T00:18:20Z\",\"status\":\"canceled\"},{\"exit_code\":null,\"failure_reason\":\"job_execution_timeout\",\"heard_at\":\"1970-01-01T01:19:50Z\",\"id\":4,\"runner\":{\"id\":2,\"name\":\"big\"},\"started_at\":\"1970-01-01T00:20:00Z\",\"status\":\"failed\"}],\"id\":2,\"name\":\"lint\",\"needs\":[1],\"resource_group\":null,\"stage\":\"test\",\"status\":\"failed\",\"tag_list\":[],\"when\":\"on_success\"}]" }
    ensures other_jobs { reply_text (read_first (Subject.Jobs 3)) ≡ codes "[{\"allow_failure\":false,\"attempts\":[{\"exit_code\":null,\"failure_reason\":null,\"heard_at\":\"1970-01-02T01:01:30Z\",\"id\":6,\"runner\":{\"id\":1,\"name\":\"shell\"},\"started_at\":\"1970-01-02T01:01:20Z\",\"status\":\"running\"}],\"id\":4,\"name\":\"edge\",\"needs\":[],\"resource_group\":\"edge\",\"stage\":\"build\",\"status\":\"running\",\"tag_list\":[],\"when\":\"on_success\"},{\"allow_failure\":true,\"attempts\":[{\"exit_code\":null,\"failure_reason\":null,\"heard_at\":\"1970-01-02T01:02:10Z\",\"id\":7,\"runner\":{\"id\":2,\"name\":\"big\"},\"started_at\":\"1970-01-02T01:01:40Z\",\"status\":\"running\"}],\"id\":5,\"name\":\"ship\",\"needs\":[],\"resource_group\":\"prod\",\"stage\":\"deploy\",\"status\":\"running\",\"tag_list\":[],\"when\":\"manual\"},{\"allow_failure\":false,\"attempts\":[],\"id\":6,\"name\":\"check\",\"needs\":[],\"resource_group\":\"prod\",\"stage\":\"deploy\",\"status\":\"waiting_for_resource\",\"tag_list\":[],\"when\":\"on_success\"},{\"allow_failure\":false,\"attempts\":[],\"id\":7,\"name\":\"done\",\"needs\":[4,5],\"resource_group\":null,\"stage\":\"last\",\"status\":\"created\",\"tag_list\":[],\"when\":\"always\"}]" }
    ensures retried { reply_text (read_first (Subject.Attempts 1)) ≡ codes "[{\"exit_code\":2,\"failure_reason\":\"script_failure\",\"heard_at\":\"1970-01-01T00:17:00Z\",\"id\":1,\"runner\":{\"id\":1,\"name\":\"shell\"},\"started_at\":\"1970-01-01T00:16:50Z\",\"status\":\"failed\"},{\"exit_code\":0,\"failure_reason\":null,\"heard_at\":\"1970-01-01T00:18:10Z\",\"id\":2,\"runner\":{\"id\":2,\"name\":\"big\"},\"started_at\":\"1970-01-01T00:17:10Z\",\"status\":\"success\"}]" }
    ensures timed_out { reply_text (read_first (Subject.Attempts 2)) ≡ codes "[{\"exit_code\":null,\"failure_reason\":null,\"heard_at\":\"1970-01-01T00:19:20Z\",\"id\":3,\"runner\":{\"id\":1,\"name\":\"shell\"},\"started_at\":\"1970-01-01T00:18:20Z\",\"status\":\"canceled\"},{\"exit_code\":null,\"failure_reason\":\"job_execution_timeout\",\"heard_at\":\"1970-01-01T01:19:50Z\",\"id\":4,\"runner\":{\"id\":2,\"name\":\"big\"},\"started_at\":\"1970-01-01T00:20:00Z\",\"status\":\"failed\"}]" }
    ensures live { reply_text (read_first (Subject.Attempts 5)) ≡ codes "[{\"exit_code\":null,\"failure_reason\":null,\"heard_at\":\"1970-01-02T01:02:10Z\",\"id\":7,\"runner\":{\"id\":2,\"name\":\"big\"},\"started_at\":\"1970-01-02T01:01:40Z\",\"status\":\"running\"}]" }
    ensures untried { reply_text (read_first (Subject.Attempts 7)) ≡ codes "[]" }
{}

/// The trace of each attempt of a job, and what is refused: an unknown token; another project than the token's; a pipeline, or a job, of another project,
/// or one that isn't there; an attempt of another job, or one that isn't there.
pub fn attempt_trace_examples()
    ensures first { reply_text (read_first (Subject.Trace 1 1)) ≡ codes "no make" }
    ensures second { reply_text (read_first (Subject.Trace 1 2)) ≡ codes "made" }
    ensures none_yet { reply_text (read_first (Subject.Trace 5 7)) ≡ [] }
    ensures other { reply_text (read_by (read_query 2 (codes "q") (Subject.Trace 3 5))) ≡ codes "other" }

    ensures unknown_token { read_by (read_query 1 (codes "x") Subject.Project) ≡ refused Code.M1 }
    ensures other_project { read_by (read_query 2 (codes "p") Subject.Pipelines) ≡ refused Code.M2 }
    ensures no_project { read_by (read_query 3 (codes "p") Subject.ResourceGroups) ≡ refused Code.M2 }
    ensures pipeline_of_other { read_by (read_query 1 (codes "p") (Subject.Jobs 2)) ≡ refused Code.M3 }
    ensures no_pipeline { read_by (read_query 1 (codes "p") (Subject.Jobs 4)) ≡ refused Code.M3 }
    ensures job_of_other { read_by (read_query 1 (codes "p") (Subject.Attempts 3)) ≡ refused Code.M3 }
    ensures no_job { read_by (read_query 1 (codes "p") (Subject.Attempts 8)) ≡ refused Code.M3 }
    ensures trace_of_other { read_by (read_query 1 (codes "p") (Subject.Trace 3 5)) ≡ refused Code.M3 }
    ensures attempt_of_other_job { read_by (read_query 1 (codes "p") (Subject.Trace 1 3)) ≡ refused Code.M3 }
    ensures no_attempt { read_by (read_query 1 (codes "p") (Subject.Trace 1 8)) ≡ refused Code.M3 }
{}
