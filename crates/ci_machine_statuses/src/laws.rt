//! How the rows stay right under the changes of a state.

ghost use Rattle.std.specs.Prelude.{◌≡◌, ◌<◌, ◌++◌, ◌==◌, ℕ, Bool, true, List, [], ◌∷◌, length, map, filter, if◌then◌else◌, All, Contains, Option, Some, None, Ok};
ghost use Rattle.std.specs.List.{AllByRecursion};
ghost use Rattle.ci_machine_steps.specs.Prelude.{Live, Row, AreRows, Job, Attempt, Need, QueuedJob, BoardRow, RowChange, NewPipeline, State, without_all, applied, claims_on};
ghost use Rattle.ci_machine_steps.specs.Prelude.{put_rows, waiting, groups_with, claims_in, jobs_of, numbers_of, attempts_of, graph_of, facts_of, rows_of, row_for, status_for};
ghost use Rattle.ci_machine_steps.specs.Prelude.{AreRowsOf, AreBoard, Pipeline, ShowsJobAfter, ShowsPipelineAfter, play, retry, pipeline_goes, prune, cancellable_jobs, cancel};
ghost use Rattle.ci_machine_steps.specs.Prelude.{Status, IsSound, is_pending, queue, queued_at, rows_with, is_within, attempts_within, numbered, Layout, IsLaidOut, Creation, creation};
ghost use Rattle.ci_machine_steps.specs.Prelude.{creation_changes};
ghost use Rattle.ci_board.specs.Prelude.{row_at as row_of};
ghost use Rattle.ci_machine.specs.declared.change.Record.TheVariants as row;
ghost use Rattle.ci_machine.specs.declared.change.Counter.TheVariants as counter;
ghost use Rattle.ci_machine.specs.Prelude.{row_at};
ghost use Rattle.ci_graph_layout.specs.Prelude.{Given};
ghost use Rattle.ci_machine_statuses.specs.Boards.{changed_rows};
ghost use Rattle.ci_machine_statuses.specs.Lookups.{AreRecords};
ghost use Rattle.ci_machine_statuses.specs.Changes.{IsWithin, HaveSameFacts, LeavesStatuses, IsMade, started_row};
ghost use Rattle.ci_machine_statuses.specs.Acts.{is_permitted, act_changes, facts_acted, acted_jobs, acted_state, shows_job_by, shows_pipeline_by, IsOutcome};

use crate::act::Act;
use crate::outcome::Outcome;

/// Where nothing changes that a status depends on, the rows are right as they are.
pub fn same_facts_keep_rows()
    ensures { (s t : State) (board : List BoardRow) → AreBoard s board → HaveSameFacts s t → AreBoard t board }
{}

/// So they are after changes of records that have no statuses, and of what an attempt's statuses don't depend on.
pub fn rows_stay()
    ensures { (s : State) (board : List BoardRow) (changes : List RowChange) → IsSound s → AreBoard s board → AllByRecursion (LeavesStatuses s) changes → AreBoard (applied changes s) board }
{}

/// Where the facts of one pipeline's jobs change, the rows that differ are put, and all are right again.
pub fn differing_rows_settle()
    ensures { (s t : State) (board : List BoardRow) (pipeline : ℕ) (rows : List Row) → IsSound s → AreBoard s board → IsWithin s t pipeline
        → length rows ≡ length (numbers_of s pipeline) → AreRows (graph_of s pipeline) (facts_of t pipeline) rows
        → AreBoard t (put_rows (changed_rows (numbers_of s pipeline) (rows_of s board pipeline) rows) board) }
{}

/// A grant of a pending job puts its own row alone: it is running then.
pub fn grant_settles()
    ensures { (s : State) (board : List BoardRow) (job : Job) (attempt : Attempt) → IsSound s → AreBoard s board → Contains s.jobs job → is_pending board job ≡ true
        → attempt.id ≡ s.next.attempt → attempt.job ≡ job.id → attempt.state ≡ Live
        → AreBoard (applied (numbered (row.Attempt attempt) counter.Attempt s.next.attempt) s) (put_rows (started_row board job.id ∷ []) board) }
{}

/// A user acts on jobs of a pipeline, all at once: the rows that differ are put, and all are right again. What the machine does
/// is such an act, on one job or on all that can be cancelled.
pub fn acts_settle()
    ensures settle { (act : Act) (s : State) (board : List BoardRow) (pipeline : ℕ) (test : Job → Bool) (rows : List Row) → IsSound s → AreBoard s board
        → length rows ≡ length (numbers_of s pipeline) → AreRows (graph_of s pipeline) (facts_acted act s pipeline test) rows
        → AreBoard (applied (act_changes act s (filter test (jobs_of s pipeline))) s) (put_rows (changed_rows (numbers_of s pipeline) (rows_of s board pipeline) rows) board) }
    ensures rows { (act : Act) (s : State) (pipeline : ℕ) (test : Job → Bool) (rows : List Row) → IsSound s
        → length rows ≡ length (numbers_of s pipeline) → AreRows (graph_of s pipeline) (facts_acted act s pipeline test) rows
        → AreRowsOf (applied (act_changes act s (filter test (jobs_of s pipeline))) s) pipeline rows }
    ensures play { (s : State) (job : Job) → act_changes Act.Play s (job ∷ []) ≡ play job }
    ensures retry { (s : State) (job : Job) → act_changes Act.Retry s (job ∷ []) ≡ retry (attempts_of s job.id) job }
    ensures cancel { (s : State) (jobs : List Job) → act_changes Act.Cancel s jobs ≡ cancel s.attempts jobs }
{}

/// What is looked up of a pipeline has all that the machine takes for a retry of one of its jobs, and for the end of some.
pub fn acts_are_of_records()
    ensures retry { (s : State) (board : List BoardRow) (pipeline : ℕ) (jobs : List Job) (needs : List Need) (attempts : List Attempt) (rows : List BoardRow) (job : Job)
        → AreRecords s board pipeline jobs needs attempts rows → Contains jobs job
        → act_changes Act.Retry s (job ∷ []) ≡ retry (filter (λ a. a.job == job.id) attempts) job }
    ensures cancel { (s : State) (board : List BoardRow) (pipeline : ℕ) (jobs : List Job) (needs : List Need) (attempts : List Attempt) (rows : List BoardRow) (chosen : List Job)
        → AreRecords s board pipeline jobs needs attempts rows → All (Contains jobs) chosen
        → act_changes Act.Cancel s chosen ≡ cancel attempts chosen }
{}

/// What an outcome says is what the machine shows after it: the job that was asked for, at its one place; and the pipeline with its jobs.
pub fn outcomes_are_shown()
    ensures job { (act : Act) (s : State) (board : List BoardRow) (job : Job) (o : Outcome) → IsSound s → Contains s.jobs job → is_permitted act (status_for board job.id) ≡ true → IsOutcome act (Some job.id) s board job.pipeline o
        → (i : ℕ) × ((o.places.items ≡ i ∷ []) × ShowsJobAfter s job (act_changes act s (job ∷ [])) (shows_job_by s (put_rows o.changed.items board) (act_changes act s (job ∷ [])) job (row_of o.rows.items i).status)) }
    ensures pipeline { (act : Act) (s : State) (board : List BoardRow) (p : Pipeline) (o : Outcome) → IsSound s → IsOutcome act None s board p.id o
        → ShowsPipelineAfter s p (act_changes act s (acted_jobs act None s board p.id)) (shows_pipeline_by s (put_rows o.changed.items board) (act_changes act s (acted_jobs act None s board p.id)) p (jobs_of s p.id) o.facts.items o.rows.items) }
{}

/// The groups for which the jobs of a pipeline must wait after an act are those that are held then, and those in which others went first before: no
/// job goes before those of its own pipeline, and those of other pipelines stay as they are.
pub fn acts_leave_lines()
    ensures { (act : Act) (only : Option ℕ) (s : State) (board : List BoardRow) (pipeline : ℕ) (o : Outcome) → IsSound s → IsOutcome act only s board pipeline o
        → claims_in (acted_state act only s board pipeline) (put_rows o.changed.items board) pipeline ≡ claims_on (groups_with (acted_state act only s board pipeline) (waiting s board)) pipeline }
{}

/// Where one job is asked for, it is done to this one, or to none if its status doesn't permit it; all jobs of a pipeline that
/// are cancelled are those that can be.
pub fn acted_jobs_are_asked()
    ensures one { (act : Act) (s : State) (board : List BoardRow) (job : Job) → IsSound s → Contains s.jobs job → acted_jobs act (Some job.id) s board job.pipeline ≡ (if is_permitted act (status_for board job.id) then job ∷ [] else []) }
    ensures all { (s : State) (board : List BoardRow) (pipeline : ℕ) → acted_jobs Act.Cancel None s board pipeline ≡ cancellable_jobs s board pipeline }
{}

/// A pipeline that is created is made: its jobs are new and come behind all others, so do its needs, and none was tried.
pub fn created_is_made()
    ensures { (s : State) (new : NewPipeline) (given : Given) (now : ℕ) (text : List ℕ) (laid : Layout) (made : Creation) → IsSound s → IsLaidOut text given (Ok laid)
        → made ≡ creation s.next.pipeline s.next.job new given now laid
        → IsMade s (applied (creation_changes s.next.job made) s) s.next.pipeline made.jobs made.needs }
{}

/// Where a pipeline is created and rows of its jobs are put, its jobs have these rows, and for the same groups its jobs must wait as before: no group
/// is held that was not, no job goes before those of its own pipeline, and those of other pipelines stay as they are.
pub fn creation_is_shown()
    ensures rows { (s : State) (board : List BoardRow) (new : NewPipeline) (given : Given) (now : ℕ) (text : List ℕ) (laid : Layout) (made : Creation) (rows : List BoardRow) → IsSound s → AreBoard s board → IsLaidOut text given (Ok laid)
        → made ≡ creation s.next.pipeline s.next.job new given now laid → map (λ r. r.job) rows ≡ map (λ j. j.id) made.jobs
        → rows_of (applied (creation_changes s.next.job made) s) (put_rows rows board) made.pipeline.id ≡ map (λ r. r.row) rows }
    ensures claims { (s : State) (board : List BoardRow) (new : NewPipeline) (given : Given) (now : ℕ) (text : List ℕ) (laid : Layout) (made : Creation) (rows : List BoardRow) → IsSound s → AreBoard s board → IsLaidOut text given (Ok laid)
        → made ≡ creation s.next.pipeline s.next.job new given now laid → map (λ r. r.job) rows ≡ map (λ j. j.id) made.jobs
        → claims_in (applied (creation_changes s.next.job made) s) (put_rows rows board) made.pipeline.id ≡ claims_in s board made.pipeline.id }
{}

/// Where a pipeline goes, the rows of its jobs go too, and all are right.
pub fn prune_settles()
    ensures { (s : State) (board : List BoardRow) (p : Pipeline) → IsSound s → AreBoard s board → AreBoard (applied (pipeline_goes p (jobs_of s p.id) s.attempts) s) (without_all (λ r. r.job) (numbers_of s p.id) board) }
{}

/// The attempts of some of a pipeline's jobs are among those between two numbers, which take in theirs: where these go, those go.
pub fn prunes_are_of_records()
    ensures { (s : State) (p : Pipeline) (jobs : List Job) (first last : ℕ) → jobs ≡ jobs_of s p.id → All (λ j. is_within first last j.id ≡ true) jobs → prune (Some p) jobs (attempts_within first last s.attempts) ≡ prune (Some p) (jobs_of s p.id) s.attempts }
{}

/// Each job has one row, which is found at its number.
pub fn each_job_has_its_row()
    ensures row { (s : State) (board : List BoardRow) (job : Job) → AreBoard s board → Contains s.jobs job → (r : BoardRow) × (row_at job.id board ≡ Some r) × (r.row ≡ row_for board job.id) }
    ensures found { (s : State) (board : List BoardRow) (r : BoardRow) → IsSound s → AreBoard s board → Contains board r → row_for board r.job ≡ r.row }
{}

/// The pending jobs are those of the pending rows, in the order of these.
pub fn the_queue_is_its_rows()
    ensures { (s : State) (board : List BoardRow) → IsSound s → AreBoard s board
        → map (λ r. queued_at s r.job) (rows_with Status.Pending board) ≡ map (λ q. Some q) (queue s board) }
{}
