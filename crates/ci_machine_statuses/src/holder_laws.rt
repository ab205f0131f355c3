//! How what is kept beside a state stays right under the changes of a state.

ghost use Rattle.std.specs.Prelude.{◌≡◌, ℕ, true, false, List, [], ◌∷◌, length, map, replicate, Contains, Option, option_to_list, Ok};
ghost use Rattle.std.specs.List.{AllByRecursion};
ghost use Rattle.ci_machine_steps.specs.Prelude.{Live, no_facts, Status, Attempt, BoardRow, Job, Need, Pipeline, RowChange, Put, Kept, cleared, written, jobs_of, numbers_of};
ghost use Rattle.ci_machine_steps.specs.Prelude.{AreBoard, status_of_jobs, resource_free, holds_group, groups_in, is_open_in, AreIndexes, is_live, NewPipeline, Layout, IsLaidOut};
ghost use Rattle.ci_machine_steps.specs.Prelude.{Creation, creation, creation_changes, numbered, pipeline_goes, IsSound, is_pending, queued, with_status};
ghost use Rattle.ci_graph_layout.specs.Prelude.{Given};
ghost use Rattle.ci_machine.specs.declared.change.Record.TheVariants as row;
ghost use Rattle.ci_machine.specs.declared.change.Counter.TheVariants as counter;
ghost use Rattle.ci_machine_statuses.specs.declared.act.Act.{Act};
ghost use Rattle.ci_machine_statuses.specs.declared.end.Settled.{Settled};
ghost use Rattle.ci_machine_statuses.specs.declared.outcome.Outcome.{Outcome};
ghost use Rattle.ci_machine_statuses.specs.Acts.{act_changes, acted_jobs, IsOutcome};
ghost use Rattle.ci_machine_statuses.specs.Changes.{LeavesStatuses, HasLive, started_row};
ghost use Rattle.ci_machine_statuses.specs.Ends.{ended_state, IsSettled};
ghost use Rattle.ci_machine_statuses.specs.Lookups.{AreRecords};
ghost use Rattle.ci_machine_statuses.specs.HolderChanges.{opened, of_pipeline, unleased};

/// Where nothing changes that a status depends on, all is right as it is.
pub fn indexes_stay()
    ensures { (k : Kept) (changes : List RowChange) → IsSound k.state → AreBoard k.state k.board → AreIndexes k → AllByRecursion (LeavesStatuses k.state) changes → AreIndexes (written changes [] [] k) }
{}

/// A grant of a pending job that need not wait for its group: its group is held, which none held before, and its pipeline isn't finished, as before.
pub fn grant_is_indexed()
    ensures { (k : Kept) (job : Job) (attempt : Attempt) → IsSound k.state → AreBoard k.state k.board → AreIndexes k → Contains k.state.jobs job → is_pending k.board job ≡ true
        → resource_free (groups_in k.state k.board) (queued k.state job) ≡ true → attempt.id ≡ k.state.next.attempt → attempt.job ≡ job.id → attempt.state ≡ Live
        → AreIndexes (written (numbered (row.Attempt attempt) counter.Attempt k.state.next.attempt) (started_row k.board job.id ∷ []) (holds_group attempt.id (queued k.state job)) k) }
{}

/// A live attempt of a job of this pipeline ends: what it held is free, and the pipeline's status comes from the one before to that of
/// its jobs' facts and rows after it.
pub fn end_is_indexed()
    ensures { (k : Kept) (p : Pipeline) (job : Job) (jobs : List Job) (needs : List Need) (attempts : List Attempt) (rows : List BoardRow) (ended : Attempt) (settled : Settled) (before after : Status)
        → IsSound k.state → AreBoard k.state k.board → AreIndexes k → Contains k.state.pipelines p → AreRecords k.state k.board p.id jobs needs attempts rows
        → Contains jobs job → ended.job ≡ job.id → HasLive k.state ended → is_live ended ≡ false → IsSettled k.state (ended_state k.state ended) k.board p.id settled
        → before ≡ (with_status k.state k.board p).status → after ≡ status_of_jobs jobs settled.facts.items settled.rows.items
        → AreIndexes (written (Put (row.Attempt ended) ∷ []) settled.changed.items (of_pipeline p (job ∷ []) attempts before after) k) }
{}

/// A user acts on jobs of this pipeline: where they are cancelled, what their leases held is free, and the pipeline's status comes from
/// the one before to that of its jobs' facts and rows after it.
pub fn acts_are_indexed()
    ensures { (act : Act) (only : Option ℕ) (k : Kept) (p : Pipeline) (jobs : List Job) (needs : List Need) (attempts : List Attempt) (rows : List BoardRow) (o : Outcome) (before after : Status)
        → IsSound k.state → AreBoard k.state k.board → AreIndexes k → Contains k.state.pipelines p → AreRecords k.state k.board p.id jobs needs attempts rows
        → IsOutcome act only k.state k.board p.id o → before ≡ (with_status k.state k.board p).status → after ≡ status_of_jobs jobs o.facts.items o.rows.items
        → let acted = acted_jobs act only k.state k.board p.id in
        AreIndexes (written (act_changes act k.state acted) o.changed.items (of_pipeline p (unleased act acted) attempts before after) k) }
{}

/// A finished pipeline goes, with the rows of its jobs: no group moves, and it was none of those that aren't finished.
pub fn prune_is_indexed()
    ensures { (k : Kept) (p : Pipeline) → IsSound k.state → AreBoard k.state k.board → AreIndexes k → Contains k.state.pipelines p → is_open_in k.state k.board p ≡ false
        → AreIndexes (written (pipeline_goes p (jobs_of k.state p.id) k.state.attempts) [] [] (cleared (numbers_of k.state p.id) k)) }
{}

/// A pipeline is made of a file, with these rows of its jobs: no group moves, and it is unfinished if its first status is.
pub fn creation_is_indexed()
    ensures { (k : Kept) (new : NewPipeline) (given : Given) (now : ℕ) (text : List ℕ) (laid : Layout) (made : Creation) (rows : List BoardRow)
        → IsSound k.state → AreBoard k.state k.board → AreIndexes k → IsLaidOut text given (Ok laid) → made ≡ creation k.state.next.pipeline k.state.next.job new given now laid
        → map (λ r. r.job) rows ≡ map (λ j. j.id) made.jobs
        → AreIndexes (written (creation_changes k.state.next.job made) rows (option_to_list (opened made.pipeline.id (status_of_jobs made.jobs (replicate (length made.jobs) no_facts) (map (λ r. r.row) rows)))) k) }
{}
