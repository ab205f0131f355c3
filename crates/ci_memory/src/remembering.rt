//! A store over a store, of which it remembers something: what is remembered is not looked up.

ghost use Rattle.std.specs.Prelude.{◌≡◌};
ghost use Rattle.ci_machine_steps.specs.Prelude.{Kept, demand_of, waiting};
ghost use Rattle.ci_store.specs.Prelude.{LoadsBy};
ghost use Rattle.ci_server_lookups.specs.Prelude.{IsKept, HoldsKept, IsOffered, IsTurn};
ghost use Rattle.ci_memory_boards.specs.Fresh.{IsFresh};
ghost use Rattle.ci_memory_boards.specs.Order.{InOrder};
ghost use Rattle.ci_memory.specs.Right.{IsRight};

use crate::leases::due;
use crate::memory::Memory;
use crate::modes::{Modes, with_group};
use crate::pipelines::redundant;
use crate::runners::{Runners, with_token};
use ci_board::facts::Status;
use ci_machine::change::Counter;
use ci_machine::lease::Lease;
use ci_machine::moment::Moment;
use ci_machine::records::{
    Attempt, BoardRow, Demand, GroupMode, GroupOrder, Holder, Job, JobOptions, JobVariable, Need,
    Pipeline, Project, Runner, Variable,
};
use ci_machine::text::{Bytes, Text};
use ci_memory_boards::boards::copies_of_jobs;
use ci_memory_boards::fresh::Fresh;
use ci_memory_queue::lines::turn;
use ci_memory_queue::offer;
use ci_server_lookups::search::Offer;
use ci_server_lookups::searches::Searches;
use ci_server_lookups::sheet::{Sheet, sheet_of, sheet_there};
use ci_server_lookups::turns::Turns;
use ci_store::delta::Delta;
use ci_store::fault::StoreFault;
use ci_store::store::Store;
use std::alloc::Global;
use std::mem;

/// A store, with what is remembered of it.
#[derive(Drop)]
pub struct Remembering<T> {
    pub store: T,
    pub memory: Memory,
}

impl<T: Store> Remembering<T> {
    /// A store of which nothing is remembered yet.
    pub fn over(store: T) -> Remembering<T>
        ensures store { result.store ≡ store }
        ensures right { (k : Kept) → InOrder k → IsRight result.memory k }
    {
        Remembering {
            store,
            memory: Memory::nothing(),
        }
    }
}

impl<T: Store> Store for Remembering<T> {
    ghost use Rattle.ci_memory.specs.Right.{IsRight};

    ghost honest = { λ m. T.honest m.store };

    ghost holds = { λ m k. T.holds m.store k × IsRight m.memory k };

    ghost leaves = { λ m k l. T.leaves m.store k l };

    ghost held_is_left = { λ m k held. T.held_is_left m.store k held.0 };

    fn next(&mut self, counter: Counter) -> Result<u64, StoreFault> {
        if let Some(number) = self.memory.numbers.of(counter) {
            return Ok(number);
        }
        let number = self.store.next(counter)?;
        self.memory.numbers.learn(counter, number);
        Ok(number)
    }

    fn project(&mut self, id: u64) -> Result<Option<Project>, StoreFault> {
        self.store.project(id)
    }

    fn project_with(&mut self, token: &Text) -> Result<Option<Project>, StoreFault> {
        if let Some(project) = self.memory.projects.with_token(token) {
            return Ok(Some(project));
        }
        let found = self.store.project_with(token)?;
        if let Some(project) = &found {
            self.memory.projects.learn(project);
        }
        Ok(found)
    }

    fn variables_of(&mut self, project: u64) -> Result<Vec<Variable>, StoreFault> {
        self.store.variables_of(project)
    }

    fn variable(&mut self, project: u64, key: &Text) -> Result<Option<Variable>, StoreFault> {
        self.store.variable(project, key)
    }

    fn mode(&mut self, project: u64, group: &Text) -> Result<Option<GroupMode>, StoreFault> {
        match &self.memory.modes {
            Modes::All(modes) => Ok(with_group(modes.as_slice(), project, group)?),
            Modes::Many => self.store.mode(project, group),
            Modes::Unknown => {
                let modes = self.store.modes()?;
                let found = with_group(modes.as_slice(), project, group)?;
                self.memory.modes = Modes::of(modes);
                Ok(found)
            }
        }
    }

    fn modes(&mut self) -> Result<Vec<GroupMode>, StoreFault> {
        self.store.modes()
    }

    fn runner(&mut self, id: u64) -> Result<Option<Runner>, StoreFault> {
        self.store.runner(id)
    }

    fn runner_with(&mut self, token: &Text) -> Result<Option<Runner>, StoreFault> {
        match &self.memory.runners {
            Runners::All(runners) => Ok(with_token(runners.as_slice(), token)?),
            Runners::Many => self.store.runner_with(token),
            Runners::Unknown => {
                let runners = self.store.runners()?;
                let found = with_token(runners.as_slice(), token)?;
                self.memory.runners = Runners::of(runners);
                Ok(found)
            }
        }
    }

    fn runners(&mut self) -> Result<Vec<Runner>, StoreFault> {
        self.store.runners()
    }

    fn pipeline(&mut self, id: u64) -> Result<Option<Pipeline>, StoreFault> {
        self.store.pipeline(id)
    }

    fn job(&mut self, id: u64) -> Result<Option<Job>, StoreFault> {
        if let Some(job) = self.memory.boards.job(id) {
            self.memory.leases.learn(&job, id);
            return Ok(Some(job));
        }
        let found = self.store.job(id)?;
        if let Some(job) = &found {
            self.memory.leases.learn(job, id);
        }
        Ok(found)
    }

    fn demand(&mut self, id: u64) -> Result<Option<Demand>, StoreFault> {
        if let Some(job) = self.memory.boards.job(id) {
            return Ok(Some(demand_of(job)));
        }
        self.store.demand(id)
    }

    fn job_variables(&mut self, job: u64) -> Result<Vec<JobVariable>, StoreFault> {
        self.store.job_variables(job)
    }

    fn attempt(&mut self, id: u64) -> Result<Option<Attempt>, StoreFault> {
        if let Some(attempt) = self.memory.boards.attempt(id) {
            return Ok(Some(attempt));
        }
        self.store.attempt(id)
    }

    fn attempts_of(&mut self, job: u64) -> Result<Vec<Attempt>, StoreFault> {
        self.store.attempts_of(job)
    }

    fn last_attempt_by(&mut self, runner: u64) -> Result<Option<Attempt>, StoreFault> {
        self.store.last_attempt_by(runner)
    }

    fn live_attempts(&mut self) -> Result<Vec<Attempt>, StoreFault> {
        self.store.live_attempts()
    }

    fn trace_of(&mut self, attempt: u64) -> Result<Bytes, StoreFault> {
        self.store.trace_of(attempt)
    }

    fn trace_size(&mut self, attempt: u64) -> Result<u64, StoreFault> {
        self.store.trace_size(attempt)
    }

    fn jobs_of(&mut self, pipeline: u64) -> Result<Vec<Job>, StoreFault> {
        if let Some(jobs) = self.memory.boards.jobs_of(pipeline) {
            return Ok(jobs);
        }
        // Who only reads a list pushes out no pipeline that is under way.
        if !self.memory.boards.has_room() {
            return self.store.jobs_of(pipeline);
        }
        let Some(sheet) = sheet_of(&mut self.store, pipeline)? else {
            return self.store.jobs_of(pipeline);
        };
        let jobs = copies_of_jobs(&sheet.jobs).ok_or(StoreFault::Memory)?;
        self.memory.boards.learn(sheet);
        Ok(jobs)
    }

    fn needs_within(&mut self, first: u64, last: u64) -> Result<Vec<Need>, StoreFault> {
        if let Some(needs) = self.memory.boards.needs_within(first, last) {
            return Ok(needs);
        }
        self.store.needs_within(first, last)
    }

    fn attempts_within(&mut self, first: u64, last: u64) -> Result<Vec<Attempt>, StoreFault> {
        if let Some(attempts) = self.memory.boards.attempts_within(first, last) {
            return Ok(attempts);
        }
        self.store.attempts_within(first, last)
    }

    fn rows_within(&mut self, first: u64, last: u64) -> Result<Vec<BoardRow>, StoreFault> {
        if let Some(rows) = self.memory.boards.rows_within(first, last) {
            return Ok(rows);
        }
        self.store.rows_within(first, last)
    }

    fn row(&mut self, job: u64) -> Result<Option<BoardRow>, StoreFault> {
        if let Some(row) = self.memory.boards.row(job) {
            return Ok(Some(row));
        }
        self.store.row(job)
    }

    fn rows_with(&mut self, status: Status) -> Result<Vec<BoardRow>, StoreFault> {
        self.store.rows_with(status)
    }

    fn holder(&mut self, project: u64, group: &Text) -> Result<Option<Holder>, StoreFault> {
        self.store.holder(project, group)
    }

    fn holders_in(&mut self, project: u64) -> Result<Vec<Holder>, StoreFault> {
        self.store.holders_in(project)
    }

    fn newer_of(&mut self, pipeline: &Pipeline) -> Result<Option<Pipeline>, StoreFault> {
        self.store.newer_of(pipeline)
    }

    fn pipelines_before(
        &mut self,
        before: Moment,
        count: u64,
    ) -> Result<Vec<Pipeline>, StoreFault> {
        self.store.pipelines_before(before, count)
    }

    fn some_before(&mut self, before: Moment, count: u64) -> Result<Vec<Pipeline>, StoreFault> {
        self.store.some_before(before, count)
    }

    fn newest(&mut self, project: u64, count: u64) -> Result<Vec<Pipeline>, StoreFault> {
        if let Some(pipelines) = self.memory.newest.of(project, count) {
            return Ok(pipelines);
        }
        let pipelines = self.store.newest(project, count)?;
        self.memory.newest.learn(project, count, &pipelines);
        Ok(pipelines)
    }

    fn commit(&mut self, delta: Delta) -> Result<(), StoreFault> {
        let memory = mem::replace(&mut self.memory, Memory::nothing()).after(&delta);
        self.store.commit(delta)?;
        self.memory = memory;
        Ok(())
    }
}

impl<T: Store> Turns for Remembering<T> {
    fn turn(
        &mut self,
        alloc: Global,
        project: u64,
        group: &Text,
        order: GroupOrder,
    ) -> Result<Option<u64>, StoreFault> {
        turn_by_lines(self, alloc, project, group, order)
    }
}

impl<T: Store> Searches for Remembering<T> {
    fn first_offer(&mut self, alloc: Global, runner: &Runner) -> Result<Option<Offer>, StoreFault> {
        offered(self, alloc, runner)
    }

    fn first_due(&mut self, alloc: Global, now: Moment) -> Result<Option<Lease>, StoreFault> {
        self.memory.projects.begin(alloc);
        due::first_due(alloc, &mut self.store, &mut self.memory.leases, now)
    }

    fn unfinished(&mut self, alloc: Global) -> Result<Vec<u64>, StoreFault> {
        redundant::unfinished(alloc, &mut self.store, &mut self.memory.pipelines)
    }

    fn first_redundant(&mut self, alloc: Global) -> Result<Option<Pipeline>, StoreFault> {
        learn_fresh(self, alloc)?;
        redundant::first_redundant(alloc, &mut self.store, &mut self.memory.pipelines)
    }

    fn take_sheet(&mut self, pipeline: u64) -> Result<Sheet, StoreFault> {
        if let Some(sheet) = self.memory.boards.take(pipeline) {
            return Ok(sheet);
        }
        sheet_there(&mut self.store, pipeline)
    }

    fn keep_sheet(&mut self, sheet: Sheet) {
        self.memory.boards.learn(sheet);
    }
}

/// Remembers from which numbers on pipelines and jobs are new, unless that is known: so a pipeline that is made is known from then on.
fn learn_fresh<T: Store>(store: &mut Remembering<T>, alloc: Global) -> Result<(), StoreFault>
    ensures { LoadsBy ⟦<Remembering<T> as Store>⟧.honest (HoldsKept ⟦<Remembering<T> as Store>⟧.holds) ⟦<Remembering<T> as Store>⟧.leaves store.old store.new result (λ k _. Unit {0}) }
{
    if store.memory.boards.fresh.is_some() {
        return Ok(());
    }
    let pipeline = store.next(Counter::Pipeline)?;
    let job = store.next(Counter::Job)?;
    let fresh = Fresh {
        pipeline,
        job,
        alloc,
    };
    note_fresh(store, fresh);
    Ok(())
}

fn note_fresh<T: Store>(store: &mut Remembering<T>, fresh: Fresh)
    ensures store { store.new.store ≡ store.old.store }
    ensures right { (k : Kept) → IsRight store.old.memory k → IsFresh fresh k → IsRight store.new.memory k }
{
    store.memory.boards.learn_fresh(fresh);
}

/// What a job asks of the runner that is given it.
fn demand_of(job: Job) -> Demand
    ensures { result ≡ demand_of job }
{
    let Job {
        id,
        pipeline,
        options,
        ..
    } = job;
    let JobOptions {
        tags,
        resource_group,
        ..
    } = options;
    Demand {
        job: id,
        pipeline,
        tags,
        resource_group,
    }
}

/// The first pending job that the runner may be given, with its row, by the queue that is remembered. Meanwhile the queue is taken out, so
/// that what it looks up is answered by all else that is remembered; and looking the job up remembers its time limit, for the next commit
/// may have a lease on it.
fn offered<T: Store>(
    store: &mut Remembering<T>,
    alloc: Global,
    runner: &Runner,
) -> Result<Option<Offer>, StoreFault>
    ensures { LoadsBy ⟦<Remembering<T> as Store>⟧.honest ⟦<Remembering<T> as Store>⟧.holds ⟦<Remembering<T> as Store>⟧.leaves store.old store.new result (λ k found. IsKept k → IsOffered k runner.now found) }
{
    let mut queue = store.memory.queue.take();
    let found = offer::first_offer(alloc, store, &mut queue, runner);
    store.memory.queue = queue;
    found
}

/// The pipeline whose jobs go first in a resource group by an order, by the lines that are remembered. Meanwhile the lines are taken out, so
/// that what they look up is answered by all else that is remembered.
fn turn_by_lines<T: Store>(
    store: &mut Remembering<T>,
    alloc: Global,
    project: u64,
    group: &Text,
    order: GroupOrder,
) -> Result<Option<u64>, StoreFault>
    ensures { LoadsBy ⟦<Remembering<T> as Store>⟧.honest ⟦<Remembering<T> as Store>⟧.holds ⟦<Remembering<T> as Store>⟧.leaves store.old store.new result (λ k turn. IsKept k → IsTurn order (waiting k.state k.board) project group.now turn) }
{
    let mut lines = store.memory.lines.take();
    let turn = turn::turn(alloc, store, &mut lines, project, group, order);
    store.memory.lines = lines;
    turn
}
