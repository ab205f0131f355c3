//! The calls of the tables without their clauses, so that the proof of a test that makes many of them carries little.

use crate::disks::discard;
use crate::store::lines::Answer;
use crate::store::records::{Change, ONE_OF_EACH, Work, moment, text};
use ci_board::facts::Status;
use ci_machine::change::Counter;
use ci_store::delta::Delta;
use ci_store::fault::StoreFault;
use ci_store::store::Store;
use ci_store_sqlite::tables::{OpenFault, Tables};
use ci_store_sqlite::{Alter, Connection};
use sqlite::MemStore;
use std::alloc::Global;
use std::test::Fail;

/// Makes the tables, or gives the connection back.
pub fn create<S: Alter>(conn: Connection<S>) -> Result<Tables<S>, (OpenFault, Connection<S>)> {
    Tables::create(conn)
}

/// Opens the tables, or gives the connection back.
pub fn open<S: Alter>(conn: Connection<S>) -> Result<Tables<S>, (OpenFault, Connection<S>)> {
    Tables::open(conn)
}

/// The connection of tables that go.
pub fn close<S: Alter>(tables: Tables<S>) -> Connection<S> {
    tables.close()
}

/// Lets tables go, with their store.
pub fn let_go<S: Alter + Drop>(tables: Tables<S>) {
    discard(close(tables));
}

/// The tables, if there are any.
pub fn found<S: Alter + Drop>(
    tables: Result<Tables<S>, (OpenFault, Connection<S>)>,
) -> Option<Tables<S>> {
    match tables {
        Ok(tables) => Some(tables),
        Err((_, conn)) => {
            discard(conn);
            None
        }
    }
}

/// The fault that came in the place of tables, and the connection.
pub fn parted<S: Alter>(
    found: Result<Tables<S>, (OpenFault, Connection<S>)>,
) -> (Option<OpenFault>, Connection<S>) {
    match found {
        Ok(tables) => (None, close(tables)),
        Err((fault, conn)) => (Some(fault), conn),
    }
}

/// Is this made in one commit?
pub fn is_committed<S: Alter>(tables: &mut Tables<S>, work: Work) -> bool {
    let Work {
        changes,
        rows,
        indexes,
        cleared,
    } = work;
    let delta = Delta::new(changes, rows, indexes).clearing(cleared);
    tables.commit(delta).is_ok()
}

/// Are these changes made in one commit?
pub fn is_made<S: Alter>(
    alloc: Global,
    tables: &mut Tables<S>,
    changes: &[Change],
) -> Result<bool, Fail> {
    let work = Work::of(alloc, changes)?;
    Ok(is_committed(tables, work))
}

/// Tables closed and opened again.
pub fn reopened<S: Alter + Drop>(tables: Tables<S>) -> Result<Tables<S>, Fail> {
    Ok(found(open(close(tables))).ok_or("not opened again")?)
}

/// Tables over memory with a record of each kind and a row of job 1, opened again.
pub fn filled(alloc: Global) -> Result<Tables<MemStore>, Fail> {
    let conn = Connection::open_in_memory(alloc)?;
    let mut tables = found(create(conn)).ok_or("not created")?;
    if !is_made(alloc, &mut tables, ONE_OF_EACH)? {
        return Err("not filled")?;
    }
    reopened(tables)
}

/// A load, by what it is asked for.
#[derive(Clone, Copy)]
pub enum Load {
    Next(Counter),
    Project(u64),
    ProjectWith(&'static str),
    VariablesOf(u64),
    Variable(u64, &'static str),
    Mode(u64, &'static str),
    Modes,
    Runner(u64),
    RunnerWith(&'static str),
    Pipeline(u64),
    /// The first newer one of the same project, ref and kind as the pipeline with a number.
    NewerThan(u64),
    /// Those made before a moment, at most so many.
    PipelinesBefore(u64, u64),
    SomeBefore(u64, u64),
    Job(u64),
    Demand(u64),
    JobsOf(u64),
    JobVariables(u64),
    NeedsWithin(u64, u64),
    Attempt(u64),
    AttemptsOf(u64),
    AttemptsWithin(u64, u64),
    LiveAttempts,
    TraceOf(u64),
    TraceSize(u64),
    Row(u64),
    RowsWithin(u64, u64),
    RowsWith(Status),
    Holder(u64, &'static str),
}

fn newer_than<S: Alter>(alloc: Global, tables: &mut Tables<S>, id: u64) -> Result<Answer, Fail> {
    let pipeline = tables.pipeline(id)?.ok_or("no such pipeline")?;
    Answer::of_one(alloc, tables.newer_of(&pipeline))
}

/// What a load of an attempt, of its trace, of statuses or of what stands beside them answers.
fn shown_of_runs<S: Alter>(
    alloc: Global,
    tables: &mut Tables<S>,
    load: Load,
) -> Result<Answer, Fail> {
    match load {
        Load::Attempt(id) => Answer::of_one(alloc, tables.attempt(id)),
        Load::AttemptsOf(job) => Answer::of_all(alloc, tables.attempts_of(job)),
        Load::AttemptsWithin(first, last) => {
            Answer::of_all(alloc, tables.attempts_within(first, last))
        }
        Load::LiveAttempts => Answer::of_all(alloc, tables.live_attempts()),
        Load::TraceOf(attempt) => Answer::of_bytes(alloc, tables.trace_of(attempt)),
        Load::TraceSize(attempt) => Answer::of_number(alloc, tables.trace_size(attempt)),
        Load::Row(job) => Answer::of_one(alloc, tables.row(job)),
        Load::RowsWithin(first, last) => Answer::of_all(alloc, tables.rows_within(first, last)),
        Load::RowsWith(status) => Answer::of_all(alloc, tables.rows_with(status)),
        Load::Holder(project, group) => {
            Answer::of_one(alloc, tables.holder(project, &text(alloc, group)?))
        }
        _ => Err("not of a run")?,
    }
}

/// What a load of a pipeline or of its jobs answers.
fn shown_of_pipelines<S: Alter>(
    alloc: Global,
    tables: &mut Tables<S>,
    load: Load,
) -> Result<Answer, Fail> {
    match load {
        Load::Pipeline(id) => Answer::of_one(alloc, tables.pipeline(id)),
        Load::NewerThan(id) => newer_than(alloc, tables, id),
        Load::PipelinesBefore(before, count) => {
            Answer::of_all(alloc, tables.pipelines_before(moment(before)?, count))
        }
        Load::SomeBefore(before, count) => {
            Answer::of_all(alloc, tables.some_before(moment(before)?, count))
        }
        Load::Job(id) => Answer::of_one(alloc, tables.job(id)),
        Load::Demand(id) => Answer::of_one(alloc, tables.demand(id)),
        Load::JobsOf(pipeline) => Answer::of_all(alloc, tables.jobs_of(pipeline)),
        Load::JobVariables(job) => Answer::of_all(alloc, tables.job_variables(job)),
        Load::NeedsWithin(first, last) => Answer::of_all(alloc, tables.needs_within(first, last)),
        _ => shown_of_runs(alloc, tables, load),
    }
}

/// What a load answers.
pub fn shown<S: Alter>(alloc: Global, tables: &mut Tables<S>, load: Load) -> Result<Answer, Fail> {
    match load {
        Load::Next(counter) => Answer::of_number(alloc, tables.next(counter)),
        Load::Project(id) => Answer::of_one(alloc, tables.project(id)),
        Load::ProjectWith(token) => {
            Answer::of_one(alloc, tables.project_with(&text(alloc, token)?))
        }
        Load::VariablesOf(project) => Answer::of_all(alloc, tables.variables_of(project)),
        Load::Variable(project, key) => {
            Answer::of_one(alloc, tables.variable(project, &text(alloc, key)?))
        }
        Load::Mode(project, group) => {
            Answer::of_one(alloc, tables.mode(project, &text(alloc, group)?))
        }
        Load::Modes => Answer::of_all(alloc, tables.modes()),
        Load::Runner(id) => Answer::of_one(alloc, tables.runner(id)),
        Load::RunnerWith(token) => Answer::of_one(alloc, tables.runner_with(&text(alloc, token)?)),
        _ => shown_of_pipelines(alloc, tables, load),
    }
}

/// Does each load answer this text?
pub fn are_shown<S: Alter>(
    alloc: Global,
    tables: &mut Tables<S>,
    wants: &[(Load, &str)],
) -> Result<bool, Fail> {
    for (load, want) in wants {
        if shown(alloc, tables, *load)?.text.as_str() != *want {
            return Ok(false);
        }
    }
    Ok(true)
}
