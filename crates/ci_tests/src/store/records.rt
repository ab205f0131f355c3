//! Records for the tests, and the changes that a test makes of them, as data.

use ci_board::facts::{Row, Status};
use ci_graph::part::Part;
use ci_machine::change::{Counter, IndexChange, Key, Record, RowChange};
use ci_machine::moment::Moment;
use ci_machine::records::{
    Attempt, AttemptState, BoardRow, Cause, GroupMode, GroupOrder, Holder, Job, JobOptions,
    JobVariable, Need, Pipeline, Project, RefKind, Runner, Source, Trace, Unfinished, Variable,
};
use ci_machine::text::{Bytes, Text, Texts};
use ci_values::items::Items;
use ci_values::when::{AllowFailure, Causes, Retry, When};
use std::alloc::Global;
use std::test::Fail;

/// A record, by what differs among those of its kind.
#[derive(Drop)]
pub enum Made {
    /// Its number, name and token.
    Project(u64, &'static str, &'static str),
    /// Its project, key and value.
    Variable(u64, &'static str, &'static str),
    /// Of project 1.
    Runner(u64),
    /// Its number, project, ref and kind.
    Pipeline(u64, u64, &'static str, RefKind),
    /// Its number and the moment when it was made, for the branch `old` of project 1.
    PipelineAt(u64, u64),
    /// Its number and pipeline.
    Job(u64, u64),
    /// Of job 1.
    JobVariable(&'static str),
    /// Its number, job and state.
    Attempt(u64, u64, AttemptState),
    /// A job, and the one that it waits for.
    Need(u64, u64),
    /// Its project and group.
    Mode(u64, &'static str, GroupOrder),
}

/// The key of a row that is removed.
#[derive(Drop)]
pub enum Gone {
    Project(u64),
    Variable(u64, &'static str),
    Pipeline(u64),
    Job(u64),
    JobVariable(u64, &'static str),
    JobVariables(u64),
    Need(u64, u64),
    Needs(u64),
    Attempt(u64),
    Trace(u64),
    Mode(u64, &'static str),
}

/// A change of what the tables keep.
#[derive(Drop)]
pub enum Change {
    Put(Made),
    /// These bytes behind the trace of attempt 1.
    Append(&'static [u8]),
    /// So many bytes 255 behind it.
    AppendMany(usize),
    Remove(Gone),
    SetNext(Counter, u64),
    /// The row of a job is put.
    Row(u64, Status),
    /// The row of a job goes, before all else.
    Clear(u64),
    /// A group of a project is held by an attempt.
    Hold(u64, &'static str, u64),
    Free(u64, &'static str),
    Open(u64),
    Close(u64),
}

/// What one commit makes.
#[derive(Drop)]
pub struct Work {
    pub changes: Vec<RowChange>,
    pub rows: Vec<BoardRow>,
    pub indexes: Vec<IndexChange>,
    pub cleared: Vec<u64>,
}

/// The causes of two of the six flags.
const CAUSES: Causes = Causes {
    unknown_failure: false,
    script_failure: true,
    api_failure: false,
    stuck_or_timeout_failure: false,
    runner_system_failure: false,
    job_execution_timeout: true,
};

pub fn text(alloc: Global, text: &str) -> Result<Text, Fail> {
    Ok(Text::copy_of(alloc, text)?)
}

fn texts(alloc: Global, items: &[&str]) -> Result<Texts, Fail> {
    let mut texts = Vec::new(alloc);
    for item in items {
        texts.push(text(alloc, item)?)?;
    }
    Ok(Texts::new(texts))
}

pub fn moment(seconds: u64) -> Result<Moment, Fail> {
    Ok(Moment::new(seconds).ok_or("no moment")?)
}

fn runner(alloc: Global, id: u64) -> Result<Runner, Fail> {
    Ok(Runner {
        id,
        name: text(alloc, "runner")?,
        token: text(alloc, "r1")?,
        project: Some(1),
        tags: texts(alloc, &["gpu", "a \"quoted\" tag"])?,
        untagged: true,
        paused: false,
    })
}

fn part(alloc: Global) -> Result<Part, Fail> {
    let codes = Vec::from_slice(alloc, &[1u32, 137])?;
    Ok(Part {
        when: When::Always,
        allow_failure: AllowFailure::ExitCodes(Items::new(codes)),
        retry: Retry {
            max: 2,
            causes: CAUSES,
        },
        gives_needs: true,
    })
}

fn options(alloc: Global) -> Result<JobOptions, Fail> {
    Ok(JobOptions {
        script: texts(alloc, &["make", "make check"])?,
        timeout: 3600,
        tags: texts(alloc, &["gpu"])?,
        resource_group: Some(text(alloc, "prod")?),
        interruptible: true,
        part: part(alloc)?,
    })
}

fn pipeline_at(alloc: Global, id: u64, seconds: u64) -> Result<Pipeline, Fail> {
    Ok(Pipeline {
        id,
        project: 1,
        git_ref: text(alloc, "old")?,
        kind: RefKind::Branch,
        source: Source::Push,
        created: moment(seconds)?,
    })
}

fn job(alloc: Global, id: u64, pipeline: u64) -> Result<Job, Fail> {
    Ok(Job {
        id,
        pipeline,
        position: 0,
        name: text(alloc, "build")?,
        stage: text(alloc, "test")?,
        options: options(alloc)?,
        played: true,
        cancelled: false,
        set_aside: 2,
    })
}

fn attempt(alloc: Global, id: u64, job: u64, state: AttemptState) -> Result<Attempt, Fail> {
    Ok(Attempt {
        id,
        job,
        runner: 1,
        token: text(alloc, "j1")?,
        granted: moment(100)?,
        seen: moment(130)?,
        state,
    })
}

fn appended(bytes: Vec<u8>) -> RowChange {
    RowChange::Append(Trace {
        attempt: 1,
        bytes: Bytes::new(bytes),
    })
}

fn record(alloc: Global, made: &Made) -> Result<Record, Fail> {
    Ok(match made {
        Made::Project(id, name, token) => Record::Project(Project {
            id: *id,
            name: text(alloc, name)?,
            token: text(alloc, token)?,
            file: None,
        }),
        Made::Variable(project, key, value) => Record::Variable(Variable {
            project: *project,
            key: text(alloc, key)?,
            value: text(alloc, value)?,
        }),
        Made::Runner(id) => Record::Runner(runner(alloc, *id)?),
        Made::Pipeline(id, project, git_ref, kind) => Record::Pipeline(Pipeline {
            id: *id,
            project: *project,
            git_ref: text(alloc, git_ref)?,
            kind: *kind,
            source: Source::Schedule,
            created: moment(60)?,
        }),
        Made::PipelineAt(id, seconds) => Record::Pipeline(pipeline_at(alloc, *id, *seconds)?),
        Made::Job(id, pipeline) => Record::Job(job(alloc, *id, *pipeline)?),
        Made::JobVariable(key) => Record::JobVariable(JobVariable {
            job: 1,
            key: text(alloc, key)?,
            value: text(alloc, "1")?,
        }),
        Made::Attempt(id, job, state) => Record::Attempt(attempt(alloc, *id, *job, *state)?),
        Made::Need(job, pred) => Record::Need(Need {
            job: *job,
            pred: *pred,
        }),
        Made::Mode(project, group, order) => Record::Mode(GroupMode {
            project: *project,
            group: text(alloc, group)?,
            order: *order,
        }),
    })
}

fn key(alloc: Global, gone: &Gone) -> Result<Key, Fail> {
    Ok(match gone {
        Gone::Project(id) => Key::Project(*id),
        Gone::Variable(project, key) => Key::Variable(*project, text(alloc, key)?),
        Gone::Pipeline(id) => Key::Pipeline(*id),
        Gone::Job(id) => Key::Job(*id),
        Gone::JobVariable(job, key) => Key::JobVariable(*job, text(alloc, key)?),
        Gone::JobVariables(job) => Key::JobVariables(*job),
        Gone::Need(job, pred) => Key::Need(*job, *pred),
        Gone::Needs(job) => Key::Needs(*job),
        Gone::Attempt(id) => Key::Attempt(*id),
        Gone::Trace(attempt) => Key::Trace(*attempt),
        Gone::Mode(project, group) => Key::Mode(*project, text(alloc, group)?),
    })
}

/// The row of a job, whose predecessors' counts are three different numbers.
pub fn row_of(job: u64, status: Status) -> BoardRow {
    BoardRow {
        job,
        row: Row {
            status,
            opens: 2,
            failed: 1,
            barred: 3,
        },
    }
}

impl Work {
    pub fn nothing(alloc: Global) -> Work {
        Work {
            changes: Vec::new(alloc),
            rows: Vec::new(alloc),
            indexes: Vec::new(alloc),
            cleared: Vec::new(alloc),
        }
    }

    pub fn push(&mut self, alloc: Global, change: &Change) -> Result<(), Fail> {
        match change {
            Change::Put(made) => self.changes.push(RowChange::Put(record(alloc, made)?))?,
            Change::Append(bytes) => self.changes.push(appended(Vec::from_slice(alloc, bytes)?))?,
            Change::AppendMany(count) => {
                self.changes.push(appended(vec![in alloc; 255u8; *count]?))?
            }
            Change::Remove(gone) => self.changes.push(RowChange::Remove(key(alloc, gone)?))?,
            Change::SetNext(counter, next) => self
                .changes
                .push(RowChange::Put(Record::Next(*counter, *next)))?,
            Change::Row(job, status) => self.rows.push(row_of(*job, *status))?,
            Change::Clear(job) => self.cleared.push(*job)?,
            Change::Hold(project, group, attempt) => {
                self.indexes.push(IndexChange::Hold(Holder {
                    project: *project,
                    group: text(alloc, group)?,
                    attempt: *attempt,
                }))?
            }
            Change::Free(project, group) => {
                let group = text(alloc, group)?;
                self.indexes.push(IndexChange::Free(*project, group))?
            }
            Change::Open(pipeline) => self.indexes.push(IndexChange::Open(Unfinished {
                pipeline: *pipeline,
            }))?,
            Change::Close(pipeline) => self.indexes.push(IndexChange::Close(*pipeline))?,
        }
        Ok(())
    }

    pub fn of(alloc: Global, changes: &[Change]) -> Result<Work, Fail> {
        let mut work = Work::nothing(alloc);
        for change in changes {
            work.push(alloc, change)?;
        }
        Ok(work)
    }
}

/// A change of each kind of record, with a next number and a row.
pub const ONE_OF_EACH: &[Change] = &[
    Change::Put(Made::Project(1, "one", "p1")),
    Change::Put(Made::Variable(1, "LEVEL", "0")),
    Change::Put(Made::Runner(1)),
    Change::Put(Made::Pipeline(1, 1, "main", RefKind::Tag)),
    Change::Put(Made::Job(1, 1)),
    Change::Put(Made::Job(2, 1)),
    Change::Put(Made::Attempt(1, 1, AttemptState::Failed(Cause::ScriptFailure, Some(2)))),
    Change::Put(Made::JobVariable("KEY")),
    Change::Put(Made::JobVariable("CI")),
    Change::Put(Made::Mode(1, "prod", GroupOrder::OldestFirst)),
    Change::SetNext(Counter::Job, 3),
    Change::Row(1, Status::Manual),
];
