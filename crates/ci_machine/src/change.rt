//! Changes of the records, which one transaction makes.

ghost use Rattle.std.specs.Prelude.{◌≡◌, ◌↔◌, [], IsTrue};

use crate::records::{
    Attempt, GroupMode, Holder, Job, JobVariable, Need, Pipeline, Project, Runner, Trace,
    Unfinished, Variable,
};
use crate::text::Text;
use std::marker::Model;

/// A record of any table but that of traces.
#[derive(Drop)]
pub enum Record {
    Project(Project),
    Variable(Variable),
    Runner(Runner),
    Pipeline(Pipeline),
    Job(Job),
    JobVariable(JobVariable),
    Need(Need),
    Attempt(Attempt),
    Mode(GroupMode),
    /// The next number of a kind.
    Next(Counter, u64),
}

/// The key of a record of any table but that of the next numbers, which stay; or of all that belong to one.
#[derive(Drop)]
pub enum Key {
    Project(u64),
    /// Of a project.
    Variable(u64, Text),
    Runner(u64),
    Pipeline(u64),
    Job(u64),
    JobVariable(u64, Text),
    /// All variables of a job.
    JobVariables(u64),
    /// Of a job, and of the one that it waits for.
    Need(u64, u64),
    /// All that a job waits for.
    Needs(u64),
    Attempt(u64),
    /// Of a project, and of a resource group, which is unordered then.
    Mode(u64, Text),
    /// The whole trace of an attempt.
    Trace(u64),
}

/// One of the next numbers.
#[derive(Clone, Copy, PartialEq, Eq, Drop)]
pub enum Counter {
    Project,
    Runner,
    Pipeline,
    Job,
    Attempt,
}

/// A change of the records.
#[derive(Drop)]
pub enum RowChange {
    /// A record in place of the one with its key, or a new one.
    Put(Record),
    /// Bytes behind the trace of an attempt.
    Append(Trace),
    /// The record with the key goes, or all that have it.
    Remove(Key),
}

/// A change of what is kept beside the state: which resource groups are held, and which pipelines aren't finished.
#[derive(Drop)]
pub enum IndexChange {
    /// A live attempt holds a group, which none held.
    Hold(Holder),
    /// A group of a project is held no more.
    Free(u64, Text),
    /// A pipeline isn't finished.
    Open(Unfinished),
    /// The pipeline with a number is finished.
    Close(u64),
}

/// A list of changes of records: what a plan makes of the state.
#[derive(Drop)]
pub struct Changes {
    changes: Vec<RowChange>,
}

impl Model for Changes {
    ghost use Rattle.std.specs.Prelude.{List};
    ghost use Rattle.ci_machine.specs.declared.change.RowChange.{RowChange};

    ghost Value = { List RowChange };

    ghost view = { λ d. d.changes.items };
}

impl Changes {
    /// The changes of a list, the first of them first.
    pub fn new(changes: Vec<RowChange>) -> Changes
        ensures { result ≡ changes.items }
    {
        Changes { changes }
    }

    /// Are there none?
    pub fn is_empty(&self) -> bool
        ensures { IsTrue result ↔ (self.now ≡ []) }
    {
        self.changes.is_empty()
    }

    /// The changes, lent.
    pub fn as_slice(&self) -> &[RowChange]
        ensures { result.now ≡ self.now }
    {
        self.changes.as_slice()
    }

    /// The changes, as a list.
    pub fn into_vec(self) -> Vec<RowChange>
        ensures { result.items ≡ self }
    {
        let Changes { changes } = self;
        changes
    }
}
