//! The next numbers, as far as they are remembered.

ghost use Rattle.std.specs.Prelude.{◌≡◌, IfSome};
ghost use Rattle.ci_machine_steps.specs.Prelude.{Numbers, next_of, State, with_next, changed, applied};
ghost use Rattle.ci_memory.specs.Numbers.{AreNext};

use crate::follows::{Follows, followed};
use ci_machine::change::{Counter, Record, RowChange};

/// The next number of each kind, if it is remembered.
#[derive(Clone, Copy, Drop)]
pub struct NextNumbers {
    pub project: Option<u64>,
    pub runner: Option<u64>,
    pub pipeline: Option<u64>,
    pub job: Option<u64>,
    pub attempt: Option<u64>,
}

impl NextNumbers {
    /// None is remembered.
    pub(crate) fn unknown() -> NextNumbers
        ensures { (next : Numbers) → AreNext result next }
    {
        NextNumbers {
            project: None,
            runner: None,
            pipeline: None,
            job: None,
            attempt: None,
        }
    }

    /// The next number of a kind, if it is remembered.
    pub(crate) fn of(&self, counter: Counter) -> Option<u64>
        ensures { (next : Numbers) → AreNext self.now next → IfSome result (λ n. n ≡ next_of counter next) }
    {
        match counter {
            Counter::Project => self.project,
            Counter::Runner => self.runner,
            Counter::Pipeline => self.pipeline,
            Counter::Job => self.job,
            Counter::Attempt => self.attempt,
        }
    }

    /// Remembers the next number of a kind, as it was looked up.
    pub(crate) fn learn(&mut self, counter: Counter, number: u64)
        ensures { (next : Numbers) → AreNext self.old next → number ≡ next_of counter next → AreNext self.new next }
    {
        self.put(counter, number);
    }

    /// Remembers the next number of a kind, as it is put.
    fn put(&mut self, counter: Counter, number: u64)
        ensures { (next : Numbers) → AreNext self.old next → AreNext self.new (with_next counter number next) }
    {
        match counter {
            Counter::Project => self.project = Some(number),
            Counter::Runner => self.runner = Some(number),
            Counter::Pipeline => self.pipeline = Some(number),
            Counter::Job => self.job = Some(number),
            Counter::Attempt => self.attempt = Some(number),
        }
    }

    /// What is remembered after changes.
    pub(crate) fn after(self, changes: &[RowChange]) -> NextNumbers
        ensures { (s : State) → AreNext self s.next → AreNext result (applied changes.now s).next }
    {
        followed(self, changes)
    }
}

impl Follows for NextNumbers {
    ghost IsRightOf = { λ m s. AreNext m s.next };

    fn change(&mut self, change: &RowChange) {
        if let RowChange::Put(Record::Next(counter, number)) = change {
            self.put(*counter, *number);
        }
    }
}
