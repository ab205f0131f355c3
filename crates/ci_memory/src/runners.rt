//! The runners, as they are remembered: all of them, where they are few.

ghost use Rattle.std.specs.Prelude.{◌≡◌, IfOk, find, option_copied};
ghost use Rattle.std.specs.List.{list_any};
ghost use Rattle.std.specs.Str.{bytes_eq};
ghost use Rattle.ci_machine_steps.specs.Prelude.{State, applied};
ghost use Rattle.ci_memory.specs.Runners.{AreRunners, is_of_runner};

use ci_machine::change::{Key, Record, RowChange};
use ci_machine::records::Runner;
use ci_machine::text::Text;
use std::alloc::AllocError;

/// How many runners are remembered, at most. Of more each is looked up by its token.
pub const MAX_RUNNERS: usize = 256;

/// What is remembered of the runners.
#[derive(Drop)]
pub enum Runners {
    Unknown,
    /// There are more than are remembered.
    Many,
    /// All of them, by number.
    All(Vec<Runner>),
}

impl Runners {
    /// What is remembered of all runners.
    pub(crate) fn of(runners: Vec<Runner>) -> Runners
        ensures { (s : State) → runners.items ≡ s.runners → AreRunners result s }
    {
        if runners.len() > MAX_RUNNERS {
            Runners::Many
        } else {
            Runners::All(runners)
        }
    }

    /// What is remembered after changes: nothing, where one is of a runner.
    pub(crate) fn after(self, changes: &[RowChange]) -> Runners
        ensures { (s : State) → AreRunners self s → AreRunners result (applied changes.now s) }
    {
        if has_runner(changes) {
            return Runners::Unknown;
        }
        self
    }
}

/// The runner with a token, of all of them. Errors: there is no memory for its copy.
pub(crate) fn with_token(runners: &[Runner], token: &Text) -> Result<Option<Runner>, AllocError>
    ensures { IfOk result (λ found. found ≡ find (λ r. bytes_eq r.token token.now) runners.now) }
{
    match first_with(runners, token) {
        Some(runner) => Ok(Some(copy_of(runner)?)),
        None => Ok(None),
    }
}

fn first_with<'a>(runners: &'a [Runner], token: &Text) -> Option<&'a Runner>
    ensures { option_copied result ≡ find (λ r. bytes_eq r.token token.now) runners.now }
{
    runners.iter().find(|runner| runner.token.is_same(token))
}

fn copy_of(runner: &Runner) -> Result<Runner, AllocError>
    ensures { IfOk result (λ copy. copy ≡ runner.now) }
{
    runner.clone()
}

/// Is one of the changes of a runner?
fn has_runner(changes: &[RowChange]) -> bool
    ensures { result ≡ list_any is_of_runner changes.now }
{
    changes.iter().any(is_of_runner)
}

fn is_of_runner(change: &RowChange) -> bool
    ensures { result ≡ is_of_runner change.now }
{
    matches!(
        change,
        RowChange::Put(Record::Runner(_)) | RowChange::Remove(Key::Runner(_))
    )
}
