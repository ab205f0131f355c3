//! The process modes of resource groups, as they are remembered: all of them, where they are few.

ghost use Rattle.std.specs.Prelude.{◌≡◌, IfOk, find, option_copied};
ghost use Rattle.std.specs.List.{list_any};
ghost use Rattle.ci_machine_steps.specs.Prelude.{is_mode_of, State, applied};
ghost use Rattle.ci_memory.specs.Modes.{AreModes, is_of_mode};

use ci_machine::change::{Key, Record, RowChange};
use ci_machine::records::GroupMode;
use ci_machine::text::Text;
use std::alloc::AllocError;

/// How many process modes are remembered, at most. Of more each is looked up by its project and its resource group.
pub const MAX_MODES: usize = 256;

/// What is remembered of the process modes.
#[derive(Drop)]
pub enum Modes {
    Unknown,
    /// There are more than are remembered.
    Many,
    /// All of them, by the project and then by the bytes of the group.
    All(Vec<GroupMode>),
}

impl Modes {
    /// What is remembered of all modes.
    pub(crate) fn of(modes: Vec<GroupMode>) -> Modes
        ensures { (s : State) → modes.items ≡ s.modes → AreModes result s }
    {
        if modes.len() > MAX_MODES {
            Modes::Many
        } else {
            Modes::All(modes)
        }
    }

    /// What is remembered after changes: nothing, where one is of a mode.
    pub(crate) fn after(self, changes: &[RowChange]) -> Modes
        ensures { (s : State) → AreModes self s → AreModes result (applied changes.now s) }
    {
        if has_mode(changes) {
            return Modes::Unknown;
        }
        self
    }
}

/// The mode of a resource group of a project, of all of them. Errors: there is no memory for its copy.
pub(crate) fn with_group(
    modes: &[GroupMode],
    project: u64,
    group: &Text,
) -> Result<Option<GroupMode>, AllocError>
    ensures { IfOk result (λ found. found ≡ find (is_mode_of project group.now) modes.now) }
{
    match first_with(modes, project, group) {
        Some(mode) => Ok(Some(copy_of(mode)?)),
        None => Ok(None),
    }
}

fn first_with<'a>(modes: &'a [GroupMode], project: u64, group: &Text) -> Option<&'a GroupMode>
    ensures { option_copied result ≡ find (is_mode_of project group.now) modes.now }
{
    modes.iter().find(|mode| mode.project == project && mode.group.is_same(group))
}

fn copy_of(mode: &GroupMode) -> Result<GroupMode, AllocError>
    ensures { IfOk result (λ copy. copy ≡ mode.now) }
{
    mode.clone()
}

/// Is one of the changes of a mode?
fn has_mode(changes: &[RowChange]) -> bool
    ensures { result ≡ list_any is_of_mode changes.now }
{
    changes.iter().any(is_of_mode)
}

fn is_of_mode(change: &RowChange) -> bool
    ensures { result ≡ is_of_mode change.now }
{
    matches!(
        change,
        RowChange::Put(Record::Mode(_)) | RowChange::Remove(Key::Mode(..))
    )
}
