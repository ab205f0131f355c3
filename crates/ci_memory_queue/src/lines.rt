//! The jobs that wait for a resource group as they are remembered, by the project and the group: in a group with an order the first of
//! them that waits still tells whose turn it is.

mod fill;
mod first;
mod groups;
pub(crate) mod places;
pub mod turn;

ghost use Rattle.std.specs.Prelude.{ℕ, List};
ghost use Rattle.ci_machine_steps.specs.Prelude.{IndexChange, Kept, written, cleared};
ghost use Rattle.ci_memory_queue.specs.LineCovers.{IsRight};

use crate::notes::{Notes, notes_after};
use ci_machine::change::RowChange;
use ci_machine::records::{BoardRow, GroupOrder};
use ci_machine::text::Text;
use std::collections::BTreeSet;

/// Where a job stands.
#[derive(Drop)]
pub struct Place {
    /// Its pipeline.
    pub pipeline: u64,
    /// The project of its pipeline.
    pub project: u64,
    /// Its resource group, if it has one.
    pub group: Option<Text>,
}

/// The jobs that wait for a resource group of a project.
#[derive(Drop)]
pub struct Line {
    pub project: u64,
    pub group: Text,
    /// The numbers of those that are created or pending. Some of them may be so no more, or have another group now.
    pub waiting: BTreeSet<u64>,
    /// The numbers of those that are pending, and likewise of others.
    pub ready: BTreeSet<u64>,
}

/// What is remembered of the jobs that are created or pending: each of them is noted as fresh, or is in the line of its group, if it
/// has one.
#[derive(Drop)]
pub struct Lines {
    pub(crate) lines: Vec<Line>,
    /// Those that are in no line yet are fresh.
    pub(crate) notes: Notes,
}

/// The lines after a commit's changes of records and its rows: jobs that may have another group and rows of jobs that wait are noted. They
/// are forgotten where a record goes that a line may depend on, where memory is refused, and where more has been noted than there is room
/// for.
pub fn lines_after(lines: Option<Lines>, changes: &[RowChange], rows: &[BoardRow]) -> Option<Lines>
    ensures { (k : Kept) (jobs : List ℕ) (indexes : List IndexChange) → IsRight lines k → IsRight result (written changes.now rows.now indexes (cleared jobs k)) }
{
    let Lines { lines, notes } = lines?;
    let notes = notes_after(notes, GroupOrder::OldestFirst, changes, rows)?;
    Some(Lines { lines, notes })
}
