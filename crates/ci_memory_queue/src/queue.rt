//! What is remembered of the pending jobs.

ghost use Rattle.std.specs.Prelude.{ℕ, List};
ghost use Rattle.ci_machine_steps.specs.Prelude.{IndexChange, Kept, written, cleared};
ghost use Rattle.ci_memory_queue.specs.Covers.{IsRight};

use crate::notes::{Notes, notes_after};
use ci_machine::change::RowChange;
use ci_machine::records::{BoardRow, GroupOrder};
use ci_machine::text::{Text, Texts};
use std::collections::BTreeSet;

/// What a job asks of a runner.
#[derive(Drop)]
pub struct Asks {
    /// The project of its pipeline, to which the runner must be open.
    pub project: u64,
    /// The tags that the runner must have.
    pub tags: Texts,
    /// The resource group that no live attempt may hold.
    pub group: Option<Text>,
}

/// Jobs that ask the same.
#[derive(Drop)]
pub struct Class {
    pub asks: Asks,
    /// Their numbers. Some of them may be pending no more, or ask something else now.
    pub jobs: BTreeSet<u64>,
}

/// What is remembered of the pending jobs: each of them is noted as fresh or is in the class of what it asks.
#[derive(Drop)]
pub struct Queue {
    pub(crate) classes: Vec<Class>,
    /// Those that are in no class yet are fresh.
    pub(crate) notes: Notes,
}

/// The queue after a commit's changes of records and its rows: jobs that may ask something else and rows of pending jobs are noted. It is
/// forgotten where a record goes that a class may depend on, where memory is refused, and where more has been noted than there is room
/// for.
pub fn queue_after(queue: Option<Queue>, changes: &[RowChange], rows: &[BoardRow]) -> Option<Queue>
    ensures { (k : Kept) (jobs : List ℕ) (indexes : List IndexChange) → IsRight queue k → IsRight result (written changes.now rows.now indexes (cleared jobs k)) }
{
    let Queue { classes, notes } = queue?;
    let notes = notes_after(notes, GroupOrder::NewestReadyFirst, changes, rows)?;
    Some(Queue { classes, notes })
}
