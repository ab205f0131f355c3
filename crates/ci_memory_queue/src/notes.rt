//! Jobs that are noted: those which may have come to count, or to ask something else, since they were last looked up.

ghost use Rattle.std.specs.Prelude.{◌≡◌, ◌≤◌, ℕ, Some, IfSome, OnSome, Contains};
ghost use Rattle.ci_memory_queue.specs.Notes.{Noted, with_note, job_noted, pipeline_noted, record_noted, removal_noted, change_noted, changes_noted, row_noted, rows_noted, noted};

use crate::lines::places::counts_as;
use ci_machine::change::{Key, Record, RowChange};
use ci_machine::records::{BoardRow, GroupOrder, Job, Pipeline};
use std::marker::Model;

/// How many more jobs may be noted than twice those that were at the beginning, before all is forgotten.
const SPARE_NOTES: u64 = 1024;

/// What is noted of jobs that count by their rows.
#[derive(Drop)]
pub struct Notes {
    /// Jobs that aren't sorted yet.
    pub(crate) fresh: Vec<u64>,
    /// No job that counts has a greater number.
    pub(crate) newest: u64,
    /// No job that is sorted is of a pipeline with a greater number.
    pub(crate) newest_pipeline: u64,
    /// How many more jobs may be noted before all is forgotten.
    pub(crate) room: u64,
}

impl Model for Notes {
    ghost use Rattle.ci_memory_queue.specs.Notes.{Noted};

    ghost Value = { Noted };

    ghost view = { λ n. record { fresh = n.fresh.items; newest = n.newest; newest_pipeline = n.newest_pipeline } };
}

/// The notes of these jobs, to begin with.
pub(crate) fn notes_of(fresh: Vec<u64>) -> Notes
    ensures fresh { result.fresh ≡ fresh.items }
    ensures newest { (n : ℕ) → Contains fresh.items n → n ≤ result.newest }
{
    let newest = greatest(fresh.as_slice());
    let room = (fresh.len() as u64)
        .saturating_mul(2)
        .saturating_add(SPARE_NOTES);
    Notes {
        fresh,
        newest,
        newest_pipeline: 0,
        room,
    }
}

/// The greatest of the numbers; 0 where there are none.
fn greatest(numbers: &[u64]) -> u64
    ensures { (n : ℕ) → Contains numbers.now n → n ≤ result }
{
    numbers.iter().copied().max().unwrap_or(0)
}

/// The notes after a commit's changes of records and its rows: jobs that may ask something else are noted, and those that count by their
/// rows, in `oldest_first` the created and the pending ones, in `newest_ready_first` the pending ones alone. All is forgotten where a record
/// goes or changes by which jobs may have been sorted, where memory is refused, and where more has been noted than there is room for.
pub(crate) fn notes_after(
    notes: Notes,
    order: GroupOrder,
    changes: &[RowChange],
    rows: &[BoardRow],
) -> Option<Notes>
    ensures { IfSome result (λ n. noted order changes.now rows.now notes ≡ Some n) }
{
    let notes = after_changes(notes, changes)?;
    after_rows(notes, order, rows)
}

fn after_changes(notes: Notes, changes: &[RowChange]) -> Option<Notes>
    ensures { IfSome result (λ n. changes_noted changes.now notes ≡ Some n) }
{
    let mut notes = notes;
    for change in changes {
        note_change(&mut notes, change)?;
    }
    Some(notes)
}

fn note_change(notes: &mut Notes, change: &RowChange) -> Option<()>
    ensures { OnSome result (change_noted change.now notes.old ≡ Some notes.new) }
{
    match change {
        RowChange::Put(record) => note_record(notes, record),
        RowChange::Append(_) => Some(()),
        RowChange::Remove(key) => note_removal(key),
    }
}

fn note_record(notes: &mut Notes, new: &Record) -> Option<()>
    ensures { OnSome result (record_noted new.now notes.old ≡ Some notes.new) }
{
    match new {
        Record::Job(job) => note_job(notes, job),
        Record::Pipeline(pipeline) => note_pipeline(notes, pipeline),
        _ => Some(()),
    }
}

/// A job that may count may ask something else now.
fn note_job(notes: &mut Notes, job: &Job) -> Option<()>
    ensures { OnSome result (notes.new ≡ job_noted job.now notes.old) }
{
    if notes.newest < job.id {
        return Some(());
    }
    note(notes, job.id)
}

/// Jobs may have been sorted by another project, if one of them can be of the pipeline.
fn note_pipeline(notes: &Notes, pipeline: &Pipeline) -> Option<()>
    ensures { OnSome result (pipeline_noted pipeline.now notes.now ≡ Some notes.now) }
{
    if notes.newest_pipeline < pipeline.id {
        Some(())
    } else {
        None
    }
}

/// All is forgotten where a job or a pipeline goes.
fn note_removal(key: &Key) -> Option<()>
    ensures { (q : Noted) → OnSome result (removal_noted key.now q ≡ Some q) }
{
    match key {
        Key::Job(_) | Key::Pipeline(_) => None,
        _ => Some(()),
    }
}

fn after_rows(notes: Notes, order: GroupOrder, rows: &[BoardRow]) -> Option<Notes>
    ensures { IfSome result (λ n. n ≡ rows_noted order rows.now notes) }
{
    let mut notes = notes;
    for row in rows {
        note_row(&mut notes, order, *row)?;
    }
    Some(notes)
}

/// The job of the row, if it counts now.
fn note_row(notes: &mut Notes, order: GroupOrder, row: BoardRow) -> Option<()>
    ensures { OnSome result (notes.new ≡ row_noted order row notes.old) }
{
    if !counts_as(order, row.row.status) {
        return Some(());
    }
    note(notes, row.job)?;
    notes.newest = notes.newest.max(row.job);
    Some(())
}

/// Notes a job, if there is room.
fn note(notes: &mut Notes, job: u64) -> Option<()>
    ensures { OnSome result (notes.new ≡ with_note notes.old job) }
{
    if notes.room == 0 {
        return None;
    }
    notes.room -= 1;
    notes.fresh.push(job).ok()
}
