//! What is remembered still of a pipeline after a commit.

ghost use Rattle.std.specs.Prelude.{◌≡◌, ◌==◌, ℕ, List, None, map, IfSome, OnSome, option_copied};
ghost use Rattle.std.specs.List.{list_any};
ghost use Rattle.std.specs.Ordering.{nat_cmp};
ghost use Rattle.std.specs.List.Sorted.{IsStrictlySortedBy};
ghost use Rattle.ci_machine_steps.specs.Prelude.{IndexChange, Kept, row_cmp, cleared, written, is_within, job_cmp, attempt_cmp, put, with_record, changed};
ghost use Rattle.ci_machine.specs.declared.change.Record.TheVariants as row;
ghost use Rattle.ci_memory_boards.specs.Order.{InOrder};
ghost use Rattle.ci_memory_boards.specs.Sheets.{attempt_put};
ghost use Rattle.ci_server_lookups.specs.Prelude.{IsRight};

use crate::follows::{Follows, after_changes, after_rows};
use crate::puts::put_record;
use crate::touch::{own_job, touches};
use ci_machine::change::{Record, RowChange};
use ci_machine::records::{Attempt, BoardRow, Job};
use ci_server_lookups::sheet::Sheet;

/// What is remembered of a pipeline after the rows of these jobs went, these changes were made and these rows were put: jobs of it, attempts
/// and rows are put among those that are remembered. None, so that it is forgotten, where anything else of it changes or memory is refused.
pub(crate) fn sheet_after(
    sheet: Sheet,
    changes: &[RowChange],
    rows: &[BoardRow],
    gone: &[u64],
) -> Option<Sheet>
    ensures { IfSome result (λ m. (k : Kept) (indexes : List IndexChange) → InOrder k → IsRight sheet k → IsRight m (written changes.now rows.now indexes (cleared gone.now k))) }
{
    if has_any(&sheet, gone) {
        return None;
    }
    after_rows(after_changes(sheet, changes)?, rows)
}

/// Does one of these jobs stand between the two numbers?
fn has_any(sheet: &Sheet, jobs: &[u64]) -> bool
    ensures { result ≡ list_any (is_within sheet.now.first sheet.now.last) jobs.now }
{
    jobs.iter().any(|job| sheet.has_within(*job))
}

impl Follows for Sheet {
    ghost IsRightFor = { λ m k. IsRight m k × InOrder k };

    fn noted(self, change: &RowChange) -> Option<Sheet> {
        let mut sheet = self;
        note_change(&mut sheet, change)?;
        Some(sheet)
    }

    fn noted_row(self, row: BoardRow) -> Option<Sheet> {
        let mut sheet = self;
        note_row(&mut sheet, row)?;
        Some(sheet)
    }
}

fn note_change(sheet: &mut Sheet, change: &RowChange) -> Option<()>
    ensures { OnSome result ((k : Kept) → InOrder k → IsRight sheet.old k → IsRight sheet.new (record k { state = changed change.now k.state })) }
{
    match own_job(sheet, change) {
        Some(job) => note_job(sheet, job),
        None => note_other(sheet, change),
    }
}

/// A job of the pipeline's between the two numbers that is put. It may have other rules for those behind it, so the graph goes.
fn note_job(sheet: &mut Sheet, job: &Job) -> Option<()>
    ensures same { OnSome result (sheet.new ≡ record sheet.old { jobs = sheet.new.jobs; graph = None }) }
    ensures jobs { OnSome result (sheet.new.jobs.items ≡ put job_cmp job.now sheet.old.jobs.items) }
{
    sheet.graph = None;
    put_record(&mut sheet.jobs, job.clone().ok()?)
}

/// A change that puts no job of the pipeline's between the two numbers.
fn note_other(sheet: &mut Sheet, change: &RowChange) -> Option<()>
    ensures { OnSome result ((k : Kept) → IsStrictlySortedBy nat_cmp (map (λ a. a.id) k.state.attempts) → IsRight sheet.old k → IsRight sheet.new (record k { state = changed change.now k.state })) }
{
    if touches(sheet, change) {
        return None;
    }
    match attempt_put(change) {
        Some(attempt) => note_attempt(sheet, attempt),
        None => Some(()),
    }
}

/// The attempt that a change puts.
fn attempt_put(change: &RowChange) -> Option<&Attempt>
    ensures { option_copied result ≡ attempt_put change.now }
{
    match change {
        RowChange::Put(Record::Attempt(attempt)) => Some(attempt),
        _ => None,
    }
}

/// An attempt that is put: it is one of those of the jobs between the two numbers, or neither was nor is.
fn note_attempt(sheet: &mut Sheet, attempt: &Attempt) -> Option<()>
    ensures { OnSome result ((k : Kept) → IsStrictlySortedBy nat_cmp (map (λ a. a.id) k.state.attempts) → IsRight sheet.old k → IsRight sheet.new (record k { state = with_record (row.Attempt attempt.now) k.state })) }
{
    if sheet.has_within(attempt.job) {
        return put_record(&mut sheet.attempts, attempt.clone().ok()?);
    }
    if sheet.has_attempt(attempt.id) {
        return None;
    }
    Some(())
}

fn note_row(sheet: &mut Sheet, row: BoardRow) -> Option<()>
    ensures { OnSome result ((k : Kept) → IsStrictlySortedBy nat_cmp (map (λ r. r.job) k.board) → IsRight sheet.old k → IsRight sheet.new (record k { board = put row_cmp row k.board })) }
{
    if sheet.has_within(row.job) {
        return put_record(&mut sheet.rows, row);
    }
    Some(())
}
