//! What is remembered of pipelines.

ghost use Rattle.std.specs.Prelude.{◌≡◌, ◌==◌, ◌&&◌, ◌++◌, ◌∷◌, [], ℕ, List, true, All, Contains, Some, find, option_to_list, IfSome, OnSome, IsPermutation, option_copied};
ghost use Rattle.ci_machine_steps.specs.Prelude.{IndexChange, Kept, cleared, written, job_at, attempt_at, needs_within, attempts_within, rows_within, jobs_of};
ghost use Rattle.ci_store.specs.Prelude.{row_at};
ghost use Rattle.ci_memory_boards.specs.Fresh.{IsFresh};
ghost use Rattle.ci_memory_boards.specs.Order.{InOrder};
ghost use Rattle.ci_memory_boards.specs.Room.{has_room, is_under_way, with_room};
ghost use Rattle.ci_memory_boards.specs.Sheets.{AreRight};
ghost use Rattle.ci_server_lookups.specs.declared.sheet.Sheet.{Sheet};
ghost use Rattle.ci_server_lookups.specs.Prelude.{IsRight};

use crate::after::sheet_after;
use crate::fresh::Fresh;
use crate::one::{around, attempt_with, copy_of_attempt, copy_of_job, job_with, row_with, trying};
use crate::room;
use ci_machine::change::RowChange;
use ci_machine::records::{Attempt, BoardRow, Job, Need};
use ci_server_lookups::sheet::Sheet;

/// The records of some pipelines. To forget any of them is always right.
#[derive(Drop)]
pub struct Boards {
    pub sheets: Option<Vec<Sheet>>,
    /// From which numbers on pipelines and jobs are new.
    pub fresh: Option<Fresh>,
}

impl Boards {
    /// Nothing is remembered.
    pub fn nothing() -> Boards
        ensures { (k : Kept) → AreRight result k }
    {
        Boards {
            sheets: None,
            fresh: None,
        }
    }

    /// Remembers the records of one more pipeline. Where there is no memory for it, all are forgotten.
    pub fn learn(&mut self, sheet: Sheet)
        ensures { (k : Kept) → AreRight self.old k → IsRight sheet k → AreRight self.new k }
    {
        self.sheets = and_one(self.sheets.take(), sheet);
    }

    /// Is there room for one more pipeline, or one that isn't under way? So what is learned then pushes out none that is.
    pub fn has_room(&self) -> bool
        ensures { IfSome self.now.sheets (λ sheets. result ≡ has_room sheets.items) }
    {
        match &self.sheets {
            Some(sheets) => room::has_room(sheets.as_slice()),
            None => true,
        }
    }

    /// Takes the records of a pipeline out of what is remembered, where they are.
    pub fn take(&mut self, pipeline: u64) -> Option<Sheet>
        ensures right { (k : Kept) → AreRight self.old k → AreRight self.new k }
        ensures taken { IfSome result (λ m. (k : Kept) → AreRight self.old k → IsRight m k × (m.pipeline ≡ pipeline)) }
    {
        match &mut self.sheets {
            Some(sheets) => take_out(sheets, pipeline),
            None => None,
        }
    }

    /// Remembers from which numbers on pipelines and jobs are new: of one that a commit makes then all is remembered from its beginning.
    pub fn learn_fresh(&mut self, fresh: Fresh)
        ensures { (k : Kept) → AreRight self.old k → IsFresh fresh k → AreRight self.new k }
    {
        self.fresh = Some(fresh);
    }

    fn known(&self) -> &[Sheet]
        ensures { (k : Kept) → AreRight self.now k → All (λ m. IsRight m k) result.now }
    {
        match &self.sheets {
            Some(sheets) => sheets.as_slice(),
            None => &[],
        }
    }

    /// The jobs of a pipeline, by number, where they are remembered and there is memory for their copies.
    pub fn jobs_of(&self, pipeline: u64) -> Option<Vec<Job>>
        ensures { IfSome result (λ jobs. (k : Kept) → AreRight self.now k → jobs.items ≡ jobs_of k.state pipeline) }
    {
        let sheet = of_pipeline(self.known(), pipeline)?;
        copies_of_jobs(&sheet.jobs)
    }

    /// What the jobs between two numbers wait for, where it is remembered and there is memory for the copies.
    pub fn needs_within(&self, first: u64, last: u64) -> Option<Vec<Need>>
        ensures { IfSome result (λ needs. (k : Kept) → AreRight self.now k → needs.items ≡ needs_within first last k.state.needs) }
    {
        let sheet = between(self.known(), first, last)?;
        copies_of_needs(&sheet.needs)
    }

    /// The attempts of the jobs between two numbers, by number, where they are remembered and there is memory for their copies.
    pub fn attempts_within(&self, first: u64, last: u64) -> Option<Vec<Attempt>>
        ensures { IfSome result (λ attempts. (k : Kept) → AreRight self.now k → attempts.items ≡ attempts_within first last k.state.attempts) }
    {
        let sheet = between(self.known(), first, last)?;
        copies_of_attempts(&sheet.attempts)
    }

    /// The rows of the jobs between two numbers, by job, where they are remembered and there is memory for their copies.
    pub fn rows_within(&self, first: u64, last: u64) -> Option<Vec<BoardRow>>
        ensures { IfSome result (λ rows. (k : Kept) → AreRight self.now k → rows.items ≡ rows_within first last k.board) }
    {
        let sheet = between(self.known(), first, last)?;
        copies_of_rows(&sheet.rows)
    }

    /// The row of a job, where one is remembered.
    pub fn row(&self, job: u64) -> Option<BoardRow>
        ensures { IfSome result (λ row. (k : Kept) → InOrder k → AreRight self.now k → row_at job k.board ≡ Some row) }
    {
        let sheet = around(self.known(), job)?;
        let row = row_with(sheet.rows.as_slice(), job)?;
        Some(*row)
    }

    /// The job with a number, where it is remembered and there is memory for its copy.
    pub fn job(&self, id: u64) -> Option<Job>
        ensures { IfSome result (λ job. (k : Kept) → InOrder k → AreRight self.now k → job_at k.state id ≡ Some job) }
    {
        let sheet = around(self.known(), id)?;
        let job = job_with(sheet.jobs.as_slice(), id)?;
        copy_of_job(job)
    }

    /// The attempt with a number, where it is remembered and there is memory for its copy.
    pub fn attempt(&self, id: u64) -> Option<Attempt>
        ensures { IfSome result (λ attempt. (k : Kept) → InOrder k → AreRight self.now k → attempt_at k.state id ≡ Some attempt) }
    {
        let sheet = trying(self.known(), id)?;
        let attempt = attempt_with(sheet.attempts.as_slice(), id)?;
        copy_of_attempt(attempt)
    }

    /// What is remembered still after a commit: the rows of these jobs went, these changes were made, and these rows were put.
    pub fn after(self, changes: &[RowChange], rows: &[BoardRow], gone: &[u64]) -> Boards
        ensures { (k : Kept) (indexes : List IndexChange) → InOrder k → AreRight self k → AreRight result (written changes.now rows.now indexes (cleared gone.now k)) }
    {
        let Boards { sheets, fresh } = self;
        let sheets = with_blank(sheets, &fresh, changes);
        Boards {
            sheets: sheets_after(sheets, changes, rows, gone),
            fresh: fresh_after(fresh, changes, rows),
        }
    }
}

fn fresh_after(fresh: Option<Fresh>, changes: &[RowChange], rows: &[BoardRow]) -> Option<Fresh>
    ensures { (k : Kept) (indexes : List IndexChange) (gone : List ℕ) → IfSome fresh (λ f. IsFresh f k) → IfSome result (λ f. IsFresh f (written changes.now rows.now indexes (cleared gone k))) }
{
    match fresh {
        Some(fresh) => fresh.after(changes, rows),
        None => None,
    }
}

/// With the sheet of a pipeline that the changes make, as it is before them.
fn with_blank(
    sheets: Option<Vec<Sheet>>,
    fresh: &Option<Fresh>,
    changes: &[RowChange],
) -> Option<Vec<Sheet>>
    ensures { (k : Kept) → IfSome fresh.now (λ f. IsFresh f k) → IfSome sheets (λ v. All (λ m. IsRight m k) v.items) → IfSome result (λ v. All (λ m. IsRight m k) v.items) }
{
    match blank_of(fresh, changes) {
        Some(sheet) => and_one(sheets, sheet),
        None => sheets,
    }
}

fn blank_of(fresh: &Option<Fresh>, changes: &[RowChange]) -> Option<Sheet>
    ensures { IfSome result (λ m. (k : Kept) → IfSome fresh.now (λ f. IsFresh f k) → IsRight m k) }
{
    match fresh {
        Some(fresh) => fresh.blank(changes),
        None => None,
    }
}

fn and_one(sheets: Option<Vec<Sheet>>, sheet: Sheet) -> Option<Vec<Sheet>>
    ensures { (k : Kept) → IsRight sheet k → IfSome sheets (λ v. All (λ m. IsRight m k) v.items) → IfSome result (λ v. All (λ m. IsRight m k) v.items) }
{
    let alloc = *sheet.jobs.allocator();
    match sheets {
        Some(sheets) => with_one(sheets, sheet),
        None => with_one(Vec::new(alloc), sheet),
    }
}

/// With one more. What is under way stays where there is room, or anything else may go. None where memory was refused.
fn with_one(sheets: Vec<Sheet>, sheet: Sheet) -> Option<Vec<Sheet>>
    ensures learned { IfSome result (λ v. v.items ≡ with_room sheets.items ++ sheet ∷ []) }
    ensures stays { IfSome result (λ v. has_room sheets.items ≡ true → (m : Sheet) → Contains sheets.items m → is_under_way m ≡ true → Contains v.items m) }
{
    let mut sheets = sheets;
    room::make_room(&mut sheets);
    match sheets.push(sheet) {
        Ok(()) => Some(sheets),
        Err(_) => None,
    }
}

fn sheets_after(
    sheets: Option<Vec<Sheet>>,
    changes: &[RowChange],
    rows: &[BoardRow],
    gone: &[u64],
) -> Option<Vec<Sheet>>
    ensures { (k : Kept) (indexes : List IndexChange) → InOrder k → IfSome sheets (λ v. All (λ m. IsRight m k) v.items) → IfSome result (λ v. All (λ m. IsRight m (written changes.now rows.now indexes (cleared gone.now k))) v.items) }
{
    match sheets {
        Some(sheets) => each_after(sheets, changes, rows, gone),
        None => None,
    }
}

fn each_after(
    sheets: Vec<Sheet>,
    changes: &[RowChange],
    rows: &[BoardRow],
    gone: &[u64],
) -> Option<Vec<Sheet>>
    ensures { (k : Kept) (indexes : List IndexChange) → InOrder k → All (λ m. IsRight m k) sheets.items → IfSome result (λ v. All (λ m. IsRight m (written changes.now rows.now indexes (cleared gone.now k))) v.items) }
{
    let mut left = Vec::with_capacity(*sheets.allocator(), sheets.len()).ok()?;
    let mut sheets = sheets;
    while let Some(sheet) = sheets.pop() {
        add(&mut left, sheet_after(sheet, changes, rows, gone))?;
    }
    turn_round(&mut left);
    Some(left)
}

fn turn_round(sheets: &mut Vec<Sheet>)
    ensures { IsPermutation sheets.old.items sheets.new.items }
{
    sheets.as_mut_slice().reverse();
}

/// Adds what is remembered still, if anything is. None where memory was refused.
fn add(left: &mut Vec<Sheet>, sheet: Option<Sheet>) -> Option<()>
    ensures { OnSome result (left.new.items ≡ left.old.items ++ option_to_list sheet) }
{
    match sheet {
        Some(sheet) => left.push(sheet).ok(),
        None => Some(()),
    }
}

fn take_out(sheets: &mut Vec<Sheet>, pipeline: u64) -> Option<Sheet>
    ensures right { (k : Kept) → All (λ m. IsRight m k) sheets.old.items → All (λ m. IsRight m k) sheets.new.items }
    ensures taken { IfSome result (λ m. (k : Kept) → All (λ m. IsRight m k) sheets.old.items → IsRight m k × (m.pipeline ≡ pipeline)) }
{
    let place = sheets.iter().position(|sheet| sheet.pipeline == pipeline)?;
    Some(sheets.remove(place))
}

fn of_pipeline(sheets: &[Sheet], pipeline: u64) -> Option<&Sheet>
    ensures { option_copied result ≡ find (λ m. m.pipeline == pipeline) sheets.now }
{
    sheets.iter().find(|sheet| sheet.pipeline == pipeline)
}

fn between(sheets: &[Sheet], first: u64, last: u64) -> Option<&Sheet>
    ensures { option_copied result ≡ find (λ m. m.first == first && m.last == last) sheets.now }
{
    sheets
        .iter()
        .find(|sheet| sheet.first == first && sheet.last == last)
}

/// Copies of jobs. None where memory was refused.
pub fn copies_of_jobs(jobs: &Vec<Job>) -> Option<Vec<Job>>
    ensures { IfSome result (λ copies. copies.items ≡ jobs.now.items) }
{
    Vec::from_clones(*jobs.allocator(), jobs.as_slice()).ok()
}

fn copies_of_needs(needs: &Vec<Need>) -> Option<Vec<Need>>
    ensures { IfSome result (λ copies. copies.items ≡ needs.now.items) }
{
    Vec::from_clones(*needs.allocator(), needs.as_slice()).ok()
}

fn copies_of_attempts(attempts: &Vec<Attempt>) -> Option<Vec<Attempt>>
    ensures { IfSome result (λ copies. copies.items ≡ attempts.now.items) }
{
    Vec::from_clones(*attempts.allocator(), attempts.as_slice()).ok()
}

fn copies_of_rows(rows: &Vec<BoardRow>) -> Option<Vec<BoardRow>>
    ensures { IfSome result (λ copies. copies.items ≡ rows.now.items) }
{
    Vec::from_clones(*rows.allocator(), rows.as_slice()).ok()
}
