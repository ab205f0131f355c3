//! One record of those that are remembered, by its number.

ghost use Rattle.std.specs.Prelude.{◌≡◌, ◌==◌, find, IfSome, option_copied};
ghost use Rattle.std.specs.List.{list_any};
ghost use Rattle.ci_machine_steps.specs.Prelude.{is_within};

use ci_machine::records::{Attempt, BoardRow, Job};
use ci_server_lookups::sheet::Sheet;

/// The first sheet between whose two numbers that of the job stands.
pub(crate) fn around(sheets: &[Sheet], job: u64) -> Option<&Sheet>
    ensures { option_copied result ≡ find (λ m. is_within m.first m.last job) sheets.now }
{
    sheets.iter().find(|sheet| sheet.has_within(job))
}

/// The first sheet that has the attempt.
pub(crate) fn trying(sheets: &[Sheet], attempt: u64) -> Option<&Sheet>
    ensures { option_copied result ≡ find (λ m. list_any (λ a. a.id == attempt) m.attempts.items) sheets.now }
{
    sheets.iter().find(|sheet| sheet.has_attempt(attempt))
}

pub(crate) fn row_with(rows: &[BoardRow], job: u64) -> Option<&BoardRow>
    ensures { option_copied result ≡ find (λ r. r.job == job) rows.now }
{
    rows.iter().find(|row| row.job == job)
}

pub(crate) fn job_with(jobs: &[Job], id: u64) -> Option<&Job>
    ensures { option_copied result ≡ find (λ j. j.id == id) jobs.now }
{
    jobs.iter().find(|job| job.id == id)
}

pub(crate) fn attempt_with(attempts: &[Attempt], id: u64) -> Option<&Attempt>
    ensures { option_copied result ≡ find (λ a. a.id == id) attempts.now }
{
    attempts.iter().find(|attempt| attempt.id == id)
}

pub(crate) fn copy_of_job(job: &Job) -> Option<Job>
    ensures { IfSome result (λ copy. copy ≡ job.now) }
{
    job.clone().ok()
}

pub(crate) fn copy_of_attempt(attempt: &Attempt) -> Option<Attempt>
    ensures { IfSome result (λ copy. copy ≡ attempt.now) }
{
    attempt.clone().ok()
}
