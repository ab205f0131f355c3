//! Which changes are of what is remembered of a pipeline.

ghost use Rattle.std.specs.Prelude.{◌≡◌, option_copied};
ghost use Rattle.ci_memory_boards.specs.Sheets.{owns, own_job, touches};

use ci_machine::change::{Key, Record, RowChange};
use ci_machine::records::Job;
use ci_server_lookups::sheet::Sheet;

/// Does the change make another of what is remembered, but for the attempt that it puts?
pub(crate) fn touches(sheet: &Sheet, change: &RowChange) -> bool
    ensures { result ≡ touches sheet.now change.now }
{
    match change {
        RowChange::Put(Record::Job(job)) => {
            job.pipeline == sheet.pipeline || sheet.has_within(job.id)
        }
        RowChange::Put(Record::Need(need)) => sheet.has_within(need.job),
        RowChange::Remove(Key::Job(job)) => sheet.has_within(*job),
        RowChange::Remove(Key::Need(job, _)) => sheet.has_within(*job),
        RowChange::Remove(Key::Needs(job)) => sheet.has_within(*job),
        RowChange::Remove(Key::Attempt(id)) => sheet.has_attempt(*id),
        _ => false,
    }
}

/// The job that the change puts, where it is one of the pipeline's and stands between the two numbers.
pub(crate) fn own_job<'a>(sheet: &Sheet, change: &'a RowChange) -> Option<&'a Job>
    ensures { option_copied result ≡ own_job sheet.now change.now }
{
    match change {
        RowChange::Put(Record::Job(job)) if owns(sheet, job) => Some(job),
        _ => None,
    }
}

/// Is the job one of the pipeline's, and stands between the two numbers?
fn owns(sheet: &Sheet, job: &Job) -> bool
    ensures { result ≡ owns sheet.now job.now }
{
    job.pipeline == sheet.pipeline && sheet.has_within(job.id)
}
