//! The report of the queue: the jobs that wait for a runner.

ghost use Rattle.std.specs.Prelude.{◌≡◌, ◌++◌, flat_map, IfOk, OnOk, string_bytes};
ghost use Rattle.ci_cli_words.specs.ReportText.{queue_line, queue_report};

use ci_machine::report::QueueRow;
use std::alloc::{AllocError, Global};

const HEADER: &str = "     JOB PROJECT STATUS               NAME\n";

/// Puts the line of a job behind a text.
#[tactic(auto, unfolding(crate::specs::ReportText::queue_line))]
fn put_row(text: &mut String, row: &QueueRow) -> Result<(), AllocError>
    ensures { OnOk result (string_bytes text.new ≡ string_bytes text.old ++ queue_line row.now) }
{
    let job = row.job;
    let project = row.project;
    let status = row.status.as_str();
    let name = row.name.as_str();
    writeln!(text, "{job:>8} {project:>7} {status:<20} {name}")
}

/// Puts the lines of jobs behind a text.
fn put_rows(text: &mut String, rows: &[QueueRow]) -> Result<(), AllocError>
    ensures { OnOk result (string_bytes text.new ≡ string_bytes text.old ++ flat_map queue_line rows.now) }
{
    for row in rows {
        put_row(text, row)?;
    }
    Ok(())
}

/// The report of pending jobs, in the order of their rows: a line each, and how many they are. Errors: memory was refused.
pub fn queue_report(alloc: Global, rows: &[QueueRow]) -> Result<String, AllocError>
    ensures { IfOk result (λ text. string_bytes text ≡ queue_report rows.now) }
{
    let mut text = String::from_str(alloc, HEADER)?;
    put_rows(&mut text, rows)?;
    let jobs = rows.len();
    writeln!(text, "jobs: {jobs}")?;
    Ok(text)
}
