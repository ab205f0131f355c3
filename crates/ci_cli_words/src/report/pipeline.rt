//! The report of a pipeline: how it stands, and how each of its jobs does.

ghost use Rattle.std.specs.Prelude.{◌≡◌, ◌++◌, flat_map, IfOk, OnOk, string_bytes};
ghost use Rattle.ci_cli_words.specs.ReportText.{head_line, job_line, pipeline_report};

use ci_machine::moment::moment_text;
use ci_machine::records::PipelineWithStatus;
use ci_machine::report::{JobRow, PipelineRows};
use std::alloc::{AllocError, Global};

const HEADER: &str = "     JOB STATUS               TRIES NAME\n";

/// Puts the line of a pipeline behind a text.
#[tactic(auto, unfolding(crate::specs::ReportText::head_line))]
fn put_head(alloc: Global, text: &mut String, head: &PipelineWithStatus) -> Result<(), AllocError>
    ensures { OnOk result (string_bytes text.new ≡ string_bytes text.old ++ head_line head.now) }
{
    let pipeline = head.pipeline.id;
    let project = head.pipeline.project;
    let git_ref = head.pipeline.git_ref.as_str();
    let source = head.pipeline.source.as_str();
    let status = head.status.as_str();
    let created = moment_text(alloc, head.pipeline.created)?;
    let created = created.as_str();
    write!(text, "pipeline {pipeline} project {project} ref {git_ref}")?;
    writeln!(text, " source {source} status {status} created {created}")
}

/// Puts the line of a job behind a text.
#[tactic(auto, unfolding(crate::specs::ReportText::job_line))]
fn put_row(text: &mut String, row: &JobRow) -> Result<(), AllocError>
    ensures { OnOk result (string_bytes text.new ≡ string_bytes text.old ++ job_line row.now) }
{
    let job = row.job;
    let status = row.status.as_str();
    let tries = row.tries;
    let name = row.name.as_str();
    writeln!(text, "{job:>8} {status:<20} {tries:>5} {name}")
}

/// Puts the lines of jobs behind a text.
fn put_rows(text: &mut String, rows: &[JobRow]) -> Result<(), AllocError>
    ensures { OnOk result (string_bytes text.new ≡ string_bytes text.old ++ flat_map job_line rows.now) }
{
    for row in rows {
        put_row(text, row)?;
    }
    Ok(())
}

/// The report of a pipeline with its jobs, in the order of their rows: a line for the pipeline, and a line for each job. Errors: memory
/// was refused.
pub fn pipeline_report(alloc: Global, pipeline: &PipelineRows) -> Result<String, AllocError>
    ensures { IfOk result (λ text. string_bytes text ≡ pipeline_report pipeline.now) }
{
    let mut text = String::new(alloc);
    put_head(alloc, &mut text, &pipeline.head)?;
    text.push_str(HEADER)?;
    put_rows(&mut text, pipeline.jobs.as_slice())?;
    Ok(text)
}
