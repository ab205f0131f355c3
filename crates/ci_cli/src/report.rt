//! What an operator is told of the server of a file.

use crate::cause::say_unopened;
use crate::file::with_server;
use ci_cli_words::line::{Line, say, say_report};
use ci_cli_words::report::json::{pipeline_json, queue_json, runner_json};
use ci_cli_words::report::pipeline::pipeline_report;
use ci_cli_words::report::queue::queue_report;
use ci_cli_words::report::runner::runner_report;
use ci_cli_words::task::{LogLevel, ReportForm, ReportKind};
use ci_http::Server;
use ci_machine::reply::Code;
use ci_machine::report::{PipelineRows, QueueRow, RunnerRow};
use ci_store_sqlite::Alter;
use std::alloc::{AllocError, Global};
use std::io::Write;

/// Prints a report of the server of a file, and gives the exit status. Once it is opened, nothing changes in the file.
pub fn report<O: Write, E: Write>(
    rt: &HostRuntime,
    file: &str,
    kind: ReportKind,
    form: ReportForm,
    output: &mut O,
    errors: &mut E,
) -> u8 {
    let told = with_server(rt, file, LogLevel::Nothing, |server, _| {
        text_of(rt.alloc(), server, kind, form)
    });
    match told {
        Ok(told) => print(told, output),
        Err(unopened) => say_unopened(output, errors, file, unopened),
    }
}

fn print<O: Write>(told: Result<String, Line>, output: &mut O) -> u8 {
    match told {
        Ok(text) => say_report(output, text.as_str()),
        Err(line) => say(output, line),
    }
}

/// The text of a report. Errors: the line that says why there is none.
fn text_of<S: Alter>(
    alloc: Global,
    server: &mut Server<S>,
    kind: ReportKind,
    form: ReportForm,
) -> Result<String, Line> {
    match kind {
        ReportKind::Queue => match server.queue(alloc) {
            Ok(rows) => made(queue_text(alloc, rows.as_slice(), form)),
            Err(code) => Err(refusal(code)),
        },
        ReportKind::Pipeline(id) => match server.pipeline(alloc, id) {
            Ok(Some(rows)) => made(pipeline_text(alloc, &rows, form)),
            Ok(None) => Err(Line::NoPipeline),
            Err(code) => Err(refusal(code)),
        },
        ReportKind::Runners => match server.runners(alloc) {
            Ok(rows) => made(runner_text(alloc, rows.as_slice(), form)),
            Err(code) => Err(refusal(code)),
        },
    }
}

fn queue_text(alloc: Global, rows: &[QueueRow], form: ReportForm) -> Result<String, AllocError> {
    match form {
        ReportForm::Table => queue_report(alloc, rows),
        ReportForm::Json => queue_json(alloc, rows),
    }
}

fn pipeline_text(
    alloc: Global,
    rows: &PipelineRows,
    form: ReportForm,
) -> Result<String, AllocError> {
    match form {
        ReportForm::Table => pipeline_report(alloc, rows),
        ReportForm::Json => pipeline_json(alloc, rows),
    }
}

fn runner_text(alloc: Global, rows: &[RunnerRow], form: ReportForm) -> Result<String, AllocError> {
    match form {
        ReportForm::Table => runner_report(alloc, rows),
        ReportForm::Json => runner_json(alloc, rows),
    }
}

/// A text, if there was memory for it.
fn made(text: Result<String, AllocError>) -> Result<String, Line> {
    match text {
        Ok(text) => Ok(text),
        Err(_) => Err(Line::NoMemory),
    }
}

/// Why a server tells nothing: memory was refused, or its store failed.
fn refusal(code: Code) -> Line {
    match code {
        Code::M16 => Line::NoMemory,
        _ => Line::Closed,
    }
}
