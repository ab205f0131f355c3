//! The report of the runners: which are paused, and what each of them does.

ghost use Rattle.std.specs.Prelude.{◌≡◌, ◌++◌, flat_map, IfOk, OnOk, string_bytes};
ghost use Rattle.ci_cli_words.specs.ReportText.{yes_or_no, grant_text, runner_line, runner_report};

use ci_machine::moment::{Moment, moment_text};
use ci_machine::report::RunnerRow;
use std::alloc::{AllocError, Global};

const HEADER: &str = "  RUNNER PAUSED LIVE LAST GRANT          NAME\n";

fn yes_or_no(is_so: bool) -> &'static str
    ensures { result.now ≡ yes_or_no is_so }
{
    if is_so { "yes" } else { "no" }
}

/// The moment of a last grant, or `-` where there was none. Errors: memory was refused.
fn grant_text(alloc: Global, last_grant: Option<Moment>) -> Result<String, AllocError>
    ensures { IfOk result (λ text. string_bytes text ≡ grant_text last_grant) }
{
    match last_grant {
        Some(moment) => moment_text(alloc, moment),
        None => String::from_str(alloc, "-"),
    }
}

/// Puts the line of a runner behind a text.
#[tactic(auto, unfolding(crate::specs::ReportText::runner_line))]
fn put_row(alloc: Global, text: &mut String, row: &RunnerRow) -> Result<(), AllocError>
    ensures { OnOk result (string_bytes text.new ≡ string_bytes text.old ++ runner_line row.now) }
{
    let runner = row.runner;
    let paused = yes_or_no(row.paused);
    let live = row.live;
    let grant = grant_text(alloc, row.last_grant)?;
    let grant = grant.as_str();
    let name = row.name.as_str();
    write!(text, "{runner:>8} {paused:<6} {live:>4}")?;
    writeln!(text, " {grant:<19} {name}")
}

/// Puts the lines of runners behind a text.
fn put_rows(alloc: Global, text: &mut String, rows: &[RunnerRow]) -> Result<(), AllocError>
    ensures { OnOk result (string_bytes text.new ≡ string_bytes text.old ++ flat_map runner_line rows.now) }
{
    for row in rows {
        put_row(alloc, text, row)?;
    }
    Ok(())
}

/// The report of runners, in the order of their rows: a line each. Errors: memory was refused.
pub fn runner_report(alloc: Global, rows: &[RunnerRow]) -> Result<String, AllocError>
    ensures { IfOk result (λ text. string_bytes text ≡ runner_report rows.now) }
{
    let mut text = String::from_str(alloc, HEADER)?;
    put_rows(alloc, &mut text, rows)?;
    Ok(text)
}
