//! What a command asks for, by the matches of its arguments.

ghost use Rattle.std.specs.Prelude.{◌≡◌, IfOk, Some};
ghost use Rattle.clap.specs.Walk.{rows_of};
ghost use Rattle.clap.specs.Matches.{found_of};
ghost use Rattle.ci_cli_words.specs.Words.{Asks, PausesBy, Reads, RefersTo, RunsBy, ServesBy, TaggedBy, log_named, log_of, pairs, ref_kind_of, report_form_of, report_of, reported, source_named, source_of, variables_of};
ghost use Rattle.ci_cli_words.specs.declared.command_name.CommandName.TheVariants as names;

use crate::command_line::{
    BEFORE, DB, FILE, JSON, KIND, LOG, NAME, PIPELINE, PORT, PROJECT, REF, REQUESTS, RESUME,
    RUNNER, SOURCE, STOP_ON_FAULT, TAG, TAGS, UNTAGGED,
};
use crate::command_name::CommandName;
use crate::date::midnight_of;
use crate::task::{
    AdminRequest, LogLevel, PlanOptions, ReportForm, ReportKind, RunnerOptions, ServeOptions, Task,
};
use crate::value::{is_set, number_in, port_in, short_number_in, text_in, word_in};
use crate::variables::variables_in;
use ci_machine::records::{RefKind, Source};
use ci_machine::request::RunnerPause;
use ci_values::text::is_name;
use clap::ArgMatches;
use std::alloc::{AllocError, Global};

/// What a command asks for, if its values are such that it asks for anything. Errors: memory was refused.
pub(crate) fn asked<'a>(
    alloc: Global,
    command: CommandName,
    found: &ArgMatches<'a>,
) -> Result<Option<Task<'a>>, AllocError>
    ensures { IfOk result (Reads (Asks command (rows_of (found_of found.now)))) }
{
    match command {
        CommandName::Plan => plan_in(alloc, found),
        CommandName::Check => Ok(check_in(found)),
        CommandName::Explain => Ok(explain_in(found)),
        CommandName::Init => Ok(init_in(found)),
        CommandName::Migrate => Ok(migrate_in(found)),
        CommandName::ProjectAdd => Ok(project_add_in(found)),
        CommandName::RunnerAdd => Ok(runner_add_in(found)),
        CommandName::RunnerPause => Ok(runner_pause_in(found)),
        CommandName::Report => Ok(report_in(found)),
        CommandName::Prune => Ok(prune_in(found)),
        CommandName::Serve => Ok(serve_in(found)),
    }
}

/// What `check` asks for.
fn check_in<'a>(found: &ArgMatches<'a>) -> Option<Task<'a>>
    ensures { Reads (Asks names.Check (rows_of (found_of found.now))) result }
{
    Some(Task::Check(word_in(found, FILE)?))
}

/// What `explain` asks for.
fn explain_in<'a>(found: &ArgMatches<'a>) -> Option<Task<'a>>
    ensures { Reads (Asks names.Explain (rows_of (found_of found.now))) result }
{
    Some(Task::Explain(word_in(found, FILE)?))
}

/// What `init` asks for.
fn init_in<'a>(found: &ArgMatches<'a>) -> Option<Task<'a>>
    ensures { Reads (Asks names.Init (rows_of (found_of found.now))) result }
{
    Some(Task::Init(text_in(found, DB)?))
}

/// What `migrate` asks for.
fn migrate_in<'a>(found: &ArgMatches<'a>) -> Option<Task<'a>>
    ensures { Reads (Asks names.Migrate (rows_of (found_of found.now))) result }
{
    Some(Task::Migrate(text_in(found, DB)?))
}

/// What `project-add` asks for.
fn project_add_in<'a>(found: &ArgMatches<'a>) -> Option<Task<'a>>
    ensures { Reads (Asks names.ProjectAdd (rows_of (found_of found.now))) result }
{
    let file = text_in(found, DB)?;
    let name = text_in(found, NAME)?;
    Some(Task::Send(file, AdminRequest::AddProject(name)))
}

/// What `runner-add` asks for.
fn runner_add_in<'a>(found: &ArgMatches<'a>) -> Option<Task<'a>>
    ensures { Reads (Asks names.RunnerAdd (rows_of (found_of found.now))) result }
{
    let file = text_in(found, DB)?;
    let runner = runner_in(found)?;
    Some(Task::Send(file, AdminRequest::AddRunner(runner)))
}

/// What `runner-pause` asks for.
fn runner_pause_in<'a>(found: &ArgMatches<'a>) -> Option<Task<'a>>
    ensures { Reads (Asks names.RunnerPause (rows_of (found_of found.now))) result }
{
    let file = text_in(found, DB)?;
    let pause = pause_in(found)?;
    Some(Task::Send(file, AdminRequest::PauseRunner(pause)))
}

/// What `report` asks for.
fn report_in<'a>(found: &ArgMatches<'a>) -> Option<Task<'a>>
    ensures { Reads (Asks names.Report (rows_of (found_of found.now))) result }
{
    let file = text_in(found, DB)?;
    let kind = report_kind_in(found)?;
    Some(Task::Report(file, kind, report_form_in(found)))
}

/// What `prune` asks for.
fn prune_in<'a>(found: &ArgMatches<'a>) -> Option<Task<'a>>
    ensures { Reads (Asks names.Prune (rows_of (found_of found.now))) result }
{
    let file = text_in(found, DB)?;
    let day = word_in(found, BEFORE)?;
    Some(Task::Prune(file, midnight_of(day)?))
}

/// What `serve` asks for.
fn serve_in<'a>(found: &ArgMatches<'a>) -> Option<Task<'a>>
    ensures { Reads (Asks names.Serve (rows_of (found_of found.now))) result }
{
    Some(Task::Serve(serve_options_in(found)?))
}

/// What `plan` asks for. Errors: memory was refused.
fn plan_in<'a>(alloc: Global, found: &ArgMatches<'a>) -> Result<Option<Task<'a>>, AllocError>
    ensures { IfOk result (Reads (Asks names.Plan (rows_of (found_of found.now)))) }
{
    match variables_in(alloc, found)? {
        Some(variables) => Ok(plan_with(found, variables)),
        None => Ok(None),
    }
}

/// The same, with the variables of its request.
fn plan_with<'a>(found: &ArgMatches<'a>, variables: Vec<(&'a str, &'a str)>) -> Option<Task<'a>>
    requires { variables_of (rows_of (found_of found.now)) ≡ Some (pairs variables.items) }
    ensures { Reads (Asks names.Plan (rows_of (found_of found.now))) result }
{
    Some(Task::Plan(PlanOptions {
        file: word_in(found, FILE)?,
        git_ref: ref_in(found)?,
        kind: ref_kind_in(found),
        source: source_in(found)?,
        variables,
    }))
}

/// The branch or the tag, if it is a name.
fn ref_in<'a>(found: &ArgMatches<'a>) -> Option<&'a str>
    ensures { Reads (RefersTo (rows_of (found_of found.now))) result }
{
    let git_ref = text_in(found, REF)?;
    if is_name(git_ref) {
        Some(git_ref)
    } else {
        None
    }
}

/// A tag where the flag `--tag` is there, and a branch else.
fn ref_kind_in(found: &ArgMatches<'_>) -> RefKind
    ensures { result ≡ ref_kind_of (rows_of (found_of found.now)) }
{
    if is_set(found, TAG) {
        RefKind::Tag
    } else {
        RefKind::Branch
    }
}

/// What asks for a pipeline; `api` where nothing is said.
fn source_in(found: &ArgMatches<'_>) -> Option<Source>
    ensures { result ≡ source_of (rows_of (found_of found.now)) }
{
    match word_in(found, SOURCE) {
        Some(word) => source_named(word),
        None => Some(Source::Api),
    }
}

/// The source of this name, if there is one.
pub(crate) fn source_named(word: &str) -> Option<Source>
    ensures { result ≡ source_named word.now }
{
    match word {
        "push" => Some(Source::Push),
        "web" => Some(Source::Web),
        "schedule" => Some(Source::Schedule),
        "api" => Some(Source::Api),
        "trigger" => Some(Source::Trigger),
        _ => None,
    }
}

/// Which report is asked for.
fn report_kind_in(found: &ArgMatches<'_>) -> Option<ReportKind>
    ensures { result ≡ report_of (rows_of (found_of found.now)) }
{
    let kind = word_in(found, KIND)?;
    report_kind(kind, number_in(found, PIPELINE))
}

/// JSON where the flag `--json` is there, and a table else.
fn report_form_in(found: &ArgMatches<'_>) -> ReportForm
    ensures { result ≡ report_form_of (rows_of (found_of found.now)) }
{
    if is_set(found, JSON) {
        ReportForm::Json
    } else {
        ReportForm::Table
    }
}

/// The kind of a report. A pipeline's number is wanted of one kind, and of no other.
fn report_kind(kind: &str, pipeline: Option<u64>) -> Option<ReportKind>
    ensures { result ≡ reported kind.now pipeline }
{
    match pipeline {
        Some(number) if kind == "pipeline" => Some(ReportKind::Pipeline(number)),
        Some(_) => None,
        None if kind == "queue" => Some(ReportKind::Queue),
        None if kind == "runners" => Some(ReportKind::Runners),
        None => None,
    }
}

/// The file, the port, how many connections are served, whether a fault ends it, and what is logged.
fn serve_options_in<'a>(found: &ArgMatches<'a>) -> Option<ServeOptions<'a>>
    ensures { Reads (ServesBy (rows_of (found_of found.now))) result }
{
    Some(ServeOptions {
        file: text_in(found, DB)?,
        port: port_in(found, PORT)?,
        requests: short_number_in(found, REQUESTS)?,
        stops_on_fault: is_set(found, STOP_ON_FAULT),
        log: log_in(found)?,
    })
}

/// What is logged; nothing where nothing is said.
fn log_in(found: &ArgMatches<'_>) -> Option<LogLevel>
    ensures { result ≡ log_of (rows_of (found_of found.now)) }
{
    match word_in(found, LOG) {
        Some(word) => log_named(word),
        None => Some(LogLevel::Nothing),
    }
}

/// What is logged by this name, if there is such a log.
pub(crate) fn log_named(word: &str) -> Option<LogLevel>
    ensures { result ≡ log_named word.now }
{
    match word {
        "events" => Some(LogLevel::Events),
        "requests" => Some(LogLevel::Requests),
        _ => None,
    }
}

/// The runner that is to be made.
fn runner_in<'a>(found: &ArgMatches<'a>) -> Option<RunnerOptions<'a>>
    ensures { Reads (RunsBy (rows_of (found_of found.now))) result }
{
    Some(RunnerOptions {
        name: text_in(found, NAME)?,
        tags: tags_in(found)?,
        project: number_in(found, PROJECT),
        untagged: is_set(found, UNTAGGED),
    })
}

/// The tags, if they were given. None where they begin with `-`.
fn tags_in<'a>(found: &ArgMatches<'a>) -> Option<Option<&'a str>>
    ensures { Reads (TaggedBy (rows_of (found_of found.now))) result }
{
    match word_in(found, TAGS) {
        Some(_) => Some(Some(text_in(found, TAGS)?)),
        None => Some(None),
    }
}

/// The runner, which is paused, but goes on with the flag `--resume`.
fn pause_in(found: &ArgMatches<'_>) -> Option<RunnerPause>
    ensures { Reads (PausesBy (rows_of (found_of found.now))) result }
{
    Some(RunnerPause {
        runner: number_in(found, RUNNER)?,
        paused: !is_set(found, RESUME),
    })
}
