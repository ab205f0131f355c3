//! The commands that the program takes, and their arguments, as `clap` is told of them.

ghost use Rattle.std.specs.Prelude.{◌≡◌, IfOk, false, [], ◌∷◌};
ghost use Rattle.clap.specs.Walk.{rule_of};
ghost use Rattle.clap.specs.Simple.{app_of};
ghost use Rattle.ci_cli_words.specs.CommandLine as cli;
ghost use Rattle.ci_cli_words.specs.CommandLine.{IsCommand};

use crate::command_name::CommandName;
use ci_values::limits::MAX_NUMBER;
use clap::builder::ValueParser;
use clap::{Arg, ArgAction, Command};
use std::alloc::{AllocError, Global};

/// The program's version, and in lines of their own that of the format of the files that it makes, and the sum of its sources. That one the
/// build writes in place of the zeros, over the copy that it proves.
const VERSION: &str =
    "0.1.0\nformat: 2\nsources: 0000000000000000000000000000000000000000000000000000000000000000";

pub(crate) const CHECK: &str = "check";

pub(crate) const EXPLAIN: &str = "explain";

pub(crate) const PLAN: &str = "plan";

pub(crate) const INIT: &str = "init";

pub(crate) const MIGRATE: &str = "migrate";

pub(crate) const PROJECT_ADD: &str = "project-add";

pub(crate) const RUNNER_ADD: &str = "runner-add";

pub(crate) const RUNNER_PAUSE: &str = "runner-pause";

pub(crate) const REPORT: &str = "report";

pub(crate) const PRUNE: &str = "prune";

pub(crate) const SERVE: &str = "serve";

/// The name of the argument of `check`, `explain` and `plan`.
pub(crate) const FILE: &str = "FILE";

pub(crate) const REF: &str = "ref";

pub(crate) const TAG: &str = "tag";

pub(crate) const SOURCE: &str = "source";

pub(crate) const VARIABLE: &str = "variable";

pub(crate) const DB: &str = "db";

pub(crate) const NAME: &str = "name";

pub(crate) const PROJECT: &str = "project";

pub(crate) const TAGS: &str = "tags";

pub(crate) const UNTAGGED: &str = "untagged";

pub(crate) const RUNNER: &str = "runner";

pub(crate) const RESUME: &str = "resume";

pub(crate) const KIND: &str = "kind";

pub(crate) const PIPELINE: &str = "pipeline";

pub(crate) const JSON: &str = "json";

pub(crate) const BEFORE: &str = "before";

pub(crate) const PORT: &str = "port";

pub(crate) const REQUESTS: &str = "requests";

pub(crate) const STOP_ON_FAULT: &str = "stop-on-fault";

pub(crate) const LOG: &str = "log";

/// The commands, in the order in which they are told.
const COMMANDS: [CommandName; 11] = [
    CommandName::Check,
    CommandName::Explain,
    CommandName::Plan,
    CommandName::Init,
    CommandName::Migrate,
    CommandName::ProjectAdd,
    CommandName::RunnerAdd,
    CommandName::RunnerPause,
    CommandName::Report,
    CommandName::Prune,
    CommandName::Serve,
];

/// Where the rules of CI files stand.
const RULES: &str = "The profile, with examples and its codes, is described in docs/PROFILE.md.";

/// The command line that the program takes.
pub(crate) fn command_line<'a>(alloc: Global) -> Result<Command<'a>, AllocError>
    ensures { IfOk result (λ c. app_of c ≡ cli.command_line) }
{
    let mut program = Command::new(alloc, "ciserver")
        .about("A continuous integration server")
        .version(VERSION)
        .after_help(RULES)
        .subcommand_required(true);
    for name in COMMANDS {
        program = program.subcommand(command(alloc, name)?)?;
    }
    Ok(program)
}

/// The command of this name, with its arguments. Errors: memory was refused.
fn command<'a>(alloc: Global, name: CommandName) -> Result<Command<'a>, AllocError>
    ensures { IfOk result (IsCommand (cli.shape_of name)) }
{
    match name {
        CommandName::Check => check(alloc),
        CommandName::Explain => explain(alloc),
        CommandName::Plan => plan(alloc),
        CommandName::Init => init(alloc),
        CommandName::Migrate => migrate(alloc),
        CommandName::ProjectAdd => project_add(alloc),
        CommandName::RunnerAdd => runner_add(alloc),
        CommandName::RunnerPause => runner_pause(alloc),
        CommandName::Report => report(alloc),
        CommandName::Prune => prune(alloc),
        CommandName::Serve => serve(alloc),
    }
}

/// A command over a CI file, of this name. Errors: memory was refused.
fn over_ci_file<'a>(alloc: Global, name: &'a str, about: &'a str) -> Result<Command<'a>, AllocError>
    ensures { IfOk result (IsCommand (cli.command name.entry.now (cli.file ∷ []))) }
{
    let file = Arg::new(alloc, FILE)
        .required(true)
        .help("The path of the CI file, or - for standard input");
    Command::new(alloc, name)
        .about(about)
        .after_help(RULES)
        .arg(file)
}

/// A command over the file of a server, of this name. Errors: memory was refused.
fn over_server_file<'a>(
    alloc: Global,
    name: &'a str,
    about: &'a str,
) -> Result<Command<'a>, AllocError>
    ensures { IfOk result (IsCommand (cli.command name.entry.now (cli.db ∷ []))) }
{
    let file = required_option(alloc, DB)
        .value_name("FILE")
        .help("The server's file, an SQLite database");
    Command::new(alloc, name).about(about).arg(file)
}

/// An option that has a value, as `--port N`.
fn option<'a>(alloc: Global, name: &'a str) -> Arg<'a>
    ensures rule { rule_of result ≡ cli.option name.entry.now }
    ensures local { result.global ≡ false }
{
    Arg::new(alloc, name).long(name).action(ArgAction::Set)
}

/// An option that has to be there.
fn required_option<'a>(alloc: Global, name: &'a str) -> Arg<'a>
    ensures rule { rule_of result ≡ cli.required (cli.option name.entry.now) }
    ensures local { result.global ≡ false }
{
    option(alloc, name).required(true)
}

/// An option whose value is a number from 1.
fn number<'a>(alloc: Global, name: &'a str, most: u64) -> Arg<'a>
    ensures rule { rule_of result ≡ cli.number name.entry.now most }
    ensures local { result.global ≡ false }
{
    option(alloc, name)
        .value_name("N")
        .value_parser(ValueParser::unsigned(1, most))
}

fn flag<'a>(alloc: Global, name: &'a str) -> Arg<'a>
    ensures rule { rule_of result ≡ cli.flag name.entry.now }
    ensures local { result.global ≡ false }
{
    Arg::new(alloc, name).long(name).action(ArgAction::SetTrue)
}

fn check<'a>(alloc: Global) -> Result<Command<'a>, AllocError>
    ensures { IfOk result (IsCommand cli.check) }
{
    over_ci_file(
        alloc,
        CHECK,
        "Says how many jobs a CI file configures, or why it is refused",
    )
}

fn explain<'a>(alloc: Global) -> Result<Command<'a>, AllocError>
    ensures { IfOk result (IsCommand cli.explain) }
{
    let about = "Tells each fault of a CI file, with its line and what to write in its place";
    over_ci_file(alloc, EXPLAIN, about)
}

fn plan<'a>(alloc: Global) -> Result<Command<'a>, AllocError>
    ensures { IfOk result (IsCommand cli.plan) }
{
    let git_ref = required_option(alloc, REF).help("The branch that the pipeline is for");
    let tag = flag(alloc, TAG).help("It is for the tag of this name");
    let source = option(alloc, SOURCE).help(
        "What asks for it: push, web, schedule, api or trigger [default: api]",
    );
    let variable = option(alloc, VARIABLE)
        .action(ArgAction::Append)
        .value_name("K=V")
        .help("A variable of the request; it may stand several times");
    let about = "Tells which jobs a pipeline of a CI file would have, or why there is none";
    let args = vec![in alloc; git_ref, tag, source, variable]?;
    over_ci_file(alloc, PLAN, about)?.args(args)
}

fn init<'a>(alloc: Global) -> Result<Command<'a>, AllocError>
    ensures { IfOk result (IsCommand cli.init) }
{
    over_server_file(alloc, INIT, "Makes the file of a server")
}

fn migrate<'a>(alloc: Global) -> Result<Command<'a>, AllocError>
    ensures { IfOk result (IsCommand cli.migrate) }
{
    over_server_file(
        alloc,
        MIGRATE,
        "Makes the file of an earlier version one of this version",
    )
}

fn project_add<'a>(alloc: Global) -> Result<Command<'a>, AllocError>
    ensures { IfOk result (IsCommand cli.project_add) }
{
    let name = required_option(alloc, NAME).help("The project's name");
    let about = "Makes a project, and prints its number and its token";
    over_server_file(alloc, PROJECT_ADD, about)?.arg(name)
}

fn runner_add<'a>(alloc: Global) -> Result<Command<'a>, AllocError>
    ensures { IfOk result (IsCommand cli.runner_add) }
{
    let name = required_option(alloc, NAME).help("The runner's name");
    let project = number(alloc, PROJECT, MAX_NUMBER).help(
        "The project whose jobs it runs [default: every project]",
    );
    let tags = option(alloc, TAGS)
        .value_name("A,B")
        .help("Its tags, parted by commas");
    let untagged = flag(alloc, UNTAGGED).help("It runs jobs that have no tags");
    let about = "Makes a runner, and prints its number and its token";
    let args = vec![in alloc; name, project, tags, untagged]?;
    over_server_file(alloc, RUNNER_ADD, about)?.args(args)
}

fn runner_pause<'a>(alloc: Global) -> Result<Command<'a>, AllocError>
    ensures { IfOk result (IsCommand cli.runner_pause) }
{
    let runner = number(alloc, RUNNER, MAX_NUMBER)
        .required(true)
        .help("The runner's number");
    let resume = flag(alloc, RESUME).help("It goes on");
    let args = vec![in alloc; runner, resume]?;
    over_server_file(alloc, RUNNER_PAUSE, "Has a runner get no jobs, or go on")?.args(args)
}

fn report<'a>(alloc: Global) -> Result<Command<'a>, AllocError>
    ensures { IfOk result (IsCommand cli.report) }
{
    let kind = required_option(alloc, KIND).value_name("KIND").help(
        "queue, the pending jobs; pipeline, one with its jobs; or runners",
    );
    let pipeline = number(alloc, PIPELINE, MAX_NUMBER).help("The pipeline's number");
    let json = flag(alloc, JSON).help("As JSON, and not as a table");
    let args = vec![in alloc; kind, pipeline, json]?;
    over_server_file(
        alloc,
        REPORT,
        "Prints what the server of a file has, as a table",
    )?
    .args(args)
}

fn prune<'a>(alloc: Global) -> Result<Command<'a>, AllocError>
    ensures { IfOk result (IsCommand cli.prune) }
{
    let before = required_option(alloc, BEFORE)
        .value_name("YYYY-MM-DD")
        .help("The day, in UTC; what was made on it stays");
    let about = "Removes the finished pipelines that were made before a day";
    over_server_file(alloc, PRUNE, about)?.arg(before)
}

fn serve<'a>(alloc: Global) -> Result<Command<'a>, AllocError>
    ensures { IfOk result (IsCommand cli.serve) }
{
    let port = number(alloc, PORT, u16::MAX as u64)
        .required(true)
        .help("The port of 127.0.0.1 to listen on");
    let requests = number(alloc, REQUESTS, u32::MAX as u64)
        .required(true)
        .help("How many connections are served before the program ends");
    let stop = flag(alloc, STOP_ON_FAULT).help("A fault of the store ends the program");
    let log = option(alloc, LOG).value_name("WHAT").help(
        "What goes to standard error: events, or requests, and events too",
    );
    let args = vec![in alloc; port, requests, stop, log]?;
    over_server_file(
        alloc,
        SERVE,
        "Serves requests over HTTP, one after the other",
    )?
    .args(args)
}
