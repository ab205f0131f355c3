//! What a command line asks for.

ghost use Rattle.std.specs.Prelude.{◌≡◌};
ghost use Rattle.ci_cli_words.specs.Words.{has_events};

use ci_machine::moment::Moment;
use ci_machine::records::{RefKind, Source};
use ci_machine::request::RunnerPause;

/// What a command line asks for.
#[derive(Drop)]
pub enum Task<'a> {
    /// To check the CI file at a path, or on standard input for `-`.
    Check(&'a str),
    /// To tell each fault of the CI file at a path, or on standard input for `-`.
    Explain(&'a str),
    /// To tell what a pipeline of a CI file would be.
    Plan(PlanOptions<'a>),
    /// To make a file for a server.
    Init(&'a str),
    /// To make the file of a server one of this version, and tell which version it was of.
    Migrate(&'a str),
    /// To send the server of a file a request.
    Send(&'a str, AdminRequest<'a>),
    /// To tell what the server of a file has.
    Report(&'a str, ReportKind, ReportForm),
    /// To prune the finished pipelines of the server of a file that were made before a moment.
    Prune(&'a str, Moment),
    /// To serve requests over a socket.
    Serve(ServeOptions<'a>),
}

/// The CI file at a path, or on standard input for `-`, and the pipeline that is asked for.
#[derive(Drop)]
pub struct PlanOptions<'a> {
    pub file: &'a str,
    /// The branch or the tag that it is for, a name.
    pub git_ref: &'a str,
    pub kind: RefKind,
    pub source: Source,
    /// Names of variables and values; no name comes twice.
    pub variables: Vec<(&'a str, &'a str)>,
}

/// What is to be told of a server.
#[derive(Clone, Copy)]
pub enum ReportKind {
    /// The pending jobs.
    Queue,
    /// The pipeline with this number, with its jobs.
    Pipeline(u64),
    /// The runners.
    Runners,
}

/// How a report is told.
#[derive(Clone, Copy)]
pub enum ReportForm {
    /// As a table.
    Table,
    /// As JSON.
    Json,
}

/// A request that has no route: only who may write the file can send it.
#[derive(Clone, Copy)]
pub enum AdminRequest<'a> {
    /// A project of this name is to be made.
    AddProject(&'a str),
    /// A runner is to be made.
    AddRunner(RunnerOptions<'a>),
    /// A runner is to be paused, or to go on.
    PauseRunner(RunnerPause),
}

/// A runner that is to be made.
#[derive(Clone, Copy)]
pub struct RunnerOptions<'a> {
    pub name: &'a str,
    /// The number of the project whose jobs it runs; without one it is a runner of the instance, and runs those of every project.
    pub project: Option<u64>,
    /// Its tags, parted by commas. An empty text is one empty tag.
    pub tags: Option<&'a str>,
    /// Whether it runs jobs that have no tags.
    pub untagged: bool,
}

/// The file of a server, where it listens, how many connections it serves, and what it logs.
#[derive(Clone, Copy)]
pub struct ServeOptions<'a> {
    pub file: &'a str,
    /// The port of 127.0.0.1, from 1.
    pub port: u16,
    /// How many connections are served before the program ends, from 1.
    pub requests: u32,
    /// Whether a fault of the store ends it too.
    pub stops_on_fault: bool,
    /// What is logged meanwhile.
    pub log: LogLevel,
}

/// What a server tells of itself on standard error.
#[derive(Clone, Copy, PartialEq, Eq)]
pub enum LogLevel {
    /// Nothing.
    Nothing,
    /// That it was opened, what its sweeps did, that its store failed, and why it stopped.
    Events,
    /// The same, and a line for each request.
    Requests,
}

impl LogLevel {
    /// Does the server tell what happens to it?
    pub fn has_events(self) -> bool
        ensures { result ≡ has_events self }
    {
        match self {
            LogLevel::Events | LogLevel::Requests => true,
            LogLevel::Nothing => false,
        }
    }
}
