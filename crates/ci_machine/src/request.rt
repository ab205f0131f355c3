//! What the machine is asked.

ghost use Rattle.std.specs.Prelude.{◌≡◌};

use crate::moment::Moment;
use crate::records::{Cause, GroupOrder, RefKind, Source};
use crate::text::{Bytes, Text, Texts};
use ci_values::items::Items;
use std::alloc::AllocError;

/// The text of a project's CI file, sent with the project's token.
#[derive(Clone, Drop)]
pub struct NewFile {
    pub project: u64,
    pub token: Text,
    pub text: Text,
}

/// A variable of a project and its value, sent with the project's token.
#[derive(Clone, Drop)]
pub struct NewVariable {
    pub project: u64,
    pub token: Text,
    pub key: Text,
    pub value: Text,
}

/// A variable of a project, named with the project's token.
#[derive(Clone, Drop)]
pub struct VariableQuery {
    pub project: u64,
    pub token: Text,
    pub key: Text,
}

/// A variable of one pipeline.
#[derive(Clone, Drop)]
pub struct PipelineVariable {
    pub key: Text,
    pub value: Text,
}

/// The variables of one pipeline, in the order in which they were sent.
pub type PipelineVariables = Items<PipelineVariable>;

/// A pipeline to be made from its project's file, asked for with the project's token.
#[derive(Clone, Drop)]
pub struct NewPipeline {
    pub project: u64,
    pub token: Text,
    /// The branch or the tag that it runs for.
    pub git_ref: Text,
    pub kind: RefKind,
    pub source: Source,
    pub variables: PipelineVariables,
}

/// A pipeline of a project, asked for with the project's token.
#[derive(Clone, Drop)]
pub struct PipelineQuery {
    pub project: u64,
    pub token: Text,
    pub pipeline: u64,
}

/// The process mode that a resource group of a project is to have, sent with the project's token.
#[derive(Clone, Drop)]
pub struct NewMode {
    pub project: u64,
    pub token: Text,
    pub group: Text,
    /// None where it is to be `unordered`.
    pub order: Option<GroupOrder>,
}

/// A resource group of a project, named with the project's token.
#[derive(Clone, Drop)]
pub struct GroupQuery {
    pub project: u64,
    pub token: Text,
    pub group: Text,
}

/// What a runner says of an attempt: that it runs, or how it ended, with the exit code if there is one.
#[derive(Clone, Copy, Drop)]
pub enum Report {
    Running,
    Success(Option<u32>),
    Failed(Cause, Option<u32>),
}

/// What a runner sends of an attempt, with the attempt's token.
#[derive(Clone, Drop)]
pub struct JobUpdate {
    pub attempt: u64,
    pub token: Text,
    pub report: Report,
}

/// The next bytes of the trace of an attempt, as its runner sends them with the attempt's token.
#[derive(Clone, Drop)]
pub struct TracePart {
    pub attempt: u64,
    pub token: Text,
    /// The place of the first byte in the trace, from 0.
    pub from: u64,
    pub bytes: Bytes,
}

/// A job of a project, asked for with the project's token.
#[derive(Clone, Drop)]
pub struct JobQuery {
    pub project: u64,
    pub token: Text,
    pub job: u64,
}

/// What of a project is read.
#[derive(Clone, Copy, Drop)]
pub enum Subject {
    /// The project itself.
    Project,
    /// Its newest pipelines.
    Pipelines,
    /// The jobs of its pipeline with this number, with their attempts.
    Jobs(u64),
    /// The attempts of its job with this number.
    Attempts(u64),
    /// The trace of an attempt: the number of its job, and its own.
    Trace(u64, u64),
    /// Its resource groups that have a process mode or are held.
    ResourceGroups,
}

/// What of a project is read, asked for with the project's token.
#[derive(Clone, Drop)]
pub struct ReadQuery {
    pub project: u64,
    pub token: Text,
    pub subject: Subject,
}

/// A runner to be made.
#[derive(Clone, Drop)]
pub struct NewRunner {
    pub name: Text,
    /// The project whose jobs it runs; a runner of the instance runs those of every project.
    pub project: Option<u64>,
    pub tags: Texts,
    /// Whether it runs jobs that have no tags.
    pub untagged: bool,
}

/// A runner that is to be paused, or to go on.
#[derive(Clone, Copy, Drop)]
pub struct RunnerPause {
    pub runner: u64,
    pub paused: bool,
}

/// What the server is asked to do.
#[derive(Drop)]
pub enum Request {
    /// A project of this name is to be made.
    AddProject(Text),
    /// A runner is to be made.
    AddRunner(NewRunner),
    /// A runner is to be paused, or to go on.
    PauseRunner(RunnerPause),
    /// A project's file is to be this text.
    SetFile(NewFile),
    /// A variable of a project is to have this value.
    SetVariable(NewVariable),
    /// A variable of a project is to go.
    DeleteVariable(VariableQuery),
    /// A resource group of a project is to have this process mode.
    SetMode(NewMode),
    /// The process mode of a resource group of a project is asked for.
    ShowMode(GroupQuery),
    /// A pipeline is to be made from its project's file.
    CreatePipeline(NewPipeline),
    /// A pipeline with its jobs and their statuses is asked for.
    ShowPipeline(PipelineQuery),
    /// The runner with this token asks for a job.
    AskJob(Text),
    /// A runner says how an attempt of its stands.
    UpdateJob(JobUpdate),
    /// A runner sends the next bytes of a trace.
    AppendTrace(TracePart),
    /// A job with its status is asked for.
    ShowJob(JobQuery),
    /// The trace of a job's last attempt is asked for.
    ShowTrace(JobQuery),
    /// A project, or what it has, is asked for.
    Read(ReadQuery),
    /// A manual job is to run.
    Play(JobQuery),
    /// A job that hasn't ended is to be cancelled.
    CancelJob(JobQuery),
    /// All jobs of a pipeline that haven't ended are to be cancelled.
    CancelPipeline(PipelineQuery),
    /// A job that has ended is to be tried again.
    RetryJob(JobQuery),
    /// A finished pipeline that was made before this moment is to go, the one of least number.
    PruneOne(Moment),
}

impl Clone for Request {
    ghost is_clone = { λ old new. new ≡ old };

    fn clone(&self) -> Result<Request, AllocError> {
        Ok(match self {
            Request::AddProject(name) => Request::AddProject(name.clone()?),
            Request::AddRunner(new) => Request::AddRunner(new.clone()?),
            Request::PauseRunner(pause) => Request::PauseRunner(*pause),
            Request::SetFile(new) => Request::SetFile(new.clone()?),
            Request::SetVariable(new) => Request::SetVariable(new.clone()?),
            Request::DeleteVariable(query) => Request::DeleteVariable(query.clone()?),
            Request::SetMode(new) => Request::SetMode(new.clone()?),
            Request::ShowMode(query) => Request::ShowMode(query.clone()?),
            Request::CreatePipeline(new) => Request::CreatePipeline(new.clone()?),
            Request::ShowPipeline(query) => Request::ShowPipeline(query.clone()?),
            Request::AskJob(token) => Request::AskJob(token.clone()?),
            Request::UpdateJob(update) => Request::UpdateJob(update.clone()?),
            Request::AppendTrace(part) => Request::AppendTrace(part.clone()?),
            Request::ShowJob(query) => Request::ShowJob(query.clone()?),
            Request::ShowTrace(query) => Request::ShowTrace(query.clone()?),
            Request::Read(query) => Request::Read(query.clone()?),
            Request::Play(query) => Request::Play(query.clone()?),
            Request::CancelJob(query) => Request::CancelJob(query.clone()?),
            Request::CancelPipeline(query) => Request::CancelPipeline(query.clone()?),
            Request::RetryJob(query) => Request::RetryJob(query.clone()?),
            Request::PruneOne(before) => Request::PruneOne(*before),
        })
    }
}

/// What happens to the machine: a request, or a sweep, which ends one lease that is over, or else cancels one redundant pipeline.
#[derive(Drop)]
pub enum Event {
    Request(Request),
    Sweep,
}

impl Clone for Event {
    ghost is_clone = { λ old new. new ≡ old };

    fn clone(&self) -> Result<Event, AllocError> {
        Ok(match self {
            Event::Request(request) => Event::Request(request.clone()?),
            Event::Sweep => Event::Sweep,
        })
    }
}

/// The sixteen bytes of chance that come with an event, for the token that it may make.
#[derive(Clone, Copy, Drop)]
pub struct Seed(pub [u8; 16]);
