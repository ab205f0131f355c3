//! The records that the machine keeps: a row of a table each.

ghost use Rattle.std.specs.Prelude.{◌≡◌, IfOk};
ghost use Rattle.ci_machine.specs.Bodies.{order_text, source_text};
ghost use Rattle.ci_machine.specs.Listings.{cause_text, when_text};
ghost use Rattle.ci_machine.specs.Options.{plain_options};

use crate::limits::DEFAULT_TIMEOUT_SECONDS;
use crate::moment::Moment;
use crate::text::{Bytes, Text, Texts};
use ci_board::facts::{Row, Status};
use ci_graph::part::Part;
pub use ci_values::attempts::{AttemptState, Cause};
pub use ci_values::limits::MAX_NUMBER;
use ci_values::when::When;
use std::alloc::{AllocError, Global};

/// A project, with the token that its users send and its pipeline file.
#[derive(Clone, Drop)]
pub struct Project {
    pub id: u64,
    pub name: Text,
    pub token: Text,
    /// The text of its `.gitlab-ci.yml`, if it has one.
    pub file: Option<Text>,
}

/// A variable of a project: the jobs of its pipelines are given it.
#[derive(Drop)]
pub struct Variable {
    pub project: u64,
    pub key: Text,
    pub value: Text,
}

/// A runner, with the token that it asks for jobs with.
#[derive(Clone, Drop)]
pub struct Runner {
    pub id: u64,
    pub name: Text,
    pub token: Text,
    /// The project whose jobs it runs; a runner of the instance runs those of every project.
    pub project: Option<u64>,
    pub tags: Texts,
    /// Whether it runs jobs that have no tags.
    pub untagged: bool,
    /// It is given no job while it is paused.
    pub paused: bool,
}

/// What a pipeline's ref names.
#[derive(Clone, Copy, Drop)]
pub enum RefKind {
    Branch,
    Tag,
}

/// What made a pipeline, as `CI_PIPELINE_SOURCE` gives it.
#[derive(Clone, Copy, Drop)]
pub enum Source {
    Push,
    Web,
    Schedule,
    Api,
    Trigger,
}

impl Source {
    /// The source as `CI_PIPELINE_SOURCE` gives it.
    pub fn as_str(self) -> &'static str
        ensures { result.now ≡ source_text self }
    {
        match self {
            Source::Push => "push",
            Source::Web => "web",
            Source::Schedule => "schedule",
            Source::Api => "api",
            Source::Trigger => "trigger",
        }
    }
}

/// A pipeline of a project.
#[derive(Clone, Drop)]
pub struct Pipeline {
    pub id: u64,
    pub project: u64,
    /// The branch or the tag that it runs for.
    pub git_ref: Text,
    pub kind: RefKind,
    pub source: Source,
    pub created: Moment,
}

/// What the file and the rules fixed of a job when its pipeline was made.
#[derive(Drop)]
pub struct JobOptions {
    pub script: Texts,
    /// The time limit of an attempt, in seconds.
    pub timeout: u32,
    /// The tags that a runner must have to be given the job.
    pub tags: Texts,
    /// The group of whose jobs one at a time holds a lease, in each project.
    pub resource_group: Option<Text>,
    /// Whether a newer pipeline may make it redundant.
    pub interruptible: bool,
    /// What its status depends on.
    pub part: Part,
}

impl JobOptions {
    /// What is fixed of a job that sets nothing but its script.
    pub fn plain(alloc: Global, script: Texts) -> JobOptions
        ensures { result ≡ plain_options script }
    {
        JobOptions {
            script,
            timeout: DEFAULT_TIMEOUT_SECONDS,
            tags: Texts::new(Vec::new(alloc)),
            resource_group: None,
            interruptible: false,
            part: Part::plain(),
        }
    }
}

fn copy_of(text: &Option<Text>) -> Result<Option<Text>, AllocError>
    ensures { IfOk result (λ t. t ≡ text.now) }
{
    match text {
        Some(text) => Ok(Some(text.clone()?)),
        None => Ok(None),
    }
}

impl Clone for JobOptions {
    ghost is_clone = { λ old new. new ≡ old };

    fn clone(&self) -> Result<JobOptions, AllocError> {
        let script = self.script.clone()?;
        let tags = self.tags.clone()?;
        let resource_group = copy_of(&self.resource_group)?;
        let part = self.part.clone()?;
        Ok(JobOptions {
            script,
            timeout: self.timeout,
            tags,
            resource_group,
            interruptible: self.interruptible,
            part,
        })
    }
}

/// A job of a pipeline.
#[derive(Clone, Drop)]
pub struct Job {
    pub id: u64,
    pub pipeline: u64,
    /// Its place among the jobs of its pipeline, from 0.
    pub position: u64,
    pub name: Text,
    pub stage: Text,
    pub options: JobOptions,
    /// Whether a user started it, where it is manual.
    pub played: bool,
    /// Whether a user or a sweep cancelled it.
    pub cancelled: bool,
    /// How many of its attempts were made before a user's last retry.
    pub set_aside: u64,
}

/// A pipeline, with the status that follows from its jobs.
#[derive(Drop)]
pub struct PipelineWithStatus {
    pub pipeline: Pipeline,
    pub status: Status,
}

/// A job that waits for a runner, or was given to one, with the project of its pipeline.
#[derive(Drop)]
pub struct QueuedJob {
    pub job: Job,
    pub project: u64,
}

/// What a job asks of the runner that is given it: told without the job's script.
#[derive(Drop)]
pub struct Demand {
    pub job: u64,
    /// Its pipeline, whose project the runner must be open to.
    pub pipeline: u64,
    /// The tags that the runner must have.
    pub tags: Texts,
    /// The group that no live attempt may hold.
    pub resource_group: Option<Text>,
}

/// A variable of a job, as it was fixed when its pipeline was made.
#[derive(Drop)]
pub struct JobVariable {
    pub job: u64,
    pub key: Text,
    pub value: Text,
}

impl Clone for JobVariable {
    ghost is_clone = { λ old new. new ≡ old };

    fn clone(&self) -> Result<JobVariable, AllocError> {
        let key = self.key.clone()?;
        let value = self.value.clone()?;
        Ok(JobVariable {
            job: self.job,
            key,
            value,
        })
    }
}

/// A pair of a pipeline's graph: the job waits for another of its pipeline.
#[derive(Clone, Copy, Drop)]
pub struct Need {
    pub job: u64,
    /// The job that it waits for.
    pub pred: u64,
}

/// The row of a job's status. It is kept beside the state, which has no statuses.
#[derive(Clone, Copy, Drop)]
pub struct BoardRow {
    pub job: u64,
    pub row: Row,
}

/// Why an attempt failed, in GitLab's words.
pub fn cause_text(cause: Cause) -> &'static str
    ensures { result.now ≡ cause_text cause }
{
    match cause {
        Cause::UnknownFailure => "unknown_failure",
        Cause::ScriptFailure => "script_failure",
        Cause::ApiFailure => "api_failure",
        Cause::StuckOrTimeoutFailure => "stuck_or_timeout_failure",
        Cause::RunnerSystemFailure => "runner_system_failure",
        Cause::JobExecutionTimeout => "job_execution_timeout",
    }
}

/// When a job runs, as the keyword `when` has it.
pub fn when_text(when: When) -> &'static str
    ensures { result.now ≡ when_text when }
{
    match when {
        When::OnSuccess => "on_success",
        When::OnFailure => "on_failure",
        When::Always => "always",
        When::Manual => "manual",
    }
}

/// A run of a job by a runner. While it is live it is the runner's lease on the job.
#[derive(Clone, Drop)]
pub struct Attempt {
    pub id: u64,
    pub job: u64,
    pub runner: u64,
    /// The token that the runner sends with all it says of the attempt.
    pub token: Text,
    pub granted: Moment,
    /// When its runner was last heard of.
    pub seen: Moment,
    pub state: AttemptState,
}

/// An attempt with its job.
#[derive(Drop)]
pub struct AttemptWithJob {
    pub attempt: Attempt,
    pub queued: QueuedJob,
}

/// A resource group of a project that a live attempt holds. It is kept beside the state, which has no such record: which groups are
/// held follows from the live attempts and their jobs.
#[derive(Clone, Drop)]
pub struct Holder {
    pub project: u64,
    pub group: Text,
    /// The attempt, whose job has the group.
    pub attempt: u64,
}

/// In which order the jobs of a resource group are given to runners, where that is set: by a process mode of GitLab's other than
/// `unordered`. A job is older than those of pipelines with greater numbers.
#[derive(Clone, Copy, PartialEq, Eq, Drop)]
pub enum GroupOrder {
    /// `oldest_first`: no job is given while one of an older pipeline is created or pending.
    OldestFirst,
    /// `newest_ready_first`: no job is given while one of a newer pipeline is pending.
    NewestReadyFirst,
}

/// The process mode in GitLab's words, of a group with this order or with none.
pub fn process_mode(order: Option<GroupOrder>) -> &'static str
    ensures { result.now ≡ order_text order }
{
    match order {
        None => "unordered",
        Some(GroupOrder::OldestFirst) => "oldest_first",
        Some(GroupOrder::NewestReadyFirst) => "newest_ready_first",
    }
}

/// The process mode of a resource group of a project. A group without such a record is `unordered`.
#[derive(Clone, Drop)]
pub struct GroupMode {
    pub project: u64,
    pub group: Text,
    pub order: GroupOrder,
}

/// A job with a resource group that is created or pending. It is told of one that waits: no table has it.
#[derive(Drop)]
pub struct WaitingJob {
    /// The project of its pipeline.
    pub project: u64,
    pub group: Text,
    pub pipeline: u64,
    /// Whether it is pending, and not created.
    pub pending: bool,
}

/// A resource group of a project that a job must wait for.
#[derive(Clone, Drop)]
pub struct Claim {
    pub project: u64,
    pub group: Text,
}

/// A pipeline that isn't finished. Neither the state nor a table has such a record: it follows from the statuses of the pipeline's jobs.
#[derive(Clone, Copy, Drop)]
pub struct Unfinished {
    pub pipeline: u64,
}

/// The trace of an attempt, or bytes that go behind it: what its runner sent and the server accepted.
#[derive(Drop)]
pub struct Trace {
    pub attempt: u64,
    pub bytes: Bytes,
}

/// The numbers that the next records get.
#[derive(Clone, Copy, Drop)]
pub struct Numbers {
    pub project: u64,
    pub runner: u64,
    pub pipeline: u64,
    pub job: u64,
    pub attempt: u64,
}
