//! The rows of reports for an operator: which jobs wait, how a pipeline stands with its jobs, and what the runners do. What they say of a
//! state stands in `specs/ReportRows.antt`.

ghost use Rattle.std.specs.Prelude.{◌≡◌};
ghost use Rattle.ci_machine.specs.Bodies.{printed_status};
ghost use Rattle.ci_machine.specs.ReportRows.{pending_status, shown_status, shown_text};

use crate::choose::is_free;
use crate::moment::Moment;
use crate::records::{Claim, Job, PipelineWithStatus};
use crate::text::Text;
use ci_board::facts::Status;

/// The status of a job as users are told it: where it is pending, also whether it waits for its resource group.
#[derive(Clone, Copy, Drop)]
pub enum ShownStatus {
    /// This status. A pending job waits for a runner alone.
    Plain(Status),
    /// It is pending, and must wait for its resource group.
    WaitsForResource,
}

impl ShownStatus {
    /// How users are told the status of a job of a project. The claims, for which it must wait, are at least those on its resource group.
    pub fn of(claims: &[Claim], project: u64, job: &Job, status: Status) -> ShownStatus
        ensures shown { result ≡ shown_status claims.now project job.now status }
        ensures printed { shown_text result ≡ printed_status claims.now project job.now status }
    {
        match status {
            Status::Pending => {
                ShownStatus::pending(is_free(claims, project, &job.options.resource_group))
            }
            Status::Created
            | Status::Running
            | Status::Success
            | Status::Failed
            | Status::Canceled
            | Status::Skipped
            | Status::Manual => ShownStatus::Plain(status),
        }
    }

    /// How users are told that a job is pending, by whether its resource group is free.
    pub fn pending(is_free: bool) -> ShownStatus
        ensures { result ≡ pending_status is_free }
    {
        if is_free {
            ShownStatus::Plain(Status::Pending)
        } else {
            ShownStatus::WaitsForResource
        }
    }

    /// The status in the words that users are told.
    pub fn as_str(self) -> &'static str
        ensures { result.now ≡ shown_text self }
    {
        match self {
            ShownStatus::Plain(status) => status.as_str(),
            ShownStatus::WaitsForResource => "waiting_for_resource",
        }
    }
}

/// A pending job, as the report of the queue tells it.
#[derive(Drop)]
pub struct QueueRow {
    /// The job's number.
    pub job: u64,
    /// The number of its project.
    pub project: u64,
    pub status: ShownStatus,
    pub name: Text,
}

/// A job of a pipeline, as the pipeline's report tells it.
#[derive(Drop)]
pub struct JobRow {
    /// The job's number.
    pub job: u64,
    pub status: ShownStatus,
    /// How many attempts it has in all, those that a retry set aside too.
    pub tries: u64,
    pub name: Text,
}

/// A pipeline with its jobs, by their numbers.
#[derive(Drop)]
pub struct PipelineRows {
    pub head: PipelineWithStatus,
    pub jobs: Vec<JobRow>,
}

/// A runner, as the report of the runners tells it.
#[derive(Drop)]
pub struct RunnerRow {
    /// The runner's number.
    pub runner: u64,
    /// It is given no job while it is paused.
    pub paused: bool,
    /// How many live attempts it has.
    pub live: u64,
    /// When it was last given a job, if it ever was: the grant of its attempt of the greatest number.
    pub last_grant: Option<Moment>,
    pub name: Text,
}
