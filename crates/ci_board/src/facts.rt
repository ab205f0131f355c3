//! What a job's status is made of: its facts, its row, and what it means to others.

ghost use Rattle.std.specs.Prelude.{◌≡◌};
ghost use Rattle.ci_board.specs.Effects.{status_number};
ghost use Rattle.ci_board.specs.Texts.{status_text};

use ci_values::attempts::AttemptState;

/// The status of a job, and of a pipeline.
#[derive(Clone, Copy, Debug, PartialEq, Eq, Drop)]
pub enum Status {
    Created,
    Pending,
    Running,
    Success,
    Failed,
    Canceled,
    Skipped,
    Manual,
}

impl Status {
    /// The status in GitLab's words, as users are told it.
    pub fn as_str(self) -> &'static str
        ensures { result.now ≡ status_text self }
    {
        match self {
            Status::Created => "created",
            Status::Pending => "pending",
            Status::Running => "running",
            Status::Success => "success",
            Status::Failed => "failed",
            Status::Canceled => "canceled",
            Status::Skipped => "skipped",
            Status::Manual => "manual",
        }
    }

    /// The number that stands for the status in a stored row.
    pub fn as_number(self) -> u32
        ensures { result ≡ status_number self }
    {
        match self {
            Status::Created => 0,
            Status::Pending => 1,
            Status::Running => 2,
            Status::Success => 3,
            Status::Failed => 4,
            Status::Canceled => 5,
            Status::Skipped => 6,
            Status::Manual => 7,
        }
    }
}

/// What events change of a job.
#[derive(Clone, Copy, Drop)]
pub struct Facts {
    /// Its last attempt; none where it was never tried.
    pub last: Option<AttemptState>,
    /// How many attempts it has that aren't set aside.
    pub attempts: u64,
    pub cancelled: bool,
    pub played: bool,
}

/// What a job's status means to a job behind it.
#[derive(Clone, Copy, PartialEq, Eq, Drop)]
pub enum Effect {
    /// The job behind may run.
    Good,
    /// It counts as failed.
    Fails,
    /// The job behind must not run.
    Bars,
    /// It isn't decided yet.
    Open,
}

/// A job's status, and how many of its predecessors are open, count as failed, and bar it.
#[derive(Clone, Copy, Drop)]
pub struct Row {
    pub status: Status,
    pub opens: usize,
    pub failed: usize,
    pub barred: usize,
}

/// The new facts of the job at a position.
#[derive(Clone, Copy, Drop)]
pub struct FactsChange {
    pub position: usize,
    pub facts: Facts,
}
