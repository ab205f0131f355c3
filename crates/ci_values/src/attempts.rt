//! How an attempt at a job stands, and why one failed.

ghost use Rattle.std.specs.Prelude.{◌≡◌};
ghost use Rattle.ci_values.specs.Attempts.{is_live_state};

/// Why an attempt failed, in GitLab's words.
#[derive(Clone, Copy, PartialEq, Eq, Drop)]
pub enum Cause {
    UnknownFailure,
    ScriptFailure,
    ApiFailure,
    StuckOrTimeoutFailure,
    RunnerSystemFailure,
    JobExecutionTimeout,
}

/// How an attempt stands: live, or how it ended, with the exit code that its runner sent.
#[derive(Clone, Copy, Drop)]
pub enum AttemptState {
    Live,
    Succeeded(Option<u32>),
    Failed(Cause, Option<u32>),
    Cancelled,
}

impl AttemptState {
    /// Has the attempt not ended?
    pub fn is_live(self) -> bool
        ensures { result ≡ is_live_state self }
    {
        match self {
            AttemptState::Live => true,
            _ => false,
        }
    }
}
