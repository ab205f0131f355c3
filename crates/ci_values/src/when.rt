//! When a job runs, how often it is tried again, and whether its pipeline goes on where it fails.

ghost use Rattle.std.specs.Prelude.{◌≡◌};
ghost use Rattle.ci_values.specs.Attempts.{has_cause};

use crate::attempts::Cause;
use crate::items::Items;

/// When a job runs, by how the jobs before it ended.
#[derive(Clone, Copy, PartialEq, Eq, Drop)]
pub enum When {
    /// Where none of them failed.
    OnSuccess,
    /// Where one of them failed.
    OnFailure,
    Always,
    /// As `OnSuccess`, once a user has started it.
    Manual,
}

/// A set of causes of failure: which of them it has.
#[derive(Clone, Copy, PartialEq, Eq, Drop)]
pub struct Causes {
    pub unknown_failure: bool,
    pub script_failure: bool,
    pub api_failure: bool,
    pub stuck_or_timeout_failure: bool,
    pub runner_system_failure: bool,
    pub job_execution_timeout: bool,
}

impl Causes {
    /// Does the set have the cause?
    pub fn contains(self, cause: Cause) -> bool
        ensures { result ≡ has_cause self cause }
    {
        match cause {
            Cause::UnknownFailure => self.unknown_failure,
            Cause::ScriptFailure => self.script_failure,
            Cause::ApiFailure => self.api_failure,
            Cause::StuckOrTimeoutFailure => self.stuck_or_timeout_failure,
            Cause::RunnerSystemFailure => self.runner_system_failure,
            Cause::JobExecutionTimeout => self.job_execution_timeout,
        }
    }
}

/// How often a job that failed is tried again.
#[derive(Clone, Copy, PartialEq, Eq, Drop)]
pub struct Retry {
    /// How many times, at most: 0 to 2.
    pub max: u8,
    /// After which causes.
    pub causes: Causes,
}

/// Whether a pipeline goes on where a job failed.
#[derive(Clone, Drop)]
pub enum AllowFailure {
    No,
    Yes,
    /// Where the job's last attempt ended with one of these exit codes.
    ExitCodes(Items<u32>),
}
