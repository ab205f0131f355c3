//! What a CI file fixes of a job, and why jobs make no graph.

ghost use Rattle.std.specs.Prelude.{◌≡◌};
ghost use Rattle.ci_graph.specs.JobGraph.{no_part};

use ci_values::when::{AllowFailure, Causes, Retry, When};

/// What the file fixes of a job that its status depends on.
#[derive(Clone, Drop)]
pub struct Part {
    pub when: When,
    /// Whether the pipeline goes on though the job failed, was cancelled or wasn't played.
    pub allow_failure: AllowFailure,
    pub retry: Retry,
    /// Whether the job gives `needs`, be it an empty list.
    pub gives_needs: bool,
}

impl Part {
    /// What is fixed of a job that sets nothing: it runs where none before it failed, and is never tried again by itself.
    pub fn plain() -> Part
        ensures { result ≡ no_part }
    {
        Part {
            when: When::OnSuccess,
            allow_failure: AllowFailure::No,
            retry: Retry {
                max: 0,
                causes: Causes {
                    unknown_failure: false,
                    script_failure: false,
                    api_failure: false,
                    stuck_or_timeout_failure: false,
                    runner_system_failure: false,
                    job_execution_timeout: false,
                },
            },
            gives_needs: false,
        }
    }
}

/// Why there is no graph.
#[derive(Clone, Copy, Debug, PartialEq, Eq, Drop)]
pub enum GraphFault {
    /// A walk along the pairs returns to its start.
    G3,
    /// Memory was refused.
    Memory,
}
