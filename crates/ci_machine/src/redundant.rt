//! Which pipeline a newer one makes redundant.

ghost use Rattle.std.specs.Prelude.{◌≡◌, option_copied};
ghost use Rattle.std.specs.List.{list_any};
ghost use Rattle.ci_machine.specs.Redundant.{is_unfinished, same_kind, is_newer_of, is_bound_to, is_redundant, first_redundant, tried_in};

use crate::records::{AttemptWithJob, Job, Pipeline, PipelineWithStatus, RefKind};
use ci_board::facts::Status;

/// The first redundant pipeline, of pipelines by number, if there is one. The attempts are all of their jobs, those that have ended and
/// those that are set aside among them.
pub fn redundant<'a>(
    pipelines: &'a [PipelineWithStatus],
    attempts: &[AttemptWithJob],
) -> Option<&'a PipelineWithStatus>
    ensures { option_copied result ≡ first_redundant pipelines.now (tried_in attempts.now) }
{
    pipelines
        .iter()
        .find(|one| is_redundant(one, pipelines, attempts))
}

/// Is the pipeline redundant: isn't it finished, is a newer one of its project, ref and kind among the others, and are all of its jobs
/// that were tried interruptible? The attempts are at least those of its jobs.
pub fn is_redundant(
    one: &PipelineWithStatus,
    others: &[PipelineWithStatus],
    attempts: &[AttemptWithJob],
) -> bool
    ensures { result ≡ is_redundant others.now (tried_in attempts.now) one.now }
{
    is_unfinished(one.status)
        && has_newer(others, &one.pipeline)
        && !is_held_back(&one.pipeline, attempts)
}

fn is_held_back(pipeline: &Pipeline, attempts: &[AttemptWithJob]) -> bool
    ensures { result ≡ list_any (is_bound_to pipeline.now) (tried_in attempts.now) }
{
    has_bound(attempts, pipeline)
}

/// Is one of the attempts of a job of the pipeline that isn't interruptible?
fn has_bound(attempts: &[AttemptWithJob], pipeline: &Pipeline) -> bool
    ensures { result ≡ list_any (λ a. is_bound_to pipeline.now a.queued.job) attempts.now }
{
    attempts
        .iter()
        .any(|one| is_bound_to(pipeline, &one.queued.job))
}

fn has_newer(others: &[PipelineWithStatus], pipeline: &Pipeline) -> bool
    ensures { result ≡ list_any (λ q. is_newer_of pipeline.now q.pipeline) others.now }
{
    others
        .iter()
        .any(|other| is_newer_of(pipeline, &other.pipeline))
}

/// Isn't a pipeline of this status finished?
pub fn is_unfinished(status: Status) -> bool
    ensures { result ≡ is_unfinished status }
{
    matches!(status, Status::Pending | Status::Running | Status::Manual)
}

/// Is the other a newer pipeline of the same project, for the same branch or the same tag?
pub fn is_newer_of(pipeline: &Pipeline, other: &Pipeline) -> bool
    ensures { result ≡ is_newer_of pipeline.now other.now }
{
    pipeline.id < other.id
        && other.project == pipeline.project
        && other.git_ref.is_same(&pipeline.git_ref)
        && same_kind(other.kind, pipeline.kind)
}

fn same_kind(a: RefKind, b: RefKind) -> bool
    ensures { result ≡ same_kind a b }
{
    match (a, b) {
        (RefKind::Branch, RefKind::Branch) | (RefKind::Tag, RefKind::Tag) => true,
        _ => false,
    }
}

/// Is the job one of the pipeline's, and not interruptible?
pub fn is_bound_to(pipeline: &Pipeline, job: &Job) -> bool
    ensures { result ≡ is_bound_to pipeline.now job.now }
{
    job.pipeline == pipeline.id && !job.options.interruptible
}
