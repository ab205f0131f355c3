//! Which waiting job a runner is given.

ghost use Rattle.std.specs.Prelude.{◌≡◌, Some, option_copied};
ghost use Rattle.std.specs.List.{list_any, list_all};
ghost use Rattle.ci_machine.specs.Eligible.{is_open_to, has_tag, takes, may_run, holds, claims_group, is_free, resource_free, is_eligible, chosen};
ghost use Rattle.ci_machine.specs.Groups.{is_in_line, goes_before, goes_before_in, is_behind, order_of};
ghost use Rattle.ci_machine.specs.Holders.{held_by, held_among};
ghost use Rattle.ci_machine.specs.Waiting.{groups_among};

use crate::records::{AttemptWithJob, Claim, GroupMode, GroupOrder, QueuedJob, Runner, WaitingJob};
use crate::text::Text;

/// The job that the runner is given, of pending jobs by number: the first that it may run and whose resource group, if it has one, is free
/// by its process mode. The live attempts, the modes and the waiting jobs are all of them, or at least those of the groups of these jobs.
pub fn choose<'a>(
    queue: &'a [QueuedJob],
    live: &[AttemptWithJob],
    modes: &[GroupMode],
    waiting: &[WaitingJob],
    runner: &Runner,
) -> Option<&'a QueuedJob>
    ensures { option_copied result ≡ chosen queue.now (groups_among live.now modes.now waiting.now) runner.now }
{
    queue
        .iter()
        .find(|queued| is_eligible(queued, live, modes, waiting, runner))
}

/// May the runner be given the job, which is pending? The live attempts, the modes and the waiting jobs are at least those of its group.
pub fn is_eligible(
    queued: &QueuedJob,
    live: &[AttemptWithJob],
    modes: &[GroupMode],
    waiting: &[WaitingJob],
    runner: &Runner,
) -> bool
    ensures { result ≡ is_eligible runner.now (groups_among live.now modes.now waiting.now) queued.now }
{
    may_run(runner, queued.project, queued.job.options.tags.as_slice())
        && resource_free(queued, live, modes, waiting)
}

/// May the runner run a job of the project that has these tags, when no group holds the job back?
pub fn may_run(runner: &Runner, project: u64, tags: &[Text]) -> bool
    ensures { result ≡ may_run runner.now project tags.now }
{
    !runner.paused && is_open_to(runner.project, project) && takes(runner, tags)
}

fn is_open_to(own: Option<u64>, project: u64) -> bool
    ensures { result ≡ is_open_to own project }
{
    match own {
        None => true,
        Some(own) => own == project,
    }
}

/// Does the runner have all of the tags, or run untagged jobs where there is none?
fn takes(runner: &Runner, tags: &[Text]) -> bool
    ensures { result ≡ takes runner.now tags.now }
{
    if tags.is_empty() {
        return runner.untagged;
    }
    has_all(runner, tags)
}

fn has_all(runner: &Runner, tags: &[Text]) -> bool
    ensures { result ≡ list_all (has_tag runner.now) tags.now }
{
    tags.iter().all(|tag| has_tag(runner, tag))
}

fn has_tag(runner: &Runner, tag: &Text) -> bool
    ensures { result ≡ has_tag runner.now tag.now }
{
    runner.tags.as_slice().iter().any(|own| own.is_same(tag))
}

/// Is the resource group of the job, if it has one, free: does no live attempt hold it, and by its process mode no other job go first? The
/// live attempts, the modes and the waiting jobs are at least those of the group.
pub fn resource_free(
    queued: &QueuedJob,
    live: &[AttemptWithJob],
    modes: &[GroupMode],
    waiting: &[WaitingJob],
) -> bool
    ensures { result ≡ resource_free (groups_among live.now modes.now waiting.now) queued.now }
{
    match &queued.job.options.resource_group {
        None => true,
        Some(group) => {
            !is_held_among(live, queued.project, group)
                && !is_behind(modes, waiting, queued.project, queued.job.pipeline, group)
        }
    }
}

fn is_held_among(live: &[AttemptWithJob], project: u64, group: &Text) -> bool
    ensures { result ≡ list_any (holds project group.now) (held_among live.now) }
{
    has_one(live, project, group)
}

/// Does one of the live attempts hold this resource group of the project?
fn has_one(live: &[AttemptWithJob], project: u64, group: &Text) -> bool
    ensures { result ≡ list_any (λ a. list_any (holds project group.now) (held_by a.attempt.id (Some a.queued))) live.now }
{
    live.iter().any(|one| has_group(one, project, group))
}

/// Does the live attempt hold this resource group of the project?
fn has_group(one: &AttemptWithJob, project: u64, group: &Text) -> bool
    ensures { result ≡ list_any (holds project group.now) (held_by one.now.attempt.id (Some one.now.queued)) }
{
    match &one.queued.job.options.resource_group {
        None => false,
        Some(own) => one.queued.project == project && own.is_same(group),
    }
}

/// Does one of the waiting jobs go before those that a pipeline of the project has in the group, by the group's mode?
fn is_behind(
    modes: &[GroupMode],
    waiting: &[WaitingJob],
    project: u64,
    pipeline: u64,
    group: &Text,
) -> bool
    ensures { result ≡ is_behind (order_of modes.now project group.now) waiting.now project pipeline group.now }
{
    match order_of(modes, project, group) {
        None => false,
        Some(order) => waiting.iter().any(|job| is_in_line(job, project, group)
            && goes_before(job, order, pipeline)),
    }
}

/// The order of a resource group of a project, by at least the mode of this group; none where it is `unordered`.
pub fn order_of(modes: &[GroupMode], project: u64, group: &Text) -> Option<GroupOrder>
    ensures { result ≡ order_of modes.now project group.now }
{
    let found = modes.iter().find(|mode| mode.project == project && mode.group.is_same(group))?;
    Some(found.order)
}

fn is_in_line(job: &WaitingJob, project: u64, group: &Text) -> bool
    ensures { result ≡ is_in_line project group.now job.now }
{
    job.project == project && job.group.is_same(group)
}

/// Does the waiting job go before the jobs of its group that are of this pipeline?
pub fn goes_before(job: &WaitingJob, order: GroupOrder, pipeline: u64) -> bool
    ensures { result ≡ goes_before order pipeline job.now }
{
    match order {
        GroupOrder::OldestFirst => job.pipeline < pipeline,
        GroupOrder::NewestReadyFirst => pipeline < job.pipeline && job.pending,
    }
}

/// Is none of these claims on the resource group, if it is one, of the project? They are at least those on the group.
pub fn is_free(claims: &[Claim], project: u64, group: &Option<Text>) -> bool
    ensures { result ≡ is_free claims.now project group.now }
{
    match group {
        None => true,
        Some(group) => !is_claimed(claims, project, group),
    }
}

fn is_claimed(claims: &[Claim], project: u64, group: &Text) -> bool
    ensures { result ≡ list_any (claims_group project group.now) claims.now }
{
    claims
        .iter()
        .any(|claim| claims_group(claim, project, group))
}

fn claims_group(claim: &Claim, project: u64, group: &Text) -> bool
    ensures { result ≡ claims_group project group.now claim.now }
{
    claim.project == project && claim.group.is_same(group)
}
