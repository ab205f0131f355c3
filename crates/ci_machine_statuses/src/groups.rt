//! Resource groups that are held.

ghost use Rattle.std.specs.Prelude.{◌≡◌, ◌∷◌, [], ◌++◌, ◌==◌, map, find, option_to_list, IfOk, OnOk, option_copied};
ghost use Rattle.std.specs.List.{list_any};
ghost use Rattle.ci_machine_steps.specs.Prelude.{is_lease_on, held_claim, holds_group, group_held};
ghost use Rattle.ci_machine.specs.Holders as holders;
ghost use Rattle.ci_machine_statuses.specs.HolderChanges.{freed};

use ci_machine::change::IndexChange;
use ci_machine::records::{Attempt, Claim, Holder, Job, QueuedJob};
use std::alloc::{AllocError, Global};

/// What a job holds that is granted as the attempt with this number: its group of its project, if it has one. Errors: memory was
/// refused.
pub fn held(attempt: u64, queued: &QueuedJob) -> Result<Option<IndexChange>, AllocError>
    ensures { IfOk result (λ change. option_to_list change ≡ holds_group attempt queued.now) }
{
    match &queued.job.options.resource_group {
        Some(group) => Ok(Some(IndexChange::Hold(Holder {
            project: queued.project,
            group: group.clone()?,
            attempt,
        }))),
        None => Ok(None),
    }
}

/// The groups for which jobs must wait that these attempts hold, in their order. Errors: memory was refused.
pub fn claims_of(alloc: Global, held: &[Holder]) -> Result<Vec<Claim>, AllocError>
    ensures { IfOk result (λ v. v.items ≡ map held_claim held.now) }
{
    let mut claims = Vec::with_capacity(alloc, held.len())?;
    for holder in held {
        claims.push(Claim {
            project: holder.project,
            group: holder.group.clone()?,
        })?;
    }
    Ok(claims)
}

/// What is free where the leases on the chosen jobs of a project end, of these attempts: what each of them held, in their order.
/// Errors: memory was refused.
pub fn freed(
    alloc: Global,
    project: u64,
    chosen: &[Job],
    attempts: &[Attempt],
) -> Result<Vec<IndexChange>, AllocError>
    ensures { IfOk result (λ v. v.items ≡ freed project chosen.now attempts.now) }
{
    let mut changes = Vec::new(alloc);
    for attempt in attempts {
        let change = freed_by(project, chosen, attempt)?;
        push_if_any(&mut changes, change)?;
    }
    Ok(changes)
}

/// What is free where the attempt ends, if it is a lease on one of the chosen jobs of a project.
fn freed_by(
    project: u64,
    chosen: &[Job],
    attempt: &Attempt,
) -> Result<Option<IndexChange>, AllocError>
    ensures { IfOk result (λ change. option_to_list change ≡ freed project chosen.now (attempt.now ∷ [])) }
{
    if !is_lease_on(chosen, attempt) {
        return Ok(None);
    }
    match job_with(chosen, attempt.job) {
        Some(job) => group_freed(project, job),
        None => Ok(None),
    }
}

/// The job with this number, if it is one of these.
fn job_with(jobs: &[Job], number: u64) -> Option<&Job>
    ensures { option_copied result ≡ find (λ j. j.id == number) jobs.now }
{
    jobs.iter().find(|job| job.id == number)
}

/// The group of a job of a project is free, if it has one.
fn group_freed(project: u64, job: &Job) -> Result<Option<IndexChange>, AllocError>
    ensures { IfOk result (λ change. option_to_list change ≡ map holders.freed (group_held 0 project job.now.options.resource_group)) }
{
    match &job.options.resource_group {
        Some(group) => Ok(Some(IndexChange::Free(project, group.clone()?))),
        None => Ok(None),
    }
}

/// Is the attempt the lease on one of these jobs?
fn is_lease_on(jobs: &[Job], attempt: &Attempt) -> bool
    ensures { result ≡ is_lease_on jobs.now attempt.now }
{
    attempt.state.is_live() && has_number(jobs, attempt.job)
}

fn has_number(jobs: &[Job], number: u64) -> bool
    ensures { result ≡ list_any (λ j. j.id == number) jobs.now }
{
    jobs.iter().any(|job| job.id == number)
}

/// Puts the change, if it is one, behind the others.
pub(crate) fn push_if_any(
    changes: &mut Vec<IndexChange>,
    change: Option<IndexChange>,
) -> Result<(), AllocError>
    ensures { OnOk result (changes.new.items ≡ changes.old.items ++ option_to_list change) }
{
    if let Some(change) = change {
        changes.push(change)?;
    }
    Ok(())
}
