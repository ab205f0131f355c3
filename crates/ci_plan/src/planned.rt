//! What is told of each job of the pipeline.

ghost use Rattle.std.specs.Prelude.{◌≡◌, IfOk, map};
ghost use Rattle.ci_graph_layout.specs.Prelude.{predecessors, IsPlaced, stages_of, jobs_of, included_view};
ghost use Rattle.ci_plan.specs.Planned.{name_at, planned_job, planned_jobs};

use crate::records::PlannedJob;
use ci_graph_layout::{IncludedJob, Lineup};
use ci_machine::text::{Text, Texts};
use ci_values::items::Items;
use std::alloc::{AllocError, Global};

/// The name of the job at a position.
fn name_at<'a, 't>(jobs: &[IncludedJob<'a, 't>], place: usize) -> &'a str
    ensures { result.now ≡ name_at (map included_view jobs.now) place }
{
    if place < jobs.len() {
        jobs[place].job.name
    } else {
        ""
    }
}

/// The names of the jobs at these positions.
pub(crate) fn names_at(
    alloc: Global,
    jobs: &[IncludedJob],
    places: &[usize],
) -> Result<Texts, AllocError>
    ensures { IfOk result (λ names. names ≡ map (name_at (map included_view jobs.now)) places.now) }
{
    let mut names = Vec::new(alloc);
    for place in places {
        names.push(Text::copy_of(alloc, name_at(jobs, *place))?)?;
    }
    Ok(Items::new(names))
}

/// The names of the jobs for which a job waits.
fn waits_for(alloc: Global, lineup: &Lineup, job: &IncludedJob) -> Result<Texts, AllocError>
    requires { IsPlaced lineup.now }
    ensures { IfOk result (λ names. names ≡ map (name_at (jobs_of lineup.now)) (predecessors (stages_of lineup.now) (jobs_of lineup.now) (included_view job.now))) }
{
    let places = lineup.predecessors(alloc, job)?;
    names_at(alloc, &lineup.jobs, &places)
}

/// What is told of a job.
fn planned_job(alloc: Global, lineup: &Lineup, job: &IncludedJob) -> Result<PlannedJob, AllocError>
    requires { IsPlaced lineup.now }
    ensures { IfOk result (λ p. p ≡ planned_job (stages_of lineup.now) (jobs_of lineup.now) (included_view job.now)) }
{
    Ok(PlannedJob {
        name: Text::copy_of(alloc, job.job.name)?,
        stage: Text::copy_of(alloc, job.job.stage)?,
        when: job.when,
        rule: job.rule,
        waits_for: waits_for(alloc, lineup, job)?,
    })
}

/// What is told of each job of the pipeline, in their order.
pub(crate) fn planned_jobs(alloc: Global, lineup: &Lineup) -> Result<Items<PlannedJob>, AllocError>
    requires { IsPlaced lineup.now }
    ensures { IfOk result (λ ps. ps ≡ planned_jobs (stages_of lineup.now) (jobs_of lineup.now)) }
{
    let mut jobs = Vec::new(alloc);
    for job in &lineup.jobs {
        jobs.push(planned_job(alloc, lineup, job)?)?;
    }
    Ok(Items::new(jobs))
}
