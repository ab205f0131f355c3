//! The jobs that a fault of the graph is about.

ghost use Rattle.std.specs.Prelude.{◌≡◌, ◌++◌, IfOk, OnOk, map};
ghost use Rattle.ci_graph_layout.specs.Prelude.{need_view, pairs, IsPlaced, stages_of, jobs_of, included_view};
ghost use Rattle.ci_graph_layout.specs.declared.fault.GraphCode.TheVariants.{G3};
ghost use Rattle.ci_machine.specs.Prelude.{HasCycle};
ghost use Rattle.ci_plan.specs.Planned.{names};
ghost use Rattle.ci_plan.specs.Faults.{named_need, unmet_of, unmet, later_of, later, many, code_of, IsAbout, IsCircleOf};

use crate::circles::circle;
use crate::planned::names_at;
use crate::records::{Fault, NamedNeed};
use ci_config::Need;
use ci_graph_layout::{GraphCode, IncludedJob, Lineup};
use ci_machine::text::{Text, Texts};
use ci_values::items::Items;
use std::alloc::{AllocError, Global};

fn named_need(alloc: Global, job: &IncludedJob, need: &Need) -> Result<NamedNeed, AllocError>
    ensures { IfOk result (λ n. n ≡ named_need (included_view job.now) (need_view need.now)) }
{
    Ok(NamedNeed {
        job: Text::copy_of(alloc, job.job.name)?,
        need: Text::copy_of(alloc, need.job)?,
    })
}

/// Puts the unmet needs of a job behind those that are there.
fn put_unmet(
    alloc: Global,
    lineup: &Lineup,
    job: &IncludedJob,
    found: &mut Vec<NamedNeed>,
) -> Result<(), AllocError>
    requires { IsPlaced lineup.now }
    ensures { OnOk result (found.new.items ≡ found.old.items ++ unmet_of (jobs_of lineup.now) (included_view job.now)) }
{
    for need in job.needs() {
        if lineup.is_unmet(need) {
            found.push(named_need(alloc, job, need)?)?;
        }
    }
    Ok(())
}

/// The needs that aren't optional and name no job of the pipeline.
fn unmet(alloc: Global, lineup: &Lineup) -> Result<Items<NamedNeed>, AllocError>
    requires { IsPlaced lineup.now }
    ensures { IfOk result (λ ns. ns ≡ unmet (jobs_of lineup.now)) }
{
    let mut found = Vec::new(alloc);
    for job in &lineup.jobs {
        put_unmet(alloc, lineup, job, &mut found)?;
    }
    Ok(Items::new(found))
}

/// Puts a job's needs of later stages behind those that are there.
fn put_later(
    alloc: Global,
    lineup: &Lineup,
    job: &IncludedJob,
    found: &mut Vec<NamedNeed>,
) -> Result<(), AllocError>
    requires { IsPlaced lineup.now }
    ensures { OnOk result (found.new.items ≡ found.old.items ++ later_of (stages_of lineup.now) (jobs_of lineup.now) (included_view job.now)) }
{
    let own = lineup.rank_of(job);
    for need in job.needs() {
        if lineup.names_later(own, need) {
            found.push(named_need(alloc, job, need)?)?;
        }
    }
    Ok(())
}

/// The needs that name a job of a later stage.
fn later(alloc: Global, lineup: &Lineup) -> Result<Items<NamedNeed>, AllocError>
    requires { IsPlaced lineup.now }
    ensures { IfOk result (λ ns. ns ≡ later (stages_of lineup.now) (jobs_of lineup.now)) }
{
    let mut found = Vec::new(alloc);
    for job in &lineup.jobs {
        put_later(alloc, lineup, job, &mut found)?;
    }
    Ok(Items::new(found))
}

/// The names of all jobs of the pipeline.
fn names(alloc: Global, jobs: &[IncludedJob]) -> Result<Texts, AllocError>
    ensures { IfOk result (λ ns. ns ≡ names (map included_view jobs.now)) }
{
    let mut found = Vec::new(alloc);
    for job in jobs {
        found.push(Text::copy_of(alloc, job.job.name)?)?;
    }
    Ok(Items::new(found))
}

/// The names of the jobs that give too many needs.
fn many(alloc: Global, jobs: &[IncludedJob]) -> Result<Texts, AllocError>
    ensures { IfOk result (λ ns. ns ≡ many (map included_view jobs.now)) }
{
    let mut found = Vec::new(alloc);
    for job in jobs {
        if job.needs_many() {
            found.push(Text::copy_of(alloc, job.job.name)?)?;
        }
    }
    Ok(Items::new(found))
}

/// The names of jobs that wait for one another in a circle, where some do.
fn circle_of(alloc: Global, lineup: &Lineup) -> Result<Texts, AllocError>
    requires placed { IsPlaced lineup.now }
    requires some { HasCycle (pairs (stages_of lineup.now) (jobs_of lineup.now)) }
    ensures { IfOk result (λ ns. IsCircleOf (stages_of lineup.now) (jobs_of lineup.now) ns) }
{
    let pairs = lineup.pairs(alloc)?;
    let places = circle(alloc, lineup.jobs.len(), &pairs)?;
    names_at(alloc, &lineup.jobs, &places)
}

/// The fault with this code, with the jobs that it is about.
pub(crate) fn fault_of(alloc: Global, lineup: &Lineup, code: GraphCode) -> Result<Fault, AllocError>
    requires placed { IsPlaced lineup.now }
    requires circle { code ≡ G3 → HasCycle (pairs (stages_of lineup.now) (jobs_of lineup.now)) }
    ensures code { IfOk result (λ f. code_of f ≡ code) }
    ensures about { IfOk result (IsAbout (stages_of lineup.now) (jobs_of lineup.now)) }
{
    Ok(match code {
        GraphCode::G1 => Fault::Unmet(unmet(alloc, lineup)?),
        GraphCode::G2 => Fault::Later(later(alloc, lineup)?),
        GraphCode::G3 => Fault::Circle(circle_of(alloc, lineup)?),
        GraphCode::G4 => Fault::NoWork(names(alloc, &lineup.jobs)?),
        GraphCode::G5 => Fault::ManyNeeds(many(alloc, &lineup.jobs)?),
    })
}
