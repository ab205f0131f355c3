//! What a pipeline would be, of what a file configures.

ghost use Rattle.std.specs.Prelude.{◌≡◌};
ghost use Rattle.ci_graph_layout.specs.Prelude.{AreAnswered, config_view, all_looks, given_view, IsPlaced, IsLineup, stages_of, jobs_of};
ghost use Rattle.ci_graph_layout.specs.Prelude as layout;
ghost use Rattle.ci_plan.specs.Said.{Gives, GivesJobs};

use crate::faults::fault_of;
use crate::left_out::left_out;
use crate::planned::planned_jobs;
use crate::records::{Fault, Plan, PlannedJob};
use ci_config::Config;
use ci_expr::Answers;
use ci_graph_layout::laws::searches_for_patterns_alone;
use ci_graph_layout::{Given, Lineup, PlanFault, is_affordable, looks};
use ci_values::items::Items;
use std::alloc::Global;

/// What is told of the jobs: each of them, or why there is no pipeline.
fn told_jobs(alloc: Global, lineup: &Lineup) -> Result<Result<Items<PlannedJob>, Fault>, PlanFault>
    requires { IsPlaced lineup.now }
    ensures { GivesJobs (stages_of lineup.now) (jobs_of lineup.now) result }
{
    match lineup.ordered(alloc) {
        Ok(_) => {
            let jobs = planned_jobs(alloc, lineup)?;
            Ok(Ok(jobs))
        }
        Err(PlanFault::Fault(code)) => {
            let fault = fault_of(alloc, lineup, code)?;
            Ok(Err(fault))
        }
        Err(PlanFault::Pattern) => Err(PlanFault::Pattern),
        Err(PlanFault::Memory) => Err(PlanFault::Memory),
    }
}

/// The same as `plan`, of the jobs that the file includes.
fn plan_of(alloc: Global, lineup: &Lineup) -> Result<Plan, PlanFault>
    requires { IsPlaced lineup.now }
    ensures { (g : layout.Given) (c : layout.Config) → IsLineup g c lineup.now → Gives g c result }
{
    let jobs = told_jobs(alloc, lineup)?;
    let left_out = left_out(alloc, &lineup.decided)?;
    Ok(Plan { jobs, left_out })
}

/// The same as `plan`, where what the rules look for was looked for before.
fn plan_with<'a, 't>(
    alloc: Global,
    given: &Given<'a>,
    config: &'a Config<'t>,
    answers: &Answers,
) -> Result<Plan, PlanFault>
    requires { AreAnswered answers.now (all_looks (given_view given.now) config.now) }
    ensures { Gives (given_view given.now) (config_view config.now) result }
{
    let lineup = Lineup::new(alloc, given, config, answers)?;
    plan_of(alloc, &lineup)
}

/// What a pipeline would be that brings these variables to what a file configures. What its rules look for is looked for once, where that
/// costs no more than a pipeline may cost.
///
/// Errors: memory was refused; or a pattern (`PlanFault::Pattern`), since deciding the rules costs too much, or `regex` refuses one that it has
/// built before.
pub fn plan<'a, 't>(
    alloc: Global,
    given: &Given<'a>,
    config: &'a Config<'t>,
) -> Result<Plan, PlanFault>
    ensures { Gives (given_view given.now) (config_view config.now) result }
{
    searches_for_patterns_alone();
    let looks = looks(alloc, given, config)?;
    if !is_affordable(&looks) {
        return Err(PlanFault::Pattern);
    }
    let answers = Answers::of(alloc, &looks)?;
    plan_with(alloc, given, config, &answers)
}
