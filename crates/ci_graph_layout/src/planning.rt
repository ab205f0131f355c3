//! A pipeline's jobs, and which of them waits for which.

ghost use Rattle.std.specs.Prelude.{IfOk};
ghost use Rattle.ci_config.specs.Prelude.{AreAnswered, config_view};
ghost use Rattle.ci_graph_layout.specs.Parts.{CanBeGraph};
ghost use Rattle.ci_graph_layout.specs.Places.{IsPlaced, stages_of, jobs_of};
ghost use Rattle.ci_graph_layout.specs.Plans.{Gives, Orders, plan_view};
ghost use Rattle.ci_graph_layout.specs.Searches.{all_looks};
ghost use Rattle.ci_graph_layout.specs.View.{given_view};

use crate::fault::{GraphCode, PlanFault};
use crate::given::Given;
use crate::inclusion::IncludedJob;
use crate::laws::searches_for_patterns_alone;
use crate::pairs::Pairs;
use crate::places::Lineup;
use crate::searches::looks;
use ci_config::Config;
use ci_expr::Answers;
use ci_graph::acyclic::are_acyclic;
use std::alloc::Global;

/// A pipeline's jobs, stage by stage and in each stage by the file, and the pairs of a predecessor's position and that of the
/// job that waits for it.
#[derive(Drop)]
pub struct PipelinePlan<'a, 't> {
    pub jobs: Vec<IncludedJob<'a, 't>>,
    pub pairs: Pairs,
}

impl<'a, 't> Lineup<'a, 't> {
    /// The pairs of the jobs, where they make a pipeline. Errors: memory was refused, or the first fault, as of `plan`.
    pub fn ordered(&self, alloc: Global) -> Result<Pairs, PlanFault>
        requires { IsPlaced self.now }
        ensures orders { Orders (stages_of self.now) (jobs_of self.now) result }
        ensures graph { IfOk result (λ found. CanBeGraph (record { jobs = jobs_of self.now; pairs = found.items })) }
    {
        if let Some(code) = self.first_fault() {
            return Err(PlanFault::Fault(code));
        }
        let pairs = self.pairs(alloc)?;
        if !are_acyclic(alloc, self.jobs.len(), &pairs)? {
            return Err(PlanFault::Fault(GraphCode::G3));
        }
        Ok(pairs)
    }
}

/// The plan of a pipeline: the jobs that a file includes where these variables are given, and which of them waits for which. What its rules
/// look for is looked for once, each pattern built once.
///
/// Errors: memory was refused; or `regex`, which has built each pattern before, now refuses one; or the first fault: no job is included, or
/// all are in `.pre` and `.post` (G4); one gives more than 50 needs (G5); a need that isn't optional names no included job (G1); a need names
/// one of a later stage (G2); jobs wait for one another in a circle (G3).
pub fn plan<'a, 't>(
    alloc: Global,
    given: &Given<'a>,
    config: &'a Config<'t>,
) -> Result<PipelinePlan<'a, 't>, PlanFault>
    ensures plan { Gives (given_view given.now) (config_view config.now) result }
    ensures graph { IfOk result (λ p. CanBeGraph (plan_view p)) }
{
    searches_for_patterns_alone();
    let looks = looks(alloc, given, config)?;
    let answers = Answers::of(alloc, &looks)?;
    plan_by(alloc, given, config, &answers)
}

/// The same, where what the rules look for was looked for before.
pub fn plan_by<'a, 't>(
    alloc: Global,
    given: &Given<'a>,
    config: &'a Config<'t>,
    answers: &Answers,
) -> Result<PipelinePlan<'a, 't>, PlanFault>
    requires { AreAnswered answers.now (all_looks (given_view given.now) config.now) }
    ensures plan { Gives (given_view given.now) (config_view config.now) result }
    ensures graph { IfOk result (λ p. CanBeGraph (plan_view p)) }
{
    let lineup = Lineup::new(alloc, given, config, answers)?;
    let pairs = lineup.ordered(alloc)?;
    let Lineup { jobs, .. } = lineup;
    Ok(PipelinePlan { jobs, pairs })
}
