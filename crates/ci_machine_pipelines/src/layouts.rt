//! What a project's file lays out where a pipeline is to be made of it.

ghost use Rattle.std.specs.Prelude.{◌≡◌, ◌+◌, ◌≤◌, ℕ, List, Ok, IfOk, IfSome, length, map};
ghost use Rattle.std.specs.Fmt.{decimal};
ghost use Rattle.std.specs.Ordering.{nat_cmp};
ghost use Rattle.std.specs.List.Sorted.{IsStrictlySortedBy};
ghost use Rattle.ci_config.specs.Prelude.{value_view};
ghost use Rattle.ci_yaml.specs.Prelude.{HasTree};
ghost use Rattle.ci_graph_layout.specs.Prelude.{config_view, AreAnswered, plan_view, all_looks, given_view};
ghost use Rattle.ci_machine.specs.Prelude.{AreWithin};
ghost use Rattle.ci_machine_steps.specs.Prelude.{IsRead, IsLaidOut};
ghost use Rattle.ci_machine_steps.specs.Pipelines as pipelines;
ghost use Rattle.ci_machine_pipelines.specs.Creations.{layout_view, origin, origin_view, plan_fault, LaysOut};

use crate::creation::{Creation, records_of};
use crate::files::{FileFault, config_fault, yaml_fault};
use crate::layers::Brought;
use ci_config::Config;
use ci_config::laws::may_refuse_patterns;
use ci_config_reader::config;
use ci_expr::Answers;
use ci_graph_layout::laws::searches_for_patterns_alone;
use ci_graph_layout::{Given, GraphCode, PipelinePlan, PlanFault, is_affordable, looks, plan_by};
use ci_machine::moment::Moment;
use ci_machine::records::{MAX_NUMBER, Variable};
use ci_machine::reply::{Detail, FaultCode};
use ci_machine::request::NewPipeline;
use ci_machine::text::Text;
use ci_yaml::{Tree, read};
use std::alloc::{AllocError, Global};

/// What a pipeline is made with, beside its file.
#[derive(Clone, Copy)]
pub(crate) struct Start<'a> {
    /// What was asked for.
    pub(crate) asked: &'a NewPipeline,
    /// The variables that it brings.
    pub(crate) given: Given<'a>,
    /// Its number.
    pub(crate) id: u64,
    /// The number of its first job.
    pub(crate) first_job: u64,
    pub(crate) moment: Moment,
}

/// A fault of the graph: `G3`.
fn graph_detail(code: GraphCode) -> Detail
    ensures { result ≡ pipelines.graph_fault code }
{
    match code {
        GraphCode::G1 => Detail::Code(FaultCode::G(1)),
        GraphCode::G2 => Detail::Code(FaultCode::G(2)),
        GraphCode::G3 => Detail::Code(FaultCode::G(3)),
        GraphCode::G4 => Detail::Code(FaultCode::G(4)),
        GraphCode::G5 => Detail::Code(FaultCode::G(5)),
    }
}

/// Why a plan isn't made.
fn plan_fault(fault: PlanFault) -> FileFault
    ensures { result ≡ plan_fault fault }
{
    match fault {
        PlanFault::Fault(code) => FileFault::Fault(graph_detail(code)),
        PlanFault::Pattern => {
            FileFault::Fault(Detail::Expression(FaultCode::K(13), FaultCode::X(8)))
        }
        PlanFault::Memory => FileFault::Memory,
    }
}

/// The records of what is planned.
fn lay_out_plan<'a, 't>(
    alloc: Global,
    config: &'a Config<'t>,
    given: &Given<'a>,
    plan: &PipelinePlan<'a, 't>,
    start: &Start,
) -> Result<Option<Creation>, FileFault>
    requires given { given_view given.now ≡ given_view start.now.given }
    requires within { AreWithin (length (plan_view plan.now).jobs) (plan_view plan.now).pairs }
    ensures { (text : List ℕ) → IsLaidOut text (given_view start.now.given) (Ok (layout_view config.now plan.now)) → LaysOut text (origin_view start.now) result }
{
    let made = records_of(alloc, config, given, plan, start)?;
    Ok(made)
}

/// The records of what a file configures.
fn lay_out_config<'a, 't>(
    alloc: Global,
    config: &'a Config<'t>,
    given: &Given<'a>,
    answers: &Answers,
    start: &Start,
) -> Result<Option<Creation>, FileFault>
    requires given { given_view given.now ≡ given_view start.now.given }
    requires answered { AreAnswered answers.now (all_looks (given_view given.now) config.now) }
    ensures { (text : List ℕ) → IsRead text (Ok (config_view config.now)) → LaysOut text (origin_view start.now) result }
{
    may_refuse_patterns();
    match plan_by(alloc, given, config, answers) {
        Ok(plan) => lay_out_plan(alloc, config, given, &plan, start),
        Err(fault) => Err(plan_fault(fault)),
    }
}

/// The records of what the tree of a file configures.
fn lay_out_tree(alloc: Global, tree: &Tree, start: &Start) -> Result<Option<Creation>, FileFault>
    ensures { (text : List ℕ) → HasTree text (value_view tree.now) → LaysOut text (origin_view start.now) result }
{
    may_refuse_patterns();
    searches_for_patterns_alone();
    match config(alloc, tree) {
        Ok(config) => {
            let given = Given {
                pipeline: start.given.pipeline,
                project: start.given.project,
                predefined: start.given.predefined,
            };
            let looks = looks(alloc, &given, &config)?;
            if !is_affordable(&looks) {
                return Err(plan_fault(PlanFault::Pattern));
            }
            match Answers::of(alloc, &looks) {
                Ok(answers) => lay_out_config(alloc, &config, &given, &answers, start),
                Err(refused) => Err(plan_fault(PlanFault::from(refused))),
            }
        }
        Err(fault) => Err(config_fault(alloc, fault)),
    }
}

/// The records of what a text configures.
fn lay_out_text(alloc: Global, text: &str, start: &Start) -> Result<Option<Creation>, FileFault>
    ensures { LaysOut text.now (origin_view start.now) result }
{
    match read(alloc, text) {
        Ok(tree) => lay_out_tree(alloc, &tree, start),
        Err(fault) => Err(yaml_fault(fault)),
    }
}

/// A number as a text.
fn number_text(alloc: Global, number: u64) -> Result<Text, AllocError>
    ensures { IfOk result (λ t. t ≡ decimal number) }
{
    Ok(Text::new(format!(in alloc; "{number}")?))
}

/// The records of a pipeline that is made of this text, with these next numbers: none where a number is over the limit (M15). Its
/// project has these variables.
///
/// Errors: memory was refused; or the first fault of the text: of its lines (Y), of its keywords (K), where an expression with a
/// pattern may always be refused (`K13 X8`); then that what its rules look for, each look once, costs no more than `MAX_SEARCH_COST`, and else
/// `K13 X8`, as where a pattern that was built before isn't built again; and then of the graph of its jobs (G).
pub fn lay_out(
    alloc: Global,
    text: &str,
    variables: &[Variable],
    asked: &NewPipeline,
    id: u64,
    first_job: u64,
    moment: Moment,
) -> Result<Option<Creation>, FileFault>
    ensures records { LaysOut text.now (origin id first_job asked.now variables.now moment) result }
    // The numbers are within the limit.
    ensures pipeline { IfOk result (λ made. IfSome made (λ c. c.pipeline.id ≤ MAX_NUMBER)) }
    ensures jobs { IfOk result (λ made. IfSome made (λ c. first_job + length c.jobs.items ≤ MAX_NUMBER + 1)) }
    // The jobs stand by their numbers.
    ensures ascend { IfOk result (λ made. IfSome made (λ c. IsStrictlySortedBy nat_cmp (map (λ j. j.id) c.jobs.items))) }
{
    let number = number_text(alloc, asked.project)?;
    let brought = Brought::new(alloc, asked, variables, number.as_str())?;
    let start = Start {
        asked,
        given: brought.given(),
        id,
        first_job,
        moment,
    };
    lay_out_text(alloc, text, &start)
}
