//! What a file plans, and with which statuses its jobs begin.

use crate::begun::begun;
use crate::lists::{first_text, variables};
use crate::rows::{Part, RowFault};
use ci_config::{ConfigCode, ConfigFault};
use ci_config_reader::config;
use ci_expr::ExprCode;
use ci_graph_layout::{
    Given, GraphCode, IncludedJob, PipelinePlan, PlanFault, is_affordable, looks, plan,
};
use ci_values::when::{AllowFailure, When};
use ci_yaml::{YamlFault, read};
use std::alloc::{AllocError, Global};

fn code_text(code: GraphCode) -> &'static str {
    match code {
        GraphCode::G1 => "G1",
        GraphCode::G2 => "G2",
        GraphCode::G3 => "G3",
        GraphCode::G4 => "G4",
        GraphCode::G5 => "G5",
    }
}

fn when_text(when: When) -> &'static str {
    match when {
        When::OnSuccess => "",
        When::OnFailure => " on_failure",
        When::Always => " always",
        When::Manual => " manual",
    }
}

fn allow_text(allow_failure: &AllowFailure) -> &'static str {
    match allow_failure {
        AllowFailure::No => "",
        AllowFailure::Yes => " may fail",
        AllowFailure::ExitCodes(_) => " may exit",
    }
}

/// Puts a job behind a text: its name, when it runs, whether it may fail, and its variables.
fn put_job(text: &mut String, job: &IncludedJob) -> Result<(), AllocError> {
    let name = job.job.name;
    let when = when_text(job.when);
    let allow = allow_text(&job.allow_failure);
    write!(text, "{name}{when}{allow}")?;
    for (key, value) in &job.variables {
        write!(text, " {key}={value}")?;
    }
    text.push_str(";")
}

/// The jobs of a plan, and who waits for whom.
fn plan_text(alloc: Global, plan: &PipelinePlan) -> Result<String, AllocError> {
    let mut text = String::new(alloc);
    for job in &plan.jobs {
        put_job(&mut text, job)?;
    }
    for (first, second) in &plan.pairs {
        write!(text, " {first}-{second}")?;
    }
    Ok(text)
}

/// What is told of a plan.
#[derive(Clone, Copy, Drop)]
enum Tell {
    /// Its jobs, and who waits for whom.
    Plan,
    /// The statuses with which they begin.
    Statuses,
}

/// What is told of a file's text where a pipeline brings these variables: as where one is made, the rules mayn't cost more to decide than
/// they may.
fn told(alloc: Global, tell: Tell, parts: &[Part]) -> Result<String, RowFault> {
    let (text, others) = first_text(parts)?;
    let pipeline = variables(alloc, others)?;
    let tree = match read(alloc, text) {
        Ok(tree) => tree,
        Err(YamlFault::Memory) => return Err(RowFault::Memory),
        Err(fault) => return Ok(format!(in alloc; "{fault}")?),
    };
    let config = match config(alloc, &tree) {
        Ok(config) => config,
        Err(ConfigFault::Memory) => return Err(RowFault::Memory),
        Err(ConfigFault::Fault(code)) => return Ok(format!(in alloc; "{code}")?),
    };
    let given = Given {
        pipeline: &pipeline,
        project: &[],
        predefined: &[("CI", "true")],
    };
    if !is_affordable(&looks(alloc, &given, &config)?) {
        let code = ConfigCode::K13(ExprCode::X8);
        return Ok(format!(in alloc; "{code}")?);
    }
    match plan(alloc, &given, &config) {
        Ok(plan) => match tell {
            Tell::Plan => Ok(plan_text(alloc, &plan)?),
            Tell::Statuses => Ok(begun(alloc, &plan)?),
        },
        Err(PlanFault::Pattern) => Ok(String::from_str(alloc, "K13 X8")?),
        Err(PlanFault::Memory) => Err(RowFault::Memory),
        Err(PlanFault::Fault(code)) => Ok(String::from_str(alloc, code_text(code))?),
    }
}

/// The plan of a file, or the code of its fault.
pub fn plan_of(alloc: Global, parts: &[Part]) -> Result<String, RowFault> {
    told(alloc, Tell::Plan, parts)
}

/// The statuses with which the jobs of a file begin, and that of their pipeline.
pub fn statuses_of(alloc: Global, parts: &[Part]) -> Result<String, RowFault> {
    told(alloc, Tell::Statuses, parts)
}
