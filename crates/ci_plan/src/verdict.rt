//! What is said of bytes before a pipeline is made of them.

ghost use Rattle.std.specs.Prelude.{◌≡◌, ℕ, List, [], IfOk, OnErr};
ghost use Rattle.ci_config.specs.Prelude.{value_view, Y1};
ghost use Rattle.ci_yaml.specs.Prelude.{HasTree};
ghost use Rattle.ci_graph_layout.specs.Prelude.{given_view};
ghost use Rattle.ci_machine_steps.specs.Prelude.{given_by};
ghost use Rattle.ci_yaml.specs.declared.fault.YamlFault.TheVariants.{Fault};
ghost use Rattle.ci_explain.specs.Verdicts.{IsTooLong};
ghost use Rattle.ci_explain.specs.declared.check.verdict.Verdict.TheVariants as check;
ghost use Rattle.ci_plan.specs.declared.verdict.Outcome.TheVariants.{Refused};
ghost use Rattle.ci_plan.specs.Said.{Says, SaysText, refusal, status};

use crate::notes::notes;
use crate::planning::plan;
use crate::records::{Note, Plan};
use ci_config::laws::may_refuse_patterns;
use ci_config::{ConfigCode, ConfigFault};
use ci_config_reader::config;
use ci_explain::check::Verdict;
use ci_expr::ExprCode;
use ci_graph_layout::{Given, PlanFault};
use ci_machine::request::NewPipeline;
use ci_machine_pipelines::layers::Brought;
use ci_values::items::Items;
use ci_values::limits::MAX_FILE_BYTES;
use ci_yaml::{Code, Tree, YamlFault, read};
use std::alloc::Global;
use std::io;

/// What is said of a file.
#[derive(Drop)]
pub enum Outcome {
    /// What a pipeline would be, and what is to be noted of the file's rules.
    Planned(Plan, Items<Note>),
    /// The file is refused, as `ciserver check` says it; or it can't be read.
    Refused(Verdict),
}

impl Outcome {
    /// The program's exit status where this is printed.
    pub fn status(&self) -> u8
        ensures { result ≡ status self.now }
    {
        match self {
            Outcome::Planned(plan, _) => match &plan.jobs {
                Ok(_) => 0,
                Err(_) => 1,
            },
            Outcome::Refused(verdict) => verdict.status(),
        }
    }
}

/// The program's exit status: that of what was printed, or 3 where it could not be printed.
pub fn exit_status(printed: &io::Result<Outcome>) -> u8
    ensures printed { IfOk printed.now (λ outcome. result ≡ status outcome) }
    ensures unprinted { OnErr printed.now (result ≡ 3) }
{
    match printed {
        Ok(outcome) => outcome.status(),
        Err(_) => 3,
    }
}

/// What is said where no plan is made.
fn refusal(fault: PlanFault) -> Verdict
    ensures { result ≡ refusal fault }
{
    match fault {
        PlanFault::Memory | PlanFault::Fault(_) => Verdict::Refused(YamlFault::Memory),
        PlanFault::Pattern => {
            Verdict::Misconfigured(ConfigFault::Fault(ConfigCode::K13(ExprCode::X8)))
        }
    }
}

/// What is said of a tree.
fn outcome_of_tree(alloc: Global, tree: &Tree, given: &Given<'_>) -> Outcome
    ensures { (bytes : List ℕ) → HasTree bytes (value_view tree.now) → SaysText bytes (given_view given.now) result }
{
    may_refuse_patterns();
    match config(alloc, tree) {
        Ok(config) => {
            let given = Given {
                pipeline: given.pipeline,
                project: given.project,
                predefined: given.predefined,
            };
            match plan(alloc, &given, &config) {
                Ok(plan) => match notes(alloc, tree, &given, &config) {
                    Ok(notes) => Outcome::Planned(plan, notes),
                    Err(_) => Outcome::Refused(Verdict::Refused(YamlFault::Memory)),
                },
                Err(fault) => Outcome::Refused(refusal(fault)),
            }
        }
        Err(fault) => Outcome::Refused(Verdict::Misconfigured(fault)),
    }
}

/// What is said of a text.
fn outcome_of_text(alloc: Global, text: &str, given: &Given<'_>) -> Outcome
    ensures { SaysText text.now (given_view given.now) result }
{
    match read(alloc, text) {
        Ok(tree) => outcome_of_tree(alloc, &tree, given),
        Err(fault) => Outcome::Refused(Verdict::Refused(fault)),
    }
}

/// What is said of a text where this pipeline is asked for.
fn judge_text(alloc: Global, text: &str, asked: &NewPipeline) -> Outcome
    ensures { SaysText text.now (given_by asked.now []) result }
{
    let project = asked.project;
    let Ok(number) = format!(in alloc; "{project}") else {
        return Outcome::Refused(Verdict::Refused(YamlFault::Memory));
    };
    match Brought::new(alloc, asked, &[], number.as_str()) {
        Ok(brought) => outcome_of_text(alloc, text, &brought.given()),
        Err(_) => Outcome::Refused(Verdict::Refused(YamlFault::Memory)),
    }
}

/// What is said of the bytes of a file where this pipeline is asked for, of a project that has no variables.
pub fn outcome_of(alloc: Global, bytes: &[u8], asked: &NewPipeline) -> Outcome
    ensures says { Says bytes.now asked.now result }
    ensures too_long { IsTooLong bytes.now → result ≡ Refused (check.Refused (Fault Y1 1)) }
{
    if MAX_FILE_BYTES < bytes.len() {
        return Outcome::Refused(Verdict::Refused(YamlFault::Fault(Code::Y1, 1)));
    }
    let Ok(text) = str::from_utf8(bytes) else {
        return Outcome::Refused(Verdict::NotText);
    };
    judge_text(alloc, text, asked)
}
