//! Which jobs of a file a pipeline has.

ghost use Rattle.std.specs.Prelude.{◌≡◌, ◌++◌, IfOk, OnOk, map, filter, flat_map, not, option_map, unwrap_or};
ghost use Rattle.ci_config.specs.Prelude.{AreAnswered, values_of, formula_of, layer_view, config_view, job_view, rule_view, variable_view};
ghost use Rattle.ci_graph_layout.specs.Inclusion.{layered, holds, deciding, decision, decided, names, joined, may_fail, allowing, without_rules, by_rule, ruled, by_rules};
ghost use Rattle.ci_graph_layout.specs.Searches.{condition_looks, rule_looks, job_looks};
ghost use Rattle.ci_graph_layout.specs.View.{given_view, decision_view, decided_view, included_view};

use crate::given::{Given, Variables, layered, pair_of, put_variables, seen};
use ci_config::{Config, JobSpec, Rule, RuleWhen, Variable};
use ci_expr::{Answers, Env, Expr};
use ci_values::when::{AllowFailure, When};
use std::alloc::{AllocError, Global};

/// What decides whether a pipeline has a job.
#[derive(Clone, Copy)]
pub enum Decision<'a, 't> {
    /// It has no rules.
    NoRules,
    /// The first of its rules that matches, with its number, from 1.
    ByRule(usize, &'a Rule<'t>),
    NoneMatches,
}

/// A job of the file, and what decides whether the pipeline has it.
#[derive(Clone, Copy)]
pub struct Decided<'a, 't> {
    pub job: &'a JobSpec<'t>,
    pub decision: Decision<'a, 't>,
}

/// A job of a pipeline.
#[derive(Drop)]
pub struct IncludedJob<'a, 't> {
    /// What the file says of it.
    pub job: &'a JobSpec<'t>,
    /// The number of the rule that included it, from 1. A job without rules has none.
    pub rule: Option<usize>,
    pub when: When,
    pub allow_failure: AllowFailure,
    /// Those of the rule that included it, and then its own that the rule doesn't give.
    pub variables: Variables<'a>,
}

impl<'a, 't> IncludedJob<'a, 't> {
    /// Its variables of all layers, the highest layer first: those of the pipeline, of the project, its own, those of the file, its
    /// name and stage, and the predefined ones. Of two pairs with one name the first counts.
    pub fn layers(
        &self,
        alloc: Global,
        given: &Given<'a>,
        config: &'a Config<'t>,
    ) -> Result<Variables<'a>, AllocError>
        ensures { IfOk result (λ pairs. layer_view pairs.items ≡ layered (given_view given.now) (config_view config.now) (included_view self.now).job (included_view self.now).variables) }
    {
        layered(alloc, given, config, self.job, &self.variables)
    }
}

/// Whether a condition holds. A rule without one always matches.
fn holds(condition: &Option<Expr>, env: &Env, answers: &Answers) -> bool
    requires { AreAnswered answers.now (condition_looks (values_of env.now) condition.now) }
    ensures { result ≡ holds (values_of env.now) (option_map formula_of condition.now) }
{
    match condition {
        Some(expr) => expr.value_by(env, answers),
        None => true,
    }
}

/// The first rule that matches.
fn deciding<'a, 't>(env: &Env, answers: &Answers, rules: &'a [Rule<'t>]) -> Decision<'a, 't>
    requires { AreAnswered answers.now (flat_map (rule_looks (values_of env.now)) rules.now) }
    ensures { decision_view result ≡ deciding 1 (values_of env.now) (map rule_view rules.now) }
{
    for (i, rule) in rules.iter().enumerate() {
        if holds(&rule.condition, env, answers) {
            return Decision::ByRule(i + 1, rule);
        }
    }
    Decision::NoneMatches
}

/// What decides whether the pipeline has a job.
fn decide<'a, 't>(
    alloc: Global,
    given: &Given<'a>,
    config: &'a Config<'t>,
    job: &'a JobSpec<'t>,
    answers: &Answers,
) -> Result<Decision<'a, 't>, AllocError>
    requires { AreAnswered answers.now (job_looks (given_view given.now) config.now job.now) }
    ensures { IfOk result (λ d. decision_view d ≡ decision (given_view given.now) (config_view config.now) (job_view job.now)) }
{
    match &job.rules {
        None => Ok(Decision::NoRules),
        Some(rules) => {
            let pairs = seen(alloc, given, config, job)?;
            Ok(deciding(&Env { pairs: &pairs }, answers, rules))
        }
    }
}

/// Each job of the file, in its order, and what decides whether the pipeline has it. What the rules look for was looked for before.
pub(crate) fn decide_all<'a, 't>(
    alloc: Global,
    given: &Given<'a>,
    config: &'a Config<'t>,
    answers: &Answers,
) -> Result<Vec<Decided<'a, 't>>, AllocError>
    requires { AreAnswered answers.now (flat_map (job_looks (given_view given.now) config.now) config.now.jobs.items) }
    ensures { IfOk result (λ ds. map decided_view ds.items ≡ decided (given_view given.now) (config_view config.now)) }
{
    let mut found = Vec::new(alloc);
    for job in &config.jobs {
        let decision = decide(alloc, given, config, job, answers)?;
        found.push(Decided { job, decision })?;
    }
    Ok(found)
}

/// Do the pairs have the name?
fn names(pairs: &[(&str, &str)], name: &str) -> bool
    ensures { result ≡ names (layer_view pairs.now) name.now }
{
    for pair in pairs {
        if pair.0 == name {
            return true;
        }
    }
    false
}

/// Puts those variables behind a rule's that the rule doesn't give.
fn put_others<'a, 't>(
    pairs: &mut Variables<'a>,
    given: &[(&str, &str)],
    own: &'a [Variable<'t>],
) -> Result<(), AllocError>
    ensures { OnOk result (layer_view pairs.new.items ≡ layer_view pairs.old.items ++ filter (λ v. not (names (layer_view given.now) v.0)) (map variable_view own.now)) }
{
    for variable in own {
        if !names(given, variable.name) {
            pairs.push(pair_of(variable))?;
        }
    }
    Ok(())
}

/// A rule's variables, and those of the job that it doesn't give.
fn joined<'a, 't>(
    alloc: Global,
    given: &'a [Variable<'t>],
    own: &'a [Variable<'t>],
) -> Result<Variables<'a>, AllocError>
    ensures { IfOk result (λ pairs. layer_view pairs.items ≡ joined (map variable_view given.now) (map variable_view own.now)) }
{
    let mut of_rule = Vec::new(alloc);
    put_variables(&mut of_rule, given)?;
    let mut pairs = of_rule.clone()?;
    put_others(&mut pairs, &of_rule, own)?;
    Ok(pairs)
}

/// Whether a job without rules may fail, where the file doesn't say it: one that is started by hand may.
fn may_fail(when: When) -> AllowFailure
    ensures { result ≡ may_fail when }
{
    match when {
        When::Manual => AllowFailure::Yes,
        When::OnSuccess | When::OnFailure | When::Always => AllowFailure::No,
    }
}

fn allowing(allowed: bool) -> AllowFailure
    ensures { result ≡ allowing allowed }
{
    if allowed {
        AllowFailure::Yes
    } else {
        AllowFailure::No
    }
}

/// What a job says, or else this.
fn own_or(own: &Option<AllowFailure>, other: AllowFailure) -> Result<AllowFailure, AllocError>
    ensures { IfOk result (λ a. a ≡ unwrap_or own.now other) }
{
    match own {
        Some(own) => own.clone(),
        None => Ok(other),
    }
}

/// A job without rules.
fn without_rules<'a, 't>(
    alloc: Global,
    job: &'a JobSpec<'t>,
) -> Result<IncludedJob<'a, 't>, AllocError>
    ensures { IfOk result (λ i. included_view i ≡ without_rules (job_view job.now)) }
{
    let when = job.when.unwrap_or(When::OnSuccess);
    let allow_failure = own_or(&job.allow_failure, may_fail(when))?;
    let mut variables = Vec::new(alloc);
    put_variables(&mut variables, &job.variables)?;
    Ok(IncludedJob {
        job,
        rule: None,
        when,
        allow_failure,
        variables,
    })
}

/// A job as the rule with this number says, which includes it.
fn by_rule<'a, 't>(
    alloc: Global,
    job: &'a JobSpec<'t>,
    number: usize,
    rule: &'a Rule<'t>,
    when: When,
) -> Result<IncludedJob<'a, 't>, AllocError>
    ensures { IfOk result (λ i. included_view i ≡ by_rule (job_view job.now) number (rule_view rule.now) when) }
{
    let allow_failure = match rule.allow_failure {
        Some(allowed) => allowing(allowed),
        None => own_or(&job.allow_failure, AllowFailure::No)?,
    };
    let variables = joined(alloc, &rule.variables, &job.variables)?;
    Ok(IncludedJob {
        job,
        rule: Some(number),
        when,
        allow_failure,
        variables,
    })
}

/// What the rule that decides says of a job: `never` leaves it out, and a rule without `when` leaves the job's own.
fn ruled<'a, 't>(
    alloc: Global,
    job: &'a JobSpec<'t>,
    number: usize,
    rule: &'a Rule<'t>,
) -> Result<Option<IncludedJob<'a, 't>>, AllocError>
    ensures { IfOk result (λ i. option_map included_view i ≡ ruled (job_view job.now) number (rule_view rule.now)) }
{
    match rule.when {
        Some(RuleWhen::Never) => Ok(None),
        Some(RuleWhen::Runs(when)) => Ok(Some(by_rule(alloc, job, number, rule, when)?)),
        None => {
            let when = job.when.unwrap_or(When::OnSuccess);
            Ok(Some(by_rule(alloc, job, number, rule, when)?))
        }
    }
}

impl<'a, 't> Decided<'a, 't> {
    /// The job, where the pipeline has it. A job without rules is included; one with rules is where one of them matches, as the first that does
    /// says. Errors: memory was refused.
    pub(crate) fn included(&self, alloc: Global) -> Result<Option<IncludedJob<'a, 't>>, AllocError>
        ensures { IfOk result (λ i. option_map included_view i ≡ by_rules (job_view self.now.job.now) (decision_view self.now.decision)) }
    {
        match self.decision {
            Decision::NoRules => Ok(Some(without_rules(alloc, self.job)?)),
            Decision::ByRule(number, rule) => ruled(alloc, self.job, number, rule),
            Decision::NoneMatches => Ok(None),
        }
    }
}
