//! What the rules of a file look for, and what that may cost.

ghost use Rattle.std.specs.Prelude.{◌≡◌, nat_le, sum_by, flat_map, IfOk, OnOk};
ghost use Rattle.ci_config.specs.Prelude.{values_of, looks_view, same_look, look_cost, with_each};
ghost use Rattle.ci_graph_layout.specs.Searches.{rule_looks, job_looks, all_looks};
ghost use Rattle.ci_graph_layout.specs.View.{given_view};

use crate::given::{Given, seen};
use crate::limits::MAX_SEARCH_COST;
use ci_config::{Config, JobSpec, Rule};
use ci_expr::{Env, Look, left_by_looks};
use std::alloc::{AllocError, Global};

/// Puts what a rule looks for behind other looks, each once.
fn put_of_rule<'a, 't>(
    looks: &mut Vec<Look<'a>>,
    env: &Env<'_, 'a>,
    rule: &'a Rule<'t>,
) -> Result<(), AllocError>
    ensures { OnOk result (looks_view looks.new.items ≡ with_each same_look (looks_view looks.old.items) (rule_looks (values_of env.now) rule.now)) }
{
    match &rule.condition {
        Some(expr) => expr.put_looks(env, looks),
        None => Ok(()),
    }
}

/// The same of rules.
fn put_of_rules<'a, 't>(
    looks: &mut Vec<Look<'a>>,
    env: &Env<'_, 'a>,
    rules: &'a [Rule<'t>],
) -> Result<(), AllocError>
    ensures { OnOk result (looks_view looks.new.items ≡ with_each same_look (looks_view looks.old.items) (flat_map (rule_looks (values_of env.now)) rules.now)) }
{
    for rule in rules {
        put_of_rule(looks, env, rule)?;
    }
    Ok(())
}

/// The same of a job.
fn put_of_job<'a, 't>(
    alloc: Global,
    looks: &mut Vec<Look<'a>>,
    given: &Given<'a>,
    config: &'a Config<'t>,
    job: &'a JobSpec<'t>,
) -> Result<(), AllocError>
    ensures { OnOk result (looks_view looks.new.items ≡ with_each same_look (looks_view looks.old.items) (job_looks (given_view given.now) config.now job.now)) }
{
    match &job.rules {
        Some(rules) => {
            let pairs = seen(alloc, given, config, job)?;
            put_of_rules(looks, &Env { pairs: &pairs }, rules.as_slice())
        }
        None => Ok(()),
    }
}

/// What all rules of a file look for where these variables are given, each look once, whether the rules are come to or not.
pub fn looks<'a, 't>(
    alloc: Global,
    given: &Given<'a>,
    config: &'a Config<'t>,
) -> Result<Vec<Look<'a>>, AllocError>
    ensures { IfOk result (λ looks. looks_view looks.items ≡ all_looks (given_view given.now) config.now) }
{
    let mut looks = Vec::new(alloc);
    for job in &config.jobs {
        put_of_job(alloc, &mut looks, given, config, job)?;
    }
    Ok(looks)
}

/// Whether these looks cost no more than a pipeline may: for each the bytes that the pattern takes, times one more than the bytes of the value
/// that it is looked for in.
pub fn is_affordable(looks: &[Look]) -> bool
    ensures { result ≡ nat_le (sum_by look_cost (looks_view looks.now)) MAX_SEARCH_COST }
{
    left_by_looks(looks, MAX_SEARCH_COST).is_some()
}
