//! What building the patterns of a file may cost together.

ghost use Rattle.std.specs.Prelude.{◌≡◌, nat_le, IfOk, OnOk, flat_map};
ghost use Rattle.ci_config.specs.Prelude.{patterns_view, same_pattern, with_each, rule_patterns, job_patterns, config_cost};

use ci_config::{Config, JobSpec, MAX_BUILDING_COST, Rule};
use ci_expr::{Pattern, left_by_patterns};
use std::alloc::{AllocError, Global};

/// Puts the patterns of a rule behind others, each once.
fn put_of_rule<'a>(patterns: &mut Vec<&'a Pattern>, rule: &'a Rule) -> Result<(), AllocError>
    ensures { OnOk result (patterns_view patterns.new.items ≡ with_each same_pattern (patterns_view patterns.old.items) (rule_patterns rule.now)) }
{
    match &rule.condition {
        Some(expr) => expr.put_patterns(patterns),
        None => Ok(()),
    }
}

/// The same of rules.
fn put_of_rules<'a>(patterns: &mut Vec<&'a Pattern>, rules: &'a [Rule]) -> Result<(), AllocError>
    ensures { OnOk result (patterns_view patterns.new.items ≡ with_each same_pattern (patterns_view patterns.old.items) (flat_map rule_patterns rules.now)) }
{
    for rule in rules {
        put_of_rule(patterns, rule)?;
    }
    Ok(())
}

/// The same of a job.
fn put_of_job<'a>(patterns: &mut Vec<&'a Pattern>, job: &'a JobSpec) -> Result<(), AllocError>
    ensures { OnOk result (patterns_view patterns.new.items ≡ with_each same_pattern (patterns_view patterns.old.items) (job_patterns job.now)) }
{
    match &job.rules {
        Some(rules) => put_of_rules(patterns, rules.as_slice()),
        None => Ok(()),
    }
}

/// The same of jobs.
fn put_of_jobs<'a>(patterns: &mut Vec<&'a Pattern>, jobs: &'a [JobSpec]) -> Result<(), AllocError>
    ensures { OnOk result (patterns_view patterns.new.items ≡ with_each same_pattern (patterns_view patterns.old.items) (flat_map job_patterns jobs.now)) }
{
    for job in jobs {
        put_of_job(patterns, job)?;
    }
    Ok(())
}

/// Whether building all patterns, each once, costs no more than it may.
pub fn is_within(alloc: Global, config: &Config) -> Result<bool, AllocError>
    ensures { IfOk result (λ b. b ≡ nat_le (config_cost config.now) MAX_BUILDING_COST) }
{
    let mut patterns = Vec::new(alloc);
    put_of_jobs(&mut patterns, config.jobs.as_slice())?;
    Ok(left_by_patterns(&patterns, MAX_BUILDING_COST).is_some())
}
