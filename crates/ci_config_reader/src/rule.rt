//! The rules of a job.

ghost use Rattle.std.specs.Prelude.{◌≡◌, ℕ, List, length};
ghost use Rattle.ci_config.specs.Prelude.{value_view, formula_of, Rule as Meant, condition_of, GivesAt, plain_rule_value, condition_value, rule_entry, rule_from};
ghost use Rattle.ci_config.specs.Prelude.{rule_of, rules_from, rules_of, values_view, pairs_view, rule_view, rules_view};
ghost use Rattle.ci_config_reader.specs.Answer.{builds_for};

use crate::key::keyword_of;
use crate::tree::{bool_of, list_of, map_of, text_of};
use crate::value::variables_of;
use crate::when::rule_when_of;
use ci_config::keyword::{PlainRuleKeyword, RULE_KEYWORDS, RULE_LEFT_OUT, RuleKeyword};
use ci_config::{ConfigCode, MAX_RULES, ReadFault, Rule};
use ci_expr::laws::computes_the_meaning;
use ci_expr::{Expr, ExprFault, PatternBudget, parse_within};
use ci_yaml_lines::tree::{Text, Tree};
use std::alloc::Global;

/// The condition that a text is, where building the patterns that are new in it costs no more than is left of a budget.
fn condition_of(alloc: Global, text: &str, budget: &mut PatternBudget) -> Result<Expr, ReadFault>
    ensures { GivesAt formula_of result (condition_of text.now (builds_for result)) }
{
    computes_the_meaning();
    match parse_within(alloc, text, budget) {
        Ok(expr) => Ok(expr),
        Err(ExprFault::Memory) => Err(ReadFault::Memory),
        Err(ExprFault::Fault(code)) => Err(ReadFault::Here(ConfigCode::K13(code))),
    }
}

/// Sets the condition.
fn set_condition<'t>(
    rule: &mut Rule<'t>,
    alloc: Global,
    tree: &Tree,
    budget: &mut PatternBudget,
) -> Result<(), ReadFault>
    ensures { GivesAt (λ _. rule_view rule.new) result (condition_value (value_view tree.now) (rule_view rule.old) (builds_for result)) }
{
    match text_of(tree) {
        Ok(text) => match condition_of(alloc, text, budget) {
            Ok(condition) => {
                rule.condition = Some(condition);
                Ok(())
            }
            Err(fault) => Err(fault),
        },
        Err(fault) => Err(fault),
    }
}

/// Sets what holds no expression.
fn set_plain<'t>(
    rule: &mut Rule<'t>,
    alloc: Global,
    keyword: PlainRuleKeyword,
    tree: &'t Tree,
) -> Result<(), ReadFault>
    ensures { GivesAt (λ _. rule_view rule.new) result (plain_rule_value keyword (value_view tree.now) (rule_view rule.old)) }
{
    match keyword {
        PlainRuleKeyword::When => rule.when = Some(rule_when_of(tree)?),
        PlainRuleKeyword::AllowFailure => rule.allow_failure = Some(bool_of(tree)?),
        PlainRuleKeyword::Variables => rule.variables = variables_of(alloc, tree)?,
    }
    Ok(())
}

/// Sets what an entry says.
fn enter<'t>(
    rule: &mut Rule<'t>,
    alloc: Global,
    key: &str,
    tree: &'t Tree,
    budget: &mut PatternBudget,
) -> Result<(), ReadFault>
    ensures { GivesAt (λ _. rule_view rule.new) result (rule_entry (builds_for result) (key.now, value_view tree.now) (rule_view rule.old)) }
{
    match keyword_of(&RULE_KEYWORDS, &RULE_LEFT_OUT, key) {
        Ok(RuleKeyword::If) => set_condition(rule, alloc, tree, budget),
        Ok(RuleKeyword::Plain(keyword)) => set_plain(rule, alloc, keyword, tree),
        Err(fault) => Err(fault),
    }
}

fn rule_from<'t>(
    alloc: Global,
    pairs: &'t [(Text, Tree)],
    budget: &mut PatternBudget,
) -> Result<Rule<'t>, ReadFault>
    ensures { GivesAt rule_view result (rule_from (builds_for result) (pairs_view pairs.now)) }
{
    let mut rule = Rule {
        condition: None,
        when: None,
        allow_failure: None,
        variables: Vec::new(alloc),
    };
    for before in 0..pairs.len() {
        let pair = &pairs[before];
        match enter(&mut rule, alloc, pair.0.as_str(), &pair.1, budget) {
            Ok(()) => {}
            Err(fault) => return Err(fault.within(before)),
        }
    }
    Ok(rule)
}

/// A rule, behind so many.
fn rule_of<'t>(
    alloc: Global,
    before: usize,
    tree: &'t Tree,
    budget: &mut PatternBudget,
) -> Result<Rule<'t>, ReadFault>
    ensures { (rs : List Meant) → length rs ≡ before → GivesAt rule_view result (rule_of (builds_for result) rs (value_view tree.now)) }
{
    match map_of(tree) {
        Ok(pairs) => {
            if MAX_RULES <= before {
                return Err(ReadFault::Here(ConfigCode::K11));
            }
            rule_from(alloc, pairs, budget)
        }
        Err(fault) => Err(fault),
    }
}

fn rules_from<'t>(
    alloc: Global,
    values: &'t [Tree],
    budget: &mut PatternBudget,
) -> Result<Vec<Rule<'t>>, ReadFault>
    ensures { GivesAt rules_view result (rules_from (builds_for result) (values_view values.now)) }
{
    let mut rules = Vec::new(alloc);
    for value in values {
        match rule_of(alloc, rules.len(), value, budget) {
            Ok(rule) => rules.push(rule)?,
            Err(fault) => return Err(fault.within(rules.len())),
        }
    }
    Ok(rules)
}

/// The rules of a job, where building the patterns that are new in them costs no more than is left of a budget.
pub fn rules_of<'t>(
    alloc: Global,
    tree: &'t Tree,
    budget: &mut PatternBudget,
) -> Result<Vec<Rule<'t>>, ReadFault>
    ensures { GivesAt rules_view result (rules_of (value_view tree.now) (builds_for result)) }
{
    match list_of(tree) {
        Ok(values) => rules_from(alloc, values, budget),
        Err(fault) => Err(fault),
    }
}
