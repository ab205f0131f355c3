//! Formulas with texts of their own, and their truth.

ghost use Rattle.std.specs.Prelude.{◌≡◌, ◌+◌, List, [], IfOk, IfErr, OnOk, option_map, unwrap_or};
ghost use Rattle.ci_expr.specs.Truth.{same_value, negated_by, value_of, operand_value, truth};
ghost use Rattle.ci_expr.specs.View.{tree_view, operand_view, RefusesPattern};
ghost use Rattle.ci_expr.specs.Meaning.{ArePatterns};
ghost use Rattle.ci_expr.specs.Answered.{AreAnswered};
ghost use Rattle.ci_expr.specs.Distinct.{with_each};
ghost use Rattle.ci_expr.specs.Built.{subject_view, formula_view, values_of, patterns_view, patterns_in, same_pattern, built_of, spent, looks_view, looks_in, same_look};

use crate::answers::Answers;
use crate::budget::PatternBudget;
use crate::fault::ExprFault;
use crate::looks::{Look, put_look, put_pattern};
use crate::pattern::Pattern;
use crate::source::source_of;
use crate::tree::{Join, Operand, Tree};
use std::alloc::{AllocError, Global};

/// The variables that an expression sees: names with their values. Of two pairs with one name the first counts, and a
/// variable without a pair is undefined.
#[derive(Clone, Copy)]
pub struct Env<'p, 'a> {
    /// The pairs, name and value.
    pub pairs: &'p [(&'a str, &'a str)],
}

/// What a variable is compared with.
#[derive(Drop)]
pub enum Subject {
    /// `null`: no value.
    Null,
    /// A text, without its marks.
    Text(String),
    /// A variable, without its `$`.
    Variable(String),
}

/// A formula with texts of its own, each of whose patterns `regex` has built once.
#[derive(Drop)]
pub enum Formula {
    /// Two formulas, joined so.
    Joined(Join, Box<Formula>, Box<Formula>),
    /// A formula in parentheses.
    Group(Box<Formula>),
    /// The variable is defined and not empty.
    Present(String),
    /// The variable has the subject's value; with `true`, it hasn't.
    Equal(bool, String, Subject),
    /// The pattern is found in the variable; with `true`, it isn't.
    Found(bool, String, Box<Pattern>),
}

/// An operand with texts of its own.
fn subject_of(alloc: Global, operand: &Operand) -> Result<Subject, AllocError>
    ensures { IfOk result (λ s. subject_view s ≡ operand_view operand.now) }
{
    match operand {
        Operand::Null => Ok(Subject::Null),
        Operand::Text(text) => Ok(Subject::Text(String::from_str(alloc, text)?)),
        Operand::Variable(name) => Ok(Subject::Variable(String::from_str(alloc, name)?)),
    }
}

/// The formula with texts of its own, where `regex` builds each of its patterns, and that costs no more than is left of a budget.
pub fn build(alloc: Global, tree: &Tree, budget: &mut PatternBudget) -> Result<Formula, ExprFault>
    ensures view { IfOk result (λ f. formula_view f ≡ tree_view tree.now) }
    ensures patterns { IfOk result (λ f. ArePatterns (tree_view tree.now)) }
    ensures built { IfOk result (λ f. built_of budget.new ≡ with_each same_pattern (built_of budget.old) (patterns_in f)) }
    ensures left { IfOk result (λ f. budget.new.left + spent budget.new ≡ budget.old.left + spent budget.old) }
    ensures refused { IfErr result (λ e. RefusesPattern e (tree_view tree.now)) }
{
    match tree {
        Tree::Joined(join, a, b) => {
            let a = build(alloc, a, budget)?;
            let b = build(alloc, b, budget)?;
            let a = Box::new(alloc, a)?;
            Ok(Formula::Joined(*join, a, Box::new(alloc, b)?))
        }
        Tree::Group(a) => {
            let a = build(alloc, a, budget)?;
            Ok(Formula::Group(Box::new(alloc, a)?))
        }
        Tree::Present(name) => Ok(Formula::Present(String::from_str(alloc, name)?)),
        Tree::Equal(negated, name, operand) => {
            let name = String::from_str(alloc, name)?;
            let subject = subject_of(alloc, operand)?;
            Ok(Formula::Equal(*negated, name, subject))
        }
        Tree::Found(negated, name, body, insensitive) => {
            let name = String::from_str(alloc, name)?;
            let pattern = budget.pattern(alloc, source_of(alloc, body)?, *insensitive)?;
            Ok(Formula::Found(*negated, name, Box::new(alloc, pattern)?))
        }
    }
}

/// The first value with a name, or none where the variable is undefined.
fn value_of<'a>(env: &Env<'_, 'a>, name: &str) -> Option<&'a str>
    ensures { option_map (λ v. v.now) result ≡ value_of (values_of env.now) name.now }
{
    let pairs = env.pairs;
    for pair in pairs {
        if pair.0 == name {
            return Some(pair.1);
        }
    }
    None
}

/// Are the two values the same? `null` and the empty text differ.
fn same_value(a: Option<&str>, b: Option<&str>) -> bool
    ensures { result ≡ same_value (option_map (λ v. v.now) a.entry) (option_map (λ v. v.now) b.entry) }
{
    match (a, b) {
        (Some(a), Some(b)) => a == b,
        (None, None) => true,
        _ => false,
    }
}

/// The value of what a variable is compared with.
fn subject_value<'a>(env: &Env<'_, 'a>, subject: &'a Subject) -> Option<&'a str>
    ensures { option_map (λ v. v.now) result ≡ operand_value (values_of env.now) (subject_view subject.now) }
{
    match subject {
        Subject::Null => None,
        Subject::Text(text) => Some(text.as_str()),
        Subject::Variable(name) => value_of(env, name.as_str()),
    }
}

/// The value of a variable in which a pattern is looked for: the empty text where it is undefined.
fn text_of<'a>(env: &Env<'_, 'a>, name: &str) -> &'a str
    ensures { result.now ≡ unwrap_or (value_of (values_of env.now) name.now) [] }
{
    match value_of(env, name) {
        Some(text) => text,
        None => "",
    }
}

/// Puts a formula's patterns behind others, each once.
pub fn put_patterns<'a>(
    formula: &'a Formula,
    patterns: &mut Vec<&'a Pattern>,
) -> Result<(), AllocError>
    ensures { OnOk result (patterns_view patterns.new.items ≡ with_each same_pattern (patterns_view patterns.old.items) (patterns_in formula.now)) }
{
    match formula {
        Formula::Joined(_, a, b) => {
            put_patterns(a, patterns)?;
            put_patterns(b, patterns)
        }
        Formula::Group(a) => put_patterns(a, patterns),
        Formula::Present(_) | Formula::Equal(..) => Ok(()),
        Formula::Found(_, _, pattern) => put_pattern(patterns, pattern),
    }
}

/// Puts what a formula looks for in these values behind others, each look once.
pub fn put_looks<'a>(
    formula: &'a Formula,
    env: &Env<'_, 'a>,
    looks: &mut Vec<Look<'a>>,
) -> Result<(), AllocError>
    ensures { OnOk result (looks_view looks.new.items ≡ with_each same_look (looks_view looks.old.items) (looks_in (values_of env.now) formula.now)) }
{
    match formula {
        Formula::Joined(_, a, b) => {
            put_looks(a, env, looks)?;
            put_looks(b, env, looks)
        }
        Formula::Group(a) => put_looks(a, env, looks),
        Formula::Present(_) | Formula::Equal(..) => Ok(()),
        Formula::Found(_, name, pattern) => put_look(looks, pattern, text_of(env, name.as_str())),
    }
}

/// The truth of a formula, where what it looks for was looked for before.
pub fn truth<'a>(formula: &'a Formula, env: &Env<'_, 'a>, answers: &Answers) -> bool
    ensures { AreAnswered answers.now (looks_in (values_of env.now) formula.now) → result ≡ truth (values_of env.now) (formula_view formula.now) }
{
    match formula {
        Formula::Joined(Join::Or, a, b) => truth(a, env, answers) || truth(b, env, answers),
        Formula::Joined(Join::And, a, b) => truth(a, env, answers) && truth(b, env, answers),
        Formula::Group(a) => truth(a, env, answers),
        Formula::Present(name) => match value_of(env, name.as_str()) {
            Some(text) => !text.is_empty(),
            None => false,
        },
        Formula::Equal(negated, name, subject) => {
            let same = same_value(value_of(env, name.as_str()), subject_value(env, subject));
            same != *negated
        }
        Formula::Found(negated, name, pattern) => {
            answers.is_found(pattern, text_of(env, name.as_str())) != *negated
        }
    }
}
