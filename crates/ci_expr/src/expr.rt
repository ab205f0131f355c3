//! Expressions that were read.

ghost use Rattle.std.specs.Prelude.{◌≡◌, ◌+◌, List, Result, IfOk, IfErr, OnOk, map};
ghost use Rattle.ci_expr.specs.Answered.{AreAnswered};
ghost use Rattle.ci_expr.specs.Formula.{Formula as Meant};
ghost use Rattle.ci_expr.specs.declared.fault.ExprCode.{ExprCode as Code};
ghost use Rattle.ci_expr.specs.Distinct.{with_each};
ghost use Rattle.ci_expr.specs.Truth.{truth};
ghost use Rattle.ci_expr.specs.View.{token_view, RefusesPattern};
ghost use Rattle.ci_expr.specs.Meaning.{Means, Answers as Answered, Allows, AtMostOneFormula, MeansOneThing, ArePatterns, parse_of, IsBuilt};
ghost use Rattle.ci_expr.specs.Built.{values_of, formula_of, patterns_view, patterns_of, same_pattern, built_of, spent, looks_view, looks_of, same_look};

use crate::answers::Answers;
use crate::budget::PatternBudget;
use crate::descent::formula_from;
use crate::fault::ExprFault;
use crate::formula::{Env, Formula, build, put_looks, put_patterns, truth};
use crate::looks::Look;
use crate::order::list_fault;
use crate::pattern::Pattern;
use crate::token::{Token, tokens};
use std::alloc::{AllocError, Global};

/// An expression that was read. It keeps the texts of its patterns, which are built when its value is asked.
#[derive(Drop)]
pub struct Expr {
    root: Formula,
}

impl Expr {
    /// Whether the expression is true where variables have these values. Each look for a pattern is made, come to or not, and once.
    ///
    /// Errors: memory was refused; or `regex`, which has built each pattern before, now refuses one (X8).
    pub fn value<'a>(&'a self, alloc: Global, env: &Env<'_, 'a>) -> Result<bool, ExprFault>
        ensures value { IfOk result (λ b. b ≡ truth (values_of env.now) (formula_of self.now)) }
        ensures refused { IfErr result (λ e. RefusesPattern e (formula_of self.now)) }
    {
        let mut looks = Vec::new(alloc);
        self.put_looks(env, &mut looks)?;
        let answers = Answers::of(alloc, &looks)?;
        Ok(self.value_by(env, &answers))
    }

    /// The same, where what it looks for was looked for before.
    pub fn value_by<'a>(&'a self, env: &Env<'_, 'a>, answers: &Answers) -> bool
        requires { AreAnswered answers.now (looks_of (values_of env.now) self.now) }
        ensures { result ≡ truth (values_of env.now) (formula_of self.now) }
    {
        truth(&self.root, env, answers)
    }

    /// Puts the expression's patterns behind others, each once. Errors: memory was refused.
    pub fn put_patterns<'a>(&'a self, patterns: &mut Vec<&'a Pattern>) -> Result<(), AllocError>
        ensures { OnOk result (patterns_view patterns.new.items ≡ with_each same_pattern (patterns_view patterns.old.items) (patterns_of self.now)) }
    {
        put_patterns(&self.root, patterns)
    }

    /// Puts what the expression looks for where variables have these values behind others, each look once: each pattern, come to or not, in
    /// the value of its variable. Errors: memory was refused.
    pub fn put_looks<'a>(
        &'a self,
        env: &Env<'_, 'a>,
        looks: &mut Vec<Look<'a>>,
    ) -> Result<(), AllocError>
        ensures { OnOk result (looks_view looks.new.items ≡ with_each same_look (looks_view looks.old.items) (looks_of (values_of env.now) self.now)) }
    {
        put_looks(&self.root, env, looks)
    }
}

/// The expression of a list of tokens.
fn parse_tokens(
    alloc: Global,
    tokens: &[Token],
    budget: &mut PatternBudget,
) -> Result<Expr, ExprFault>
    ensures read { IsBuilt formula_of result (parse_of (map token_view tokens.now)) }
    ensures patterns { IfOk result (λ e. ArePatterns (formula_of e)) }
    ensures built { IfOk result (λ e. built_of budget.new ≡ with_each same_pattern (built_of budget.old) (patterns_of e)) }
    ensures left { IfOk result (λ e. budget.new.left + spent budget.new ≡ budget.old.left + spent budget.old) }
{
    if let Some(fault) = list_fault(tokens) {
        return Err(ExprFault::Fault(fault));
    }
    let tree = formula_from(alloc, tokens)?;
    let root = build(alloc, &tree, budget)?;
    Ok(Expr { root })
}

/// The same as `parse`, where building the patterns that weren't built before costs no more than is left of a budget: else X8 at the first
/// that costs more. What is left behind them is left then.
pub fn parse_within(
    alloc: Global,
    text: &str,
    budget: &mut PatternBudget,
) -> Result<Expr, ExprFault>
    // What is answered is the formula of the text, or its first fault.
    ensures answer { Answered formula_of result (Means text.now) }
    // Where the text has a formula, it is answered, or X8 where it holds a pattern; where the text has a fault, that.
    ensures only { (r : Result Meant Code) → Means text.now r → Allows formula_of result r }
    // An expression that is answered holds no pattern but such as the grammar of `regex` reads.
    ensures patterns { IfOk result (λ e. ArePatterns (formula_of e)) }
    // Its patterns are among those that were built, each once,
    ensures built { IfOk result (λ e. built_of budget.new ≡ with_each same_pattern (built_of budget.old) (patterns_of e)) }
    // and paid.
    ensures left { IfOk result (λ e. budget.new.left + spent budget.new ≡ budget.old.left + spent budget.old) }
    // The grammar leaves no choice.
    ensures one { AtMostOneFormula }
    // Nor does the text.
    ensures single { MeansOneThing }
{
    let found = tokens(alloc, text)?;
    parse_tokens(alloc, &found, budget)
}

/// The expression of a text. Each pattern is built here, to see that it can be, and let go.
///
/// Errors: memory was refused; or the first fault: the text is too long (X1), holds what begins no token (X2) or what
/// doesn't end (X3), its parentheses don't balance (X5), a pattern doesn't stand directly after `=~` or `!~` (X6), more than
/// 32 parentheses are open at once (X7), the tokens are no formula (X4), or `regex` refuses a pattern, or takes
/// more than `MAX_PATTERN_BYTES` for it (X8).
pub fn parse(alloc: Global, text: &str) -> Result<Expr, ExprFault>
    // What is answered is the formula of the text, or its first fault.
    ensures answer { Answered formula_of result (Means text.now) }
    // Where the text has a formula, it is answered, or X8 where it holds a pattern; where the text has a fault, that.
    ensures only { (r : Result Meant Code) → Means text.now r → Allows formula_of result r }
    // An expression that is answered holds no pattern but such as the grammar of `regex` reads.
    ensures patterns { IfOk result (λ e. ArePatterns (formula_of e)) }
    // The grammar leaves no choice.
    ensures one { AtMostOneFormula }
    // Nor does the text.
    ensures single { MeansOneThing }
{
    let mut budget = PatternBudget::new(alloc, usize::MAX);
    parse_within(alloc, text, &mut budget)
}
