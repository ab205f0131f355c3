//! Laws of the definitions. These functions do nothing: what they ensure is what the checker proves.

ghost use Rattle.std.specs.Prelude.{◌≡◌, ℕ, List, [], false};
ghost use Rattle.ci_expr.specs.Built.{formula_of, patterns_of, looks_of, IsMeasured};
ghost use Rattle.ci_expr.specs.Computed.{expression_of};
ghost use Rattle.ci_expr.specs.Formula.{has_pattern};
ghost use Rattle.ci_expr.specs.Meaning.{IsMeaning};
ghost use Rattle.ci_expr.specs.Truth.{Values};
ghost use Rattle.ci_expr.specs.declared.expr.Expr.{Expr as Read};

/// What is computed of a text is what the text means and, X8 aside, nothing else is.
pub fn computes_the_meaning()
    ensures { (text : List ℕ) → IsMeaning text (expression_of text) }
{}

/// An expression without a pattern has none to build, and looks for none.
pub fn costs_nothing_without_patterns()
    ensures building { (e : Read) → has_pattern (formula_of e) ≡ false → patterns_of e ≡ [] }
    ensures search { (vs : Values) (e : Read) → has_pattern (formula_of e) ≡ false → looks_of vs e ≡ [] }
{}

/// Each pattern of an expression is kept with the bytes that the tables of its automaton take.
pub fn measures_each_pattern()
    ensures { (e : Read) → IsMeasured e }
{}
