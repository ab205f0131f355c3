//! Laws of the definitions. These functions do nothing: what they ensure is what the checker proves.

ghost use Rattle.std.specs.Prelude.{◌≡◌, ◌≢◌, ◌⊎◌, ℕ, List, [], ◌∷◌, Result, Ok, Err};
ghost use Rattle.ci_yaml_lines.specs.Prelude.{Variables, value_in, meaning_of, Value};
ghost use Rattle.ci_expr.specs.declared.fault.ExprCode.TheVariants.{X8};
ghost use Rattle.ci_expr.specs.Prelude.{IsMeaning, expression_of, value_of};
ghost use Rattle.ci_config.specs.Config.{Config};
ghost use Rattle.ci_config.specs.Expressions.{Patterns, built, refused};
ghost use Rattle.ci_config.specs.Fault.{Fault, K13};
ghost use Rattle.ci_config.specs.Laws.{LacksPatterns, IsWhole, ConfigLacksPatterns};
ghost use Rattle.ci_config.specs.Meaning.{meaning, Means};

use ci_expr::laws::computes_the_meaning;

/// A tree has one answer, and at most one more, X8.
pub fn has_one_answer()
    ensures { (v : Value) (r s : Result Config Fault) → Means v r → Means v s → (r ≡ s) ⊎ ((r ≡ Err (K13 X8)) ⊎ (s ≡ Err (K13 X8))) }
{}

/// The meaning of a tree is never X8: that is the fault of a pattern that was refused.
pub fn means_no_x8()
    ensures { (v : Value) → meaning built v ≢ Err (K13 X8) }
{
    computes_the_meaning();
}

/// With any choice of the patterns that are built a tree means the same as with each of them; or X8, with none of them too, and
/// then it has a pattern.
pub fn reads_alike()
    ensures { (v : Value) (builds : Patterns) → (meaning builds v ≡ meaning built v) ⊎ ((LacksPatterns v → ⊥) × (meaning builds v ≡ Err (K13 X8)) × (meaning refused v ≡ Err (K13 X8))) }
{}

/// What a tree may configure has no pattern, or the tree may be answered with X8 too.
pub fn may_refuse_patterns()
    ensures { (v : Value) (c : Config) → Means v (Ok c) → ConfigLacksPatterns c ⊎ Means v (Err (K13 X8)) }
{}

/// A tree without a pattern has one answer.
pub fn answers_once_without_patterns()
    ensures { (v : Value) (r : Result Config Fault) → LacksPatterns v → Means v r → r ≡ meaning built v }
{}

/// What is read of an expression is what its grammar says, and nothing else is.
pub fn reads_expressions()
    ensures { (text : List ℕ) → IsMeaning text (expression_of text) }
{
    computes_the_meaning();
}

/// What an expression sees of a name in a list of variables is its value in the list as the one layer of a look-up.
pub fn looks_up_alike()
    ensures one { (vs : Variables) (name : List ℕ) → value_of vs name ≡ meaning_of vs name }
    ensures layer { (vs : Variables) (name : List ℕ) → value_of vs name ≡ value_in (vs ∷ []) name }
{}

/// In a configuration there are 1 to 200 jobs, each with a script and a stage that is one of the stages, and names are names.
pub fn configures_whole_jobs()
    ensures { (v : Value) (c : Config) → meaning built v ≡ Ok c → IsWhole c }
{}
