//! Laws of the definitions. These functions do nothing: what they ensure is what the checker proves.

ghost use Rattle.std.specs.Prelude.{◌≡◌, ◌≢◌, ◌⊎◌, ℕ, List};
ghost use Rattle.ci_config.specs.Prelude.{Value, X8, K13, code_view, LacksPatterns};
ghost use Rattle.ci_yaml.specs.Prelude.{HasTree};
ghost use Rattle.ci_config.specs.declared.fault.ConfigCode.{ConfigCode};
ghost use Rattle.ci_config.specs.declared.fault.ConfigFault.TheVariants.{Fault};
ghost use Rattle.ci_explain.specs.Verdicts.{Fits, report_line};
ghost use Rattle.ci_explain.specs.Laws.{RestsOnMore};
ghost use Rattle.ci_explain.specs.declared.check.verdict.Verdict.{Verdict};
ghost use Rattle.ci_explain.specs.declared.check.verdict.Verdict.TheVariants.{Misconfigured};

use ci_config::laws::{answers_once_without_patterns, has_one_answer, means_no_x8};
use ci_yaml::laws::{has_not_both, has_one_fault, has_one_tree};

/// Of the same bytes the same line is printed, but where a verdict rests on more than the bytes: on what reads them, on
/// memory, or on a pattern that `regex` refuses.
pub fn says_one_line()
    ensures { (word bytes : List ℕ) (a b : Verdict) → Fits bytes a → Fits bytes b
        → (report_line word a ≡ report_line word b) ⊎ (RestsOnMore a ⊎ RestsOnMore b) }
{
    has_one_tree();
    has_not_both();
    has_one_fault();
    has_one_answer();
}

/// A refused pattern is the fault of no text whose tree has no pattern.
pub fn blames_only_patterns()
    ensures { (bytes : List ℕ) (v : Value) (code : ConfigCode) → HasTree bytes v → LacksPatterns v → Fits bytes (Misconfigured (Fault code))
        → code_view code ≢ K13 X8 }
{
    has_one_tree();
    answers_once_without_patterns();
    means_no_x8();
}
