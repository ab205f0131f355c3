//! When a job runs.

ghost use Rattle.std.specs.Prelude.{◌≡◌};
ghost use Rattle.ci_config.specs.Prelude.{value_view, GivesAt, when_word, when_of, rule_when_of};

use crate::tree::text_of;
use ci_config::keyword::{WHENS, WhenWord};
use ci_config::{ConfigCode, ReadFault, RuleWhen};
use ci_values::meaning_of;
use ci_values::when::When;
use ci_yaml_lines::tree::Tree;

/// A word of `when`.
fn when_word(tree: &Tree) -> Result<WhenWord, ReadFault>
    ensures { GivesAt (λ w. w) result (when_word (value_view tree.now)) }
{
    let word = text_of(tree)?;
    match meaning_of(&WHENS, word) {
        Some(when) => Ok(when),
        None => Err(ReadFault::Here(ConfigCode::K8)),
    }
}

/// When a job runs.
pub fn when_of(tree: &Tree) -> Result<When, ReadFault>
    ensures { GivesAt (λ w. w) result (when_of (value_view tree.now)) }
{
    match when_word(tree)? {
        WhenWord::Runs(when) => Ok(when),
        WhenWord::Never => Err(ReadFault::Here(ConfigCode::K14)),
        WhenWord::Delayed => Err(ReadFault::Here(ConfigCode::K2("delayed"))),
    }
}

/// When a job runs that a rule takes in, or that the rule leaves it out.
pub fn rule_when_of(tree: &Tree) -> Result<RuleWhen, ReadFault>
    ensures { GivesAt (λ w. w) result (rule_when_of (value_view tree.now)) }
{
    match when_word(tree)? {
        WhenWord::Runs(when) => Ok(RuleWhen::Runs(when)),
        WhenWord::Never => Ok(RuleWhen::Never),
        WhenWord::Delayed => Err(ReadFault::Here(ConfigCode::K2("delayed"))),
    }
}
