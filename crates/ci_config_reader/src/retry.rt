//! How often a job is tried again.

ghost use Rattle.std.specs.Prelude.{◌≡◌};
ghost use Rattle.ci_config.specs.Prelude.{value_view, GivesAt, no_causes, all_causes, with_cause, cause_of, cause_in, causes_of, max_of, retry_value, retry_entry, retry_said};
ghost use Rattle.ci_config.specs.Prelude.{retry_from, retry_of, pairs_view};
ghost use Rattle.ci_config_reader.specs.Parts.{retry_parts_view};

use crate::key::keyword_of;
use crate::tree::{is_number, is_text, list_of, map_of, text_of};
use crate::value::number_up_to;
use ci_config::keyword::{CAUSES, CauseWord, RETRY_KEYWORDS, RETRY_LEFT_OUT, RetryKeyword};
use ci_config::{ConfigCode, MAX_RETRIES, ReadFault};
use ci_values::attempts::Cause;
use ci_values::meaning_of;
use ci_values::when::{Causes, Retry};
use ci_yaml_lines::tree::{Text, Tree};

/// What the entries of a retry say.
#[derive(Clone, Copy)]
pub struct RetryParts {
    pub max: Option<u8>,
    pub causes: Causes,
}

/// No cause, or each.
fn every_cause(is_in: bool) -> Causes
    ensures { result ≡ record { unknown_failure = is_in; script_failure = is_in; api_failure = is_in; stuck_or_timeout_failure = is_in; runner_system_failure = is_in; job_execution_timeout = is_in } }
{
    Causes {
        unknown_failure: is_in,
        script_failure: is_in,
        api_failure: is_in,
        stuck_or_timeout_failure: is_in,
        runner_system_failure: is_in,
        job_execution_timeout: is_in,
    }
}

/// The set with what a word names.
fn with_cause(word: CauseWord, set: Causes) -> Causes
    ensures { result ≡ with_cause word set }
{
    let mut set = set;
    match word {
        CauseWord::Always => set = every_cause(true),
        CauseWord::One(Cause::UnknownFailure) => set.unknown_failure = true,
        CauseWord::One(Cause::ScriptFailure) => set.script_failure = true,
        CauseWord::One(Cause::ApiFailure) => set.api_failure = true,
        CauseWord::One(Cause::StuckOrTimeoutFailure) => set.stuck_or_timeout_failure = true,
        CauseWord::One(Cause::RunnerSystemFailure) => set.runner_system_failure = true,
        CauseWord::One(Cause::JobExecutionTimeout) => set.job_execution_timeout = true,
    }
    set
}

/// A word of a retry's `when`.
fn cause_of(tree: &Tree) -> Result<CauseWord, ReadFault>
    ensures { GivesAt (λ c. c) result (cause_of (value_view tree.now)) }
{
    let word = text_of(tree)?;
    match meaning_of(&CAUSES, word) {
        Some(cause) => Ok(cause),
        None => Err(ReadFault::Here(ConfigCode::K9)),
    }
}

/// The set with what a tree names.
fn cause_in(tree: &Tree, set: Causes) -> Result<Causes, ReadFault>
    ensures { GivesAt (λ c. c) result (cause_in (value_view tree.now) set) }
{
    let word = cause_of(tree)?;
    Ok(with_cause(word, set))
}

/// One cause, or a list of them.
fn causes_of(tree: &Tree) -> Result<Causes, ReadFault>
    ensures { GivesAt (λ c. c) result (causes_of (value_view tree.now)) }
{
    let mut set = every_cause(false);
    if is_text(tree) {
        return cause_in(tree, set);
    }
    let values = list_of(tree)?;
    for before in 0..values.len() {
        match cause_in(&values[before], set) {
            Ok(more) => set = more,
            Err(fault) => return Err(fault.within(before)),
        }
    }
    Ok(set)
}

/// How often, at most.
fn max_of(tree: &Tree) -> Result<u8, ReadFault>
    ensures { GivesAt (λ n. n) result (max_of (value_view tree.now)) }
{
    let max = number_up_to(MAX_RETRIES, ConfigCode::K9, tree)?;
    Ok(max as u8)
}

impl RetryParts {
    /// Sets what an entry says.
    fn set(&mut self, keyword: RetryKeyword, tree: &Tree) -> Result<(), ReadFault>
        ensures { GivesAt (λ _. retry_parts_view self.new) result (retry_value keyword (value_view tree.now) (retry_parts_view self.old)) }
    {
        match keyword {
            RetryKeyword::Max => self.max = Some(max_of(tree)?),
            RetryKeyword::When => self.causes = causes_of(tree)?,
        }
        Ok(())
    }

    fn enter(&mut self, key: &str, tree: &Tree) -> Result<(), ReadFault>
        ensures { GivesAt (λ _. retry_parts_view self.new) result (retry_entry (key.now, value_view tree.now) (retry_parts_view self.old)) }
    {
        let keyword = keyword_of(&RETRY_KEYWORDS, &RETRY_LEFT_OUT, key)?;
        self.set(keyword, tree)
    }

    fn retry(self) -> Result<Retry, ReadFault>
        ensures { GivesAt (λ r. r) result (retry_said (retry_parts_view self)) }
    {
        match self.max {
            Some(max) => Ok(Retry {
                max,
                causes: self.causes,
            }),
            None => Err(ReadFault::Here(ConfigCode::K9)),
        }
    }
}

/// A retry that is a map.
fn retry_from(pairs: &[(Text, Tree)]) -> Result<Retry, ReadFault>
    ensures { GivesAt (λ r. r) result (retry_from (pairs_view pairs.now)) }
{
    let mut parts = RetryParts {
        max: None,
        causes: every_cause(true),
    };
    for before in 0..pairs.len() {
        let pair = &pairs[before];
        match parts.enter(pair.0.as_str(), &pair.1) {
            Ok(()) => {}
            Err(fault) => return Err(fault.within(before)),
        }
    }
    parts.retry()
}

/// How often a job is tried again, and after which causes: a number, or a map.
pub fn retry_of(tree: &Tree) -> Result<Retry, ReadFault>
    ensures { GivesAt (λ r. r) result (retry_of (value_view tree.now)) }
{
    if is_number(tree) {
        let max = max_of(tree)?;
        return Ok(Retry {
            max,
            causes: every_cause(true),
        });
    }
    let pairs = map_of(tree)?;
    retry_from(pairs)
}
