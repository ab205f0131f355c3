//! Whether a pipeline goes on where a job failed.

ghost use Rattle.std.specs.Prelude.{◌≡◌, ℕ, List, Option, length, option_map};
ghost use Rattle.ci_config.specs.Prelude.{value_view, GivesAt, exit_code_of, exit_code_in, exit_codes_of, allow_failure_value, allow_failure_entry, allow_failure_said};
ghost use Rattle.ci_config.specs.Prelude.{allow_failure_from, allow_failure_of, pairs_view, codes_view};

use crate::key::keyword_of;
use crate::tree::{bool_of, is_bool, is_number, list_of, map_of};
use crate::value::number_up_to;
use ci_config::keyword::{ALLOW_FAILURE_KEYWORDS, ALLOW_FAILURE_LEFT_OUT, AllowFailureKeyword};
use ci_config::{ConfigCode, MAX_EXIT_CODE, MAX_EXIT_CODES, ReadFault};
use ci_values::items::Items;
use ci_values::when::AllowFailure;
use ci_yaml_lines::tree::{Text, Tree};
use std::alloc::Global;

/// An exit code.
fn exit_code_of(tree: &Tree) -> Result<u32, ReadFault>
    ensures { GivesAt (λ n. n) result (exit_code_of (value_view tree.now)) }
{
    number_up_to(MAX_EXIT_CODE, ConfigCode::K4, tree)
}

/// An exit code of a list, behind those before it.
fn exit_code_in(before: usize, tree: &Tree) -> Result<u32, ReadFault>
    ensures { (codes : List ℕ) → length codes ≡ before → GivesAt (λ n. n) result (exit_code_in codes (value_view tree.now)) }
{
    let code = exit_code_of(tree)?;
    if before < MAX_EXIT_CODES {
        Ok(code)
    } else {
        Err(ReadFault::Here(ConfigCode::K11))
    }
}

/// One exit code, or a list of them.
fn exit_codes_of(alloc: Global, tree: &Tree) -> Result<Vec<u32>, ReadFault>
    ensures { GivesAt codes_view result (exit_codes_of (value_view tree.now)) }
{
    let mut codes = Vec::new(alloc);
    if is_number(tree) {
        let code = exit_code_of(tree)?;
        codes.push(code)?;
        return Ok(codes);
    }
    let values = list_of(tree)?;
    for value in values {
        match exit_code_in(codes.len(), value) {
            Ok(code) => codes.push(code)?,
            Err(fault) => return Err(fault.within(codes.len())),
        }
    }
    Ok(codes)
}

/// What an entry says.
fn allow_failure_value(
    alloc: Global,
    keyword: AllowFailureKeyword,
    tree: &Tree,
) -> Result<Option<Vec<u32>>, ReadFault>
    ensures { (said : Option (List ℕ)) → GivesAt (option_map codes_view) result (allow_failure_value keyword (value_view tree.now) said) }
{
    match keyword {
        AllowFailureKeyword::ExitCodes => Ok(Some(exit_codes_of(alloc, tree)?)),
    }
}

fn allow_failure_entry(alloc: Global, key: &str, tree: &Tree) -> Result<Option<Vec<u32>>, ReadFault>
    ensures { (said : Option (List ℕ)) → GivesAt (option_map codes_view) result (allow_failure_entry (key.now, value_view tree.now) said) }
{
    let keyword = keyword_of(&ALLOW_FAILURE_KEYWORDS, &ALLOW_FAILURE_LEFT_OUT, key)?;
    allow_failure_value(alloc, keyword, tree)
}

fn allow_failure_said(codes: Option<Vec<u32>>) -> Result<AllowFailure, ReadFault>
    ensures { GivesAt (λ a. a) result (allow_failure_said (option_map codes_view codes)) }
{
    match codes {
        Some(codes) => Ok(AllowFailure::ExitCodes(Items::new(codes))),
        None => Err(ReadFault::Here(ConfigCode::K4)),
    }
}

/// Exit codes, from a map.
fn allow_failure_from(alloc: Global, pairs: &[(Text, Tree)]) -> Result<AllowFailure, ReadFault>
    ensures { GivesAt (λ a. a) result (allow_failure_from (pairs_view pairs.now)) }
{
    let mut codes = None;
    for before in 0..pairs.len() {
        let pair = &pairs[before];
        match allow_failure_entry(alloc, pair.0.as_str(), &pair.1) {
            Ok(said) => codes = said,
            Err(fault) => return Err(fault.within(before)),
        }
    }
    allow_failure_said(codes)
}

/// Whether a pipeline goes on where a job failed: `true`, `false` or a map.
pub fn allow_failure_of(alloc: Global, tree: &Tree) -> Result<AllowFailure, ReadFault>
    ensures { GivesAt (λ a. a) result (allow_failure_of (value_view tree.now)) }
{
    if is_bool(tree) {
        if bool_of(tree)? {
            return Ok(AllowFailure::Yes);
        }
        return Ok(AllowFailure::No);
    }
    let pairs = map_of(tree)?;
    allow_failure_from(alloc, pairs)
}
