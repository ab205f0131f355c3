//! Values: names, numbers, durations, lists of texts, and variables.

ghost use Rattle.std.specs.Prelude.{◌≡◌, ℕ, List, length, Ok, IfOk, IfErr};
ghost use Rattle.ci_config.specs.Prelude.{IsDuration, value_view, words_of, code_view, Gives, GivesAt, unplaced, plain_of, name_of, up_to, number_up_to, lasting, timeout_of};
ghost use Rattle.ci_config.specs.Prelude.{text_in, name_in, variable_in, texts_of, names_of, variables_of, texts_view, variable_view, variables_view};
ghost use Rattle.ci_config.specs.declared.fault.ConfigCode.TheVariants.{K10};
ghost use Rattle.ci_config.specs.declared.fault.ConfigFault.TheVariants as faults;

use crate::tree::{list_of, map_of, number_of, text_of};
use ci_config::{ConfigCode, ConfigFault, MAX_VARIABLES, ReadFault, Variable};
use ci_values::is_variable_name;
use ci_values::text::is_name;
use ci_yaml_lines::tree::{Tree, Words};
use std::alloc::Global;

/// A text, or a number as its decimal text.
fn plain_of<'t>(alloc: Global, tree: &'t Tree) -> Result<Words<'t>, ReadFault>
    ensures { GivesAt words_of result (plain_of (value_view tree.now)) }
{
    match tree {
        Tree::Text(text) => Ok(Words::Lent(text.as_str())),
        Tree::Int(number) => Ok(Words::Owned(format!(in alloc; "{number}")?)),
        _ => Err(ReadFault::Here(ConfigCode::K4)),
    }
}

/// A text that is a name.
pub fn name_of<'t>(tree: &'t Tree) -> Result<&'t str, ReadFault>
    ensures { GivesAt (λ s. s.now) result (name_of (value_view tree.now)) }
{
    let text = text_of(tree)?;
    if is_name(text) {
        Ok(text)
    } else {
        Err(ReadFault::Here(ConfigCode::K16))
    }
}

/// A number from 0 up to a limit.
fn up_to(limit: u32, number: i64) -> Option<u32>
    ensures { result ≡ up_to limit number }
{
    match u32::try_from(number) {
        Ok(number) => { if number <= limit { Some(number) } else { None } }
        Err(_) => None,
    }
}

/// A number from 0 up to a limit, and else this fault.
pub fn number_up_to(limit: u32, code: ConfigCode, tree: &Tree) -> Result<u32, ReadFault>
    ensures { GivesAt (λ n. n) result (number_up_to limit (code_view code) (value_view tree.now)) }
{
    let number = number_of(tree)?;
    match up_to(limit, number) {
        Some(number) => Ok(number),
        None => Err(ReadFault::Here(code)),
    }
}

/// How many seconds a duration is, as `1h 30m`.
///
/// Errors: the text is no duration, or one of less than a minute or more than 30 days (K10). It takes no memory.
pub fn duration(text: &str) -> Result<u32, ConfigFault>
    // What is answered is the sum of the pairs that the text is.
    ensures sum { IfOk result (IsDuration text.now) }
    // A text that is pairs with such a sum is answered so.
    ensures all { (n : ℕ) → IsDuration text.now n → result ≡ Ok n }
    // Nothing else goes wrong.
    ensures fault { IfErr result (λ e. e ≡ faults.Fault K10) }
    // The same, computed.
    ensures value { Gives (λ n. n) result (unplaced (lasting text.now)) }
{
    match ci_values::duration(text) {
        Some(seconds) => Ok(seconds),
        None => Err(ConfigFault::Fault(ConfigCode::K10)),
    }
}

/// A time limit, in seconds.
pub fn timeout_of(tree: &Tree) -> Result<u32, ReadFault>
    ensures { GivesAt (λ n. n) result (timeout_of (value_view tree.now)) }
{
    let text = text_of(tree)?;
    Ok(duration(text)?)
}

/// A text of a list that may have so many, behind those before it.
fn text_in<'t>(limit: usize, before: usize, tree: &'t Tree) -> Result<&'t str, ReadFault>
    ensures { (ts : List (List ℕ)) → length ts ≡ before → GivesAt (λ s. s.now) result (text_in limit ts (value_view tree.now)) }
{
    let text = text_of(tree)?;
    if before < limit {
        Ok(text)
    } else {
        Err(ReadFault::Here(ConfigCode::K11))
    }
}

/// The texts of a list that may have so many.
pub fn texts_of<'t>(alloc: Global, limit: usize, tree: &'t Tree) -> Result<Vec<&'t str>, ReadFault>
    ensures { GivesAt texts_view result (texts_of limit (value_view tree.now)) }
{
    let values = list_of(tree)?;
    let mut texts = Vec::new(alloc);
    for value in values {
        match text_in(limit, texts.len(), value) {
            Ok(text) => texts.push(text)?,
            Err(fault) => return Err(fault.within(texts.len())),
        }
    }
    Ok(texts)
}

/// A name of a list that may have so many, behind those before it.
fn name_in<'t>(limit: usize, before: usize, tree: &'t Tree) -> Result<&'t str, ReadFault>
    ensures { (ts : List (List ℕ)) → length ts ≡ before → GivesAt (λ s. s.now) result (name_in limit ts (value_view tree.now)) }
{
    let text = text_in(limit, before, tree)?;
    if is_name(text) {
        Ok(text)
    } else {
        Err(ReadFault::Here(ConfigCode::K16))
    }
}

/// The names of a list that may have so many.
pub fn names_of<'t>(alloc: Global, limit: usize, tree: &'t Tree) -> Result<Vec<&'t str>, ReadFault>
    ensures { GivesAt texts_view result (names_of limit (value_view tree.now)) }
{
    let values = list_of(tree)?;
    let mut names = Vec::new(alloc);
    for value in values {
        match name_in(limit, names.len(), value) {
            Ok(name) => names.push(name)?,
            Err(fault) => return Err(fault.within(names.len())),
        }
    }
    Ok(names)
}

/// A pair of a map of variables, behind those before it.
fn variable_in<'t>(
    alloc: Global,
    before: usize,
    key: &'t str,
    tree: &'t Tree,
) -> Result<Variable<'t>, ReadFault>
    ensures { (vs : List (List ℕ × List ℕ)) → length vs ≡ before → GivesAt variable_view result (variable_in vs (key.now, value_view tree.now)) }
{
    let value = plain_of(alloc, tree)?;
    if MAX_VARIABLES <= before {
        return Err(ReadFault::Here(ConfigCode::K11));
    }
    if !is_variable_name(key) {
        return Err(ReadFault::Here(ConfigCode::K12));
    }
    Ok(Variable { name: key, value })
}

/// The variables of a map.
pub fn variables_of<'t>(alloc: Global, tree: &'t Tree) -> Result<Vec<Variable<'t>>, ReadFault>
    ensures { GivesAt variables_view result (variables_of (value_view tree.now)) }
{
    let pairs = map_of(tree)?;
    let mut variables = Vec::new(alloc);
    for pair in pairs {
        match variable_in(alloc, variables.len(), pair.0.as_str(), &pair.1) {
            Ok(variable) => variables.push(variable)?,
            Err(fault) => return Err(fault.within(variables.len())),
        }
    }
    Ok(variables)
}
