//! The variables of a plan's request.

ghost use Rattle.std.specs.Prelude.{◌≡◌, IfOk, MatchOption, true, false, [], map, option_map};
ghost use Rattle.clap.specs.Walk.{rows_of};
ghost use Rattle.clap.specs.Matches.{found_of};
ghost use Rattle.ci_cli_words.specs.Words.{is_among, is_variable, pairs, parted, variables_after, variables_of};

use crate::command_line::VARIABLE;
use ci_values::is_variable_name;
use clap::ArgMatches;
use std::alloc::{AllocError, Global};

/// The variables of the request. None where one has no name of its own. Errors: memory was refused.
pub(crate) fn variables_in<'a>(
    alloc: Global,
    found: &ArgMatches<'a>,
) -> Result<Option<Vec<(&'a str, &'a str)>>, AllocError>
    ensures { IfOk result (λ variables. option_map (λ v. pairs v.items) variables ≡ variables_of (rows_of (found_of found.now))) }
{
    variables_of(alloc, found.get_strs(VARIABLE).unwrap_or(&[]))
}

/// The variables that the texts name, each as `NAME=VALUE`. None where one has no name of its own. Errors: memory was refused.
fn variables_of<'a>(
    alloc: Global,
    texts: &[&'a str],
) -> Result<Option<Vec<(&'a str, &'a str)>>, AllocError>
    ensures { IfOk result (λ found. option_map (λ v. pairs v.items) found ≡ variables_after [] (map (λ s. s.now) texts.now)) }
{
    let mut variables: Vec<(&'a str, &'a str)> = Vec::new(alloc);
    for text in texts {
        let Some(pair) = variable_of(&variables, *text) else {
            return Ok(None);
        };
        variables.push(pair)?;
    }
    Ok(Some(variables))
}

/// The name and the value that a text has, if its name is that of a variable, and of none of those before it.
pub(crate) fn variable_of<'a>(before: &[(&str, &str)], text: &'a str) -> Option<(&'a str, &'a str)>
    ensures { MatchOption result (is_variable (pairs before.now) text.now ≡ false)
        (λ pair. (is_variable (pairs before.now) text.now ≡ true) × (parted text.now ≡ (pair.0.now, pair.1.now))) }
{
    let pair = text.split_once('=')?;
    if is_variable_name(pair.0) && !is_among(before, pair.0) {
        Some(pair)
    } else {
        None
    }
}

/// Has one of the variables this name?
fn is_among(variables: &[(&str, &str)], name: &str) -> bool
    ensures { result ≡ is_among (pairs variables.now) name.now }
{
    for variable in variables {
        if variable.0 == name {
            return true;
        }
    }
    false
}
