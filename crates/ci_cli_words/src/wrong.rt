//! Which value is wrong, where those of a command ask for nothing; and what is said of it.

ghost use Rattle.std.specs.Prelude.{◌≡◌, true, List, IfSome};
ghost use Rattle.std.specs.Str.{bytes_eq};
ghost use Rattle.clap.specs.Walk.{Row, rows_of};
ghost use Rattle.clap.specs.Matches.{found_of};
ghost use Rattle.ci_cli_words.specs.Words.{parted};
ghost use Rattle.ci_cli_words.specs.Wrong.{IsWrong, is_kind};

use crate::asked::{log_named, source_named};
use crate::command_line::{BEFORE, DB, KIND, LOG, NAME, PIPELINE, REF, SOURCE, TAGS, VARIABLE};
use crate::date::midnight_of;
use crate::value::{number_in, text_in, word_in};
use crate::variables::variable_of;
use ci_values::text::is_name;
use clap::ArgMatches;
use std::alloc::{AllocError, Global};

/// A value that its option can't have.
#[derive(Clone, Copy)]
pub(crate) enum WrongValue<'a> {
    /// The value of this option begins with `-`.
    Dashed(&'static str, &'a str),
    /// No branch or tag has such a name.
    Ref(&'a str),
    /// Nothing that asks for a pipeline has this name.
    Source(&'a str),
    /// It has no `=`, or what stands before it is no variable's name.
    Variable(&'a str),
    /// The first of these variables has the name of the other.
    Again(&'a str, &'a str),
    /// No report is of this kind.
    Kind(&'a str),
    /// There is the number of a pipeline, and a report of this kind is of none.
    OfNone(&'a str),
    /// A report of a pipeline is asked for without its number.
    NoNumber,
    /// Nothing that is logged has this name.
    Log(&'a str),
    /// No day of the calendar from 1970 on is written so.
    Day(&'a str),
}

/// A value of a command that its option can't have.
pub(crate) fn wrong_in<'a>(found: &ArgMatches<'a>) -> Option<WrongValue<'a>>
    ensures { IfSome result (IsWrong (rows_of (found_of found.now))) }
{
    let wrong = wrong_text(found);
    if wrong.is_some() {
        return wrong;
    }
    let wrong = wrong_plan(found);
    if wrong.is_some() {
        return wrong;
    }
    let wrong = wrong_report(found);
    if wrong.is_some() {
        return wrong;
    }
    let wrong = wrong_log(found);
    if wrong.is_some() {
        return wrong;
    }
    wrong_day(found)
}

/// A text that begins with `-`.
fn wrong_text<'a>(found: &ArgMatches<'a>) -> Option<WrongValue<'a>>
    ensures { IfSome result (IsWrong (rows_of (found_of found.now))) }
{
    for option in [DB, NAME, TAGS, REF] {
        let wrong = dashed(found, option);
        if wrong.is_some() {
            return wrong;
        }
    }
    None
}

/// The value of an option, if it begins with `-`.
fn dashed<'a>(found: &ArgMatches<'a>, option: &'static str) -> Option<WrongValue<'a>>
    ensures { IfSome result (IsWrong (rows_of (found_of found.now))) }
{
    let given = word_in(found, option)?;
    match text_in(found, option) {
        Some(_) => None,
        None => Some(WrongValue::Dashed(option, given)),
    }
}

/// A wrong value of a plan.
fn wrong_plan<'a>(found: &ArgMatches<'a>) -> Option<WrongValue<'a>>
    ensures { IfSome result (IsWrong (rows_of (found_of found.now))) }
{
    if let Some(given) = word_in(found, REF) {
        if !is_name(given) {
            return Some(WrongValue::Ref(given));
        }
    }
    if let Some(given) = word_in(found, SOURCE) {
        if source_named(given).is_none() {
            return Some(WrongValue::Source(given));
        }
    }
    wrong_variable(found.get_strs(VARIABLE)?)
}

/// The first text that is no variable, else the first with the name of an earlier one.
fn wrong_variable<'a>(texts: &[&'a str]) -> Option<WrongValue<'a>>
    ensures { (rows : List Row) → IfSome result (IsWrong rows) }
{
    for text in texts {
        if variable_of(&[], *text).is_none() {
            return Some(WrongValue::Variable(*text));
        }
    }
    for i in 0..texts.len() {
        for before in &texts[..i] {
            if is_named_as(*before, texts[i]) {
                return Some(WrongValue::Again(*before, texts[i]));
            }
        }
    }
    None
}

/// Do two variables have the same name?
fn is_named_as(first: &str, second: &str) -> bool
    ensures { result ≡ true → bytes_eq (parted first.now).0 (parted second.now).0 ≡ true }
{
    let Some(first) = first.split_once('=') else {
        return false;
    };
    let Some(second) = second.split_once('=') else {
        return false;
    };
    first.0 == second.0
}

/// The wrong kind of a report, or a kind that doesn't go with what else there is.
fn wrong_report<'a>(found: &ArgMatches<'a>) -> Option<WrongValue<'a>>
    ensures { IfSome result (IsWrong (rows_of (found_of found.now))) }
{
    let given = word_in(found, KIND)?;
    if !is_kind(given) {
        return Some(WrongValue::Kind(given));
    }
    match number_in(found, PIPELINE) {
        Some(_) if given == "pipeline" => None,
        Some(_) => Some(WrongValue::OfNone(given)),
        None => Some(WrongValue::NoNumber),
    }
}

/// Is there a report of this kind?
fn is_kind(kind: &str) -> bool
    ensures { result ≡ is_kind kind.now }
{
    kind == "queue" || kind == "pipeline" || kind == "runners"
}

/// What is no name of a log.
fn wrong_log<'a>(found: &ArgMatches<'a>) -> Option<WrongValue<'a>>
    ensures { IfSome result (IsWrong (rows_of (found_of found.now))) }
{
    let given = word_in(found, LOG)?;
    match log_named(given) {
        Some(_) => None,
        None => Some(WrongValue::Log(given)),
    }
}

/// What is no day.
fn wrong_day<'a>(found: &ArgMatches<'a>) -> Option<WrongValue<'a>>
    ensures { IfSome result (IsWrong (rows_of (found_of found.now))) }
{
    let given = word_in(found, BEFORE)?;
    match midnight_of(given) {
        Some(_) => None,
        None => Some(WrongValue::Day(given)),
    }
}

/// What is said of a wrong value: which option has it, and what the option may have. Errors: memory was refused.
pub(crate) fn text_of(alloc: Global, wrong: WrongValue<'_>) -> Result<String, AllocError> {
    match wrong {
        WrongValue::Dashed(option, given) => {
            text_with(alloc, option, given, "a text that doesn't begin with '-'")
        }
        WrongValue::Ref(given) => text_with(
            alloc,
            REF,
            given,
            "a name of 1 to 255 bytes without control characters",
        ),
        WrongValue::Source(given) => {
            text_with(alloc, SOURCE, given, "push, web, schedule, api or trigger")
        }
        WrongValue::Variable(given) => {
            text_with(alloc, VARIABLE, given, "a variable's name, '=' and a value")
        }
        WrongValue::Again(_, given) => text_with(alloc, VARIABLE, given, "each name once"),
        WrongValue::Kind(given) => text_with(alloc, KIND, given, "queue, pipeline or runners"),
        WrongValue::OfNone(kind) => {
            format!(in alloc;
                "'--{PIPELINE}' goes with '--{KIND} pipeline' alone, and not with '--{KIND} {kind}'"
            )
        }
        WrongValue::NoNumber => {
            format!(in alloc;
                "'--{KIND} pipeline' wants the number of the pipeline, '--{PIPELINE} <N>'"
            )
        }
        WrongValue::Log(given) => text_with(alloc, LOG, given, "events or requests"),
        WrongValue::Day(given) => text_with(
            alloc,
            BEFORE,
            given,
            "a day from 1970-01-01 to 9999-12-31, as 2026-01-31",
        ),
    }
}

/// An option, what it was given, and what it may be given. Errors: memory was refused.
fn text_with(alloc: Global, option: &str, given: &str, wanted: &str) -> Result<String, AllocError> {
    format!(in alloc; "invalid value '{given}' for '--{option}': wanted is {wanted}")
}
