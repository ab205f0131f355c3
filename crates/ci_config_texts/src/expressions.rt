//! Expressions: how a text is read, what it is worth, and its tokens.

use crate::lists::{first_text, only_text, variables};
use crate::rows::{Part, RowFault};
use ci_expr::{Env, ExprFault, parse, tokens};
use std::alloc::Global;

/// How a text is read: as an expression, or with the code of its fault.
fn reading(alloc: Global, text: &str) -> Result<String, RowFault> {
    match parse(alloc, text) {
        Ok(_) => Ok(String::from_str(alloc, "accepted")?),
        Err(ExprFault::Memory) => Err(RowFault::Memory),
        Err(ExprFault::Fault(code)) => Ok(format!(in alloc; "{code}")?),
    }
}

/// How an expression is read.
pub fn reading_of(alloc: Global, parts: &[Part]) -> Result<String, RowFault> {
    reading(alloc, only_text(parts)?)
}

/// How a pattern is read in an expression of its own: with letters as they are, and then in either case.
pub fn pattern_of(alloc: Global, parts: &[Part]) -> Result<String, RowFault> {
    let pattern = only_text(parts)?;
    let exact = format!(in alloc; "$A =~ /{pattern}/")?;
    let insensitive = format!(in alloc; "$A =~ /{pattern}/i")?;
    let first = reading(alloc, exact.as_str())?;
    let second = reading(alloc, insensitive.as_str())?;
    Ok(format!(in alloc; "{first} {second}")?)
}

/// What an expression is worth where the variables have these values.
pub fn value_of(alloc: Global, parts: &[Part]) -> Result<String, RowFault> {
    let (text, others) = first_text(parts)?;
    let pairs = variables(alloc, others)?;
    let expr = match parse(alloc, text) {
        Ok(expr) => expr,
        Err(ExprFault::Memory) => return Err(RowFault::Memory),
        Err(ExprFault::Fault(_)) => return Ok(String::from_str(alloc, "no expression")?),
    };
    let env = Env { pairs: &pairs };
    match expr.value(alloc, &env) {
        Ok(holds) => Ok(format!(in alloc; "{holds}")?),
        Err(ExprFault::Memory) => Err(RowFault::Memory),
        Err(ExprFault::Fault(code)) => Ok(format!(in alloc; "{code}")?),
    }
}

/// The tokens of an expression, each with its place, or the code of its fault.
pub fn tokens_of(alloc: Global, parts: &[Part]) -> Result<String, RowFault> {
    let found = match tokens(alloc, only_text(parts)?) {
        Ok(found) => found,
        Err(ExprFault::Memory) => return Err(RowFault::Memory),
        Err(ExprFault::Fault(code)) => return Ok(format!(in alloc; "{code}")?),
    };
    let mut text = String::new(alloc);
    for token in &found {
        let kind = token.kind;
        let slice = token.slice;
        let start = token.start;
        let end = token.end;
        let shown = format!(in alloc; "{kind:?} {slice} {start}-{end}|")?;
        text.push_str(shown.as_str())?;
    }
    Ok(text)
}
