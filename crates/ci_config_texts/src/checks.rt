//! What is printed of a file.

use crate::rows::{Part, RowFault};
use ci_explain::check::check;
use std::alloc::Global;

/// The exit status and the line that is printed of bytes; the line must end.
fn said(alloc: Global, bytes: &[u8]) -> Result<String, RowFault> {
    let mut out: Vec<u8> = Vec::new(alloc);
    let verdict = check(alloc, "f.yml", Ok(bytes), &mut out).map_err(|_| RowFault::Memory)?;
    let status = verdict.status();
    let line = str::from_utf8(&out).map_err(|_| RowFault::NotRead)?;
    let line = line.strip_suffix('\n').unwrap_or("a line without an end");
    Ok(format!(in alloc; "{status} {line}")?)
}

/// What is printed of a text, behind the exit status.
pub fn check_of(alloc: Global, parts: &[Part]) -> Result<String, RowFault> {
    match parts {
        [Part::Text(bytes)] => said(alloc, bytes),
        _ => Err(RowFault::NotRead),
    }
}

/// A number of bytes.
fn count_of(part: &Part) -> Result<usize, RowFault> {
    let word = part.word().ok_or(RowFault::NotRead)?;
    word.parse::<usize>().map_err(|_| RowFault::NotRead)
}

/// What is printed of each of a text's beginnings of so many bytes, from a number up to another and without it: what all have
/// in common, or what the first that differs has.
fn said_of_beginnings(
    alloc: Global,
    bytes: &[u8],
    from: usize,
    to: usize,
) -> Result<String, RowFault> {
    let mut common: Option<String> = None;
    for n in from..to {
        let beginning = bytes.get(..n).ok_or(RowFault::NotRead)?;
        let line = said(alloc, beginning)?;
        match &common {
            None => common = Some(line),
            Some(first) if first.as_str() == line.as_str() => {}
            Some(_) => return Ok(format!(in alloc; "{line} at {n} bytes")?),
        }
    }
    common.ok_or(RowFault::NotRead)
}

/// What is printed of each of a text's beginnings.
pub fn beginnings_of(alloc: Global, parts: &[Part]) -> Result<String, RowFault> {
    match parts {
        [Part::Text(bytes), from, to] => {
            said_of_beginnings(alloc, bytes, count_of(from)?, count_of(to)?)
        }
        _ => Err(RowFault::NotRead),
    }
}
