//! A table: each of its rows is tried, and what comes is compared with what is wanted.

use crate::answer::answer;
use crate::rows::{Row, RowFault, TableLine, table_lines};
use std::alloc::{AllocError, Global};
use std::rt::Files;
use std::{fs, io};

/// What differs at a line, if anything does.
fn difference(alloc: Global, line: &TableLine) -> Result<Option<String>, AllocError> {
    let Some(row) = &line.row else {
        return Ok(Some(String::from_str(alloc, "no row")?));
    };
    let wanted = row.wanted.as_str();
    match answer(alloc, row) {
        Ok(came) if came.as_str() == wanted => Ok(None),
        Ok(came) => Ok(Some(format!(in alloc; "wanted {wanted}, came {came}")?)),
        Err(RowFault::NotRead) => Ok(Some(String::from_str(alloc, "unknown row")?)),
        Err(RowFault::Memory) => Err(AllocError),
    }
}

/// Tries the rows of a table, and prints each difference, or that there is none.
pub fn try_table<R: Files + AllocGlobal + Print>(rt: &R, name: &str) -> io::Result<()> {
    let text = fs::read_to_string(rt, name)?;
    let lines = table_lines(rt.alloc(), text.as_str())?;
    let mut is_ok = !lines.is_empty();
    for line in &lines {
        if let Some(found) = difference(rt.alloc(), line)? {
            let number = line.number;
            println!(rt; "{name} line {number}: {found}")?;
            is_ok = false;
        }
    }
    if is_ok {
        println!(rt; "ok {name}")?;
    }
    Ok(())
}
