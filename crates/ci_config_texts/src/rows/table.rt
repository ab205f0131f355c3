//! The rows of a table.

use crate::rows::fault::RowFault;
use crate::rows::line::row_of;
use crate::rows::row::Row;
use std::alloc::{AllocError, Global};

/// A line of a table that is no comment and no line of a text.
#[derive(Drop)]
pub struct TableLine {
    /// Its number, from 1.
    pub number: usize,
    /// Its row, where it is in the form of one.
    pub row: Option<Row>,
}

/// What was read of a table.
#[derive(Drop)]
struct Table {
    alloc: Global,
    lines: Vec<TableLine>,
    /// The text of the lines behind `|` that were read last.
    above: Vec<u8>,
    /// Was the last line one of them?
    is_text: bool,
}

impl Table {
    /// Takes a line of a text.
    fn text(&mut self, line: &str) -> Result<(), AllocError> {
        if !self.is_text {
            self.above.clear();
        }
        self.is_text = true;
        self.above.extend_from_slice(line.as_bytes())?;
        self.above.push(b'\n')?;
        Ok(())
    }

    /// Takes a line that must be a row.
    fn row(&mut self, number: usize, line: &str) -> Result<(), AllocError> {
        let row = match row_of(self.alloc, &self.above, line) {
            Ok(row) => Some(row),
            Err(RowFault::NotRead) => None,
            Err(RowFault::Memory) => return Err(AllocError),
        };
        self.lines.push(TableLine { number, row })?;
        Ok(())
    }

    /// Takes a line.
    fn line(&mut self, number: usize, line: &str) -> Result<(), AllocError> {
        if let Some(line) = line.strip_prefix("| ") {
            return self.text(line);
        }
        if line == "|" {
            return self.text("");
        }
        self.is_text = false;
        if line.is_empty() || line.starts_with('#') {
            return Ok(());
        }
        self.row(number, line)
    }
}

/// The lines of a table that must be rows.
pub fn table_lines(alloc: Global, text: &str) -> Result<Vec<TableLine>, AllocError> {
    let mut table = Table {
        alloc,
        lines: Vec::new(alloc),
        above: Vec::new(alloc),
        is_text: false,
    };
    let mut number: usize = 0;
    for line in text.lines() {
        number = number.saturating_add(1);
        table.line(number, line)?;
    }
    let Table { lines, .. } = table;
    Ok(lines)
}
