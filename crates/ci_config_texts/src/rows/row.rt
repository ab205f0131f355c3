//! A row: what is asked, of what, and what must be answered.

use std::str::from_utf8;

/// A part of what is asked.
#[derive(Drop)]
pub enum Part {
    /// A text, as bytes.
    Text(Vec<u8>),
    /// A word without quotes.
    Word(String),
}

impl Part {
    /// The text, where the part is one.
    pub fn text(&self) -> Option<&str> {
        match self {
            Part::Text(bytes) => from_utf8(bytes).ok(),
            Part::Word(_) => None,
        }
    }

    /// The word, where the part is one.
    pub fn word(&self) -> Option<&str> {
        match self {
            Part::Text(_) => None,
            Part::Word(word) => Some(word.as_str()),
        }
    }
}

/// A row of a table.
#[derive(Drop)]
pub struct Row {
    /// The word that says what is asked, and what it is asked of.
    pub parts: Vec<Part>,
    /// What must be answered.
    pub wanted: String,
}
