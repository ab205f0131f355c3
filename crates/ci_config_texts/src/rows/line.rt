//! A line, cut into words and texts, up to the sign before what is wanted.

use crate::rows::fault::RowFault;
use crate::rows::parts::Parts;
use crate::rows::row::Row;
use std::alloc::Global;
use std::mem;

/// Where in a line its next character stands.
#[derive(Clone, Copy, PartialEq, Eq, Drop)]
enum Place {
    Between,
    Word,
    Quoted,
    /// Behind a backslash between quotes.
    Escaped,
    /// Behind the `=` that stands alone.
    Wanted,
}

/// What was read of a line.
#[derive(Drop)]
struct Line<'a> {
    place: Place,
    /// What `@` stands for.
    above: &'a [u8],
    parts: Parts,
    /// The word or the text that is being read.
    current: String,
    /// What is behind the `=`.
    wanted: String,
}

impl Line<'_> {
    /// Takes the word or the text that is being read.
    fn take_current(&mut self) -> String {
        let empty = String::new(*self.current.allocator());
        mem::replace(&mut self.current, empty)
    }

    /// Ends a word.
    fn end_word(&mut self) -> Result<(), RowFault> {
        let word = self.take_current();
        self.place = Place::Between;
        match word.as_str() {
            "=" => self.place = Place::Wanted,
            "@" => self.parts.bytes(self.above)?,
            _ => self.parts.word(word)?,
        }
        Ok(())
    }

    /// Reads a character between words.
    fn between(&mut self, c: char) -> Result<(), RowFault> {
        match c {
            ' ' => {}
            '"' => self.place = Place::Quoted,
            '(' => self.parts.open()?,
            ')' => self.parts.close()?,
            _ => {
                self.current.push(c)?;
                self.place = Place::Word;
            }
        }
        Ok(())
    }

    /// Reads a character behind one of a word.
    fn within_word(&mut self, c: char) -> Result<(), RowFault> {
        match c {
            ' ' => self.end_word(),
            '"' | '(' | ')' => {
                self.end_word()?;
                self.between(c)
            }
            _ => {
                self.current.push(c)?;
                Ok(())
            }
        }
    }

    /// Reads a character between quotes.
    fn within_quotes(&mut self, c: char) -> Result<(), RowFault> {
        match c {
            '"' => {
                let quoted = self.take_current();
                self.place = Place::Between;
                self.parts.quoted(quoted)?;
            }
            '\\' => {
                self.current.push(c)?;
                self.place = Place::Escaped;
            }
            _ => self.current.push(c)?,
        }
        Ok(())
    }

    /// Reads a character.
    fn step(&mut self, c: char) -> Result<(), RowFault> {
        match self.place {
            Place::Between => self.between(c)?,
            Place::Word => self.within_word(c)?,
            Place::Quoted => self.within_quotes(c)?,
            Place::Escaped => {
                self.current.push(c)?;
                self.place = Place::Quoted;
            }
            Place::Wanted => self.wanted.push(c)?,
        }
        Ok(())
    }
}

/// Reads a line.
fn read<'a>(alloc: Global, above: &'a [u8], text: &str) -> Result<Line<'a>, RowFault> {
    let mut line = Line {
        place: Place::Between,
        above,
        parts: Parts::new(alloc),
        current: String::new(alloc),
        wanted: String::new(alloc),
    };
    for c in text.chars() {
        line.step(c)?;
    }
    match line.place {
        Place::Word => line.end_word()?,
        Place::Quoted | Place::Escaped => return Err(RowFault::NotRead),
        Place::Between | Place::Wanted => {}
    }
    Ok(line)
}

/// What is wanted: the text, where one stands there, or else the words as they are.
fn wanted_of(alloc: Global, above: &[u8], words: String) -> Result<String, RowFault> {
    if !words.as_str().starts_with('"') {
        return Ok(words);
    }
    let Line { parts, .. } = read(alloc, above, words.as_str())?;
    let parts = parts.end()?;
    match parts.as_slice() {
        [part] => {
            let text = part.text().ok_or(RowFault::NotRead)?;
            Ok(String::from_str(alloc, text)?)
        }
        _ => Err(RowFault::NotRead),
    }
}

/// The row that a line has.
pub(crate) fn row_of(alloc: Global, above: &[u8], text: &str) -> Result<Row, RowFault> {
    let Line { parts, wanted, .. } = read(alloc, above, text)?;
    if wanted.is_empty() {
        return Err(RowFault::NotRead);
    }
    Ok(Row {
        parts: parts.end()?,
        wanted: wanted_of(alloc, above, wanted)?,
    })
}
