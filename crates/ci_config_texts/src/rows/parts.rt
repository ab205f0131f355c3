//! The parts of a row, put together from words and texts as they are read.

use crate::rows::fault::RowFault;
use crate::rows::quoted::put_quoted;
use crate::rows::row::Part;
use std::alloc::Global;

/// A text between quotes, with how often it stands.
#[derive(Drop)]
struct Piece {
    quoted: String,
    times: Option<u32>,
}

/// Puts a piece behind bytes, as often as it stands; the number is that of the group's repetition.
fn put_piece(out: &mut Vec<u8>, piece: &Piece, number: u32) -> Result<(), RowFault> {
    let quoted = piece.quoted.as_str();
    match piece.times {
        None => put_quoted(out, quoted, number),
        Some(times) => {
            for i in 0..times {
                put_quoted(out, quoted, i)?;
            }
            Ok(())
        }
    }
}

/// Puts the pieces of a group behind bytes, once.
fn put_pieces(out: &mut Vec<u8>, pieces: &[Piece], number: u32) -> Result<(), RowFault> {
    for piece in pieces {
        put_piece(out, piece, number)?;
    }
    Ok(())
}

/// The pieces between parentheses, with how often they stand.
#[derive(Drop)]
struct Group {
    pieces: Vec<Piece>,
    times: Option<u32>,
}

/// Puts a group behind bytes, as often as it stands.
fn put_group(out: &mut Vec<u8>, group: &Group) -> Result<(), RowFault> {
    for i in 0..group.times.unwrap_or(1) {
        put_pieces(out, &group.pieces, i)?;
    }
    Ok(())
}

/// The parts that were read, and what stands before the next piece.
#[derive(Drop)]
pub(crate) struct Parts {
    /// Whole parts.
    whole: Vec<Part>,
    /// The text that is being read.
    text: Option<Vec<u8>>,
    /// How often the next piece or group stands.
    times: Option<u32>,
    /// The parentheses that are open.
    group: Option<Group>,
}

impl Parts {
    pub(crate) fn new(alloc: Global) -> Parts {
        Parts {
            whole: Vec::new(alloc),
            text: None,
            times: None,
            group: None,
        }
    }

    /// Takes the text that is being read, or an empty one.
    fn take_text(&mut self) -> Vec<u8> {
        let empty = Vec::new(*self.whole.allocator());
        self.text.take().unwrap_or(empty)
    }

    /// Takes a text between quotes.
    pub(crate) fn quoted(&mut self, quoted: String) -> Result<(), RowFault> {
        let times = self.times.take();
        let piece = Piece { quoted, times };
        match &mut self.group {
            Some(group) => group.pieces.push(piece)?,
            None => {
                let mut text = self.take_text();
                put_piece(&mut text, &piece, 0)?;
                self.text = Some(text);
            }
        }
        Ok(())
    }

    /// Takes bytes that stand for themselves.
    pub(crate) fn bytes(&mut self, bytes: &[u8]) -> Result<(), RowFault> {
        let mut text = self.take_text();
        text.extend_from_slice(bytes)?;
        self.text = Some(text);
        Ok(())
    }

    /// Takes `(`.
    pub(crate) fn open(&mut self) -> Result<(), RowFault> {
        if self.group.is_some() {
            return Err(RowFault::NotRead);
        }
        let times = self.times.take();
        let pieces = Vec::new(*self.whole.allocator());
        self.group = Some(Group { pieces, times });
        Ok(())
    }

    /// Takes `)`.
    pub(crate) fn close(&mut self) -> Result<(), RowFault> {
        let group = self.group.take().ok_or(RowFault::NotRead)?;
        let mut text = self.take_text();
        put_group(&mut text, &group)?;
        self.text = Some(text);
        Ok(())
    }

    /// Takes a word: how often the next piece stands, or a part of its own.
    pub(crate) fn word(&mut self, word: String) -> Result<(), RowFault> {
        if let Some(digits) = word.as_str().strip_suffix('*') {
            let times = digits.parse::<u32>().map_err(|_| RowFault::NotRead)?;
            self.times = Some(times);
            return Ok(());
        }
        self.end_text()?;
        self.whole.push(Part::Word(word))?;
        Ok(())
    }

    /// Ends the text that is being read.
    fn end_text(&mut self) -> Result<(), RowFault> {
        if self.group.is_some() || self.times.is_some() {
            return Err(RowFault::NotRead);
        }
        if let Some(text) = self.text.take() {
            self.whole.push(Part::Text(text))?;
        }
        Ok(())
    }

    /// All parts.
    pub(crate) fn end(mut self) -> Result<Vec<Part>, RowFault> {
        self.end_text()?;
        let Parts { whole, .. } = self;
        Ok(whole)
    }
}
