//! What a line says: its entries, and how the literal block below it is read.

use crate::code::Code;
use crate::tree::{Text, Tree};

/// What an entry begins with.
#[derive(Drop)]
pub enum Head<'a> {
    Dash,
    Key(Text<'a>),
    Bare,
}

/// A dash or a key where it stands, or a line with neither, and the value that is written there.
#[derive(Drop)]
pub struct Entry<'a> {
    pub column: u32,
    pub head: Head<'a>,
    pub given: Option<Tree<'a>>,
}

/// How the line feeds at the end of a literal block are kept: one, none or all.
#[derive(Clone, Copy)]
pub enum Chomp {
    Clip,
    Strip,
    Keep,
}

/// What a line says: its entries, how the literal block below it is read, and the least code of the line itself.
#[derive(Drop)]
pub struct ParsedLine<'a> {
    pub entries: Vec<Entry<'a>>,
    pub header: Option<Chomp>,
    pub code: Option<Code>,
}
