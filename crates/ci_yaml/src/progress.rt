//! What was read so far: the nodes that are open.

use crate::open_map::OpenMap;
use ci_yaml_lines::tree::{Text, Tree};

/// The members of an open node before its last one, and the key of the last.
#[derive(Drop)]
pub enum Open<'a> {
    Items(Vec<Tree<'a>>),
    Pairs(OpenMap<'a>, Text<'a>),
}

/// An open node.
#[derive(Drop)]
pub struct Frame<'a> {
    pub column: u32,
    pub members: Open<'a>,
}

/// What was read so far: nothing, a document of one line, or open nodes, the innermost last.
#[derive(Drop)]
pub enum Progress<'a> {
    Start,
    Whole(Tree<'a>),
    Inside(Vec<Frame<'a>>, Option<Tree<'a>>),
}
