//! The open nodes.

ghost use Rattle.std.specs.Prelude.{◌≡◌, ◌+◌, ◌*◌, ◌∷◌, ◌++◌, [], Option, IfOk, Ok, Err, length, nat_lt, nat_le, if◌then◌else◌};
ghost use Rattle.ci_yaml_lines.specs.Prelude.{Value, sequence, mapping, node, push, bytes_of, value_view, items_view, pairs_view, given_view, texts_in, items_texts, pairs_texts};
ghost use Rattle.ci_yaml_lines.specs.Prelude.{given_texts};
ghost use Rattle.ci_yaml.specs.View.{frame_view, frames_view, state_view, Gives, GivesNodes};
ghost use Rattle.ci_yaml.specs.Reading.{closed, level, settle, top_deeper, misplaced, is_node, with_given};
ghost use Rattle.ci_yaml.specs.Spans.{open_texts, frames_texts, state_texts};
ghost use Rattle.ci_yaml_lines.specs.declared.code.Code.TheVariants.{Y10};

use crate::fault::Stop;
use crate::limits::MAX_DEPTH;
use crate::open_map::OpenMap;
use crate::progress::{Frame, Open, Progress};
use ci_yaml_lines::code::Code;
use ci_yaml_lines::tree::{Text, Tree};
use std::alloc::AllocError;

/// One item more. Errors: memory was refused.
pub fn more_items<'a>(items: Vec<Tree<'a>>, value: Tree<'a>) -> Result<Vec<Tree<'a>>, AllocError>
    ensures value { IfOk result (λ v. items_view v.items ≡ push (items_view items.entry.items) [] (value_view value.entry)) }
    ensures spans { IfOk result (λ v. items_texts v.items ≡ items_texts items.entry.items ++ texts_in value.entry) }
{
    let mut items = items;
    items.push(value)?;
    Ok(items)
}

fn with_item<'a>(items: Vec<Tree<'a>>, value: Tree<'a>) -> Result<Tree<'a>, AllocError>
    ensures value { IfOk result (λ t. value_view t ≡ node sequence (push (items_view items.entry.items) [] (value_view value.entry))) }
    ensures spans { IfOk result (λ t. texts_in t ≡ items_texts items.entry.items ++ texts_in value.entry) }
{
    let items = more_items(items, value)?;
    Ok(Tree::List(items))
}

fn with_pair<'a>(map: OpenMap<'a>, key: Text<'a>, value: Tree<'a>) -> Result<Tree<'a>, AllocError>
    ensures value { IfOk result (λ t. value_view t ≡ node mapping (push (pairs_view map.entry.pairs.items) (bytes_of key.entry) (value_view value.entry))) }
    ensures spans { IfOk result (λ t. texts_in t ≡ pairs_texts map.entry.pairs.items ++ (key.entry ∷ texts_in value.entry)) }
{
    let OpenMap { mut pairs, .. } = map;
    pairs.push((key, value))?;
    Ok(Tree::Map(pairs))
}

impl<'a> Frame<'a> {
    /// How deep the node lies.
    pub fn level(&self) -> u64
        ensures { result ≡ level (frame_view self.now) }
    {
        match &self.members {
            Open::Items(_) => 2 * self.column as u64 + 1,
            Open::Pairs(..) => 2 * self.column as u64,
        }
    }

    /// The node, with this value for its last member.
    pub fn close(self, value: Tree<'a>) -> Result<Tree<'a>, AllocError>
        ensures value { IfOk result (λ t. value_view t ≡ closed (frame_view self.entry) (value_view value.entry)) }
        ensures spans { IfOk result (λ t. texts_in t ≡ open_texts self.entry.members ++ texts_in value.entry) }
    {
        match self.members {
            Open::Items(items) => with_item(items, value),
            Open::Pairs(map, key) => with_pair(map, key, value),
        }
    }
}

/// Whether the innermost node lies deeper than this level.
pub fn ends_above(frames: &[Frame], level: u64) -> bool
    ensures { result ≡ top_deeper level (frames_view frames.now) }
{
    match frames {
        [] => false,
        [.., f] => level < f.level(),
    }
}

/// Closes the nodes that lie deeper than this level.
pub fn settled<'a>(
    frames: &mut Vec<Frame<'a>>,
    value: Tree<'a>,
    level: u64,
) -> Result<Tree<'a>, AllocError>
    ensures value { IfOk result (λ v. settle level (frames_view frames.old.items) (value_view value.entry)
        ≡ record { frames = frames_view frames.new.items; value = value_view v }) }
    ensures spans { IfOk result (λ v. frames_texts frames.new.items ++ texts_in v ≡ frames_texts frames.old.items ++ texts_in value.entry) }
{
    let mut value = value;
    while ends_above(frames, level) {
        if let Some(f) = frames.pop() {
            value = f.close(value)?;
        }
    }
    Ok(value)
}

/// The code of an entry that no open node takes.
pub fn misplaced(frames: &[Frame], column: u32) -> Code
    ensures { result ≡ misplaced column (frames_view frames.now) }
{
    for frame in frames {
        if frame.column == column {
            return Code::Y4;
        }
    }
    Code::Y3
}

/// Whether a list is written there.
fn is_node(given: &Option<Tree>) -> bool
    ensures { result ≡ is_node (given_view given.now) }
{
    match given {
        Some(Tree::List(_)) => true,
        Some(Tree::Map(_)) => true,
        _ => false,
    }
}

/// Whether as many nodes are open as may lie within one another.
fn is_full(frames: &[Frame]) -> bool
    ensures { result ≡ nat_le MAX_DEPTH (length frames.now) }
{
    MAX_DEPTH <= frames.len()
}

pub fn with_given<'a>(frames: Vec<Frame<'a>>, given: Option<Tree<'a>>) -> Result<Progress<'a>, Stop>
    ensures value { Gives state_view result (with_given (frames_view frames.entry.items) (given_view given.entry)) }
    ensures spans { IfOk result (λ p. state_texts p ≡ frames_texts frames.entry.items ++ given_texts given.entry) }
{
    if !is_node(&given) {
        return Ok(Progress::Inside(frames, given));
    }
    if is_full(&frames) {
        return Err(Stop::Fault(Code::Y10));
    }
    Ok(Progress::Inside(frames, given))
}

/// Begins a node. Errors: it is too deep; or memory was refused.
pub fn begin<'a>(frames: &mut Vec<Frame<'a>>, frame: Frame<'a>) -> Result<(), Stop>
    ensures value { (g : Option Value) → GivesNodes (λ _. frames_view frames.new.items) result g (if nat_lt (length (frames_view frames.old.items)) MAX_DEPTH
        then with_given (frame_view frame.entry ∷ frames_view frames.old.items) g else Err Y10) }
    ensures spans { IfOk result (λ _. frames_texts frames.new.items ≡ frames_texts frames.old.items ++ open_texts frame.entry.members) }
{
    if is_full(frames) {
        return Err(Stop::Fault(Code::Y10));
    }
    frames.push(frame)?;
    Ok(())
}
