//! An entry after the entries before it.

ghost use Rattle.std.specs.Prelude.{◌≡◌, ◌∷◌, ◌++◌, [], Option, Some, None, IfOk, IfSome};
ghost use Rattle.ci_yaml.specs.declared.progress.Frame.{Frame};
ghost use Rattle.ci_yaml.specs.declared.progress.Open.TheVariants.{Items, Pairs};
ghost use Rattle.ci_yaml_lines.specs.Prelude.{Value, sequence, mapping, dash, key, bytes_of, value_view, given_view, texts_in, given_texts};
ghost use Rattle.ci_yaml.specs.View.{frames_view, GivesNodes, NoneJoins};
ghost use Rattle.ci_yaml.specs.Reading.{joined, begins, value_of, entered};
ghost use Rattle.ci_yaml.specs.Spans.{frames_texts};

use crate::fault::Stop;
use crate::nodes::{begin, misplaced, more_items, settled};
use crate::open_map::OpenMap;
use crate::progress::{Frame, Open};
use ci_yaml_lines::code::Code;
use ci_yaml_lines::tree::{Text, Tree};
use std::alloc::Global;

/// The items of the innermost node, taken from the others, if it is a list in this column.
fn pop_items<'a>(frames: &mut Vec<Frame<'a>>, column: u32) -> Option<Vec<Tree<'a>>>
    ensures list { IfSome result (λ v. frames.old.items ≡ frames.new.items ++ (record { column = column; members = Items v }) ∷ []) }
    ensures other { result ≡ None → NoneJoins sequence column (frames_view frames.old.items) }
{
    let frame = frames.pop()?;
    if frame.column != column {
        return None;
    }
    match frame.members {
        Open::Items(items) => Some(items),
        Open::Pairs(..) => None,
    }
}

/// The pairs of the innermost node and its last key, taken from the others, if it is a map in this column.
fn pop_pairs<'a>(frames: &mut Vec<Frame<'a>>, column: u32) -> Option<(OpenMap<'a>, Text<'a>)>
    ensures map { IfSome result (λ p. frames.old.items ≡ frames.new.items ++ (record { column = column; members = Pairs p.0 p.1 }) ∷ []) }
    ensures other { result ≡ None → NoneJoins mapping column (frames_view frames.old.items) }
{
    let frame = frames.pop()?;
    if frame.column != column {
        return None;
    }
    match frame.members {
        Open::Items(_) => None,
        Open::Pairs(pairs, last) => Some((pairs, last)),
    }
}

/// Adds the next item to the innermost node, after this value. Errors: the code, if the node is no list in this column; or
/// memory was refused.
fn join_item<'a>(
    frames: &mut Vec<Frame<'a>>,
    value: Tree<'a>,
    misplaced: Code,
    column: u32,
) -> Result<(), Stop>
    ensures value { (g : Option Value) → GivesNodes (λ _. frames_view frames.new.items) result g (joined misplaced (frames_view frames.old.items) (value_view value.entry) sequence []
        (record { column = column; head = dash; given = g })) }
    ensures spans { IfOk result (λ _. frames_texts frames.new.items ≡ frames_texts frames.old.items ++ texts_in value.entry) }
{
    let Some(items) = pop_items(frames, column) else {
        return Err(Stop::Fault(misplaced));
    };
    let items = more_items(items, value)?;
    frames.push(Frame {
        column,
        members: Open::Items(items),
    })?;
    Ok(())
}

/// Adds the next key to the innermost node, after this value. Errors: the code, if the node is no map in this column, or the key
/// stands there already; or memory was refused.
fn join_pair<'a>(
    alloc: Global,
    frames: &mut Vec<Frame<'a>>,
    value: Tree<'a>,
    misplaced: Code,
    column: u32,
    name: Text<'a>,
) -> Result<(), Stop>
    ensures value { (g : Option Value) → GivesNodes (λ _. frames_view frames.new.items) result g (joined misplaced (frames_view frames.old.items) (value_view value.entry) mapping (bytes_of name.entry)
        (record { column = column; head = key (bytes_of name.entry); given = g })) }
    ensures spans { IfOk result (λ _. frames_texts frames.new.items ≡ frames_texts frames.old.items ++ (texts_in value.entry ++ name.entry ∷ [])) }
{
    let Some((pairs, last)) = pop_pairs(frames, column) else {
        return Err(Stop::Fault(misplaced));
    };
    let pairs = pairs.more(alloc, last, value)?;
    if pairs.has_key(name.as_str()) {
        return Err(Stop::Fault(Code::Y5));
    }
    frames.push(Frame {
        column,
        members: Open::Pairs(pairs, name),
    })?;
    Ok(())
}

/// Whether an entry at this level begins the value that is awaited.
fn is_awaited(frames: &[Frame], given: &Option<Tree>, level: u64) -> bool
    ensures { result ≡ begins level (frames_view frames.now) (given_view given.now) }
{
    match given {
        Some(_) => false,
        None => match frames {
            [] => false,
            [.., frame] => frame.level() < level,
        },
    }
}

pub fn or_null<'a>(given: Option<Tree<'a>>) -> Tree<'a>
    ensures value { value_view result ≡ value_of (given_view given.entry) }
    ensures spans { texts_in result ≡ given_texts given.entry }
{
    match given {
        Some(value) => value,
        None => Tree::Null,
    }
}

/// An item after open nodes, where this was given for the last entry's value.
pub fn enter_item<'a>(
    alloc: Global,
    frames: &mut Vec<Frame<'a>>,
    awaiting: Option<Tree<'a>>,
    column: u32,
) -> Result<(), Stop>
    ensures value { (g : Option Value) → GivesNodes (λ _. frames_view frames.new.items) result g (entered (frames_view frames.old.items) (given_view awaiting.entry) sequence []
        (record { column = column; head = dash; given = g })) }
    ensures spans { IfOk result (λ _. frames_texts frames.new.items ≡ frames_texts frames.old.items ++ given_texts awaiting.entry) }
{
    let level = 2 * column as u64 + 1;
    if is_awaited(frames, &awaiting, level) {
        let members = Open::Items(Vec::new(alloc));
        return begin(frames, Frame { column, members });
    }
    let code = misplaced(frames, column);
    let value = settled(frames, or_null(awaiting), level)?;
    join_item(frames, value, code, column)
}

/// A key after open nodes, where this was given for the last entry's value.
pub fn enter_pair<'a>(
    alloc: Global,
    frames: &mut Vec<Frame<'a>>,
    awaiting: Option<Tree<'a>>,
    column: u32,
    name: Text<'a>,
) -> Result<(), Stop>
    ensures value { (g : Option Value) → GivesNodes (λ _. frames_view frames.new.items) result g (entered (frames_view frames.old.items) (given_view awaiting.entry) mapping (bytes_of name.entry)
        (record { column = column; head = key (bytes_of name.entry); given = g })) }
    ensures spans { IfOk result (λ _. frames_texts frames.new.items ≡ frames_texts frames.old.items ++ (given_texts awaiting.entry ++ name.entry ∷ [])) }
{
    let level = 2 * column as u64;
    if is_awaited(frames, &awaiting, level) {
        let members = Open::Pairs(OpenMap::new(alloc), name);
        return begin(frames, Frame { column, members });
    }
    let code = misplaced(frames, column);
    let value = settled(frames, or_null(awaiting), level)?;
    join_pair(alloc, frames, value, code, column, name)
}
