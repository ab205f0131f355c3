//! A tree in which an entry is left out.

ghost use Rattle.std.specs.Prelude.{◌≡◌, ◌∷◌, IfOk};
ghost use Rattle.ci_config.specs.Prelude.{value_view, items_view};
ghost use Rattle.ci_yaml.specs.Prelude.{pairs_view};
ghost use Rattle.ci_explain.specs.Told.{without, without_in};

use ci_yaml::{Text, Tree};
use std::alloc::AllocError;

/// The tree without the entry to which a way leads, where there is one.
///
/// Errors: memory was refused.
#[cycle(leaving)]
pub fn left_out<'t>(tree: Tree<'t>, way: &[usize]) -> Result<Tree<'t>, AllocError>
    ensures { IfOk result (λ left. value_view left ≡ without way.now (value_view tree.entry)) }
{
    let Some((index, rest)) = way.split_first() else {
        return Ok(tree);
    };
    match tree {
        Tree::List(items) => Ok(Tree::List(items_left(items, *index, rest)?)),
        Tree::Map(pairs) => Ok(Tree::Map(pairs_left(pairs, *index, rest)?)),
        scalar => Ok(scalar),
    }
}

/// The items without the entry to which a way leads.
#[cycle(leaving)]
fn items_left<'t>(
    items: Vec<Tree<'t>>,
    index: usize,
    rest: &[usize],
) -> Result<Vec<Tree<'t>>, AllocError>
    ensures { IfOk result (λ left. items_view left.items ≡ without_in (items_view items.entry.items) index rest.now) }
{
    let mut items = items;
    if items.len() <= index {
        return Ok(items);
    }
    let item = items.remove(index);
    if rest.is_empty() {
        return Ok(items);
    }
    items.insert(index, left_out(item, rest)?)?;
    Ok(items)
}

/// The pairs without the entry to which a way leads.
#[cycle(leaving)]
fn pairs_left<'t>(
    pairs: Vec<(Text<'t>, Tree<'t>)>,
    index: usize,
    rest: &[usize],
) -> Result<Vec<(Text<'t>, Tree<'t>)>, AllocError>
    ensures { IfOk result (λ left. pairs_view left.items ≡ without_in (pairs_view pairs.entry.items) index rest.now) }
{
    let mut pairs = pairs;
    if pairs.len() <= index {
        return Ok(pairs);
    }
    let (key, value) = pairs.remove(index);
    if rest.is_empty() {
        return Ok(pairs);
    }
    pairs.insert(index, (key, left_out(value, rest)?))?;
    Ok(pairs)
}
