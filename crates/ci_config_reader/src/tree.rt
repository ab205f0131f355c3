//! Trees of one kind.

ghost use Rattle.std.specs.Prelude.{◌≡◌};
ghost use Rattle.ci_config.specs.Prelude.{value_view, GivesAt, is_text, is_bool, is_number, is_map, text_of, bool_of, list_of, map_of, values_view, pairs_view};
ghost use Rattle.ci_config.specs.Values.{number_of};

use ci_config::{ConfigCode, ReadFault};
use ci_yaml_lines::tree::{Text, Tree};

/// Is it a text?
pub fn is_text(tree: &Tree) -> bool
    ensures { result ≡ is_text (value_view tree.now) }
{
    matches!(tree, Tree::Text(_))
}

/// Is it `true` or `false`?
pub fn is_bool(tree: &Tree) -> bool
    ensures { result ≡ is_bool (value_view tree.now) }
{
    matches!(tree, Tree::Bool(_))
}

/// Is it a number?
pub fn is_number(tree: &Tree) -> bool
    ensures { result ≡ is_number (value_view tree.now) }
{
    matches!(tree, Tree::Int(_))
}

/// Is it a map?
pub fn is_map(tree: &Tree) -> bool
    ensures { result ≡ is_map (value_view tree.now) }
{
    matches!(tree, Tree::Map(_))
}

/// A text.
pub fn text_of<'t>(tree: &'t Tree) -> Result<&'t str, ReadFault>
    ensures { GivesAt (λ s. s.now) result (text_of (value_view tree.now)) }
{
    match tree {
        Tree::Text(text) => Ok(text.as_str()),
        _ => Err(ReadFault::Here(ConfigCode::K4)),
    }
}

/// `true` or `false`.
pub fn bool_of(tree: &Tree) -> Result<bool, ReadFault>
    ensures { GivesAt (λ b. b) result (bool_of (value_view tree.now)) }
{
    match tree {
        Tree::Bool(value) => Ok(*value),
        _ => Err(ReadFault::Here(ConfigCode::K4)),
    }
}

/// A number.
pub fn number_of(tree: &Tree) -> Result<i64, ReadFault>
    ensures { GivesAt (λ n. n) result (number_of (value_view tree.now)) }
{
    match tree {
        Tree::Int(number) => Ok(*number),
        _ => Err(ReadFault::Here(ConfigCode::K4)),
    }
}

/// The items of a list.
pub fn list_of<'t, 'a>(tree: &'t Tree<'a>) -> Result<&'t [Tree<'a>], ReadFault>
    ensures { GivesAt (λ s. values_view s.now) result (list_of (value_view tree.now)) }
{
    match tree {
        Tree::List(items) => Ok(items.as_slice()),
        _ => Err(ReadFault::Here(ConfigCode::K4)),
    }
}

/// The pairs of a map.
pub fn map_of<'t, 'a>(tree: &'t Tree<'a>) -> Result<&'t [(Text<'a>, Tree<'a>)], ReadFault>
    ensures { GivesAt (λ s. pairs_view s.now) result (map_of (value_view tree.now)) }
{
    match tree {
        Tree::Map(pairs) => Ok(pairs.as_slice()),
        _ => Err(ReadFault::Here(ConfigCode::K4)),
    }
}
