//! What a text means: its tree, and the places of its texts.

use crate::lists::only_text;
use crate::rows::{Part, RowFault};
use ci_yaml::{Text, Tree, Words, YamlFault, read};
use std::alloc::{AllocError, Global};

/// Puts a text behind another, in angle brackets.
fn put_text(out: &mut String, text: &str) -> Result<(), AllocError> {
    out.push_str("<")?;
    out.push_str(text)?;
    out.push_str(">")
}

/// Puts a tree behind a text, on one line: texts in angle brackets, pairs as `key:value`, each member with a `;` behind it.
fn put_tree(out: &mut String, tree: &Tree) -> Result<(), AllocError> {
    match tree {
        Tree::Null => out.push_str("null"),
        Tree::Bool(true) => out.push_str("true"),
        Tree::Bool(false) => out.push_str("false"),
        Tree::Int(n) => write!(out, "{n}"),
        Tree::Text(text) => put_text(out, text.as_str()),
        Tree::List(items) => {
            out.push_str("[")?;
            for item in items {
                put_tree(out, item)?;
                out.push_str(";")?;
            }
            out.push_str("]")
        }
        Tree::Map(pairs) => {
            out.push_str("{")?;
            for (key, value) in pairs {
                put_text(out, key.as_str())?;
                out.push_str(":")?;
                put_tree(out, value)?;
                out.push_str(";")?;
            }
            out.push_str("}")
        }
    }
}

/// The tree of a text, or the code of its fault.
pub fn tree_of(alloc: Global, parts: &[Part]) -> Result<String, RowFault> {
    let mut out = String::new(alloc);
    match read(alloc, only_text(parts)?) {
        Ok(tree) => put_tree(&mut out, &tree)?,
        Err(YamlFault::Memory) => return Err(RowFault::Memory),
        Err(fault) => write!(out, "{fault}")?,
    }
    Ok(out)
}

/// Puts a text and its place behind another: whether it is a slice of its source, and its columns.
fn put_place(out: &mut String, text: &Text) -> Result<(), AllocError> {
    let span = text.span;
    let first = span.start.line;
    let start = span.start.column;
    let last = span.end.line;
    let end = span.end.column;
    let words = text.as_str();
    let kind = match &text.words {
        Words::Lent(_) => "lent",
        Words::Owned(_) => "owned",
    };
    write!(out, "{kind} {words} {first}.{start} {last}.{end}|")
}

/// Puts the place of a value behind a text, where it is a text, or the places of the texts that stand in its list.
fn put_places(out: &mut String, value: &Tree) -> Result<(), AllocError> {
    match value {
        Tree::Text(text) => put_place(out, text),
        Tree::List(items) => {
            for item in items {
                if let Tree::Text(text) = item {
                    put_place(out, text)?;
                }
            }
            Ok(())
        }
        _ => Ok(()),
    }
}

/// The places of the keys of a text's map, and of the texts that are their values or stand in their lists.
pub fn places_of(alloc: Global, parts: &[Part]) -> Result<String, RowFault> {
    let mut out = String::new(alloc);
    match read(alloc, only_text(parts)?) {
        Ok(Tree::Map(pairs)) => {
            for (key, value) in &pairs {
                put_place(&mut out, key)?;
                put_places(&mut out, value)?;
            }
        }
        Ok(_other) => out.push_str("no map")?,
        Err(YamlFault::Memory) => return Err(RowFault::Memory),
        Err(fault) => write!(out, "{fault}")?,
    }
    Ok(out)
}
