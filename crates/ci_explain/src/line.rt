//! The lines of a source on which the items of its lists begin.

use ci_yaml::{Place, Tree};

/// The line on which a text is written that begins or ends at a place. A literal block begins where the line behind its header does, and
/// ends where the line behind its last one does.
fn line_before(place: Place) -> usize {
    if place.column == 0 {
        place.line.saturating_sub(1)
    } else {
        place.line
    }
}

/// The line on which the first text of a tree begins. None where it begins with none.
fn first_line(tree: &Tree) -> Option<usize> {
    match tree {
        Tree::Text(text) => Some(line_before(text.span.start)),
        Tree::List(items) => first_line(items.first()?),
        Tree::Map(pairs) => Some(pairs.first()?.0.span.start.line),
        _ => None,
    }
}

/// The line on which the last text of a tree ends. None where it ends with none.
fn last_line(tree: &Tree) -> Option<usize> {
    match tree {
        Tree::Text(text) => Some(line_before(text.span.end)),
        Tree::List(items) => last_line(items.last()?),
        Tree::Map(pairs) => {
            let pair = pairs.last()?;
            match last_line(&pair.1) {
                Some(line) => Some(line),
                None => Some(pair.0.span.end.line),
            }
        }
        _ => None,
    }
}

/// Does this line hold the beginning of a flow list, and not in a comment?
fn begins_flow_list(lines: &[&str], line: usize) -> bool {
    let Some(text) = lines.get(line.saturating_sub(1)) else {
        return false;
    };
    match text.split_once('[') {
        Some((before, _)) => !before.contains(" #"),
        None => false,
    }
}

/// The first line behind a line that begins with a dash, where nothing but comments and empty lines stand between; else the line itself.
fn next_item(lines: &[&str], behind: usize) -> usize {
    let mut number = behind;
    for line in lines.iter().skip(behind) {
        number = number.saturating_add(1);
        let text = line.trim_start();
        if text.is_empty() || text.starts_with('#') {
            continue;
        }
        return if text.starts_with('-') {
            number
        } else {
            behind
        };
    }
    behind
}

/// The line on which an item begins that has so many before it, in a list that begins on this line.
pub fn line_of_item(lines: &[&str], items: &[Tree], index: usize, list: usize) -> usize {
    let is_flow = begins_flow_list(lines, list);
    let mut line = list;
    let mut last = list;
    for item in items.iter().take(index.saturating_add(1)) {
        line = match first_line(item) {
            Some(first) => first,
            None if is_flow => last,
            None => next_item(lines, last),
        };
        last = last_line(item).unwrap_or(line);
    }
    line
}
