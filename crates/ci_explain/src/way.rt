//! Ways through a file: which entries are on them, and what became of a way whose file lost entries.

use crate::line::line_of_item;
use crate::place::Found;
use ci_yaml::Tree;
use std::alloc::{AllocError, Global};

/// Is it the key of a job?
pub fn is_job(key: &str) -> bool {
    key != "stages" && key != "variables" && !key.starts_with('.')
}

/// How many entries of a map stand before the one with a key.
pub fn index_of(tree: &Tree, key: &str) -> Option<usize> {
    match tree {
        Tree::Map(pairs) => pairs.iter().position(|pair| pair.0.as_str() == key),
        _ => None,
    }
}

/// The key of the entry of a map that has so many before it.
pub fn key_at<'t>(tree: &'t Tree, index: usize) -> Option<&'t str> {
    match tree {
        Tree::Map(pairs) => Some(pairs.get(index)?.0.as_str()),
        _ => None,
    }
}

/// The part of a file to which a way leads.
pub fn part_at<'t, 'a>(file: &'t Tree<'a>, way: &[usize]) -> Option<&'t Tree<'a>> {
    let Some((index, rest)) = way.split_first() else {
        return Some(file);
    };
    match file {
        Tree::List(items) => part_at(items.get(*index)?, rest),
        Tree::Map(pairs) => part_at(&pairs.get(*index)?.1, rest),
        _ => None,
    }
}

/// The line on which the entry at the end of a way begins, in a part that begins on this one.
pub fn line_at(lines: &[&str], part: &Tree, way: &[usize], line: usize) -> usize {
    let Some((index, rest)) = way.split_first() else {
        return line;
    };
    match part {
        Tree::List(items) => match items.get(*index) {
            Some(item) => {
                let begin = line_of_item(lines, items.as_slice(), *index, line);
                line_at(lines, item, rest, begin)
            }
            None => line,
        },
        Tree::Map(pairs) => match pairs.get(*index) {
            Some(pair) => line_at(lines, &pair.1, rest, pair.0.span.start.line),
            None => line,
        },
        _ => line,
    }
}

/// The keyword whose value the entry at the end of a way is in, in a part that is in the value of this one.
fn keyword_in<'t>(part: &'t Tree, way: &[usize], keyword: &'t str) -> &'t str {
    let Some((index, rest)) = way.split_first() else {
        return keyword;
    };
    match part {
        Tree::List(items) => match items.get(*index) {
            Some(item) => keyword_in(item, rest, keyword),
            None => keyword,
        },
        Tree::Map(pairs) if keyword != "variables" => match pairs.get(*index) {
            Some(pair) => keyword_in(&pair.1, rest, pair.0.as_str()),
            None => keyword,
        },
        _ => keyword,
    }
}

/// The keyword whose value the entry at the end of a way is in: `jobs` for a whole job, and nothing for the file.
pub fn keyword_at<'t>(file: &'t Tree, way: &[usize]) -> &'t str {
    let Some((index, rest)) = way.split_first() else {
        return "";
    };
    match file {
        Tree::Map(pairs) => match pairs.get(*index) {
            Some(pair) if is_job(pair.0.as_str()) => keyword_in(&pair.1, rest, "jobs"),
            _ => keyword_in(file, way, ""),
        },
        _ => "",
    }
}

/// Makes of a way in a file without an entry, to which a way leads, the way in the file with it.
fn step_over(way: &mut [usize], left_out: &[usize]) {
    let Some((last, before)) = left_out.split_last() else {
        return;
    };
    let depth = before.len();
    if !way.starts_with(before) {
        return;
    }
    if let Some(step) = way.get_mut(depth) {
        if *last <= *step {
            *step = step.saturating_add(1);
        }
    }
}

/// The way in the file as it is to where this way leads without the entries of the faults that were told.
///
/// Errors: memory was refused.
pub fn origin_of(alloc: Global, way: &[usize], told: &[Found]) -> Result<Vec<usize>, AllocError> {
    let mut origin = Vec::from_slice(alloc, way)?;
    for fault in told.iter().rev() {
        step_over(origin.as_mut_slice(), fault.way.as_slice());
    }
    Ok(origin)
}
