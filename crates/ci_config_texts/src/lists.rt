//! Parts that stand together in rows, and lists as they stand in answers.

use crate::rows::{Part, RowFault};
use std::alloc::{AllocError, Global};

/// The one text of a row.
pub fn only_text(parts: &[Part]) -> Result<&str, RowFault> {
    match parts {
        [part] => part.text().ok_or(RowFault::NotRead),
        _ => Err(RowFault::NotRead),
    }
}

/// The text before the other parts of a row.
pub fn first_text(parts: &[Part]) -> Result<(&str, &[Part]), RowFault> {
    let (first, others) = parts.split_first().ok_or(RowFault::NotRead)?;
    Ok((first.text().ok_or(RowFault::NotRead)?, others))
}

/// Variables, each as `NAME=` and a text behind it.
pub fn variables(alloc: Global, parts: &[Part]) -> Result<Vec<(&str, &str)>, RowFault> {
    let mut found = Vec::new(alloc);
    let mut name: Option<&str> = None;
    for part in parts {
        match name {
            None => {
                let word = part.word().ok_or(RowFault::NotRead)?;
                name = Some(word.strip_suffix('=').ok_or(RowFault::NotRead)?);
            }
            Some(key) => {
                found.push((key, part.text().ok_or(RowFault::NotRead)?))?;
                name = None;
            }
        }
    }
    match name {
        None => Ok(found),
        Some(_) => Err(RowFault::NotRead),
    }
}

/// Texts, each with a `|` behind it; `empty` where there is none.
pub fn joined(alloc: Global, texts: &[&str]) -> Result<String, AllocError> {
    if texts.is_empty() {
        return String::from_str(alloc, "empty");
    }
    let mut all = String::new(alloc);
    for text in texts {
        all.push_str(text)?;
        all.push_str("|")?;
    }
    Ok(all)
}
