//! Where a fault of a CI file is, and what is said of it.

ghost use Rattle.std.specs.Prelude.{◌≡◌, IfOk};
ghost use Rattle.ci_config.specs.Prelude.{placed, code_view};
ghost use Rattle.ci_explain.specs.Told.{told_view};

use crate::follow::follows;
use crate::hint::hint_of;
use crate::way::{index_of, is_job, key_at, keyword_at, line_at, origin_of, part_at};
use ci_config::ConfigCode;
use ci_values::text::is_name;
use ci_yaml::Tree;
use std::alloc::{AllocError, Global};

/// A fault of a file.
#[derive(Drop)]
pub struct Found {
    /// The line that it is on, counted from 1.
    pub line: usize,
    /// The job that it is in.
    pub job: Option<String>,
    /// The number of the rule that it is in, counted from 1 in its job.
    pub rule: Option<usize>,
    pub code: ConfigCode,
    /// What is said of it, in the user's words.
    pub hint: &'static str,
    /// The way to the entry that is left out for it: of each list or map on it, how many entries stand before the next, where the
    /// entries of the faults before it are left out. Empty for a fault of the whole file.
    pub way: Vec<usize>,
    /// The way to the same entry in the file as it is.
    pub origin: Vec<usize>,
    /// Does it come of what was left out alone? Then it isn't printed.
    pub follows: bool,
}

/// A file as it is.
#[derive(Clone, Copy)]
pub struct Source<'t, 'a> {
    pub lines: &'t [&'t str],
    pub tree: &'t Tree<'a>,
}

/// The entry of a job that a fault of the whole job speaks of.
fn entry_meant(code: ConfigCode) -> Option<&'static str> {
    match code {
        ConfigCode::K5 => Some("script"),
        ConfigCode::K6 => Some("stage"),
        _ => None,
    }
}

/// The name of the job that the entry at the end of a way is in, where it is a name; none of a keyword of the file that is left out.
fn job_of(
    alloc: Global,
    file: &Tree,
    way: &[usize],
    code: ConfigCode,
) -> Result<Option<String>, AllocError> {
    let Some((index, inner)) = way.split_first() else {
        return Ok(None);
    };
    let is_left_out = inner.is_empty() && matches!(code, ConfigCode::K2(_));
    match key_at(file, *index) {
        Some(key) if is_job(key) && is_name(key) && !is_left_out => {
            Ok(Some(String::from_str(alloc, key)?))
        }
        _ => Ok(None),
    }
}

/// The number of the rule that the entry at the end of a way is in.
fn rule_of(file: &Tree, way: &[usize]) -> Option<usize> {
    let [job, entry, item, ..] = way else {
        return None;
    };
    let entries = part_at(file, &[*job])?;
    if key_at(entries, *entry)? == "rules" {
        return Some(item.saturating_add(1));
    }
    None
}

impl Source<'_, '_> {
    /// The fault with a code that is told of the entry at the end of a way behind others, in the file without their entries; of the whole
    /// file where the way has no step.
    ///
    /// Errors: memory was refused.
    pub fn found(
        &self,
        alloc: Global,
        code: ConfigCode,
        way: Vec<usize>,
        told: &[Found],
    ) -> Result<Found, AllocError>
        ensures { IfOk result (λ fault. told_view fault ≡ placed (code_view code) way.items) }
    {
        let origin = origin_of(alloc, way.as_slice(), told)?;
        let mut shown = Vec::from_slice(alloc, origin.as_slice())?;
        let part = part_at(self.tree, origin.as_slice()).unwrap_or(self.tree);
        let follows = follows(self.tree, part, code, origin.as_slice(), told);
        if let Some(index) = entry_meant(code).and_then(|key| index_of(part, key)) {
            shown.push(index)?;
        }
        Ok(Found {
            line: line_at(self.lines, self.tree, shown.as_slice(), 1),
            job: job_of(alloc, self.tree, origin.as_slice(), code)?,
            rule: rule_of(self.tree, origin.as_slice()),
            code,
            hint: hint_of(code, keyword_at(self.tree, shown.as_slice())),
            way,
            origin,
            follows,
        })
    }
}
