//! What the layer that a row names answers.

use crate::checks::{beginnings_of, check_of};
use crate::expressions::{pattern_of, reading_of, tokens_of, value_of};
use crate::fields::field_of;
use crate::files::{file_of, job_of};
use crate::plans::{plan_of, statuses_of};
use crate::rows::{Row, RowFault};
use crate::trees::{places_of, tree_of};
use crate::values::{duration_of, lookup_of};
use std::alloc::Global;

/// What comes of a row.
pub fn answer(alloc: Global, row: &Row) -> Result<String, RowFault> {
    let (verb, parts) = row.parts.split_first().ok_or(RowFault::NotRead)?;
    match verb.word().ok_or(RowFault::NotRead)? {
        "expr" => reading_of(alloc, parts),
        "pattern" => pattern_of(alloc, parts),
        "value" => value_of(alloc, parts),
        "tokens" => tokens_of(alloc, parts),
        "duration" => duration_of(alloc, parts),
        "lookup" => lookup_of(alloc, parts),
        "tree" => tree_of(alloc, parts),
        "places" => places_of(alloc, parts),
        "file" => file_of(alloc, parts),
        "job" => job_of(alloc, parts),
        "field" => field_of(alloc, parts),
        "plan" => plan_of(alloc, parts),
        "statuses" => statuses_of(alloc, parts),
        "check" => check_of(alloc, parts),
        "beginnings" => beginnings_of(alloc, parts),
        _ => Err(RowFault::NotRead),
    }
}
