//! Which faults come of what was left out for others alone.

use crate::place::Found;
use crate::way::{index_of, is_job, key_at, keyword_at};
use ci_config::ConfigCode;
use ci_yaml::Tree;

/// The keyword of a need, a retry or `allow_failure`, and what its map mustn't lack.
const WANTED: [(&str, &str); 3] = [
    ("needs", "job"),
    ("retry", "max"),
    ("allow_failure", "exit_codes"),
];

/// Was a fault told of the entry of a part with a key, or of one inside of it? The way leads to the part.
fn is_told_of(told: &[Found], way: &[usize], part: &Tree, key: &str) -> bool {
    let Some(index) = index_of(part, key) else {
        return false;
    };
    told.iter().any(|fault| lies_in(fault, way, index))
}

/// Is a fault that of the entry with so many before it, at the end of a way, or of one inside of it?
fn lies_in(fault: &Found, way: &[usize], index: usize) -> bool {
    let origin = fault.origin.as_slice();
    match origin.get(way.len()) {
        Some(step) => *step == index && origin.starts_with(way),
        None => false,
    }
}

/// Was a stage left out that a job may name? One that is listed twice is still there.
fn lost_stage(told: &[Found], file: &Tree) -> bool {
    let Some(index) = index_of(file, "stages") else {
        return false;
    };
    told.iter().any(|fault| lies_in(fault, &[], index) && !matches!(fault.code, ConfigCode::K7))
}

/// Is it the fault of a whole job, which was left out for it?
fn loses_job(fault: &Found, file: &Tree) -> bool {
    let [index] = fault.origin.as_slice() else {
        return false;
    };
    let is_keyword = matches!(fault.code, ConfigCode::K2(_));
    match key_at(file, *index) {
        Some(key) => is_job(key) && !is_keyword,
        None => false,
    }
}

/// Was a fault told of what this part of the file mustn't lack? The way leads to the part.
fn lost_wanted(told: &[Found], file: &Tree, way: &[usize], part: &Tree) -> bool {
    let keyword = keyword_at(file, way);
    WANTED.iter().any(|row| row.0 == keyword && is_told_of(told, way, part, row.1))
}

/// Does a fault come of what was left out for others that were told, alone? It is of the part of the file to which a way leads.
pub fn follows(file: &Tree, part: &Tree, code: ConfigCode, way: &[usize], told: &[Found]) -> bool {
    match code {
        ConfigCode::K4 | ConfigCode::K9 => lost_wanted(told, file, way, part),
        ConfigCode::K5 => is_told_of(told, way, part, "script"),
        ConfigCode::K6 => is_told_of(told, way, part, "stage") || lost_stage(told, file),
        ConfigCode::K15 => told.iter().any(|fault| loses_job(fault, file)),
        _ => false,
    }
}
