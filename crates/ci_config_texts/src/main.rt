//! What `ciserver check` says of each stored CI file, and what the layers of a CI file answer to the rows of each table.
//!
//! The files of data/ are texts whose answers were worked out by hand from docs/PROFILE.md. The stored run names them
//! all, in the file args, and the file stdout has the answers. A table says itself what is wanted.
#![tactic(auto)]

mod answer;
mod begun;
mod checks;
mod expressions;
mod fields;
mod files;
mod lists;
mod plans;
mod rows;
mod tables;
mod trees;
mod values;

use ci_explain::check::check_word;
use std::env;
use std::io::{self, Write};
use tables::try_table;

/// Prints what is said of a CI file, or of standard input for `-`.
fn try_file(rt: &HostRuntime, word: &str) -> io::Result<()> {
    let mut said: Vec<u8> = Vec::new(rt.alloc());
    let verdict = check_word(rt, rt.alloc(), word, rt.stdin(), &mut said)?;
    let status = verdict.status();
    print!(rt; "{word} {status} ")?;
    rt.stdout().write_all(&said)
}

fn main(rt: HostRuntime) -> io::Result<()> {
    for word in env::args(&rt)?.skip(1) {
        if word.as_str().ends_with(".rows") {
            try_table(&rt, word.as_str())?;
        } else {
            try_file(&rt, word.as_str())?;
        }
    }
    Ok(())
}
