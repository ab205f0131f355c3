//! The program `ciserver`.
#![tactic(auto)]

mod admin;
mod blank;
mod cause;
mod commands;
mod file;
mod journal;
mod plan;
mod prune;
mod report;
mod server;
mod serving;
mod shown;
mod sources;

use crate::commands::{command, refuse_memory};
use crate::sources::Sources;
use std::env;
use std::process::ExitCode;

/// The exit status of words that can't be read.
const USAGE: u8 = 2;

fn main(rt: HostRuntime) -> ExitCode {
    ExitCode::from(run(&rt))
}

/// Hands the words of the process, its clock, random bytes, input and outputs to `command`.
fn run(rt: &HostRuntime) -> u8 {
    let Ok(args) = env::args(rt) else {
        let _ = eprintln!(rt; "error: the words of the command line cannot be read");
        return USAGE;
    };
    let Ok(words) = args.collect::<Vec<String>>(rt.alloc()) else {
        return refuse_memory(&mut rt.stdout());
    };
    let sources = Sources {
        clock: rt,
        seeds: rt,
    };
    command(
        rt,
        &words,
        &sources,
        rt.stdin(),
        &mut rt.stdout(),
        &mut rt.stderr(),
    )
}
