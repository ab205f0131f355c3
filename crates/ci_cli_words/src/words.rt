//! The words of the command line, which `clap` reads.

ghost use Rattle.std.specs.Prelude.{IfErr, IfOk, map, string_bytes};
ghost use Rattle.clap.specs.Values.{kind_of};
ghost use Rattle.clap.specs.Simple.{subcommand_rows_of};
ghost use Rattle.ci_cli_words.specs.Words.{AsksIn, AsksOn, IsRefused, Reads};

use crate::asked::asked;
use crate::command_line::command_line;
use crate::command_name::command_named;
use crate::task::Task;
use crate::wrong::{text_of, wrong_in};
use clap::error::ErrorKind;
use clap::{ArgMatches, Error};
use std::alloc::{AllocError, Global};

/// What the words of a command line ask for, of which the first is the program's name.
///
/// Errors: they are no command line of this program, or ask for help or the version; or memory was refused.
pub fn task_of<'a>(alloc: Global, words: &'a [String]) -> Result<Task<'a>, Error>
    ensures task { IfOk result (AsksOn (map string_bytes words.entry.now)) }
    ensures fault { IfErr result (λ e. IsRefused (map string_bytes words.entry.now) (kind_of e)) }
{
    let mut command = command_line(alloc)?;
    let matches = command.try_get_matches_from_mut(words)?;
    match task_named(alloc, &matches)? {
        Some(task) => Ok(task),
        None => {
            let text = fault_of(alloc, &matches)?;
            Err(command.error(ErrorKind::InvalidValue, text.as_str())?)
        }
    }
}

/// What the command asks for that was found among the words, by its name. None where the value of an option begins with `-`, or where
/// there is no such report, no such day, no such source, or no such name. Errors: memory was refused.
fn task_named<'a>(alloc: Global, matches: &ArgMatches<'a>) -> Result<Option<Task<'a>>, AllocError>
    ensures { IfOk result (Reads (AsksIn (subcommand_rows_of matches.now))) }
{
    let Some((name, found)) = matches.subcommand() else {
        return Ok(None);
    };
    match command_named(name) {
        Some(command) => asked(alloc, command, found),
        None => Ok(None),
    }
}

/// What is said of values that ask for nothing: which of them is wrong, and what it may be. Errors: memory was refused.
fn fault_of(alloc: Global, matches: &ArgMatches<'_>) -> Result<String, AllocError> {
    if let Some((_, found)) = matches.subcommand() {
        if let Some(wrong) = wrong_in(found) {
            return text_of(alloc, wrong);
        }
    }
    String::from_str(alloc, "a command is wanted, with its options")
}
