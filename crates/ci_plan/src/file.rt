//! A file that is read, planned and told.

ghost use Rattle.std.specs.Prelude.{◌≡◌, ◌≢◌, Result, IfOk, IfErr, IfSome, codes};
ghost use Rattle.std.specs.Io.KnownBytes.{Appends};
ghost use Rattle.std.specs.IoError.{error_kind};
ghost use Rattle.std.specs.declared.io.Error.{Error};
ghost use Rattle.ci_explain.specs.Verdicts.{TellsUnread};
ghost use Rattle.ci_plan.specs.Said.{Says, IsSaidOf, IsPrintedOf};
ghost use Rattle.ci_plan.specs.TableText.{outcome_text};
ghost use Rattle.ci_plan.specs.declared.verdict.Outcome.TheVariants.{Planned, Refused};

use crate::records::{Note, Plan};
use crate::table::told_text;
use crate::verdict::{Outcome, outcome_of};
use ci_explain::check::{Report, Verdict, first_bytes};
use ci_machine::request::NewPipeline;
use ci_values::items::Items;
use ci_yaml::YamlFault;
use std::alloc::Global;
use std::fs;
use std::io::{self, ErrorKind, Read, Write};
use std::rt::Files;

/// The word that stands for standard input, in the place of a path.
const INPUT: &str = "-";

/// What is said of what a reader gives: of all its bytes, though no more than 65,537 are read.
fn outcome_from<R: Read + Drop>(alloc: Global, reader: R, asked: &NewPipeline) -> Outcome
    ensures { IfSome (R.remaining reader) (λ bytes. Says bytes asked.now result) }
{
    match first_bytes(alloc, reader) {
        Ok(bytes) => outcome_of(alloc, &bytes, asked),
        Err(fault) => Outcome::Refused(unread(&fault)),
    }
}

/// What is said of a file that could not be opened or read: that memory was refused where the fault is that, and else that it
/// could not be read.
fn unread(fault: &io::Error) -> Verdict
    ensures { TellsUnread (error_kind fault.now) result }
{
    if fault.kind() == ErrorKind::OutOfMemory {
        Verdict::Refused(YamlFault::Memory)
    } else {
        Verdict::Unread
    }
}

/// What is said of a file that was opened, or why it wasn't.
fn outcome_in<R: Read + Drop>(alloc: Global, file: io::Result<R>, asked: &NewPipeline) -> Outcome
    ensures { IsSaidOf R.remaining file asked.now result }
{
    match file {
        Ok(reader) => outcome_from(alloc, reader, asked),
        Err(fault) => Outcome::Refused(unread(&fault)),
    }
}

/// Prints that a file is refused, or can't be read. Errors: a write failed.
fn print_refused<W: Write>(word: &str, verdict: Verdict, out: &mut W) -> io::Result<Outcome>
    ensures same { IfOk result (λ o. o ≡ Refused verdict) }
    ensures printed { IfOk result (λ o. Appends (W.contents out.old) (W.contents out.new) (outcome_text word.now o)) }
{
    let report = Report {
        word,
        verdict: &verdict,
    };
    out.write_fmt(report)?;
    Ok(Outcome::Refused(verdict))
}

/// Prints a plan; or that memory was refused, where there is none for its text. Errors: a write failed.
fn print_plan<W: Write>(
    alloc: Global,
    word: &str,
    plan: Plan,
    notes: Items<Note>,
    out: &mut W,
) -> io::Result<Outcome>
    ensures same { IfOk result (IsPrintedOf (Planned plan notes)) }
    ensures printed { IfOk result (λ o. Appends (W.contents out.old) (W.contents out.new) (outcome_text word.now o)) }
{
    match told_text(alloc, &plan, notes.as_slice()) {
        Ok(text) => {
            out.write_all(text.as_bytes())?;
            Ok(Outcome::Planned(plan, notes))
        }
        Err(_) => print_refused(word, Verdict::Refused(YamlFault::Memory), out),
    }
}

/// Prints what is said of what a word names. Errors: a write failed.
fn print<W: Write>(alloc: Global, word: &str, outcome: Outcome, out: &mut W) -> io::Result<Outcome>
    ensures same { IfOk result (IsPrintedOf outcome) }
    ensures printed { IfOk result (λ o. Appends (W.contents out.old) (W.contents out.new) (outcome_text word.now o)) }
{
    match outcome {
        Outcome::Planned(plan, notes) => print_plan(alloc, word, plan, notes, out),
        Outcome::Refused(verdict) => print_refused(word, verdict, out),
    }
}

/// Says what a pipeline would be which is asked for so, of what a word names, and prints it: the input that is handed in where the word
/// is `-`, and else the file at that path. What is answered was printed.
///
/// Errors: a write failed.
pub fn plan_word<F: Files, R: Read + Drop, W: Write>(
    files: &F,
    alloc: Global,
    word: &str,
    asked: &NewPipeline,
    input: R,
    out: &mut W,
) -> io::Result<Outcome>
    ensures input { word.now ≡ codes "-" → IfOk result (λ o. IfSome (R.remaining input) (λ bytes. Says bytes asked.now o)) }
    ensures read { word.now ≢ codes "-" → IfOk result (λ o. (file : Result F.File Error) × IsSaidOf F.File.remaining file asked.now o) }
    ensures printed { IfOk result (λ o. Appends (W.contents out.old) (W.contents out.new) (outcome_text word.now o)) }
{
    if word == INPUT {
        let outcome = outcome_in(alloc, Ok(input), asked);
        print(alloc, word, outcome, out)
    } else {
        let outcome = outcome_in(alloc, fs::open(files, word), asked);
        print(alloc, word, outcome, out)
    }
}
