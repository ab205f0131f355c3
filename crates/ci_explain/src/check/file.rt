//! A file that is read, judged and reported.

ghost use Rattle.std.specs.Prelude.{◌≡◌, ◌≢◌, ◌+◌, take, Result, IfOk, IfErr, IfSome, Some, codes};
ghost use Rattle.std.specs.Io.KnownBytes.{Appends};
ghost use Rattle.std.specs.IoError.{error_kind};
ghost use Rattle.std.specs.declared.io.Error.{Error};
ghost use Rattle.std.specs.declared.io.ErrorKind.TheVariants.{Interrupted};
ghost use Rattle.ci_config.specs.Prelude.{MAX_FILE_BYTES};
ghost use Rattle.ci_explain.specs.Verdicts.{Fits, TellsUnread, IsSaidOf, report_line};

use crate::check::verdict::{Verdict, verdict_of};
use ci_config::ConfigFault;
use ci_values::limits::MAX_FILE_BYTES;
use ci_yaml::YamlFault;
use std::alloc::Global;
use std::io::{self, ErrorKind, Read, Write};
use std::rt::Files;
use std::{fmt, fs};

/// How many bytes of a file are read: one more than a file may have.
const READ_LIMIT: u64 = MAX_FILE_BYTES as u64 + 1;

/// The word that stands for standard input, in the place of a path.
const INPUT: &str = "-";

/// The first bytes of a reader: all of them, or 65,537 where it has more.
///
/// Errors: a read failed, and not only because it was interrupted; or memory was refused.
pub fn first_bytes<R: Read + Drop>(alloc: Global, reader: R) -> io::Result<Vec<u8>>
    ensures bytes { IfOk result (λ read. IfSome (R.remaining reader) (λ bytes. read.items ≡ take (MAX_FILE_BYTES + 1) bytes)) }
    ensures retried { IfErr result (λ fault. error_kind fault ≢ Interrupted) }
{
    let mut bytes = Vec::new(alloc);
    reader.take(READ_LIMIT).read_to_end(&mut bytes)?;
    Ok(bytes)
}

/// What is said of what a word names, a file's path or `-`, as the line that is printed.
#[derive(Clone, Copy)]
pub struct Report<'a> {
    pub word: &'a str,
    pub verdict: &'a Verdict,
}

impl<'a> fmt::Display for Report<'a> {
    ghost output = { λ r. Some (report_line r.word.now r.verdict.now) };

    fn fmt<W: fmt::Write>(&self, f: &mut fmt::Formatter<W>) -> fmt::Result {
        match self.verdict {
            Verdict::Configures(jobs) => writeln!(f, "jobs: {jobs}"),
            Verdict::Refused(YamlFault::Memory) => writeln!(f, "refused: M16"),
            Verdict::Refused(fault) => writeln!(f, "refused: {fault}"),
            Verdict::Misconfigured(ConfigFault::Memory) => writeln!(f, "refused: M16"),
            Verdict::Misconfigured(ConfigFault::Fault(code)) => writeln!(f, "refused: {code}"),
            Verdict::NotText | Verdict::Unread => {
                let word = self.word;
                writeln!(f, "cannot read {word}")
            }
        }
    }
}

/// What is said of what a reader gives: of all its bytes, though no more than 65,537 are read.
fn judge<R: Read + Drop>(alloc: Global, reader: R) -> Verdict
    ensures { IfSome (R.remaining reader) (λ bytes. Fits bytes result) }
{
    match first_bytes(alloc, reader) {
        Ok(bytes) => verdict_of(alloc, &bytes),
        Err(fault) => unread(&fault),
    }
}

/// What is said of a file that could not be opened or read: that memory was refused where the fault is that, and else that it
/// could not be read.
fn unread(fault: &io::Error) -> Verdict
    ensures { TellsUnread (error_kind fault.now) result }
{
    if fault.kind() == ErrorKind::OutOfMemory {
        Verdict::Refused(YamlFault::Memory)
    } else {
        Verdict::Unread
    }
}

/// Judges the file that was opened, and prints what is said of it, by the word that names it.
///
/// Errors: a write failed.
pub fn check<R: Read + Drop, W: Write>(
    alloc: Global,
    word: &str,
    file: io::Result<R>,
    out: &mut W,
) -> io::Result<Verdict>
    ensures fits { IfOk result (λ verdict. IfOk file (λ reader. IfSome (R.remaining reader) (λ bytes. Fits bytes verdict))) }
    ensures unread { IfErr file (λ fault. IfOk result (TellsUnread (error_kind fault))) }
    ensures printed { IfOk result (λ verdict. Appends (W.contents out.old) (W.contents out.new) (report_line word.now verdict)) }
{
    let verdict = match file {
        Ok(reader) => judge(alloc, reader),
        Err(fault) => unread(&fault),
    };
    let report = Report {
        word,
        verdict: &verdict,
    };
    out.write_fmt(report)?;
    Ok(verdict)
}

/// Opens the file at a path, judges it, and prints what is said of it: of the bytes that the file's reader tells, or why it wasn't
/// opened.
///
/// Errors: a write failed.
pub fn check_path<F: Files, W: Write>(
    files: &F,
    alloc: Global,
    path: &str,
    out: &mut W,
) -> io::Result<Verdict>
    ensures read { IfOk result (λ verdict. (file : Result F.File Error) × IsSaidOf F.File.remaining file verdict) }
    ensures printed { IfOk result (λ verdict. Appends (W.contents out.old) (W.contents out.new) (report_line path.now verdict)) }
{
    check(alloc, path, fs::open(files, path), out)
}

/// Judges what a word names, and prints what is said of it: the input that is handed in where the word is `-`, and else the
/// file at that path.
///
/// Errors: a write failed.
pub fn check_word<F: Files, R: Read + Drop, W: Write>(
    files: &F,
    alloc: Global,
    word: &str,
    input: R,
    out: &mut W,
) -> io::Result<Verdict>
    ensures input { word.now ≡ codes "-" → IfOk result (λ verdict. IfSome (R.remaining input) (λ bytes. Fits bytes verdict)) }
    ensures read { word.now ≢ codes "-" → IfOk result (λ verdict. (file : Result F.File Error) × IsSaidOf F.File.remaining file verdict) }
    ensures printed { IfOk result (λ verdict. Appends (W.contents out.old) (W.contents out.new) (report_line word.now verdict)) }
{
    if word == INPUT {
        check(alloc, word, Ok(input), out)
    } else {
        check_path(files, alloc, word, out)
    }
}
