//! What is said of a file: of its bytes, and of what a word names.

ghost use Rattle.std.specs.Prelude.{◌≡◌, ◌⊎◌, ◌++◌, IfOk, OnOk, string_bytes};
ghost use Rattle.std.specs.Io.KnownBytes.{Appends};
ghost use Rattle.ci_explain.specs.Verdicts.{Fits, report_line, status};
ghost use Rattle.ci_explain.specs.declared.check.verdict.Verdict.{Verdict};
ghost use Rattle.ci_explain.specs.Said.{IsSaid, IsWritten, Reports, ReportsOne};

use crate::check::{Report, Verdict, first_bytes, verdict_of};
use crate::report::{put_convert, put_report};
use crate::turn::faults;
use crate::yaml::put_yaml_fault;
use ci_config::ConfigFault;
use ci_yaml::{Code, YamlFault, read};
use std::alloc::{AllocError, Global};
use std::fs;
use std::io::{self, ErrorKind, Read, Write};
use std::rt::Files;

/// The exit status where what is to be said can't be written.
const BROKEN_OFF: u8 = 3;

/// The word that stands for standard input, in the place of a path.
const INPUT: &str = "-";

/// What is said of a file, and the exit status that goes with it.
#[derive(Drop)]
pub struct Explained {
    pub text: String,
    pub status: u8,
}

/// Puts the line of a verdict behind a text, as `check` prints it.
fn put_verdict(text: &mut String, word: &str, verdict: &Verdict) -> Result<(), AllocError>
    ensures { OnOk result (string_bytes text.new ≡ string_bytes text.old ++ report_line word.now verdict.now) }
{
    let report = Report { word, verdict };
    write!(text, "{report}")
}

/// What is said of a file's bytes, by the word that names it: each fault in turn, and how to convert a file of GitLab's; or what `check`
/// says where there is none. The exit status is that of `check`.
///
/// Errors: memory was refused.
pub fn explain(alloc: Global, word: &str, bytes: &[u8]) -> Result<Explained, AllocError>
    ensures { IfOk result (λ said. (verdict : Verdict) × Fits bytes.now verdict × (said.status ≡ status verdict) × IsSaid bytes.now word.now verdict (string_bytes said.text)) }
{
    let verdict = verdict_of(alloc, bytes);
    let status = verdict.status();
    let mut text = String::new(alloc);
    match &verdict {
        Verdict::Refused(YamlFault::Fault(code, line)) => {
            text = fault_text(alloc, word, bytes, *code, *line)?;
        }
        Verdict::Misconfigured(ConfigFault::Fault(_)) => {
            text = faults_text(alloc, word, bytes)?;
        }
        _ => put_verdict(&mut text, word, &verdict)?,
    }
    Ok(Explained { text, status })
}

/// The text that bytes are; nothing where they are none.
fn source_of(bytes: &[u8]) -> &str {
    str::from_utf8(bytes).unwrap_or("")
}

/// The report of a text that has no tree, for this fault of it, and how to convert a file of GitLab's.
///
/// Errors: memory was refused.
fn fault_text(
    alloc: Global,
    word: &str,
    bytes: &[u8],
    code: Code,
    line: usize,
) -> Result<String, AllocError>
    ensures { IfOk result (λ text. ReportsOne bytes.now word.now code line (string_bytes text)) }
{
    let mut told = String::new(alloc);
    put_yaml_fault(&mut told, word, source_of(bytes), code, line)?;
    put_convert(&mut told, bytes)?;
    Ok(told)
}

/// The report of the faults of a text that has a tree, and how to convert a file of GitLab's.
///
/// Errors: memory was refused; or there is no such tree.
fn faults_text(alloc: Global, word: &str, bytes: &[u8]) -> Result<String, AllocError>
    ensures { IfOk result (λ text. Reports bytes.now word.now (string_bytes text)) }
{
    let Ok(source) = str::from_utf8(bytes) else {
        return Err(AllocError);
    };
    let Ok(tree) = read(alloc, source) else {
        return Err(AllocError);
    };
    let found = faults(alloc, source, tree)?;
    let mut text = String::new(alloc);
    put_report(&mut text, word, found.as_slice())?;
    put_convert(&mut text, bytes)?;
    Ok(text)
}

/// The first bytes of what a word names: the input that is handed in where the word is `-`, and else the file at that path.
fn bytes_named<F: Files, R: Read + Drop>(
    files: &F,
    alloc: Global,
    word: &str,
    input: R,
) -> io::Result<Vec<u8>> {
    if word == INPUT {
        return first_bytes(alloc, input);
    }
    match fs::open(files, word) {
        Ok(file) => first_bytes(alloc, file),
        Err(fault) => Err(fault),
    }
}

/// Prints the line of a verdict, and gives its exit status: 3 where it can't be written.
fn print_verdict<W: Write>(out: &mut W, word: &str, verdict: &Verdict) -> u8
    ensures { (Appends (W.contents out.old) (W.contents out.new) (report_line word.now verdict.now) × (result ≡ status verdict.now)) ⊎ (result ≡ 3) }
{
    let report = Report { word, verdict };
    match out.write_fmt(report) {
        Ok(()) => verdict.status(),
        Err(_) => BROKEN_OFF,
    }
}

/// Prints what is said of a file, and gives the exit status: 3 where it can't be written.
fn print_said<W: Write>(out: &mut W, said: &Explained) -> u8
    ensures { (Appends (W.contents out.old) (W.contents out.new) (string_bytes said.now.text) × (result ≡ said.now.status)) ⊎ (result ≡ 3) }
{
    match out.write_all(said.text.as_bytes()) {
        Ok(()) => said.status,
        Err(_) => BROKEN_OFF,
    }
}

/// Prints what is said of a file's bytes, and gives the exit status: 3 where it can't be written.
fn print_explained<W: Write>(alloc: Global, out: &mut W, word: &str, bytes: &[u8]) -> u8
    ensures { IsWritten word.now (W.contents out.old) (W.contents out.new) result ⊎ (result ≡ 3) }
{
    match explain(alloc, word, bytes) {
        Ok(said) => print_said(out, &said),
        Err(_) => {
            let refused = Verdict::Refused(YamlFault::Memory);
            print_verdict(out, word, &refused)
        }
    }
}

/// Prints that a file could not be opened or read, and gives the exit status: that of a refusal for memory where the fault is that.
fn print_unread<W: Write>(out: &mut W, word: &str, fault: &io::Error) -> u8
    ensures { IsWritten word.now (W.contents out.old) (W.contents out.new) result ⊎ (result ≡ 3) }
{
    if fault.kind() == ErrorKind::OutOfMemory {
        let refused = Verdict::Refused(YamlFault::Memory);
        return print_verdict(out, word, &refused);
    }
    let unread = Verdict::Unread;
    print_verdict(out, word, &unread)
}

/// Says what is wrong with what a word names, the input that is handed in where the word is `-` and else the file at that path, and
/// gives the exit status: that of `check`, or 3 where it can't be written.
pub fn explain_word<F: Files, R: Read + Drop, W: Write>(
    files: &F,
    alloc: Global,
    word: &str,
    input: R,
    out: &mut W,
) -> u8
    ensures { IsWritten word.now (W.contents out.old) (W.contents out.new) result ⊎ (result ≡ 3) }
{
    match bytes_named(files, alloc, word, input) {
        Ok(bytes) => print_explained(alloc, out, word, bytes.as_slice()),
        Err(fault) => print_unread(out, word, &fault),
    }
}
