//! The lines that are printed of a file's faults.

ghost use Rattle.std.specs.Prelude.{◌≡◌, ◌++◌, length, filter, flat_map, option_map, OnOk, string_bytes};
ghost use Rattle.ci_explain.specs.Gitlab.{convert_text};
ghost use Rattle.ci_explain.specs.Report.{is_printed, job_text, line_text, printed_text, count_text, report_text};

use crate::gitlab::shows_gitlab;
use crate::place::Found;
use std::alloc::AllocError;

/// The last line of what is said of a file that was written for GitLab.
const CONVERT: &str =
    "this looks like a file of GitLab's: examples/convert.py writes such a file out into the profile, and says what it drops\n";

/// Puts the job and the rule of a fault behind a text.
#[tactic(auto, unfolding(crate::specs::Report::job_text))]
fn put_job(text: &mut String, job: &Option<String>, rule: Option<usize>) -> Result<(), AllocError>
    ensures { OnOk result (string_bytes text.new ≡ string_bytes text.old ++ job_text (option_map string_bytes job.now) rule) }
{
    match (job, rule) {
        (None, _) => Ok(()),
        (Some(job), None) => {
            let job = job.as_str();
            write!(text, "job `{job}`: ")
        }
        (Some(job), Some(rule)) => {
            let job = job.as_str();
            write!(text, "job `{job}`, rule {rule}: ")
        }
    }
}

/// Puts the line of a fault behind a text.
#[tactic(auto, unfolding(crate::specs::Report::line_text))]
fn put_line(text: &mut String, word: &str, found: &Found) -> Result<(), AllocError>
    ensures { OnOk result (string_bytes text.new ≡ string_bytes text.old ++ line_text word.now found.now) }
{
    let line = found.line;
    let code = found.code;
    let hint = found.hint;
    write!(text, "{word}:{line}: ")?;
    put_job(text, &found.job, found.rule)?;
    writeln!(text, "{code}: {hint}")
}

/// Puts the line of a fault behind a text, where it is printed.
fn put_printed(text: &mut String, word: &str, found: &Found) -> Result<(), AllocError>
    ensures { OnOk result (string_bytes text.new ≡ string_bytes text.old ++ printed_text word.now found.now) }
{
    if found.follows {
        Ok(())
    } else {
        put_line(text, word, found)
    }
}

/// Puts the lines of faults behind a text.
fn put_lines(text: &mut String, word: &str, found: &[Found]) -> Result<(), AllocError>
    ensures { OnOk result (string_bytes text.new ≡ string_bytes text.old ++ flat_map (printed_text word.now) found.now) }
{
    for fault in found {
        put_printed(text, word, fault)?;
    }
    Ok(())
}

/// How many of the faults are printed.
fn count_of(found: &[Found]) -> usize
    ensures { result ≡ length (filter is_printed found.now) }
{
    found.iter().filter(|fault| !fault.follows).count()
}

/// Puts how many faults there are behind a text.
#[tactic(auto, unfolding(crate::specs::Report::count_text))]
pub fn put_count(text: &mut String, count: usize) -> Result<(), AllocError>
    ensures { OnOk result (string_bytes text.new ≡ string_bytes text.old ++ count_text count) }
{
    if count == 1 {
        writeln!(text, "1 fault")
    } else {
        writeln!(text, "{count} faults")
    }
}

/// Puts the report of faults behind a text: a line for each that doesn't follow from others, and how many they are.
pub fn put_report(text: &mut String, word: &str, found: &[Found]) -> Result<(), AllocError>
    ensures { OnOk result (string_bytes text.new ≡ string_bytes text.old ++ report_text word.now found.now) }
{
    put_lines(text, word, found)?;
    let count = count_of(found);
    put_count(text, count)
}

/// Puts the line that names `examples/convert.py` behind a text, where a file's bytes show that it was written for GitLab.
#[tactic(auto, unfolding(crate::specs::Gitlab::convert_text))]
pub fn put_convert(text: &mut String, bytes: &[u8]) -> Result<(), AllocError>
    ensures { OnOk result (string_bytes text.new ≡ string_bytes text.old ++ convert_text bytes.now) }
{
    if shows_gitlab(bytes) {
        text.push_str(CONVERT)
    } else {
        Ok(())
    }
}
