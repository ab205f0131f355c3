//! What is said of bytes, and the exit status that goes with it.

ghost use Rattle.std.specs.Prelude.{◌≡◌, ◌≢◌, ◌<◌, length, IfOk, OnErr};
ghost use Rattle.ci_config.specs.Prelude.{Y1, value_view};
ghost use Rattle.ci_yaml.specs.declared.fault.YamlFault.TheVariants.{Fault};
ghost use Rattle.ci_explain.specs.Verdicts.{Fits, FitsText, FitsTree, IsTooLong, status};
ghost use Rattle.ci_explain.specs.declared.check.verdict.Verdict.TheVariants.{Refused, Unread};

use ci_config::ConfigFault;
use ci_config_reader::config;
use ci_values::limits::MAX_FILE_BYTES;
use ci_yaml::{Code, Tree, YamlFault, read};
use std::alloc::Global;
use std::io;

/// What is said of a file.
#[derive(Drop)]
pub enum Verdict {
    /// It configures so many jobs; hidden ones don't count.
    Configures(usize),
    /// Its text has no tree, for this reason; or memory was refused.
    Refused(YamlFault),
    /// Its tree configures nothing, for this reason; or memory was refused.
    Misconfigured(ConfigFault),
    /// Its bytes are not UTF-8.
    NotText,
    /// It could not be opened, or not be read to its end.
    Unread,
}

impl Verdict {
    /// The program's exit status where this is printed.
    pub fn status(&self) -> u8
        ensures { result ≡ status self.now }
    {
        match self {
            Verdict::Configures(_) => 0,
            Verdict::Refused(_) | Verdict::Misconfigured(_) => 1,
            Verdict::NotText | Verdict::Unread => 3,
        }
    }
}

/// The program's exit status: that of the verdict that was printed, or 3 where it could not be printed.
pub fn exit_status(printed: &io::Result<Verdict>) -> u8
    ensures printed { IfOk printed.now (λ verdict. result ≡ status verdict) }
    ensures unprinted { OnErr printed.now (result ≡ 3) }
{
    match printed {
        Ok(verdict) => verdict.status(),
        Err(_) => 3,
    }
}

/// What is said of bytes.
pub fn verdict_of(alloc: Global, bytes: &[u8]) -> Verdict
    ensures fits { Fits bytes.now result }
    ensures too_long { IsTooLong bytes.now → result ≡ Refused (Fault Y1 1) }
    ensures read { result ≢ Unread }
{
    if MAX_FILE_BYTES < bytes.len() {
        return Verdict::Refused(YamlFault::Fault(Code::Y1, 1));
    }
    let Ok(text) = str::from_utf8(bytes) else {
        return Verdict::NotText;
    };
    judge_text(alloc, text)
}

/// What is said of a text.
fn judge_text(alloc: Global, text: &str) -> Verdict
    ensures { FitsText text.now result }
{
    match read(alloc, text) {
        Ok(tree) => judge_tree(alloc, &tree),
        Err(fault) => Verdict::Refused(fault),
    }
}

/// What is said of a tree: how many jobs it configures, or the first fault of its keywords.
fn judge_tree(alloc: Global, tree: &Tree) -> Verdict
    ensures { FitsTree (value_view tree.now) result }
{
    match config(alloc, tree) {
        Ok(config) => Verdict::Configures(config.jobs.len()),
        Err(fault) => Verdict::Misconfigured(fault),
    }
}
