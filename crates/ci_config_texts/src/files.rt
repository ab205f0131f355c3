//! What a file answers: how many jobs it configures, or the code of its fault.

use crate::lists::only_text;
use crate::rows::{Part, RowFault};
use ci_config::ConfigFault;
use ci_config_reader::config;
use ci_yaml::{YamlFault, read};
use std::alloc::Global;

/// How many jobs a text configures, or the code of its fault.
fn jobs_or_fault(alloc: Global, text: &str) -> Result<String, RowFault> {
    let tree = match read(alloc, text) {
        Ok(tree) => tree,
        Err(YamlFault::Memory) => return Err(RowFault::Memory),
        Err(fault) => return Ok(format!(in alloc; "{fault}")?),
    };
    match config(alloc, &tree) {
        Ok(config) => {
            let jobs = config.jobs.len();
            Ok(format!(in alloc; "jobs: {jobs}")?)
        }
        Err(ConfigFault::Memory) => Err(RowFault::Memory),
        Err(ConfigFault::Fault(code)) => Ok(format!(in alloc; "{code}")?),
    }
}

/// What a file answers.
pub fn file_of(alloc: Global, parts: &[Part]) -> Result<String, RowFault> {
    jobs_or_fault(alloc, only_text(parts)?)
}

/// What a file answers of a job with a script, and a text behind it.
pub fn job_of(alloc: Global, parts: &[Part]) -> Result<String, RowFault> {
    let text = only_text(parts)?;
    let file = format!(in alloc; "a:\n  script: x\n{text}")?;
    jobs_or_fault(alloc, file.as_str())
}
