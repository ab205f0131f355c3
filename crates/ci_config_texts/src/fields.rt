//! What the records of a file hold, a field at a time.

use crate::lists::{first_text, joined};
use crate::rows::{Part, RowFault};
use ci_config::{Config, ConfigFault, JobSpec, Need, Rule, RuleWhen, Variable};
use ci_config_reader::config;
use ci_values::attempts::Cause;
use ci_values::when::{AllowFailure, Retry, When};
use ci_yaml::{Words, YamlFault, read};
use std::alloc::{AllocError, Global};

const CAUSES: [(&str, Cause); 6] = [
    ("unknown_failure", Cause::UnknownFailure),
    ("script_failure", Cause::ScriptFailure),
    ("api_failure", Cause::ApiFailure),
    ("stuck_or_timeout_failure", Cause::StuckOrTimeoutFailure),
    ("runner_system_failure", Cause::RunnerSystemFailure),
    ("job_execution_timeout", Cause::JobExecutionTimeout),
];

fn when_word(when: When) -> &'static str {
    match when {
        When::OnSuccess => "on_success",
        When::OnFailure => "on_failure",
        When::Always => "always",
        When::Manual => "manual",
    }
}

fn rule_when_word(when: Option<RuleWhen>) -> &'static str {
    match when {
        None => "none",
        Some(RuleWhen::Never) => "never",
        Some(RuleWhen::Runs(when)) => when_word(when),
    }
}

fn flag_word(flag: Option<bool>) -> &'static str {
    match flag {
        None => "none",
        Some(true) => "true",
        Some(false) => "false",
    }
}

/// Variables, as `A=x|`; `empty` where there is none.
fn pairs_text(alloc: Global, variables: &[Variable]) -> Result<String, AllocError> {
    if variables.is_empty() {
        return String::from_str(alloc, "empty");
    }
    let mut all = String::new(alloc);
    for variable in variables {
        let value = match &variable.value {
            Words::Lent(text) => *text,
            Words::Owned(text) => text.as_str(),
        };
        let name = variable.name;
        write!(all, "{name}={value}|")?;
    }
    Ok(all)
}

/// The names of jobs, each with a `|` behind it.
fn names_text(alloc: Global, jobs: &[JobSpec]) -> Result<String, AllocError> {
    let mut all = String::new(alloc);
    for job in jobs {
        let name = job.name;
        write!(all, "{name}|")?;
    }
    Ok(all)
}

/// Needs, each with a `|` behind it, and `?` where it is optional.
fn needs_text(alloc: Global, needs: &[Need]) -> Result<String, AllocError> {
    if needs.is_empty() {
        return String::from_str(alloc, "empty");
    }
    let mut all = String::new(alloc);
    for need in needs {
        let job = need.job;
        let mark = if need.optional { "?" } else { "" };
        write!(all, "{job}{mark}|")?;
    }
    Ok(all)
}

/// How often a job is tried again, and after which causes.
fn retry_text(alloc: Global, retry: Retry) -> Result<String, AllocError> {
    let max = retry.max;
    let mut all = format!(in alloc; "{max}")?;
    for (word, cause) in CAUSES {
        if retry.causes.contains(cause) {
            write!(all, " {word}")?;
        }
    }
    Ok(all)
}

/// Whether a job may fail.
fn allow_text(alloc: Global, allow_failure: &AllowFailure) -> Result<String, AllocError> {
    match allow_failure {
        AllowFailure::No => String::from_str(alloc, "no"),
        AllowFailure::Yes => String::from_str(alloc, "yes"),
        AllowFailure::ExitCodes(codes) => {
            let mut all = String::from_str(alloc, "exit codes")?;
            for code in codes.as_slice() {
                write!(all, " {code}")?;
            }
            Ok(all)
        }
    }
}

/// Rules, each with a `|` behind it: whether it has a condition, its `when`, its `allow_failure` and its variables.
fn rules_text(alloc: Global, rules: &[Rule]) -> Result<String, AllocError> {
    let mut all = String::new(alloc);
    for rule in rules {
        let condition = if rule.condition.is_some() {
            "if"
        } else {
            "else"
        };
        let when = rule_when_word(rule.when);
        let allow = flag_word(rule.allow_failure);
        let variables = pairs_text(alloc, &rule.variables)?;
        let variables = variables.as_str();
        write!(all, "{condition} {when} {allow} {variables};")?;
    }
    Ok(all)
}

/// A field of a job that is a list, or may be left out.
fn other_field(alloc: Global, job: &JobSpec, field: &str) -> Result<Option<String>, RowFault> {
    match field {
        "needs" => Ok(match &job.needs {
            Some(needs) => Some(needs_text(alloc, needs)?),
            None => None,
        }),
        "rules" => Ok(match &job.rules {
            Some(rules) => Some(rules_text(alloc, rules)?),
            None => None,
        }),
        "allow_failure" => Ok(match &job.allow_failure {
            Some(allow_failure) => Some(allow_text(alloc, allow_failure)?),
            None => None,
        }),
        "retry" => Ok(match job.retry {
            Some(retry) => Some(retry_text(alloc, retry)?),
            None => None,
        }),
        "timeout" => Ok(match job.timeout {
            Some(seconds) => Some(format!(in alloc; "{seconds}")?),
            None => None,
        }),
        _ => Err(RowFault::NotRead),
    }
}

/// A field of a job; `none` where it is left out.
fn job_field(alloc: Global, job: &JobSpec, field: &str) -> Result<String, RowFault> {
    let text = match field {
        "stage" => String::from_str(alloc, job.stage)?,
        "script" => joined(alloc, &job.script)?,
        "tags" => joined(alloc, &job.tags)?,
        "variables" => pairs_text(alloc, &job.variables)?,
        "when" => String::from_str(alloc, job.when.map_or("none", when_word))?,
        "resource_group" => String::from_str(alloc, job.resource_group.unwrap_or("none"))?,
        "interruptible" => String::from_str(alloc, flag_word(Some(job.interruptible)))?,
        _ => match other_field(alloc, job, field)? {
            Some(text) => text,
            None => String::from_str(alloc, "none")?,
        },
    };
    Ok(text)
}

/// A field of a file.
fn file_field(alloc: Global, config: &Config, field: &str) -> Result<String, RowFault> {
    match field {
        "stages" => Ok(joined(alloc, &config.stages)?),
        "variables" => Ok(pairs_text(alloc, &config.variables)?),
        "jobs" => Ok(names_text(alloc, &config.jobs)?),
        _ => Err(RowFault::NotRead),
    }
}

/// The field of a file, or of one of its jobs.
fn asked(alloc: Global, config: &Config, parts: &[Part]) -> Result<String, RowFault> {
    match parts {
        [field] => file_field(alloc, config, field.word().ok_or(RowFault::NotRead)?),
        [name, field] => {
            let name = name.word().ok_or(RowFault::NotRead)?;
            let field = field.word().ok_or(RowFault::NotRead)?;
            for job in &config.jobs {
                if job.name == name {
                    return job_field(alloc, job, field);
                }
            }
            Err(RowFault::NotRead)
        }
        _ => Err(RowFault::NotRead),
    }
}

/// What a file's records hold: in a field of the file, or in a field of the job that is named.
pub fn field_of(alloc: Global, parts: &[Part]) -> Result<String, RowFault> {
    let (text, others) = first_text(parts)?;
    let tree = match read(alloc, text) {
        Ok(tree) => tree,
        Err(YamlFault::Memory) => return Err(RowFault::Memory),
        Err(fault) => return Ok(format!(in alloc; "{fault}")?),
    };
    match config(alloc, &tree) {
        Ok(config) => asked(alloc, &config, others),
        Err(ConfigFault::Memory) => Err(RowFault::Memory),
        Err(ConfigFault::Fault(code)) => Ok(format!(in alloc; "{code}")?),
    }
}
