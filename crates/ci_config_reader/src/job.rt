//! A job.

ghost use Rattle.std.specs.Prelude.{◌≡◌, Ok};
ghost use Rattle.ci_config.specs.Prelude.{value_view, GivesAt, lines_of, script_of, plain_job_value, rules_value, job_entry, blank_job, job_from, pairs_view, texts_view, job_view};
ghost use Rattle.ci_config_reader.specs.Answer.{builds_for};

use crate::allow_failure::allow_failure_of;
use crate::key::keyword_of;
use crate::need::needs_of;
use crate::retry::retry_of;
use crate::rule::rules_of;
use crate::tree::{bool_of, is_text, text_of};
use crate::value::{name_of, names_of, texts_of, timeout_of, variables_of};
use crate::when::when_of;
use ci_config::keyword::{JOB_KEYWORDS, JOB_LEFT_OUT, JobKeyword, PlainJobKeyword};
use ci_config::{JobSpec, MAX_SCRIPT_ITEMS, MAX_TAGS, ReadFault};
use ci_expr::PatternBudget;
use ci_yaml_lines::tree::{Text, Tree};
use std::alloc::Global;

/// A script of one line, or of none where the text is empty.
fn lines_of<'t>(alloc: Global, text: &'t str) -> Result<Vec<&'t str>, ReadFault>
    ensures { GivesAt texts_view result (Ok (lines_of text.now)) }
{
    let mut lines = Vec::new(alloc);
    if text.is_empty() {
        return Ok(lines);
    }
    lines.push(text)?;
    Ok(lines)
}

/// A script: a text, or a list of texts.
fn script_of<'t>(alloc: Global, tree: &'t Tree) -> Result<Vec<&'t str>, ReadFault>
    ensures { GivesAt texts_view result (script_of (value_view tree.now)) }
{
    if is_text(tree) {
        let text = text_of(tree)?;
        return lines_of(alloc, text);
    }
    texts_of(alloc, MAX_SCRIPT_ITEMS, tree)
}

/// The job of a name that nothing is written of.
fn blank_job<'t>(alloc: Global, name: &'t str) -> JobSpec<'t>
    ensures { job_view result ≡ blank_job name.now }
{
    JobSpec {
        name,
        stage: "test",
        script: Vec::new(alloc),
        needs: None,
        rules: None,
        when: None,
        allow_failure: None,
        retry: None,
        tags: Vec::new(alloc),
        timeout: None,
        resource_group: None,
        interruptible: false,
        variables: Vec::new(alloc),
    }
}

/// Sets what holds no expression.
fn set_plain<'t>(
    job: &mut JobSpec<'t>,
    alloc: Global,
    keyword: PlainJobKeyword,
    tree: &'t Tree,
) -> Result<(), ReadFault>
    ensures { GivesAt (λ _. job_view job.new) result (plain_job_value keyword (value_view tree.now) (job_view job.old)) }
{
    match keyword {
        PlainJobKeyword::Script => job.script = script_of(alloc, tree)?,
        PlainJobKeyword::Stage => job.stage = name_of(tree)?,
        PlainJobKeyword::Needs => job.needs = Some(needs_of(alloc, tree)?),
        PlainJobKeyword::When => job.when = Some(when_of(tree)?),
        PlainJobKeyword::AllowFailure => {
            job.allow_failure = Some(allow_failure_of(alloc, tree)?);
        }
        PlainJobKeyword::Retry => job.retry = Some(retry_of(tree)?),
        PlainJobKeyword::Tags => job.tags = names_of(alloc, MAX_TAGS, tree)?,
        PlainJobKeyword::Timeout => job.timeout = Some(timeout_of(tree)?),
        PlainJobKeyword::ResourceGroup => job.resource_group = Some(name_of(tree)?),
        PlainJobKeyword::Interruptible => job.interruptible = bool_of(tree)?,
        PlainJobKeyword::Variables => job.variables = variables_of(alloc, tree)?,
    }
    Ok(())
}

fn set_rules<'t>(
    job: &mut JobSpec<'t>,
    alloc: Global,
    tree: &'t Tree,
    budget: &mut PatternBudget,
) -> Result<(), ReadFault>
    ensures { GivesAt (λ _. job_view job.new) result (rules_value (value_view tree.now) (job_view job.old) (builds_for result)) }
{
    match rules_of(alloc, tree, budget) {
        Ok(rules) => {
            job.rules = Some(rules);
            Ok(())
        }
        Err(fault) => Err(fault),
    }
}

/// Sets what an entry says.
fn enter<'t>(
    job: &mut JobSpec<'t>,
    alloc: Global,
    key: &str,
    tree: &'t Tree,
    budget: &mut PatternBudget,
) -> Result<(), ReadFault>
    ensures { GivesAt (λ _. job_view job.new) result (job_entry (builds_for result) (key.now, value_view tree.now) (job_view job.old)) }
{
    match keyword_of(&JOB_KEYWORDS, &JOB_LEFT_OUT, key) {
        Ok(JobKeyword::Rules) => set_rules(job, alloc, tree, budget),
        Ok(JobKeyword::Plain(keyword)) => set_plain(job, alloc, keyword, tree),
        Err(fault) => Err(fault),
    }
}

/// The job of a name that a map describes, where building the patterns that are new in it costs no more than is left of a budget.
pub fn job_from<'t>(
    alloc: Global,
    name: &'t str,
    pairs: &'t [(Text, Tree)],
    budget: &mut PatternBudget,
) -> Result<JobSpec<'t>, ReadFault>
    ensures { GivesAt job_view result (job_from (builds_for result) name.now (pairs_view pairs.now)) }
{
    let mut job = blank_job(alloc, name);
    for before in 0..pairs.len() {
        let pair = &pairs[before];
        match enter(&mut job, alloc, pair.0.as_str(), &pair.1, budget) {
            Ok(()) => {}
            Err(fault) => return Err(fault.within(before)),
        }
    }
    Ok(job)
}
