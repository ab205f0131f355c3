//! The top level of a file.

ghost use Rattle.std.specs.Prelude.{◌≡◌, ℕ, Result, Ok, [], ◌∷◌, map, option_map, unwrap_or};
ghost use Rattle.ci_config.specs.Prelude.{words_view, word_in, value_view, Config as Meant, Placed, code_view, GivesAt, is_among, stage_in, stages_of, is_hidden, job_of};
ghost use Rattle.ci_config.specs.Prelude.{job_value, other_value, keyword_value, file_entry, file_from, file_left_out, is_inner, all_stages, default_stages, index_of, job_judged};
ghost use Rattle.ci_config.specs.Prelude.{jobs_judged, judged, config_of, file_config, pairs_view, texts_view, job_view, config_view, text_view};
ghost use Rattle.ci_config_reader.specs.Answer.{builds_for, fault_or, fault_of_job_or};
ghost use Rattle.ci_config_reader.specs.Parts.{file_parts_view};

use crate::job::job_from;
use crate::tree::{list_of, map_of, text_of};
use crate::value::variables_of;
use ci_config::keyword::{FILE_KEYWORDS, FILE_LEFT_OUT, FileKeyword};
use ci_config::{
    Config, ConfigCode, JobSpec, MAX_BUILDING_COST, MAX_JOBS, MAX_STAGES, ReadFault, Variable, Way,
};
use ci_expr::PatternBudget;
use ci_values::text::is_name;
use ci_values::{meaning_of, word_in};
use ci_yaml_lines::tree::{Text, Tree};
use std::alloc::Global;

/// What the entries of a file say.
#[derive(Drop)]
pub struct FileParts<'t> {
    pub stages: Option<Vec<&'t str>>,
    pub variables: Vec<Variable<'t>>,
    pub jobs: Vec<JobSpec<'t>>,
}

/// Is the name one of these?
fn is_among(names: &[&str], name: &str) -> bool
    ensures { result ≡ is_among (words_view names.now) name.now }
{
    for other in names {
        if *other == name {
            return true;
        }
    }
    false
}

/// A stage that is listed, behind those before it.
fn stage_in<'t>(before: &[&str], tree: &'t Tree) -> Result<&'t str, ReadFault>
    ensures { GivesAt text_view result (stage_in (words_view before.now) (value_view tree.now)) }
{
    let name = text_of(tree)?;
    if is_among(before, name) {
        return Err(ReadFault::Here(ConfigCode::K7));
    }
    if MAX_STAGES <= before.len() {
        return Err(ReadFault::Here(ConfigCode::K11));
    }
    if !is_name(name) {
        return Err(ReadFault::Here(ConfigCode::K16));
    }
    Ok(name)
}

/// The stages that are listed.
fn stages_of<'t>(alloc: Global, tree: &'t Tree) -> Result<Vec<&'t str>, ReadFault>
    ensures { GivesAt texts_view result (stages_of (value_view tree.now)) }
{
    let values = list_of(tree)?;
    let mut stages = Vec::new(alloc);
    for value in values {
        match stage_in(stages.as_slice(), value) {
            Ok(stage) => stages.push(stage)?,
            Err(fault) => return Err(fault.within(stages.len())),
        }
    }
    Ok(stages)
}

/// Is it the key of a hidden entry?
fn is_hidden(key: &str) -> bool
    ensures { result ≡ is_hidden key.now }
{
    match key.as_bytes() {
        [first, ..] => *first == b'.',
        [] => false,
    }
}

/// A job, behind so many.
fn job_of<'t>(
    alloc: Global,
    before: usize,
    name: &'t str,
    tree: &'t Tree,
    budget: &mut PatternBudget,
) -> Result<JobSpec<'t>, ReadFault>
    ensures { GivesAt job_view result (job_of before name.now (value_view tree.now) (builds_for result)) }
{
    match map_of(tree) {
        Ok(pairs) => {
            if MAX_JOBS <= before {
                return Err(ReadFault::Here(ConfigCode::K11));
            }
            if !is_name(name) {
                return Err(ReadFault::Here(ConfigCode::K16));
            }
            job_from(alloc, name, pairs, budget)
        }
        Err(fault) => Err(fault),
    }
}

impl<'t> FileParts<'t> {
    fn set_job(
        &mut self,
        alloc: Global,
        name: &'t str,
        tree: &'t Tree,
        budget: &mut PatternBudget,
    ) -> Result<(), ReadFault>
        ensures { GivesAt (λ _. file_parts_view self.new) result (job_value name.now (value_view tree.now) (file_parts_view self.old) (builds_for result)) }
    {
        match job_of(alloc, self.jobs.len(), name, tree, budget) {
            Ok(job) => {
                self.jobs.push(job)?;
                Ok(())
            }
            Err(fault) => Err(fault),
        }
    }

    /// Sets what an entry says whose key is no keyword.
    fn set_other(
        &mut self,
        alloc: Global,
        key: &'t str,
        tree: &'t Tree,
        budget: &mut PatternBudget,
    ) -> Result<(), ReadFault>
        ensures { GivesAt (λ _. file_parts_view self.new) result (other_value (word_in file_left_out key.now) key.now (value_view tree.now) (file_parts_view self.old) (builds_for result)) }
    {
        if let Some(name) = word_in(&FILE_LEFT_OUT, key) {
            return Err(ReadFault::Here(ConfigCode::K2(name)));
        }
        if is_hidden(key) {
            return Ok(());
        }
        self.set_job(alloc, key, tree, budget)
    }

    fn set(&mut self, alloc: Global, keyword: FileKeyword, tree: &'t Tree) -> Result<(), ReadFault>
        ensures { GivesAt (λ _. file_parts_view self.new) result (keyword_value keyword (value_view tree.now) (file_parts_view self.old)) }
    {
        match keyword {
            FileKeyword::Stages => self.stages = Some(stages_of(alloc, tree)?),
            FileKeyword::Variables => self.variables = variables_of(alloc, tree)?,
        }
        Ok(())
    }

    /// Sets what an entry says.
    fn enter(
        &mut self,
        alloc: Global,
        key: &'t str,
        tree: &'t Tree,
        budget: &mut PatternBudget,
    ) -> Result<(), ReadFault>
        ensures { GivesAt (λ _. file_parts_view self.new) result (file_entry (builds_for result) (key.now, value_view tree.now) (file_parts_view self.old)) }
    {
        match meaning_of(&FILE_KEYWORDS, key) {
            Some(keyword) => self.set(alloc, keyword, tree),
            None => self.set_other(alloc, key, tree, budget),
        }
    }
}

/// What the entries of a file say, where building its patterns costs no more than `MAX_BUILDING_COST`: else X8 at the expression in
/// which it costs more.
fn file_from<'t>(alloc: Global, pairs: &'t [(Text, Tree)]) -> Result<FileParts<'t>, ReadFault>
    ensures { GivesAt file_parts_view result (file_from (pairs_view pairs.now) (builds_for result)) }
{
    let mut parts = FileParts {
        stages: None,
        variables: Vec::new(alloc),
        jobs: Vec::new(alloc),
    };
    let mut budget = PatternBudget::new(alloc, MAX_BUILDING_COST);
    for before in 0..pairs.len() {
        let pair = &pairs[before];
        match parts.enter(alloc, pair.0.as_str(), &pair.1, &mut budget) {
            Ok(()) => {}
            Err(fault) => return Err(fault.within(before)),
        }
    }
    Ok(parts)
}

/// Is it the name of a stage other than `.pre` and `.post`?
fn is_inner(name: &str) -> bool
    ensures { result ≡ is_inner name.now }
{
    !(name == ".pre" || name == ".post")
}

/// `.pre`, the listed stages but for `.pre` and `.post`, and `.post`.
fn all_stages<'t>(alloc: Global, listed: &[&'t str]) -> Result<Vec<&'t str>, ReadFault>
    ensures { GivesAt texts_view result (Ok (all_stages (words_view listed.now))) }
{
    let mut stages = Vec::new(alloc);
    stages.push(".pre")?;
    for stage in listed {
        if !is_inner(stage) {
            continue;
        }
        stages.push(*stage)?;
    }
    stages.push(".post")?;
    Ok(stages)
}

/// The stages of a file that lists none.
fn default_stages<'t>(alloc: Global) -> Result<Vec<&'t str>, ReadFault>
    ensures { GivesAt texts_view result (Ok default_stages) }
{
    let mut stages = Vec::new(alloc);
    stages.push("build")?;
    stages.push("test")?;
    stages.push("deploy")?;
    Ok(stages)
}

/// The stages of a file that lists these, or none.
fn stages_from<'t>(alloc: Global, listed: Option<Vec<&'t str>>) -> Result<Vec<&'t str>, ReadFault>
    ensures { GivesAt texts_view result (Ok (all_stages (unwrap_or (option_map texts_view listed.entry) default_stages))) }
{
    match listed {
        Some(listed) => all_stages(alloc, listed.as_slice()),
        None => {
            let listed = default_stages(alloc)?;
            all_stages(alloc, listed.as_slice())
        }
    }
}

/// How many of these entries stand before the first with a key.
fn index_of(pairs: &[(Text, Tree)], key: &str) -> usize
    ensures { result ≡ index_of (pairs_view pairs.now) key.now }
{
    for before in 0..pairs.len() {
        let pair = &pairs[before];
        if pair.0.as_str() == key {
            return before;
        }
    }
    pairs.len()
}

/// What is wrong with a job.
fn job_fault(stages: &[&str], job: &JobSpec) -> Option<ConfigCode>
    ensures { (before : ℕ) (next : Result Meant Placed) → job_judged before (words_view stages.now) (job_view job.now) next ≡ fault_or (before ∷ []) (option_map code_view result) next }
{
    if job.script.is_empty() {
        return Some(ConfigCode::K5);
    }
    if !is_among(stages, job.stage) {
        return Some(ConfigCode::K6);
    }
    None
}

/// What is wrong with the jobs of a file with these entries, one after the other, and behind how many of these the job stands.
fn jobs_fault(
    pairs: &[(Text, Tree)],
    stages: &[&str],
    jobs: &[JobSpec],
) -> Option<(ConfigCode, usize)>
    ensures { (next : Result Meant Placed) → jobs_judged (pairs_view pairs.now) (words_view stages.now) (map job_view jobs.now) next ≡ fault_of_job_or result next }
{
    for job in jobs {
        match job_fault(stages, job) {
            Some(code) => return Some((code, index_of(pairs, job.name))),
            None => {}
        }
    }
    None
}

/// A configuration of a file with these entries, where its jobs have a script and a stage, and there is one.
fn judged<'t>(pairs: &[(Text, Tree)], config: Config<'t>) -> Result<Config<'t>, ReadFault>
    ensures { GivesAt config_view result (judged (pairs_view pairs.now) (config_view config.entry)) }
{
    if let Some((code, before)) = jobs_fault(
        pairs,
        config.stages.as_slice(),
        config.jobs.as_slice(),
    ) {
        return Err(ReadFault::Inside(code, Way::One(before)));
    }
    if config.jobs.is_empty() {
        return Err(ReadFault::Here(ConfigCode::K15));
    }
    Ok(config)
}

/// What the entries of a file configure, by what they say.
fn configured<'t>(
    alloc: Global,
    pairs: &[(Text, Tree)],
    parts: FileParts<'t>,
) -> Result<Config<'t>, ReadFault>
    ensures { GivesAt config_view result (judged (pairs_view pairs.now) (config_of (file_parts_view parts.entry))) }
{
    let FileParts {
        stages,
        variables,
        jobs,
    } = parts;
    match stages_from(alloc, stages) {
        Ok(stages) => judged(
            pairs,
            Config {
                stages,
                variables,
                jobs,
            },
        ),
        Err(fault) => Err(fault),
    }
}

/// What the pairs of a file configure.
pub fn file_config<'t>(alloc: Global, pairs: &'t [(Text, Tree)]) -> Result<Config<'t>, ReadFault>
    ensures { GivesAt config_view result (file_config (pairs_view pairs.now) (builds_for result)) }
{
    match file_from(alloc, pairs) {
        Ok(parts) => configured(alloc, pairs, parts),
        Err(fault) => Err(fault),
    }
}
