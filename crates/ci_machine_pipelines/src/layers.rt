//! The variables that a new pipeline brings to its file, and those of each of its jobs, of all layers.

ghost use Rattle.std.specs.Prelude.{◌≡◌, ◌+◌, ◌≤◌, ◌++◌, IfOk, OnOk, map, length};
ghost use Rattle.std.specs.Fmt.{decimal};
ghost use Rattle.ci_machine_steps.specs.Prelude.{layer_view, put, ref_name, predefined, name_cmp, merged};
ghost use Rattle.ci_graph_layout.specs.Prelude.{config_view, given_view, included_view};
ghost use Rattle.ci_machine_steps.specs.Pipelines as pipelines;
ghost use Rattle.ci_machine_pipelines.specs.Creations.{brought_view};

use ci_config::Config;
use ci_graph_layout::{Given, IncludedJob, Variables};
use ci_machine::records::{JobVariable, MAX_NUMBER, RefKind, Variable};
use ci_machine::request::{NewPipeline, PipelineVariable};
use ci_machine::text::Text;
use std::alloc::{AllocError, Global};
use std::collections::BTreeMap;

/// The pairs of a pipeline's own variables.
fn pipeline_pairs<'a>(
    alloc: Global,
    variables: &'a [PipelineVariable],
) -> Result<Variables<'a>, AllocError>
    ensures { IfOk result (λ pairs. layer_view pairs.items ≡ map (λ v. (v.key, v.value)) variables.now) }
{
    let mut pairs = Vec::new(alloc);
    for variable in variables {
        pairs.push((variable.key.as_str(), variable.value.as_str()))?;
    }
    Ok(pairs)
}

/// The pairs of a project's variables.
fn project_pairs<'a>(alloc: Global, variables: &'a [Variable]) -> Result<Variables<'a>, AllocError>
    ensures { IfOk result (λ pairs. layer_view pairs.items ≡ map (λ v. (v.key, v.value)) variables.now) }
{
    let mut pairs = Vec::new(alloc);
    for variable in variables {
        pairs.push((variable.key.as_str(), variable.value.as_str()))?;
    }
    Ok(pairs)
}

/// The variable that names the ref.
fn ref_name(kind: RefKind) -> &'static str
    ensures { result.now ≡ ref_name kind }
{
    match kind {
        RefKind::Branch => "CI_COMMIT_BRANCH",
        RefKind::Tag => "CI_COMMIT_TAG",
    }
}

/// The pairs that are predefined for all jobs of a pipeline, whose project has this number.
fn predefined_pairs<'a>(
    alloc: Global,
    asked: &'a NewPipeline,
    number: &'a str,
) -> Result<Variables<'a>, AllocError>
    requires { number.now ≡ decimal asked.now.project }
    ensures { IfOk result (λ pairs. layer_view pairs.items ≡ predefined asked.now) }
{
    let mut pairs: Variables<'a> = Vec::new(alloc);
    pairs.push(("CI", "true"))?;
    let git_ref: &'a str = asked.git_ref.as_str();
    pairs.push((ref_name(asked.kind), git_ref))?;
    pairs.push(("CI_COMMIT_REF_NAME", git_ref))?;
    pairs.push(("CI_PIPELINE_SOURCE", asked.source.as_str()))?;
    pairs.push(("CI_PROJECT_ID", number))?;
    Ok(pairs)
}

/// The variables that a pipeline brings to its file.
#[derive(Drop)]
pub struct Brought<'a> {
    /// Its own.
    pub pipeline: Variables<'a>,
    /// Those of its project.
    pub project: Variables<'a>,
    /// Those that are predefined for all of its jobs.
    pub predefined: Variables<'a>,
}

impl<'a> Brought<'a> {
    /// Those of a pipeline that is asked for, of a project with these variables and this number.
    pub fn new(
        alloc: Global,
        asked: &'a NewPipeline,
        variables: &'a [Variable],
        number: &'a str,
    ) -> Result<Brought<'a>, AllocError>
        requires { number.now ≡ decimal asked.now.project }
        ensures { IfOk result (λ b. brought_view b ≡ pipelines.given_by asked.now variables.now) }
    {
        let pipeline = pipeline_pairs(alloc, asked.variables.as_slice())?;
        let project = project_pairs(alloc, variables)?;
        let predefined = predefined_pairs(alloc, asked, number)?;
        Ok(Brought {
            pipeline,
            project,
            predefined,
        })
    }

    /// The same, as a plan takes them.
    pub fn given(&self) -> Given<'_>
        ensures { given_view result ≡ brought_view self.now }
    {
        Given {
            pipeline: self.pipeline.as_slice(),
            project: self.project.as_slice(),
            predefined: self.predefined.as_slice(),
        }
    }
}

/// Values by their names, in the order of the names' bytes.
type ByName<'a> = BTreeMap<&'a str, &'a str>;

/// Puts a pair at its place, where it replaces the one that has its name.
fn put_pair<'a>(all: &mut ByName<'a>, pair: (&'a str, &'a str)) -> Result<(), AllocError>
    ensures { OnOk result (layer_view all.new.entries ≡ put name_cmp (pair.entry.0.now, pair.entry.1.now) (layer_view all.old.entries)) }
{
    all.insert(pair.0, pair.1)?;
    Ok(())
}

/// The pairs by their names, each with its first value: the last is put first, and each before it replaces the one of its name.
fn merged<'a>(alloc: Global, pairs: Variables<'a>) -> Result<ByName<'a>, AllocError>
    ensures { IfOk result (λ all. layer_view all.entries ≡ merged (layer_view pairs.entry.items)) }
{
    let mut pairs = pairs;
    let mut all = BTreeMap::new(alloc);
    while let Some(pair) = pairs.pop() {
        put_pair(&mut all, pair)?;
    }
    Ok(all)
}

/// Puts the variables of a job with this number behind those that are there.
fn put_merged(
    alloc: Global,
    job: u64,
    by_name: &ByName,
    variables: &mut Vec<JobVariable>,
) -> Result<(), AllocError>
    ensures { OnOk result (variables.new.items ≡ variables.old.items ++ map (pipelines.variable job) (layer_view by_name.now.entries)) }
{
    for (key, value) in by_name {
        let key = Text::copy_of(alloc, *key)?;
        let value = Text::copy_of(alloc, *value)?;
        variables.push(JobVariable { job, key, value })?;
    }
    Ok(())
}

/// Puts the variables of a job with this number, of all layers, behind those that are there.
fn put_job_variables<'a, 't>(
    alloc: Global,
    given: &Given<'a>,
    config: &'a Config<'t>,
    number: u64,
    job: &IncludedJob<'a, 't>,
    variables: &mut Vec<JobVariable>,
) -> Result<(), AllocError>
    ensures { OnOk result (variables.new.items ≡ variables.old.items ++ pipelines.job_variables (given_view given.now) (config_view config.now) number (included_view job.now)) }
{
    let pairs = job.layers(alloc, given, config)?;
    let all = merged(alloc, pairs)?;
    put_merged(alloc, number, &all, variables)
}

/// The variables of jobs, the first of which has the number `first`: by the job, and then by the name.
pub(crate) fn all_variables<'a, 't>(
    alloc: Global,
    given: &Given<'a>,
    config: &'a Config<'t>,
    first: u64,
    jobs: &[IncludedJob<'a, 't>],
) -> Result<Vec<JobVariable>, AllocError>
    requires { first + length jobs.now ≤ MAX_NUMBER + 1 }
    ensures { IfOk result (λ v. v.items ≡ pipelines.variables_from (given_view given.now) (config_view config.now) first (map included_view jobs.now)) }
{
    let mut variables = Vec::new(alloc);
    let mut number = first;
    for job in jobs {
        put_job_variables(alloc, given, config, number, job, &mut variables)?;
        number += 1;
    }
    Ok(variables)
}
