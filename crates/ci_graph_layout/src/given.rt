//! The variables that the rules of a job see.

ghost use Rattle.std.specs.Prelude.{◌≡◌, ◌++◌, IfOk, OnOk, map};
ghost use Rattle.ci_config.specs.Prelude.{layer_view, config_view, job_view, variable_view};
ghost use Rattle.ci_graph_layout.specs.Inclusion.{layered, seen, own_names};
ghost use Rattle.ci_graph_layout.specs.View.{given_view};

use ci_config::{Config, JobSpec, Variable};
use ci_values::Layer;
use ci_yaml_lines::tree::Words;
use std::alloc::{AllocError, Global};

/// Variables, name and value.
pub type Variables<'a> = Vec<(&'a str, &'a str)>;

/// The variables that a pipeline brings to the file. Of two pairs with one name the first counts.
#[derive(Clone, Copy)]
pub struct Given<'a> {
    /// Those of its request.
    pub pipeline: Layer<'a>,
    /// Those of its project.
    pub project: Layer<'a>,
    /// Those that are predefined for all of its jobs.
    pub predefined: Layer<'a>,
}

/// Puts pairs behind those that are there.
fn put_pairs<'a>(pairs: &mut Variables<'a>, more: &[(&'a str, &'a str)]) -> Result<(), AllocError>
    ensures { OnOk result (layer_view pairs.new.items ≡ layer_view pairs.old.items ++ layer_view more.now) }
{
    for pair in more {
        pairs.push(*pair)?;
    }
    Ok(())
}

/// The pair of a variable.
pub fn pair_of<'a, 't>(variable: &'a Variable<'t>) -> (&'a str, &'a str)
    ensures { (result.0.now, result.1.now) ≡ variable_view variable.now }
{
    match &variable.value {
        Words::Lent(value) => (variable.name, value),
        Words::Owned(value) => (variable.name, value.as_str()),
    }
}

/// Puts variables behind the pairs that are there.
pub fn put_variables<'a, 't>(
    pairs: &mut Variables<'a>,
    more: &'a [Variable<'t>],
) -> Result<(), AllocError>
    ensures { OnOk result (layer_view pairs.new.items ≡ layer_view pairs.old.items ++ map variable_view more.now) }
{
    for variable in more {
        pairs.push(pair_of(variable))?;
    }
    Ok(())
}

/// Puts a job's name and stage behind the pairs that are there.
fn put_own_names<'a, 't>(pairs: &mut Variables<'a>, job: &'a JobSpec<'t>) -> Result<(), AllocError>
    ensures { OnOk result (layer_view pairs.new.items ≡ layer_view pairs.old.items ++ own_names (job_view job.now)) }
{
    pairs.push(("CI_JOB_NAME", job.name))?;
    pairs.push(("CI_JOB_STAGE", job.stage))?;
    Ok(())
}

/// The layers above a job's own variables.
fn above<'a>(alloc: Global, given: &Given<'a>) -> Result<Variables<'a>, AllocError>
    ensures { IfOk result (λ pairs. layer_view pairs.items ≡ (given_view given.now).pipeline ++ (given_view given.now).project) }
{
    let mut pairs = Vec::new(alloc);
    put_pairs(&mut pairs, given.pipeline)?;
    put_pairs(&mut pairs, given.project)?;
    Ok(pairs)
}

/// Puts the layers below a job's own variables behind the pairs that are there.
fn put_below<'a, 't>(
    pairs: &mut Variables<'a>,
    given: &Given<'a>,
    config: &'a Config<'t>,
    job: &'a JobSpec<'t>,
) -> Result<(), AllocError>
    ensures { OnOk result (layer_view pairs.new.items ≡ layer_view pairs.old.items ++ (config_view config.now).variables ++ own_names (job_view job.now) ++ (given_view given.now).predefined) }
{
    put_variables(pairs, &config.variables)?;
    put_own_names(pairs, job)?;
    put_pairs(pairs, given.predefined)
}

/// What the rules of a job see, the highest layer first.
pub fn seen<'a, 't>(
    alloc: Global,
    given: &Given<'a>,
    config: &'a Config<'t>,
    job: &'a JobSpec<'t>,
) -> Result<Variables<'a>, AllocError>
    ensures { IfOk result (λ pairs. layer_view pairs.items ≡ seen (given_view given.now) (config_view config.now) (job_view job.now)) }
{
    let mut pairs = above(alloc, given)?;
    put_variables(&mut pairs, &job.variables)?;
    put_below(&mut pairs, given, config, job)?;
    Ok(pairs)
}

/// The variables of a job whose own are these, the highest layer first.
pub fn layered<'a, 't>(
    alloc: Global,
    given: &Given<'a>,
    config: &'a Config<'t>,
    job: &'a JobSpec<'t>,
    own: &[(&'a str, &'a str)],
) -> Result<Variables<'a>, AllocError>
    ensures { IfOk result (λ pairs. layer_view pairs.items ≡ layered (given_view given.now) (config_view config.now) (job_view job.now) (layer_view own.now)) }
{
    let mut pairs = above(alloc, given)?;
    put_pairs(&mut pairs, own)?;
    put_below(&mut pairs, given, config, job)?;
    Ok(pairs)
}
