//! A pipeline is to be made from its project's file.

ghost use Rattle.std.specs.Prelude.{◌≡◌};
ghost use Rattle.std.specs.List.{list_any};
ghost use Rattle.std.specs.Result.{result_map_both};
ghost use Rattle.std.specs.Str.{bytes_eq};
ghost use Rattle.ci_machine_steps.specs.Pipelines as pipelines;
ghost use Rattle.ci_machine_plans.specs.Refusals as refusals;

use ci_config::MAX_VARIABLES;
use ci_machine::records::Project;
use ci_machine::reply::{Code, FaultCode};
use ci_machine::request::{NewPipeline, PipelineVariable};
use ci_machine::text::Text;
use ci_machine_plans::replies::Refusal;
use ci_values::is_variable_name;

/// Has one of the variables this name?
fn is_named(variables: &[PipelineVariable], name: &Text) -> bool
    ensures { result ≡ list_any (λ w. bytes_eq w.key name.now) variables.now }
{
    variables.iter().any(|one| one.key.is_same(name))
}

/// Has each the name of a variable, and none that of a later one?
fn have_names(variables: &[PipelineVariable]) -> bool
    ensures { result ≡ pipelines.have_names variables.now }
{
    for i in 0..variables.len() {
        let name = &variables[i].key;
        if !is_variable_name(name.as_str()) || is_named(&variables[i + 1..], name) {
            return false;
        }
    }
    true
}

/// The file by which a pipeline is to be made, of the project that was asked for, if it was.
///
/// Refusals, in order: those of `asked_project`; M14 with `K16` where the ref isn't a name, `K11` where there are over 100 variables,
/// repeats counted, `K12` where one's name is no variable's or comes twice; M13 where the project has no file.
pub fn may_create<'a>(
    project: Result<&'a Project, Code>,
    new: &NewPipeline,
) -> Result<&'a Text, Refusal>
    ensures { result_map_both (λ t. t.now) refusals.unmade result ≡ pipelines.may_create (result_map_both (λ p. p.now) (λ c. c) project.entry) new.now }
{
    let project = match project {
        Ok(project) => project,
        Err(code) => return Err(Refusal::Code(code)),
    };
    if !new.git_ref.is_name() {
        return Err(Refusal::Fault(FaultCode::K(16)));
    }
    if new.variables.as_slice().len() > MAX_VARIABLES {
        return Err(Refusal::Fault(FaultCode::K(11)));
    }
    if !have_names(new.variables.as_slice()) {
        return Err(Refusal::Fault(FaultCode::K(12)));
    }
    match &project.file {
        Some(text) => Ok(text),
        None => Err(Refusal::Code(Code::M13)),
    }
}
