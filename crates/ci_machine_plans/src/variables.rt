//! The variables of a project: one is to have a value, or to go.

ghost use Rattle.std.specs.Prelude.{◌≡◌, ◌+◌, IfOk, count_by, not, option_copied};
ghost use Rattle.std.specs.Str.{bytes_eq};
ghost use Rattle.std.specs.Result.{result_map_both};
ghost use Rattle.ci_machine_steps.specs.Prelude.{Project};
ghost use Rattle.ci_machine_steps.specs.Variables as settings;

use crate::replies::{Refusal, only, refused, unmade};
use ci_config::MAX_VARIABLES;
use ci_machine::change::{Changes, Key, Record, RowChange};
use ci_machine::records::{Project, Variable};
use ci_machine::reply::{Code, FaultCode, HttpStatus, Reply};
use ci_machine::request::NewVariable;
use ci_machine::text::Text;
use ci_values::is_variable_name;
use std::alloc::{AllocError, Global};

/// How many of the variables have another name.
fn others(name: &Text, variables: &[Variable]) -> usize
    ensures { result ≡ count_by (λ v. not (bytes_eq v.key name.now)) variables.now }
{
    variables
        .iter()
        .filter(|one| !one.key.is_same(name))
        .count()
}

/// How many of the variables have another name: one less than would stand with one of this name.
fn count_of_others(name: &Text, variables: &[Variable]) -> usize
    ensures { result + 1 ≡ settings.count_with name.now variables.now }
{
    others(name, variables)
}

/// A variable of the project that was asked for, if it was, is to have a value (200); the project has these.
///
/// Refusals, in order: those of `asked_project`; M14 with `K11` where over 100 variables would stand, and with `K12` where the name
/// is no variable's.
pub fn set_variable(
    alloc: Global,
    project: Result<&Project, Code>,
    variables: &[Variable],
    new: NewVariable,
) -> Result<(Reply, Changes), AllocError>
    ensures { IfOk result (λ plan. plan ≡ settings.set_variable (result_map_both (λ p. p.now) (λ c. c) project.entry) variables.now new) }
{
    let project = match project {
        Ok(project) => project,
        Err(code) => return Ok(refused(alloc, code)),
    };
    if count_of_others(&new.key, variables) >= MAX_VARIABLES {
        return unmade(alloc, Refusal::Fault(FaultCode::K(11)));
    }
    if !is_variable_name(new.key.as_str()) {
        return unmade(alloc, Refusal::Fault(FaultCode::K(12)));
    }
    put_variable(alloc, project.id, new)
}

fn put_variable(
    alloc: Global,
    project: u64,
    new: NewVariable,
) -> Result<(Reply, Changes), AllocError>
    ensures { (p : Project) → p.id ≡ project → IfOk result (λ plan. plan ≡ settings.variable_set p new) }
{
    let NewVariable { key, value, .. } = new;
    let variable = Record::Variable(Variable {
        project,
        key,
        value,
    });
    let changes = only(alloc, RowChange::Put(variable))?;
    Ok((Reply::plain(HttpStatus::Fine), changes))
}

/// The variable that was found, if there is one, is to go from the project that was asked for (204).
///
/// Refusals, in order: those of `asked_project`; M3 where there is no such variable.
pub fn delete_variable(
    alloc: Global,
    project: Result<&Project, Code>,
    found: Option<&Variable>,
) -> Result<(Reply, Changes), AllocError>
    ensures { IfOk result (λ plan. plan ≡ settings.delete_variable (result_map_both (λ p. p.now) (λ c. c) project.entry) (option_copied found.entry)) }
{
    if let Err(code) = project {
        return Ok(refused(alloc, code));
    }
    let Some(variable) = found else {
        return Ok(refused(alloc, Code::M3));
    };
    let key = Key::Variable(variable.project, variable.key.clone()?);
    let changes = only(alloc, RowChange::Remove(key))?;
    Ok((Reply::plain(HttpStatus::NoContent), changes))
}
