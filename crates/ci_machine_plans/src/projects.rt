//! A project is to be made, or asked for.

ghost use Rattle.std.specs.Prelude.{◌≡◌, IfOk, option_copied};
ghost use Rattle.std.specs.Result.{result_map_both};
ghost use Rattle.ci_machine_steps.specs.Plans as plans;
ghost use Rattle.ci_machine_steps.specs.Projects as projects;

use crate::replies::{identity, made, refusal_of_named, unmade};
use ci_machine::change::{Changes, Counter, Record};
use ci_machine::records::Project;
use ci_machine::reply::{Code, Reply};
use ci_machine::request::Seed;
use ci_machine::text::Text;
use std::alloc::{AllocError, Global};

/// A project is to be made, with this next number.
///
/// Refusals, in order: M14 `K16` where the name isn't one, M15 where the number is over the limit.
pub fn add_project(
    alloc: Global,
    next: u64,
    name: Text,
    seed: Seed,
) -> Result<(Reply, Changes), AllocError>
    ensures { IfOk result (λ plan. plan ≡ projects.add_project next name seed) }
{
    if let Some(refusal) = refusal_of_named(&name, next) {
        return unmade(alloc, refusal);
    }
    let (token, text) = identity(alloc, "p", next, seed)?;
    let project = Record::Project(Project {
        id: next,
        name,
        token,
        file: None,
    });
    made(alloc, text, project, Counter::Project, next)
}

/// The project with the token that was sent, if there is one, where it is the one that is named.
///
/// Refusals, in order: M1 where there is no such project; M2 where it isn't the one that is named.
pub fn asked_project<'a>(project: Option<&'a Project>, named: u64) -> Result<&'a Project, Code>
    ensures { result_map_both (λ p. p.now) (λ c. c) result ≡ plans.asked_project (option_copied project.entry) named }
{
    match project {
        None => Err(Code::M1),
        Some(project) if project.id != named => Err(Code::M2),
        Some(project) => Ok(project),
    }
}
