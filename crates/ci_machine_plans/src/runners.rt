//! A runner is to be made, or to be paused.

ghost use Rattle.std.specs.Prelude.{◌≡◌, ◌≤◌, None, IfOk, option_copied};
ghost use Rattle.std.specs.List.{list_all};
ghost use Rattle.ci_machine_steps.specs.Prelude.{is_name};
ghost use Rattle.ci_machine_steps.specs.Plans as plans;
ghost use Rattle.ci_machine_steps.specs.Runners as runners;
ghost use Rattle.ci_machine_plans.specs.Refusals as refusals;

use crate::body;
use crate::replies::{Refusal, fine, identity, made, only, refused, unmade};
use ci_config::MAX_TAGS;
use ci_machine::change::{Changes, Counter, Record, RowChange};
use ci_machine::records::{MAX_NUMBER, Project, Runner};
use ci_machine::reply::{Body, Code, FaultCode, Reply};
use ci_machine::request::{NewRunner, Seed};
use ci_machine::text::Text;
use std::alloc::{AllocError, Global};

/// A runner is to be made, with this next number: the project that it is to be of, if it is to be of one and that is there.
///
/// Refusals, in order: M14 `K11` where it has over 32 tags, repeats counted, and `K16` where its name or a tag isn't a name; M2 where there
/// is no such project; M15 where the number is over the limit.
pub fn add_runner(
    alloc: Global,
    next: u64,
    project: Option<&Project>,
    new: NewRunner,
    seed: Seed,
) -> Result<(Reply, Changes), AllocError>
    ensures { IfOk result (λ plan. plan ≡ runners.add_runner next (option_copied project.entry) new seed) }
{
    if let Some(refusal) = refusal_of_runner(&new, project, next) {
        return unmade(alloc, refusal);
    }
    make_runner(alloc, next, new, seed)
}

/// Why a runner isn't made with this next number, if it isn't.
fn refusal_of_runner(new: &NewRunner, project: Option<&Project>, next: u64) -> Option<Refusal>
    ensures plan { (made : plans.Plan) → refusals.unless result made ≡ refusals.of_runner new.now (option_copied project.entry) next made }
    ensures within { result ≡ None → next ≤ MAX_NUMBER }
{
    if new.tags.as_slice().len() > MAX_TAGS {
        Some(Refusal::Fault(FaultCode::K(11)))
    } else if !are_names(new) {
        Some(Refusal::Fault(FaultCode::K(16)))
    } else if lacks_project(new.project, project) {
        Some(Refusal::Code(Code::M2))
    } else if next > MAX_NUMBER {
        Some(Refusal::Code(Code::M15))
    } else {
        None
    }
}

/// Is the runner's own name a name, and each of its tags?
fn are_names(new: &NewRunner) -> bool
    ensures { result ≡ runners.are_names new.now }
{
    new.name.is_name() && all_names(new.tags.as_slice())
}

fn all_names(texts: &[Text]) -> bool
    ensures { result ≡ list_all is_name texts.now }
{
    texts.iter().all(|text| text.is_name())
}

/// Is the runner to be of a project that isn't there?
fn lacks_project(named: Option<u64>, project: Option<&Project>) -> bool
    ensures { result ≡ runners.lacks_project named (option_copied project.entry) }
{
    match (named, project) {
        (Some(_), None) => true,
        _ => false,
    }
}

/// The runner is made with this number, and isn't paused.
fn make_runner(
    alloc: Global,
    id: u64,
    new: NewRunner,
    seed: Seed,
) -> Result<(Reply, Changes), AllocError>
    requires { id ≤ MAX_NUMBER }
    ensures { IfOk result (λ plan. plan ≡ runners.made_runner id new seed) }
{
    let NewRunner {
        name,
        project,
        tags,
        untagged,
    } = new;
    let (token, text) = identity(alloc, "r", id, seed)?;
    let runner = Record::Runner(Runner {
        id,
        name,
        token,
        project,
        tags,
        untagged,
        paused: false,
    });
    made(alloc, text, runner, Counter::Runner, id)
}

/// The runner with the number that was asked for, if there is one, is paused, or goes on. The reply (200) says which.
///
/// Refusals: M3 where there is no such runner.
pub fn pause_runner(
    alloc: Global,
    runner: Option<Runner>,
    paused: bool,
) -> Result<(Reply, Changes), AllocError>
    ensures { IfOk result (λ plan. plan ≡ runners.pause_runner runner paused) }
{
    match runner {
        None => Ok(refused(alloc, Code::M3)),
        Some(runner) => pause(alloc, runner, paused),
    }
}

fn pause(alloc: Global, runner: Runner, paused: bool) -> Result<(Reply, Changes), AllocError>
    ensures { IfOk result (λ plan. plan ≡ runners.runner_paused runner paused) }
{
    let text = body::paused(alloc, runner.id, paused)?;
    let mut runner = runner;
    runner.paused = paused;
    let changes = only(alloc, RowChange::Put(Record::Runner(runner)))?;
    Ok((fine(Body::Json(text)), changes))
}
