//! What a request for a new pipeline does, from what the store holds: the file of its project is read and laid out, and what it lays
//! out is made, with the rows of its jobs, and as a pipeline that isn't finished, if it isn't.

ghost use Rattle.std.specs.Prelude.{◌≡◌, ◌≤◌, ◌+◌, [], length, Ok, IfOk};
ghost use Rattle.std.specs.Result.{result_map_both};
ghost use Rattle.ci_machine_steps.specs.Prelude.{claims_in, asked_project, project_with, project_variables};
ghost use Rattle.ci_machine_steps.specs.Pipelines as machine;
ghost use Rattle.ci_machine_plans.specs.Refusals as refusals;
ghost use Rattle.ci_machine_pipelines.specs.Creations.{creation_view};
ghost use Rattle.ci_store.specs.Prelude.{LoadsBy};
ghost use Rattle.ci_server_lookups.specs.Prelude.{IsKept};
ghost use Rattle.ci_server_events.specs.Planning.{PlansFor};
ghost use Rattle.ci_server_events.specs.Creating.{rows_beside, IsMadeBeside};

use crate::planned::{Beside, Planned, listed};
use crate::projects::asked;
use ci_machine::change::Counter;
use ci_machine::moment::Moment;
use ci_machine::records::{MAX_NUMBER, Project};
use ci_machine::reply::{Code, Reply};
use ci_machine::request::NewPipeline;
use ci_machine::text::Text;
use ci_machine_pipelines::creation::Creation;
use ci_machine_pipelines::files::FileFault;
use ci_machine_pipelines::laws::laid_out_creates;
use ci_machine_pipelines::layouts::lay_out;
use ci_machine_pipelines::pipelines::may_create;
use ci_machine_plans::replies::{Refusal, faulted, unmade};
use ci_machine_statuses::creation::rows_of_creation;
use ci_machine_statuses::holder_laws::creation_is_indexed;
use ci_machine_statuses::laws::{created_is_made, creation_is_shown};
use ci_machine_statuses::unfinished::opened;
use ci_server_lookups::claims::claims_on;
use ci_server_lookups::faults::or_store_fault;
use ci_server_lookups::turns::Turns;
use ci_store::fault::StoreFault;
use std::alloc::Global;

/// A pipeline is to be made from its project's file, with the rows of its jobs.
pub(crate) fn create_pipeline<T: Turns>(
    alloc: Global,
    store: &mut T,
    new: &NewPipeline,
    now: Moment,
) -> Result<Planned<Reply>, StoreFault>
    ensures { LoadsBy T.honest T.holds T.leaves store.old store.new result
        (λ k p. IsKept k → PlansFor k (machine.Creates k.state new.now (machine.given_by new.now (project_variables k.state new.now.project)) now (machine.may_create (asked_project (project_with k.state new.now.token) new.now.project) new.now) (p.answer, p.changes)) p) }
{
    let project = store.project_with(&new.token)?;
    match file_for(&project, new) {
        Ok(text) => create_by(alloc, store, text, new, now),
        Err(refusal) => {
            let plan = unmade(alloc, refusal)?;
            Ok(Planned::unchanged(alloc, plan))
        }
    }
}

/// The file by which a pipeline is to be made. Refusals: those of the machine's `may_create`.
fn file_for<'a>(project: &'a Option<Project>, new: &NewPipeline) -> Result<&'a Text, Refusal>
    ensures { result_map_both (λ t. t.now) refusals.unmade result ≡ machine.may_create (asked_project project.now new.now.project) new.now }
{
    may_create(asked(project, new.project), new)
}

/// The pipeline is to be made by this file of its project.
fn create_by<T: Turns>(
    alloc: Global,
    store: &mut T,
    text: &Text,
    new: &NewPipeline,
    now: Moment,
) -> Result<Planned<Reply>, StoreFault>
    ensures { LoadsBy T.honest T.holds T.leaves store.old store.new result
        (λ k p. IsKept k → PlansFor k (machine.Creates k.state new.now (machine.given_by new.now (project_variables k.state new.now.project)) now (Ok text.now) (p.answer, p.changes)) p) }
{
    laid_out_creates();
    created_is_made();
    creation_is_indexed();
    creation_is_shown();
    let variables = store.variables_of(new.project)?;
    let pipeline = store.next(Counter::Pipeline)?;
    let job = store.next(Counter::Job)?;
    match lay_out(
        alloc,
        text.as_str(),
        variables.as_slice(),
        new,
        pipeline,
        job,
        now,
    ) {
        Ok(Some(creation)) => made(alloc, store, creation, job),
        Ok(None) => Ok(Planned::refused(alloc, Code::M15)),
        Err(FileFault::Fault(detail)) => {
            let plan = faulted(alloc, &detail)?;
            Ok(Planned::unchanged(alloc, plan))
        }
        Err(FileFault::Memory) => Err(StoreFault::Memory),
    }
}

/// The plan that makes these records, whose first job has this number, with what changes beside them.
fn made<T: Turns>(
    alloc: Global,
    store: &mut T,
    creation: Creation,
    first: u64,
) -> Result<Planned<Reply>, StoreFault>
    requires pipeline { creation.pipeline.id ≤ MAX_NUMBER }
    requires jobs { first + length creation.jobs.items ≤ MAX_NUMBER + 1 }
    ensures { LoadsBy T.honest T.holds T.leaves store.old store.new result
        (λ k p. IsKept k → (p.cleared.items ≡ []) × IsMadeBeside creation p.beside × ((p.answer, p.changes) ≡ machine.pipeline_created first (creation_view creation) (claims_in k.state k.board creation.pipeline.id) (rows_beside p.beside))) }
{
    let claims = claims_on(
        alloc,
        store,
        creation.pipeline.project,
        creation.pipeline.id,
        creation.jobs.as_slice(),
    )?;
    let beside = beside_creation(alloc, &creation)?;
    let plan = creation.into_plan(alloc, first, claims.as_slice(), beside.rows.as_slice())?;
    Planned::with(alloc, plan, Ok(beside))
}

/// What changes beside the records of a new pipeline: the rows of its jobs, and that it isn't finished, if it isn't. Errors: the
/// store's.
fn beside_creation(alloc: Global, creation: &Creation) -> Result<Beside, StoreFault>
    ensures { IfOk result (λ b. IsMadeBeside creation.now b) }
{
    let jobs = creation.jobs.as_slice();
    let rows = or_store_fault(rows_of_creation(alloc, jobs, creation.needs.as_slice()))?;
    let status = creation.status(alloc, rows.as_slice())?;
    let indexes = listed(alloc, opened(creation.pipeline.id, status))?;
    Ok(Beside { rows, indexes })
}
