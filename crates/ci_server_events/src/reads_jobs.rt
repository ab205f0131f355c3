//! The jobs of a pipeline are read, from what the store holds.

ghost use Rattle.std.specs.Prelude.{◌≡◌, ℕ, IfOk, IfErr};
ghost use Rattle.std.specs.Result.{result_map_both};
ghost use Rattle.serde_json.specs.Data.{array};
ghost use Rattle.serde_json.specs.View.{items_of};
ghost use Rattle.ci_machine.specs.declared.request.Subject.TheVariants as subject;
ghost use Rattle.ci_machine_steps.specs.Prelude.{Kept, told_jobs, jobs_of, facts_of, rows_of, claims_in, pipeline_within};
ghost use Rattle.ci_machine_steps.specs.Reads as machine;
ghost use Rattle.ci_server_lookups.specs.Prelude.{AreRecords, Memory, IsKept};
ghost use Rattle.ci_store.specs.Prelude.{LoadsBy};

use crate::shows::loaded;
use ci_machine::records::{BoardRow, Job, Pipeline, Project};
use ci_machine::reply::{Body, Code};
use ci_machine_plans::listed_jobs::{self, Around};
use ci_machine_plans::shows;
use ci_machine_statuses::load::range_of;
use ci_server_lookups::claims::claims_on;
use ci_server_lookups::turns::Turns;
use ci_store::fault::StoreFault;
use std::alloc::Global;

/// The jobs of the pipeline with this number are read, where it is one of the project. Refusals: M3 where it isn't, or there is none.
pub(crate) fn jobs<T: Turns>(
    alloc: Global,
    store: &mut T,
    project: &Project,
    number: u64,
) -> Result<Result<Body, Code>, StoreFault>
    ensures { LoadsBy T.honest T.holds T.leaves store.old store.new result
        (λ k body. IsKept k → body ≡ machine.read_subject k.state k.board project.now (subject.Jobs number)) }
{
    let pipeline = store.pipeline(number)?;
    match within(project, &pipeline) {
        Ok(found) => {
            let body = pipeline_jobs(alloc, store, project.id, found.id)?;
            Ok(Ok(body))
        }
        Err(code) => Ok(Err(code)),
    }
}

/// The pipeline that was found, where it is the project's.
fn within<'a>(project: &Project, pipeline: &'a Option<Pipeline>) -> Result<&'a Pipeline, Code>
    ensures { result_map_both (λ p. p.now) (λ c. c) result ≡ pipeline_within pipeline.now project.now.id }
{
    shows::asked_pipeline(Ok(project), pipeline.as_ref())
}

/// The jobs of a pipeline of a project that was found, with what is looked up of them.
fn pipeline_jobs<T: Turns>(
    alloc: Global,
    store: &mut T,
    project: u64,
    number: u64,
) -> Result<Body, StoreFault>
    ensures { LoadsBy T.honest T.holds T.leaves store.old store.new result
        (λ k body. IsKept k → let s = k.state in
        body ≡ machine.json (array (items_of (told_jobs (claims_in s k.board number) project s.runners s.needs s.attempts (jobs_of s number) (facts_of s number) (rows_of s k.board number))))) }
{
    let jobs = store.jobs_of(number)?;
    let Some((first, last)) = range_of(jobs.as_slice()) else {
        return Err(StoreFault::Broken);
    };
    let needs = store.needs_within(first, last)?;
    let attempts = store.attempts_within(first, last)?;
    let rows = store.rows_within(first, last)?;
    let claims = claims_on(alloc, store, project, number, jobs.as_slice())?;
    let runners = store.runners()?;
    let around = Around {
        claims: claims.as_slice(),
        project,
        runners: runners.as_slice(),
        needs: needs.as_slice(),
        attempts: attempts.as_slice(),
    };
    told(alloc, &around, jobs.as_slice(), rows.as_slice())
}

/// These jobs are told, by what is around them and at least their rows.
fn told(alloc: Global, around: &Around, jobs: &[Job], rows: &[BoardRow]) -> Result<Body, StoreFault>
    ensures told { IfOk result (λ body. (k : Kept) (number : ℕ) → IsKept k → AreRecords k.state k.board number jobs.now around.now.needs.now around.now.attempts.now rows.now
        → body ≡ machine.json (array (items_of (told_jobs around.now.claims.now around.now.project around.now.runners.now around.now.needs.now around.now.attempts.now jobs.now (facts_of k.state number) (rows_of k.state k.board number))))) }
    ensures fault { IfErr result (λ fault. (k : Kept) (number : ℕ) → IsKept k → AreRecords k.state k.board number jobs.now around.now.needs.now around.now.attempts.now rows.now → fault ≡ Memory) }
{
    let found = loaded(alloc, jobs, around.attempts, rows)?;
    let body = listed_jobs::jobs(alloc, around, jobs, found.0.as_slice(), found.1.as_slice())?;
    Ok(body)
}
