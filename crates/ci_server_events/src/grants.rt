//! What a runner's request for a job does, from what the store holds: the least pending job that the runner may be given is granted.

ghost use Rattle.std.specs.Prelude.{◌≡◌, ◌∷◌, [], Some, IfOk, IfErr, if◌then◌else◌};
ghost use Rattle.ci_machine_steps.specs.Grants as machine;
ghost use Rattle.ci_machine_steps.specs.Prelude.{holds_group};
ghost use Rattle.ci_machine_steps.specs.Step as step;
ghost use Rattle.ci_machine.specs.declared.request.Request.TheVariants as asked;
ghost use Rattle.ci_store.specs.Prelude.{LoadsBy};
ghost use Rattle.ci_board.specs.declared.facts.Status.TheVariants as status;
ghost use Rattle.ci_server_lookups.specs.Prelude.{IsKept, IsOffered};
ghost use Rattle.ci_server_events.specs.Planning.{PlansFor};

use crate::planned::{Beside, Planned, listed};
use ci_machine::change::Counter;
use ci_machine::moment::Moment;
use ci_machine::records::Runner;
use ci_machine::reply::Reply;
use ci_machine::request::Seed;
use ci_machine::text::Text;
use ci_machine_plans::grants;
use ci_machine_statuses::groups::held;
use ci_machine_statuses::holder_laws::grant_is_indexed;
use ci_machine_statuses::laws::grant_settles;
use ci_machine_statuses::pending::started;
use ci_server_lookups::search::Offer;
use ci_server_lookups::searches::Searches;
use ci_store::fault::StoreFault;
use ci_store::store::Store;
use std::alloc::Global;

/// The runner with this token asks for a job.
pub(crate) fn ask_job<T: Searches>(
    alloc: Global,
    store: &mut T,
    token: Text,
    now: Moment,
    seed: Seed,
) -> Result<Planned<Reply>, StoreFault>
    ensures { LoadsBy T.honest T.holds T.leaves store.old store.new result
        (λ k p. IsKept k → PlansFor k (step.Does k.state k.board (asked.AskJob token) now seed (p.answer, p.changes)) p) }
{
    match store.runner_with(&token)? {
        None => Ok(Planned::unchanged(alloc, grants::unknown_runner(alloc))),
        Some(runner) => ask_for(alloc, store, &runner, now, seed),
    }
}

/// The runner asks for a job.
fn ask_for<T: Searches>(
    alloc: Global,
    store: &mut T,
    runner: &Runner,
    now: Moment,
    seed: Seed,
) -> Result<Planned<Reply>, StoreFault>
    ensures { LoadsBy T.honest T.holds T.leaves store.old store.new result
        (λ k p. IsKept k → let q = step.offer k.state k.board (Some runner.now) in
        PlansFor k ((p.answer, p.changes) ≡ machine.ask_job (Some runner.now) q (step.offered_variables k.state q) k.state.next.attempt now seed) p) }
{
    match store.first_offer(alloc, runner)? {
        None => Ok(Planned::unchanged(alloc, grants::nothing_to_run(alloc))),
        Some(offer) => grant(alloc, store, runner, &offer, now, seed),
    }
}

/// The runner asks for a job, and is offered this one.
fn grant<T: Store>(
    alloc: Global,
    store: &mut T,
    runner: &Runner,
    offer: &Offer,
    now: Moment,
    seed: Seed,
) -> Result<Planned<Reply>, StoreFault>
    ensures { LoadsBy T.honest T.holds T.leaves store.old store.new result
        (λ k p. IsKept k → IsOffered k runner.now (Some offer.now) →
        PlansFor k ((p.answer, p.changes) ≡ machine.grant runner.now offer.now.queued (step.variables_of k.state offer.now.queued.job.id) k.state.next.attempt now seed) p) }
{
    grant_settles();
    grant_is_indexed();
    let variables = store.job_variables(offer.queued.job.id)?;
    let next = store.next(Counter::Attempt)?;
    let plan = grants::grant(
        alloc,
        runner,
        &offer.queued,
        variables.as_slice(),
        next,
        now,
        seed,
    )?;
    let beside = started_beside(alloc, plan.1.is_empty(), offer, next);
    Planned::with(alloc, plan, beside)
}

/// What changes beside a job that is started as the attempt with this number: its row says so, and its resource group is held, if it
/// has one. Nothing changes where it isn't started.
fn started_beside(
    alloc: Global,
    refused: bool,
    offer: &Offer,
    attempt: u64,
) -> Result<Beside, StoreFault>
    ensures rows { IfOk result (λ b. b.rows.items ≡ (if refused then [] else record offer.now.row { row = record offer.now.row.row { status = status.Running } } ∷ [])) }
    ensures indexes { IfOk result (λ b. b.indexes.items ≡ (if refused then [] else holds_group attempt offer.now.queued)) }
    ensures fault { IfErr result (λ fault. fault ≡ StoreFault.Memory) }
{
    if refused {
        return Ok(Beside::nothing(alloc));
    }
    let mut rows = Vec::new(alloc);
    rows.push(started(offer.row))?;
    let hold = held(attempt, &offer.queued)?;
    let indexes = listed(alloc, hold)?;
    Ok(Beside { rows, indexes })
}
