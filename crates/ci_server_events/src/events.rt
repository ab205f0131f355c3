//! What a request does, from what a store holds: what it needs is looked up, and its plan is made. The store stays as it is.

ghost use Rattle.ci_machine_steps.specs.Prelude.{Does};
ghost use Rattle.ci_store.specs.Prelude.{LoadsBy};
ghost use Rattle.ci_server_lookups.specs.Prelude.{IsKept, HoldsKept};
ghost use Rattle.ci_server_events.specs.Planning.{PlansFor};

use crate::acts::{act_on, cancel_pipeline};
use crate::files::set_file;
use crate::grants::ask_job;
use crate::modes::{set_mode, show_mode};
use crate::pipelines::create_pipeline;
use crate::planned::Planned;
use crate::projects::add_project;
use crate::prunes::prune_one;
use crate::reads::read;
use crate::reports::update_job;
use crate::runners::{add_runner, pause_runner};
use crate::shows::{show_job, show_pipeline, show_trace};
use crate::traces::append_trace;
use crate::variables::{delete_variable, set_variable};
use ci_machine::moment::Moment;
use ci_machine::reply::Reply;
use ci_machine::request::{Request, Seed};
use ci_machine_statuses::act::Act;
use ci_server_lookups::searches::Searches;
use ci_store::fault::StoreFault;
use std::alloc::Global;

/// What a request does: its reply, its changes, and what changes beside them, of which some goes first. Errors: the store's.
pub fn plan_request<T: Searches>(
    alloc: Global,
    store: &mut T,
    request: Request,
    now: Moment,
    seed: Seed,
) -> Result<Planned<Reply>, StoreFault>
    ensures { LoadsBy T.honest (HoldsKept T.holds) T.leaves store.old store.new result
        (λ k p. IsKept k → PlansFor k (Does k.state k.board request now seed (p.answer, p.changes)) p) }
{
    match request {
        Request::AddProject(name) => add_project(alloc, store, name, seed),
        Request::AddRunner(new) => add_runner(alloc, store, new, seed),
        Request::PauseRunner(pause) => pause_runner(alloc, store, pause),
        Request::SetFile(new) => set_file(alloc, store, new),
        Request::SetVariable(new) => set_variable(alloc, store, new),
        Request::DeleteVariable(query) => delete_variable(alloc, store, &query),
        Request::SetMode(new) => set_mode(alloc, store, new),
        Request::ShowMode(query) => show_mode(alloc, store, &query),
        Request::CreatePipeline(new) => create_pipeline(alloc, store, &new, now),
        Request::ShowPipeline(query) => show_pipeline(alloc, store, &query),
        Request::AskJob(token) => ask_job(alloc, store, token, now, seed),
        Request::UpdateJob(update) => update_job(alloc, store, &update, now),
        Request::AppendTrace(part) => append_trace(alloc, store, part, now),
        Request::ShowJob(query) => show_job(alloc, store, &query),
        Request::ShowTrace(query) => show_trace(alloc, store, &query),
        Request::Read(query) => read(alloc, store, &query),
        Request::Play(query) => act_on(alloc, store, Act::Play, &query),
        Request::CancelJob(query) => act_on(alloc, store, Act::Cancel, &query),
        Request::RetryJob(query) => act_on(alloc, store, Act::Retry, &query),
        Request::CancelPipeline(query) => cancel_pipeline(alloc, store, &query),
        Request::PruneOne(before) => prune_one(alloc, store, before),
    }
}
