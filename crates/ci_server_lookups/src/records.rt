//! A pipeline's jobs with what a board takes of them, from what the store holds.

ghost use Rattle.std.specs.Prelude.{◌≡◌, ◌<◌};
ghost use Rattle.ci_machine_steps.specs.Prelude.{IsSound};
ghost use Rattle.ci_machine_statuses.specs.Boards.{IsItsGraph};
ghost use Rattle.ci_store.specs.Prelude.{LoadsBy};
ghost use Rattle.ci_server_lookups.specs.Records.{AreOf, IsWhole};
ghost use Rattle.ci_server_lookups.specs.Keeps.{IsKept};

use crate::claims::ahead_of;
use crate::faults::or_store_fault;
use crate::holders::holders_of;
use crate::turns::Turns;
use ci_graph::graph::Graph;
use ci_machine::records::{Attempt, BoardRow, Claim, Holder, Job, Need, Pipeline};
use ci_machine_statuses::load::{load_graph, range_of};
use ci_store::fault::StoreFault;
use ci_store::store::Store;
use std::alloc::Global;
use std::sync::ledger::{Blank, Ledger};

/// The jobs of a pipeline, and at least their needs, attempts and rows.
#[derive(Drop)]
pub struct Records {
    pub jobs: Vec<Job>,
    pub needs: Vec<Need>,
    pub attempts: Vec<Attempt>,
    pub rows: Vec<BoardRow>,
}

/// The records of a pipeline, by four look-ups. Errors: the store's.
pub fn records_of<T: Store>(store: &mut T, pipeline: u64) -> Result<Records, StoreFault>
    ensures { LoadsBy T.honest T.holds T.leaves store.old store.new result (λ k r. IsKept k → AreOf k pipeline r) }
{
    let jobs = store.jobs_of(pipeline)?;
    let Some((first, last)) = range_of(jobs.as_slice()) else {
        return Err(StoreFault::Broken);
    };
    let needs = store.needs_within(first, last)?;
    let attempts = store.attempts_within(first, last)?;
    let rows = store.rows_within(first, last)?;
    Ok(Records {
        jobs,
        needs,
        attempts,
        rows,
    })
}

/// The graph of a pipeline's jobs, by what the store holds of what they wait for. The blank makes its meter. Errors: the store's. `Broken`
/// too where the pipeline has no jobs, or a job of it waits for one that is none of it, or for itself by way of others.
pub fn graph_in<T: Store, L: Ledger>(
    alloc: Global,
    blank: Blank,
    store: &mut T,
    pipeline: u64,
) -> Result<Graph<L>, StoreFault>
    requires name { blank.name ≡ L.name }
    requires ledger { blank.parts ≡ L.parts }
    requires some { 0 < blank.parts }
    ensures { LoadsBy T.honest T.holds T.leaves store.old store.new result (λ k g. IsSound k.state → IsItsGraph k.state pipeline g) }
{
    let jobs = store.jobs_of(pipeline)?;
    let Some((first, last)) = range_of(jobs.as_slice()) else {
        return Err(StoreFault::Broken);
    };
    let needs = store.needs_within(first, last)?;
    or_store_fault(load_graph(alloc, blank, jobs.as_slice(), needs.as_slice()))
}

/// A pipeline with its records, with who holds the resource groups of its jobs, and with those of them in which other jobs go first.
#[derive(Drop)]
pub struct Whole {
    pub pipeline: Pipeline,
    pub records: Records,
    pub held: Vec<Holder>,
    pub ahead: Vec<Claim>,
}

/// The pipeline with a number that a record has. Errors: the store's.
pub fn whole_of<T: Turns>(alloc: Global, store: &mut T, number: u64) -> Result<Whole, StoreFault>
    ensures { LoadsBy T.honest T.holds T.leaves store.old store.new result (λ k w. IsKept k → IsWhole k number w) }
{
    let records = records_of(store, number)?;
    let Some(pipeline) = store.pipeline(number)? else {
        return Err(StoreFault::Broken);
    };
    let jobs = records.jobs.as_slice();
    let held = holders_of(alloc, store, pipeline.project, jobs)?;
    let ahead = ahead_of(alloc, store, pipeline.project, number, jobs)?;
    Ok(Whole {
        pipeline,
        records,
        held,
        ahead,
    })
}
