//! For which resource groups the jobs of a pipeline must wait, from what the store holds.

ghost use Rattle.std.specs.Prelude.{◌≡◌, ◌++◌, map, Some, IfOk, OnOk};
ghost use Rattle.ci_machine_steps.specs.Prelude.{is_free, is_behind, order_of, held_claim, claims_ahead, waiting, groups_in, claims_in};
ghost use Rattle.ci_store.specs.Prelude.{LoadsBy};
ghost use Rattle.ci_server_lookups.specs.Held.{claim_if, ahead_for, FreeAlike};
ghost use Rattle.ci_server_lookups.specs.Keeps.{IsKept};

use crate::holders::holders_of;
use crate::turns::{Turns, is_past};
use ci_machine::records::{Claim, GroupOrder, Holder, Job};
use ci_machine::text::Text;
use ci_machine_statuses::groups::claims_of;
use ci_store::fault::StoreFault;
use ci_store::store::Store;
use std::alloc::{AllocError, Global};

/// Need a job with this resource group, if it is one, of a pipeline of a project that was found not wait for it?
pub fn is_group_free<T: Turns>(
    alloc: Global,
    store: &mut T,
    project: u64,
    pipeline: u64,
    group: &Option<Text>,
) -> Result<bool, StoreFault>
    ensures { LoadsBy T.honest T.holds T.leaves store.old store.new result (λ k free. IsKept k → free ≡ is_free (claims_in k.state k.board pipeline) project group.now) }
{
    match group {
        None => Ok(true),
        Some(group) => is_one_free(alloc, store, project, pipeline, group),
    }
}

fn is_one_free<T: Turns>(
    alloc: Global,
    store: &mut T,
    project: u64,
    pipeline: u64,
    group: &Text,
) -> Result<bool, StoreFault>
    ensures { LoadsBy T.honest T.holds T.leaves store.old store.new result (λ k free. IsKept k → free ≡ is_free (claims_in k.state k.board pipeline) project (Some group.now)) }
{
    let holder = store.holder(project, group)?;
    if holder.is_some() {
        return Ok(false);
    }
    let behind = is_behind(alloc, store, project, pipeline, group)?;
    Ok(!behind)
}

/// Does another job go before those that this pipeline of a project that was found has in the resource group?
pub fn is_behind<T: Turns>(
    alloc: Global,
    store: &mut T,
    project: u64,
    pipeline: u64,
    group: &Text,
) -> Result<bool, StoreFault>
    ensures { LoadsBy T.honest T.holds T.leaves store.old store.new result
        (λ k behind. IsKept k → behind ≡ is_behind (order_of k.state.modes project group.now) (waiting k.state k.board) project pipeline group.now) }
{
    let mode = store.mode(project, group)?;
    match mode {
        None => Ok(false),
        Some(mode) => is_past_turn(alloc, store, project, pipeline, group, mode.order),
    }
}

/// The same of a group that has this order.
fn is_past_turn<T: Turns>(
    alloc: Global,
    store: &mut T,
    project: u64,
    pipeline: u64,
    group: &Text,
    order: GroupOrder,
) -> Result<bool, StoreFault>
    ensures { LoadsBy T.honest T.holds T.leaves store.old store.new result
        (λ k behind. IsKept k → behind ≡ is_behind (Some order) (waiting k.state k.board) project pipeline group.now) }
{
    let turn = store.turn(alloc, project, group, order)?;
    Ok(is_past(order, turn, pipeline))
}

/// The resource groups of these jobs of a pipeline, of a project that was found, in which other jobs go first.
pub fn ahead_of<T: Turns>(
    alloc: Global,
    store: &mut T,
    project: u64,
    pipeline: u64,
    jobs: &[Job],
) -> Result<Vec<Claim>, StoreFault>
    ensures { LoadsBy T.honest T.holds T.leaves store.old store.new result (λ k ahead. IsKept k → FreeAlike ahead.items (claims_ahead (groups_in k.state k.board) pipeline) project jobs.now) }
{
    let mut ahead = Vec::new(alloc);
    for job in jobs {
        push_ahead(
            alloc,
            store,
            &mut ahead,
            project,
            pipeline,
            &job.options.resource_group,
        )?;
    }
    Ok(ahead)
}

/// Adds a claim on this resource group, if it is one and others go first in it.
fn push_ahead<T: Turns>(
    alloc: Global,
    store: &mut T,
    ahead: &mut Vec<Claim>,
    project: u64,
    pipeline: u64,
    group: &Option<Text>,
) -> Result<(), StoreFault>
    ensures { LoadsBy T.honest T.holds T.leaves store.old store.new result (λ k _. IsKept k → ahead.new.items ≡ ahead.old.items ++ ahead_for (groups_in k.state k.board) project pipeline group.now) }
{
    match group {
        None => Ok(()),
        Some(group) => push_if_behind(alloc, store, ahead, project, pipeline, group),
    }
}

fn push_if_behind<T: Turns>(
    alloc: Global,
    store: &mut T,
    ahead: &mut Vec<Claim>,
    project: u64,
    pipeline: u64,
    group: &Text,
) -> Result<(), StoreFault>
    ensures { LoadsBy T.honest T.holds T.leaves store.old store.new result (λ k _. IsKept k → ahead.new.items ≡ ahead.old.items ++ ahead_for (groups_in k.state k.board) project pipeline (Some group.now)) }
{
    let behind = is_behind(alloc, store, project, pipeline, group)?;
    Ok(push_if(ahead, behind, project, group)?)
}

fn push_if(
    claims: &mut Vec<Claim>,
    claimed: bool,
    project: u64,
    group: &Text,
) -> Result<(), AllocError>
    ensures { OnOk result (claims.new.items ≡ claims.old.items ++ claim_if claimed project group.now) }
{
    if !claimed {
        return Ok(());
    }
    let group = group.clone()?;
    claims.push(Claim { project, group })?;
    Ok(())
}

/// The claims of those who hold groups, and these behind them.
pub fn claims_with(
    alloc: Global,
    held: &[Holder],
    ahead: &[Claim],
) -> Result<Vec<Claim>, AllocError>
    ensures { IfOk result (λ v. v.items ≡ map held_claim held.now ++ ahead.now) }
{
    let mut claims = claims_of(alloc, held)?;
    for claim in ahead {
        claims.push(claim.clone()?)?;
    }
    Ok(claims)
}

/// For which of their resource groups these jobs of a pipeline, of a project that was found, must wait.
pub fn claims_on<T: Turns>(
    alloc: Global,
    store: &mut T,
    project: u64,
    pipeline: u64,
    jobs: &[Job],
) -> Result<Vec<Claim>, StoreFault>
    ensures { LoadsBy T.honest T.holds T.leaves store.old store.new result (λ k claims. IsKept k → FreeAlike claims.items (claims_in k.state k.board pipeline) project jobs.now) }
{
    let held = holders_of(alloc, store, project, jobs)?;
    let ahead = ahead_of(alloc, store, project, pipeline, jobs)?;
    Ok(claims_with(alloc, held.as_slice(), ahead.as_slice())?)
}
