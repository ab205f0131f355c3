//! What is remembered still of the pipelines that aren't finished, after the changes of a commit.

ghost use Rattle.std.specs.Prelude.{◌≡◌, ◌==◌, ◌++◌, not, ℕ, List, map, filter, IfOk, OnOk, option_copied};
ghost use Rattle.std.specs.List.{list_any};
ghost use Rattle.ci_machine_steps.specs.Prelude.{BoardRow, with_record, without_record, changed, applied, Kept, cleared, indexed, indexed_all, with_open, without_open, written};
ghost use Rattle.ci_machine.specs.declared.change.Key.TheVariants as key;
ghost use Rattle.ci_machine.specs.declared.change.Record.TheVariants as row;
ghost use Rattle.ci_memory.specs.Alone.{Accounts, IsRight};
ghost use Rattle.ci_memory.specs.Changes.{put_pipeline, removed_pipeline, is_unsettled};

use crate::pipelines::open::Open;
use ci_machine::change::{IndexChange, Key, Record, RowChange};
use ci_machine::records::Pipeline;
use ci_machine::redundant::is_newer_of;
use std::alloc::AllocError;

/// What is remembered of a store after it has written these changes. A pipeline that is put makes suspects of those of which it is a
/// newer one; where one is removed that was known to have none, or memory is refused, nothing is remembered.
pub fn open_after(
    remembered: Option<Open>,
    changes: &[RowChange],
    indexes: &[IndexChange],
) -> Option<Open>
    ensures { (k : Kept) (jobs : List ℕ) (rows : List BoardRow) → IsRight remembered k → IsRight result (written changes.now rows indexes.now (cleared jobs k)) }
{
    let known = after_changes(remembered?, changes)?;
    after_indexes(known, indexes)
}

/// What is remembered after changes of records.
fn after_changes(mut known: Open, changes: &[RowChange]) -> Option<Open>
    ensures { (k : Kept) → Accounts known k → IsRight result (record k { state = applied changes.now k.state }) }
{
    for change in changes {
        known = after_change(known, change)?;
    }
    Some(known)
}

/// What is remembered after a change of a record.
fn after_change(known: Open, change: &RowChange) -> Option<Open>
    ensures { (k : Kept) → Accounts known k → IsRight result (record k { state = changed change.now k.state }) }
{
    if let Some(number) = removed_pipeline(change) {
        return after_removal(known, number);
    }
    match put_pipeline(change) {
        Some(pipeline) => after_put(known, pipeline).ok(),
        None => Some(known),
    }
}

/// The number of the pipeline that a change removes, if it removes one.
fn removed_pipeline(change: &RowChange) -> Option<u64>
    ensures { result ≡ removed_pipeline change.now }
{
    match change {
        RowChange::Remove(Key::Pipeline(number)) => Some(*number),
        _ => None,
    }
}

/// What is remembered after the pipeline with a number is removed: of the others none gets a newer one.
fn after_removal(known: Open, number: u64) -> Option<Open>
    ensures { (k : Kept) → Accounts known k → IsRight result (record k { state = without_record (key.Pipeline number) k.state }) }
{
    if has_pipeline(known.alone.as_slice(), number) {
        return None;
    }
    Some(known)
}

fn has_pipeline(pipelines: &[Pipeline], number: u64) -> bool
    ensures { result ≡ list_any (λ p. p.id == number) pipelines.now }
{
    pipelines.iter().any(|one| one.id == number)
}

/// The pipeline that a change puts, if it puts one.
fn put_pipeline(change: &RowChange) -> Option<&Pipeline>
    ensures { option_copied result ≡ put_pipeline change.now }
{
    match change {
        RowChange::Put(Record::Pipeline(pipeline)) => Some(pipeline),
        _ => None,
    }
}

/// What is remembered after a pipeline is put.
fn after_put(known: Open, pipeline: &Pipeline) -> Result<Open, AllocError>
    ensures { IfOk result (λ after. (k : Kept) → Accounts known k → Accounts after (record k { state = with_record (row.Pipeline pipeline.now) k.state })) }
{
    if !is_any_unsettled(known.alone.as_slice(), pipeline) {
        return Ok(known);
    }
    let Open {
        mut alone,
        mut suspects,
    } = known;
    suspect(&mut suspects, alone.as_slice(), pipeline)?;
    settle(&mut alone, pipeline);
    Ok(Open { alone, suspects })
}

/// Isn't it known any more of one of these, where the pipeline is put, that it has no newer one?
fn is_any_unsettled(alone: &[Pipeline], pipeline: &Pipeline) -> bool
    ensures { result ≡ list_any (is_unsettled pipeline.now) alone.now }
{
    alone.iter().any(|one| is_unsettled(pipeline, one))
}

fn is_unsettled(put: &Pipeline, one: &Pipeline) -> bool
    ensures { result ≡ is_unsettled put.now one.now }
{
    one.id == put.id || is_newer_of(one, put)
}

/// Adds those of which it isn't known any more, where the pipeline is put, that they have no newer one.
fn suspect(
    suspects: &mut Vec<u64>,
    alone: &[Pipeline],
    pipeline: &Pipeline,
) -> Result<(), AllocError>
    ensures { OnOk result (suspects.new.items ≡ suspects.old.items ++ map (λ p. p.id) (filter (is_unsettled pipeline.now) alone.now)) }
{
    for one in alone {
        if is_unsettled(pipeline, one) {
            suspects.push(one.id)?;
        }
    }
    Ok(())
}

/// Takes these out.
fn settle(alone: &mut Vec<Pipeline>, pipeline: &Pipeline)
    ensures { alone.new.items ≡ filter (λ p. not (is_unsettled pipeline.now p)) alone.old.items }
{
    alone.retain(|one| !is_unsettled(pipeline, one));
}

/// What is remembered after changes of what is beside the state.
fn after_indexes(mut known: Open, changes: &[IndexChange]) -> Option<Open>
    ensures { (k : Kept) → Accounts known k → IsRight result (indexed_all changes.now k) }
{
    for change in changes {
        known = after_index(known, change).ok()?;
    }
    Some(known)
}

/// What is remembered after a change of what is beside the state.
fn after_index(known: Open, change: &IndexChange) -> Result<Open, AllocError>
    ensures { IfOk result (λ after. (k : Kept) → Accounts known k → Accounts after (indexed change.now k)) }
{
    match change {
        IndexChange::Open(unfinished) => opened(known, unfinished.pipeline),
        IndexChange::Close(pipeline) => Ok(closed(known, *pipeline)),
        IndexChange::Hold(_) | IndexChange::Free(_, _) => Ok(known),
    }
}

/// What is remembered after a pipeline is opened, which was finished or is new: it is a suspect.
fn opened(known: Open, pipeline: u64) -> Result<Open, AllocError>
    ensures { IfOk result (λ after. (k : Kept) → Accounts known k → Accounts after (record k { unfinished = with_open (record { pipeline = pipeline }) k.unfinished })) }
{
    if has_number(known.suspects.as_slice(), pipeline) {
        return Ok(known);
    }
    let Open {
        alone,
        mut suspects,
    } = known;
    suspects.push(pipeline)?;
    Ok(Open { alone, suspects })
}

fn has_number(suspects: &[u64], pipeline: u64) -> bool
    ensures { result ≡ list_any (λ n. n == pipeline) suspects.now }
{
    suspects.iter().any(|one| *one == pipeline)
}

/// What is remembered after a pipeline is finished.
fn closed(known: Open, pipeline: u64) -> Open
    ensures { (k : Kept) → Accounts known k → Accounts result (record k { unfinished = without_open pipeline k.unfinished }) }
{
    let Open {
        mut alone,
        mut suspects,
    } = known;
    take_out(&mut alone, pipeline);
    take_number_out(&mut suspects, pipeline);
    Open { alone, suspects }
}

fn take_out(alone: &mut Vec<Pipeline>, pipeline: u64)
    ensures { alone.new.items ≡ filter (λ p. not (p.id == pipeline)) alone.old.items }
{
    alone.retain(|one| one.id != pipeline);
}

fn take_number_out(suspects: &mut Vec<u64>, pipeline: u64)
    ensures { suspects.new.items ≡ filter (λ n. not (n == pipeline)) suspects.old.items }
{
    suspects.retain(|one| *one != pipeline);
}
