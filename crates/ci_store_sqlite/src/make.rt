//! What each change does to the rows.

ghost use Rattle.std.specs.Prelude.{◌≡◌, [], ◌∷◌, map, IsTrue, OnOk};
ghost use Rattle.ci_store.specs.Prelude.{Text as Words, HasCleanDisk, Shown, bound, state, with_record, without_record, with_next, changed, KeepsInside, CommitsNothing, indexed};
ghost use Rattle.ci_store.specs.Prelude.{cleared};
ghost use Rattle.ci_store_rows.specs.Prelude.{in_state, MakesInside, RemovesUnreferred, number};

use crate::append::append;
use ci_machine::change::{Counter, IndexChange, Key, Record, RowChange};
use ci_machine::text::Text;
use ci_store::fault::StoreFault;
use ci_store::read::rows_inside;
use ci_store::values::number;
use ci_store::write::change;
use ci_store_rows::columns::{counter_key, text};
use ci_store_rows::read::Stored;
use ci_store_rows::texts;
use sqlite::types::{ToSql, ValueRef};
use sqlite::{Alter, Transaction};
use std::alloc::Global;

/// Sets a next number, whose row is always there. Errors: it isn't.
fn set_next<S: Alter>(
    tx: &mut Transaction<'_, S>,
    counter: Counter,
    next: u64,
) -> Result<(), StoreFault>
    ensures same_reference { tx.new.conn.ghost_name ≡ tx.old.conn.ghost_name }
    ensures makes { MakesInside S.Store (in_state (λ s. record s { next = with_next counter next s.next })) tx.old.conn.now tx.new.conn.now result }
    ensures kept { KeepsInside S.Store tx.old.conn.now tx.new.conn.now }
    ensures survives { CommitsNothing S.Store tx.old.conn.now tx.new.conn.now }
{
    let row = [counter_key(counter).to_sql(), number(next)?];
    if change(tx, texts::UPDATE_META, &row)? == 1 {
        Ok(())
    } else {
        Err(StoreFault::Broken)
    }
}

/// Puts a record. Jobs from the number `first_new` on aren't there yet, nor is what names them, so that these rows are inserted at
/// once.
fn put_record<S: Alter>(
    tx: &mut Transaction<'_, S>,
    alloc: Global,
    first_new: u64,
    item: &Record,
) -> Result<(), StoreFault>
    ensures same_reference { tx.new.conn.ghost_name ≡ tx.old.conn.ghost_name }
    ensures makes { MakesInside S.Store (in_state (with_record item.now)) tx.old.conn.now tx.new.conn.now result }
    ensures kept { KeepsInside S.Store tx.old.conn.now tx.new.conn.now }
    ensures survives { CommitsNothing S.Store tx.old.conn.now tx.new.conn.now }
{
    match item {
        Record::Project(project) => project.put(tx, alloc, false),
        Record::Variable(variable) => variable.put(tx, alloc, false),
        Record::Runner(runner) => runner.put(tx, alloc, false),
        Record::Pipeline(pipeline) => pipeline.put(tx, alloc, false),
        Record::Job(job) => job.put(tx, alloc, job.id >= first_new),
        Record::JobVariable(variable) => variable.put(tx, alloc, variable.job >= first_new),
        Record::Need(need) => need.put(tx, alloc, need.job >= first_new),
        Record::Attempt(attempt) => attempt.put(tx, alloc, false),
        Record::Mode(mode) => mode.put(tx, alloc, false),
        Record::Next(counter, next) => set_next(tx, *counter, *next),
    }
}

/// Tells that a query of rows that refer to a record shows none. Errors: it shows one.
fn shows_none<S: Alter>(
    tx: &mut Transaction<'_, S>,
    query: &str,
    key: &[ValueRef<'_>],
) -> Result<(), StoreFault>
    ensures same_reference { tx.new.conn.ghost_name ≡ tx.old.conn.ghost_name }
    ensures none { HasCleanDisk (state S.Store tx.new.conn.now) → IsTrue tx.old.conn.now.in_transaction
        → OnOk result (IsTrue tx.new.conn.now.in_transaction × Shown query.now (bound key.now) (state S.Store tx.old.conn.now) (state S.Store tx.new.conn.now) []) }
    ensures kept { KeepsInside S.Store tx.old.conn.now tx.new.conn.now }
    ensures survives { CommitsNothing S.Store tx.old.conn.now tx.new.conn.now }
{
    let rows = rows_inside(tx, query, key)?;
    if rows.is_empty() {
        Ok(())
    } else {
        Err(StoreFault::Broken)
    }
}

/// Removes the rows with the key. Refuses where one of the queries shows a row that refers to it, so that no cascade acts.
fn remove<S: Alter>(
    tx: &mut Transaction<'_, S>,
    referring: &[&str],
    delete: &str,
    key: &[ValueRef<'_>],
) -> Result<(), StoreFault>
    ensures same_reference { tx.new.conn.ghost_name ≡ tx.old.conn.ghost_name }
    ensures removes { HasCleanDisk (state S.Store tx.new.conn.now) → IsTrue tx.old.conn.now.in_transaction
        → OnOk result (IsTrue tx.new.conn.now.in_transaction × RemovesUnreferred S.Store (map (λ query. query.now) referring.now) delete.now (bound key.now) tx.old.conn.now tx.new.conn.now) }
    ensures kept { KeepsInside S.Store tx.old.conn.now tx.new.conn.now }
    ensures survives { CommitsNothing S.Store tx.old.conn.now tx.new.conn.now }
{
    for query in referring {
        shows_none(tx, query, key)?;
    }
    change(tx, delete, key)?;
    Ok(())
}

/// Removes the rows with the number, as `remove` does: the one that it is the key of, or all of its owner.
fn remove_at<S: Alter>(
    tx: &mut Transaction<'_, S>,
    referring: &[&str],
    delete: &str,
    id: u64,
) -> Result<(), StoreFault>
    ensures same_reference { tx.new.conn.ghost_name ≡ tx.old.conn.ghost_name }
    ensures removes { HasCleanDisk (state S.Store tx.new.conn.now) → IsTrue tx.old.conn.now.in_transaction
        → OnOk result (IsTrue tx.new.conn.now.in_transaction × RemovesUnreferred S.Store (map (λ query. query.now) referring.now) delete.now (number id ∷ []) tx.old.conn.now tx.new.conn.now) }
    ensures kept { KeepsInside S.Store tx.old.conn.now tx.new.conn.now }
    ensures survives { CommitsNothing S.Store tx.old.conn.now tx.new.conn.now }
{
    let id = number(id)?;
    remove(tx, referring, delete, &[id])
}

/// Removes the row with a key of an owner's number and a name, to which no other refers.
fn remove_named<S: Alter>(
    tx: &mut Transaction<'_, S>,
    delete: &str,
    owner: u64,
    name: &Text,
) -> Result<(), StoreFault>
    ensures same_reference { tx.new.conn.ghost_name ≡ tx.old.conn.ghost_name }
    ensures removes { HasCleanDisk (state S.Store tx.new.conn.now) → IsTrue tx.old.conn.now.in_transaction
        → OnOk result (IsTrue tx.new.conn.now.in_transaction × RemovesUnreferred S.Store [] delete.now (number owner ∷ Words name.now ∷ []) tx.old.conn.now tx.new.conn.now) }
    ensures kept { KeepsInside S.Store tx.old.conn.now tx.new.conn.now }
    ensures survives { CommitsNothing S.Store tx.old.conn.now tx.new.conn.now }
{
    let owner = number(owner)?;
    remove(tx, &[], delete, &[owner, text(name)])
}

/// Removes the row with a key of two numbers, to which no other refers.
fn remove_pair<S: Alter>(
    tx: &mut Transaction<'_, S>,
    delete: &str,
    first: u64,
    second: u64,
) -> Result<(), StoreFault>
    ensures same_reference { tx.new.conn.ghost_name ≡ tx.old.conn.ghost_name }
    ensures removes { HasCleanDisk (state S.Store tx.new.conn.now) → IsTrue tx.old.conn.now.in_transaction
        → OnOk result (IsTrue tx.new.conn.now.in_transaction × RemovesUnreferred S.Store [] delete.now (number first ∷ number second ∷ []) tx.old.conn.now tx.new.conn.now) }
    ensures kept { KeepsInside S.Store tx.old.conn.now tx.new.conn.now }
    ensures survives { CommitsNothing S.Store tx.old.conn.now tx.new.conn.now }
{
    let first = number(first)?;
    let second = number(second)?;
    remove(tx, &[], delete, &[first, second])
}

fn remove_record<S: Alter>(tx: &mut Transaction<'_, S>, key: &Key) -> Result<(), StoreFault>
    ensures same_reference { tx.new.conn.ghost_name ≡ tx.old.conn.ghost_name }
    ensures makes { MakesInside S.Store (in_state (without_record key.now)) tx.old.conn.now tx.new.conn.now result }
    ensures kept { KeepsInside S.Store tx.old.conn.now tx.new.conn.now }
    ensures survives { CommitsNothing S.Store tx.old.conn.now tx.new.conn.now }
{
    match key {
        Key::Project(id) => remove_at(tx, &[], texts::DELETE_PROJECT, *id),
        Key::Variable(project, name) => remove_named(tx, texts::DELETE_VARIABLE, *project, name),
        Key::Runner(id) => remove_at(tx, &[], texts::DELETE_RUNNER, *id),
        Key::Pipeline(id) => remove_at(tx, &[texts::SELECT_JOBS_OF], texts::DELETE_PIPELINE, *id),
        Key::Job(id) => remove_at(
            tx,
            &[
                texts::SELECT_JOB_VARIABLES,
                texts::SELECT_ATTEMPTS_OF,
                texts::SELECT_NEEDS_OF,
                texts::SELECT_NEEDS_ON,
                texts::SELECT_ROW,
            ],
            texts::DELETE_JOB,
            *id,
        ),
        Key::JobVariable(job, name) => remove_named(tx, texts::DELETE_JOB_VARIABLE, *job, name),
        Key::JobVariables(job) => remove_at(tx, &[], texts::DELETE_JOB_VARIABLES, *job),
        Key::Need(job, pred) => remove_pair(tx, texts::DELETE_NEED, *job, *pred),
        Key::Needs(job) => remove_at(tx, &[], texts::DELETE_NEEDS, *job),
        Key::Attempt(id) => remove_at(
            tx,
            &[texts::SELECT_BLOCKS, texts::SELECT_HOLDERS_OF],
            texts::DELETE_ATTEMPT,
            *id,
        ),
        Key::Trace(attempt) => remove_at(tx, &[], texts::DELETE_BLOCKS, *attempt),
        Key::Mode(project, group) => remove_named(tx, texts::DELETE_MODE, *project, group),
    }
}

/// Makes one change, where jobs from the number `first_new` on aren't there yet.
pub(crate) fn make<S: Alter>(
    tx: &mut Transaction<'_, S>,
    alloc: Global,
    first_new: u64,
    change: &RowChange,
) -> Result<(), StoreFault>
    ensures same_reference { tx.new.conn.ghost_name ≡ tx.old.conn.ghost_name }
    ensures makes { MakesInside S.Store (in_state (changed change.now)) tx.old.conn.now tx.new.conn.now result }
    ensures kept { KeepsInside S.Store tx.old.conn.now tx.new.conn.now }
    ensures survives { CommitsNothing S.Store tx.old.conn.now tx.new.conn.now }
{
    match change {
        RowChange::Put(record) => put_record(tx, alloc, first_new, record),
        RowChange::Append(more) => append(tx, more),
        RowChange::Remove(key) => remove_record(tx, key),
    }
}

/// Removes the row of a job's status, to which no other refers.
pub(crate) fn clear_row<S: Alter>(tx: &mut Transaction<'_, S>, job: u64) -> Result<(), StoreFault>
    ensures same_reference { tx.new.conn.ghost_name ≡ tx.old.conn.ghost_name }
    ensures makes { MakesInside S.Store (cleared (job ∷ [])) tx.old.conn.now tx.new.conn.now result }
    ensures kept { KeepsInside S.Store tx.old.conn.now tx.new.conn.now }
    ensures survives { CommitsNothing S.Store tx.old.conn.now tx.new.conn.now }
{
    remove_at(tx, &[], texts::DELETE_ROW, job)
}

/// Makes one change of the groups that are held. One of the pipelines that aren't finished changes no table: none has them. Errors:
/// what is to be added is there already.
pub(crate) fn change_index<S: Alter>(
    tx: &mut Transaction<'_, S>,
    alloc: Global,
    change: &IndexChange,
) -> Result<(), StoreFault>
    ensures same_reference { tx.new.conn.ghost_name ≡ tx.old.conn.ghost_name }
    ensures makes { MakesInside S.Store (indexed change.now) tx.old.conn.now tx.new.conn.now result }
    ensures kept { KeepsInside S.Store tx.old.conn.now tx.new.conn.now }
    ensures survives { CommitsNothing S.Store tx.old.conn.now tx.new.conn.now }
{
    match change {
        IndexChange::Hold(holder) => holder.put(tx, alloc, true),
        IndexChange::Free(project, group) => {
            remove_named(tx, texts::DELETE_HOLDER, *project, group)
        }
        IndexChange::Open(_) => Ok(()),
        IndexChange::Close(_) => Ok(()),
    }
}
