//! Many changes in one transaction.

ghost use Rattle.std.specs.Prelude.{◌≡◌, ◌<◌, ◌≤◌, length, map, take, true, false, Err, OnOk, IfOk, IfSome, IsTrue};
ghost use Rattle.std.specs.List.{list_any};
ghost use Rattle.ci_store.specs.Prelude.{HasCleanDisk, Survives, doubt, state, Kept, Put, Record, put_rows, indexed_all, cleared, written, applied, KeepsInside, CommitsNothing};
ghost use Rattle.ci_store_rows.specs.Prelude.{LeavesOnly, LeavesEither, in_state, in_board, Makes, MakesInside};
ghost use Rattle.ci_store.specs.declared.fault.StoreFault.TheVariants.{Memory};
ghost use Rattle.ci_store_sqlite.specs.Calls.{Loads};
ghost use Rattle.ci_store_sqlite.specs.Commit.{CommitsAll, is_done, is_undone, IsBack, IsDone, is_next_job, first_new_job};

use crate::asked::Asked;
use crate::load::next;
use crate::make::{change_index, clear_row, make};
use ci_machine::change::{Counter, IndexChange, Record, RowChange};
use ci_machine::records::{BoardRow, Need};
use ci_store::fault::StoreFault;
use ci_store_rows::need::{RUN, put_run};
use ci_store_rows::read::Stored;
use sqlite::{Alter, Connection, Transaction};
use std::alloc::Global;

/// Removes the rows of the jobs' statuses in turn.
fn clear_rows<S: Alter>(tx: &mut Transaction<'_, S>, jobs: &[u64]) -> Result<(), StoreFault>
    ensures same_reference { tx.new.conn.ghost_name ≡ tx.old.conn.ghost_name }
    ensures makes { MakesInside S.Store (cleared jobs.now) tx.old.conn.now tx.new.conn.now result }
    ensures kept { KeepsInside S.Store tx.old.conn.now tx.new.conn.now }
    ensures survives { CommitsNothing S.Store tx.old.conn.now tx.new.conn.now }
{
    for job in jobs {
        clear_row(tx, *job)?;
    }
    Ok(())
}

/// The pairs that the changes put, if each puts one, of a job from the number `first_new` on.
fn pairs_of(
    alloc: Global,
    first_new: u64,
    changes: &[RowChange],
) -> Result<Option<Vec<Need>>, StoreFault>
    ensures { IfOk result (λ found. IfSome found (λ pairs. changes.now ≡ map (λ n. Put (Record.Need n)) pairs.items)) }
{
    let mut pairs = Vec::new(alloc);
    for change in changes {
        match change {
            RowChange::Put(Record::Need(need)) if need.job >= first_new => pairs.push(*need)?,
            _ => return Ok(None),
        }
    }
    Ok(Some(pairs))
}

/// Makes the first change, or as many as one statement does, where these put pairs of jobs from the number `first_new` on. Answers how
/// many it made.
fn make_first<S: Alter>(
    tx: &mut Transaction<'_, S>,
    alloc: Global,
    first_new: u64,
    changes: &[RowChange],
) -> Result<usize, StoreFault>
    requires { 0 < length changes.now }
    ensures same_reference { tx.new.conn.ghost_name ≡ tx.old.conn.ghost_name }
    ensures count { IfOk result (λ made. (0 < made) × (made ≤ length changes.now)) }
    ensures makes { HasCleanDisk (state S.Store tx.new.conn.now) → IsTrue tx.old.conn.now.in_transaction
        → IfOk result (λ made. Makes S.Store (in_state (applied (take made changes.now))) tx.old.conn.now tx.new.conn.now) }
    ensures kept { KeepsInside S.Store tx.old.conn.now tx.new.conn.now }
    ensures survives { CommitsNothing S.Store tx.old.conn.now tx.new.conn.now }
{
    if RUN <= changes.len() {
        let (run, _) = changes.split_at(RUN);
        if let Some(pairs) = pairs_of(alloc, first_new, run)? {
            put_run(tx, alloc, pairs.as_slice())?;
            return Ok(RUN);
        }
    }
    make(tx, alloc, first_new, &changes[0])?;
    Ok(1)
}

/// Makes the changes in turn, where jobs from the number `first_new` on aren't there yet.
fn make_all<S: Alter>(
    tx: &mut Transaction<'_, S>,
    alloc: Global,
    first_new: u64,
    changes: &[RowChange],
) -> Result<(), StoreFault>
    ensures same_reference { tx.new.conn.ghost_name ≡ tx.old.conn.ghost_name }
    ensures makes { MakesInside S.Store (in_state (applied changes.now)) tx.old.conn.now tx.new.conn.now result }
    ensures kept { KeepsInside S.Store tx.old.conn.now tx.new.conn.now }
    ensures survives { CommitsNothing S.Store tx.old.conn.now tx.new.conn.now }
{
    let mut rest = changes;
    while !rest.is_empty() {
        let made = make_first(tx, alloc, first_new, rest)?;
        let (_, behind) = rest.split_at(made);
        rest = behind;
    }
    Ok(())
}

/// Puts the rows of statuses in turn; those of jobs from the number `first_new` on aren't there yet.
fn put_rows<S: Alter>(
    tx: &mut Transaction<'_, S>,
    alloc: Global,
    first_new: u64,
    rows: &[BoardRow],
) -> Result<(), StoreFault>
    ensures same_reference { tx.new.conn.ghost_name ≡ tx.old.conn.ghost_name }
    ensures makes { MakesInside S.Store (in_board (put_rows rows.now)) tx.old.conn.now tx.new.conn.now result }
    ensures kept { KeepsInside S.Store tx.old.conn.now tx.new.conn.now }
    ensures survives { CommitsNothing S.Store tx.old.conn.now tx.new.conn.now }
{
    for row in rows {
        row.put(tx, alloc, row.job >= first_new)?;
    }
    Ok(())
}

/// Makes the changes of the groups that are held and of the pipelines that aren't finished in turn.
fn change_indexes<S: Alter>(
    tx: &mut Transaction<'_, S>,
    alloc: Global,
    indexes: &[IndexChange],
) -> Result<(), StoreFault>
    ensures same_reference { tx.new.conn.ghost_name ≡ tx.old.conn.ghost_name }
    ensures makes { MakesInside S.Store (indexed_all indexes.now) tx.old.conn.now tx.new.conn.now result }
    ensures kept { KeepsInside S.Store tx.old.conn.now tx.new.conn.now }
    ensures survives { CommitsNothing S.Store tx.old.conn.now tx.new.conn.now }
{
    for change in indexes {
        change_index(tx, alloc, change)?;
    }
    Ok(())
}

/// Removes the rows of the jobs, makes the changes in turn, then puts the rows, and then changes the indexes.
fn write_all<S: Alter>(
    tx: &mut Transaction<'_, S>,
    alloc: Global,
    first_new: u64,
    jobs: &[u64],
    changes: &[RowChange],
    rows: &[BoardRow],
    indexes: &[IndexChange],
) -> Result<(), StoreFault>
    ensures same_reference { tx.new.conn.ghost_name ≡ tx.old.conn.ghost_name }
    ensures makes { MakesInside S.Store (λ k. written changes.now rows.now indexes.now (cleared jobs.now k)) tx.old.conn.now tx.new.conn.now result }
    ensures kept { KeepsInside S.Store tx.old.conn.now tx.new.conn.now }
    ensures survives { CommitsNothing S.Store tx.old.conn.now tx.new.conn.now }
{
    clear_rows(tx, jobs)?;
    make_all(tx, alloc, first_new, changes)?;
    put_rows(tx, alloc, first_new, rows)?;
    change_indexes(tx, alloc, indexes)
}

/// How a transaction of changes ended.
#[derive(Drop)]
enum Ended {
    Done,
    /// Nothing was committed.
    Undone(StoreFault),
    /// The commit failed.
    Unknown(StoreFault),
}

fn attempt<S: Alter>(
    conn: &mut Connection<S>,
    alloc: Global,
    first_new: u64,
    jobs: &[u64],
    changes: &[RowChange],
    rows: &[BoardRow],
    indexes: &[IndexChange],
) -> Ended
    requires { conn.old.in_transaction ≡ false }
    ensures idle { conn.new.in_transaction ≡ false }
    ensures done { HasCleanDisk (state S.Store conn.new) → is_done result ≡ true → IsDone S.Store (λ k. written changes.now rows.now indexes.now (cleared jobs.now k)) conn.old conn.new }
    ensures back { HasCleanDisk (state S.Store conn.new) → is_done result ≡ false → IsBack S.Store conn.old conn.new }
    ensures survives { Survives (state S.Store conn.old) (state S.Store conn.new) (CommitsAll S.Store (λ k. written changes.now rows.now indexes.now (cleared jobs.now k)) conn.old) }
    ensures quiet { is_undone result ≡ true → Survives (state S.Store conn.old) (state S.Store conn.new) (λ _. ⊥) }
{
    let mut tx = conn.transaction();
    if let Err(fault) = write_all(&mut tx, alloc, first_new, jobs, changes, rows, indexes) {
        return Ended::Undone(fault);
    }
    match tx.commit() {
        Ok(()) => Ended::Done,
        Err(error) => Ended::Unknown(StoreFault::from(error)),
    }
}

/// Do the changes put the next number of jobs?
fn puts_next_job(changes: &[RowChange]) -> bool
    ensures { result ≡ list_any is_next_job changes.now }
{
    changes.iter().any(|change| matches!(change, RowChange::Put(Record::Next(Counter::Job, _))))
}

/// The number from which on jobs are new: where the changes put the next number of jobs, what that is before them. A put of such a job, of its row,
/// or of what names it needs no look for what is in its place. Where they don't, none is known to be new.
pub(crate) fn first_new_job<S: Alter>(
    conn: &mut Asked<S>,
    changes: &[RowChange],
) -> Result<u64, StoreFault>
    ensures { Loads S.Store conn.old conn.new result (λ k n. n ≡ first_new_job changes.now k.state.next.job) }
{
    if puts_next_job(changes) {
        next(conn, Counter::Job)
    } else {
        Ok(u64::MAX)
    }
}

/// Removes the rows of the jobs, makes the changes, puts the rows and changes the indexes in one transaction, or none of it. Where nothing
/// was committed the connection is in doubt; where it was to be and failed, it is asked at once, since a stop may leave either then:
/// `Broken`, where it isn't open, or memory is refused to the question too.
pub(crate) fn commit<S: Alter>(
    conn: &mut Asked<S>,
    alloc: Global,
    first_new: u64,
    jobs: &[u64],
    changes: &[RowChange],
    rows: &[BoardRow],
    indexes: &[IndexChange],
) -> Result<(), StoreFault>
    ensures clean { doubt (state S.Store conn.old).is_clean ≤ doubt (state S.Store conn.new).is_clean }
    ensures done { HasCleanDisk (state S.Store conn.new) → OnOk result ((k : Kept) → LeavesOnly S.Store k conn.old → LeavesOnly S.Store (written changes.now rows.now indexes.now (cleared jobs.now k)) conn.new) }
    ensures memory { HasCleanDisk (state S.Store conn.new) → result ≡ Err Memory → (k : Kept) → LeavesOnly S.Store k conn.old → LeavesOnly S.Store k conn.new }
    ensures left { HasCleanDisk (state S.Store conn.new) → (k : Kept) → LeavesOnly S.Store k conn.old → LeavesEither S.Store k (written changes.now rows.now indexes.now (cleared jobs.now k)) conn.new }
{
    conn.ask()?;
    // With no transaction open, what is seen is what is committed.
    let _is_idle = conn.conn.is_autocommit();
    match attempt(
        &mut conn.conn,
        alloc,
        first_new,
        jobs,
        changes,
        rows,
        indexes,
    ) {
        Ended::Done => Ok(()),
        Ended::Undone(fault) => {
            conn.in_doubt = true;
            Err(fault)
        }
        Ended::Unknown(fault) => {
            conn.in_doubt = true;
            match conn.ask() {
                Ok(()) => Err(fault),
                Err(_) => Err(StoreFault::Broken),
            }
        }
    }
}
