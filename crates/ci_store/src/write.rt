//! One change inside a transaction.

ghost use Rattle.std.specs.Prelude.{◌≡◌, IsTrue, IfOk, OnOk};
ghost use Rattle.sqlite.specs.Values.{bound};
ghost use Rattle.sqlite.specs.State.{HasCleanDisk};
ghost use Rattle.sqlite.specs.Held.{state};
ghost use Rattle.ci_store.specs.Statements.{KeepsInside, CommitsNothing, Changes, HasPut};

use crate::fault::StoreFault;
use sqlite::types::ValueRef;
use sqlite::{Alter, Transaction};

/// Runs a statement that changes rows, and answers how many it changed.
pub fn change<S: Alter>(
    tx: &mut Transaction<'_, S>,
    sql: &str,
    params: &[ValueRef<'_>],
) -> Result<usize, StoreFault>
    ensures same_reference { tx.new.conn.ghost_name ≡ tx.old.conn.ghost_name }
    ensures changed { HasCleanDisk (state S.Store tx.new.conn.now) → IsTrue tx.old.conn.now.in_transaction
        → IfOk result (λ count. IsTrue tx.new.conn.now.in_transaction × Changes S.Store sql.now (bound params.now) count tx.old.conn.now tx.new.conn.now) }
    ensures kept { KeepsInside S.Store tx.old.conn.now tx.new.conn.now }
    ensures survives { CommitsNothing S.Store tx.old.conn.now tx.new.conn.now }
{
    Ok(tx.execute(sql, params)?)
}

/// Updates the row, or inserts it where it is not there. A new row is only inserted.
pub fn put<S: Alter>(
    tx: &mut Transaction<'_, S>,
    is_new: bool,
    update: &str,
    insert: &str,
    params: &[ValueRef<'_>],
) -> Result<(), StoreFault>
    ensures same_reference { tx.new.conn.ghost_name ≡ tx.old.conn.ghost_name }
    ensures put { HasCleanDisk (state S.Store tx.new.conn.now) → IsTrue tx.old.conn.now.in_transaction
        → OnOk result (IsTrue tx.new.conn.now.in_transaction × HasPut S.Store update.now insert.now (bound params.now) tx.old.conn.now tx.new.conn.now) }
    ensures kept { KeepsInside S.Store tx.old.conn.now tx.new.conn.now }
    ensures survives { CommitsNothing S.Store tx.old.conn.now tx.new.conn.now }
{
    if is_new {
        change(tx, insert, params)?;
        return Ok(());
    }
    let changed = change(tx, update, params)?;
    if changed == 1 {
        return Ok(());
    }
    if changed != 0 {
        return Err(StoreFault::Broken);
    }
    change(tx, insert, params)?;
    Ok(())
}
