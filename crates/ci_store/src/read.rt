//! The answer of a query.

ghost use Rattle.std.specs.Prelude.{◌≡◌, ◌≤◌, false, IsTrue, IfOk, OnOk};
ghost use Rattle.sqlite.specs.Values.{bound};
ghost use Rattle.sqlite.specs.State.{HasCleanDisk, Survives, CommitsShowing, Shown, IsUnchanged};
ghost use Rattle.sqlite.specs.Given.{IsPlain};
ghost use Rattle.sqlite.specs.Listing.{understood};
ghost use Rattle.sqlite.specs.Held.{state};
ghost use Rattle.sqlite_trees.specs.View.{doubt};
ghost use Rattle.ci_store.specs.Statements.{KeepsInside, CommitsNothing};

use crate::fault::StoreFault;
use sqlite::types::ValueRef;
use sqlite::{Alter, Connection, Row, Transaction};

/// The rows of a query that writes nothing.
pub fn rows<S: Alter>(
    conn: &mut Connection<S>,
    sql: &str,
    params: &[ValueRef<'_>],
) -> Result<Vec<Row>, StoreFault>
    requires { conn.old.in_transaction ≡ false }
    ensures idle { conn.new.in_transaction ≡ false }
    ensures clean { doubt (state S.Store conn.old).is_clean ≤ doubt (state S.Store conn.new).is_clean }
    ensures shown { HasCleanDisk (state S.Store conn.new) → IfOk result (λ rows. Shown sql.now (bound params.now) (state S.Store conn.old) (state S.Store conn.new) rows.items) }
    ensures same { HasCleanDisk (state S.Store conn.new) → IsPlain (understood (state S.Store conn.old).now.schema sql.now) → OnOk result (IsUnchanged (state S.Store conn.old) (state S.Store conn.new)) }
    ensures commits { Survives (state S.Store conn.old) (state S.Store conn.new) (CommitsShowing sql.now (bound params.now) (state S.Store conn.old)) }
    ensures survives { HasCleanDisk (state S.Store conn.new) → IsPlain (understood (state S.Store conn.old).now.schema sql.now) → Survives (state S.Store conn.old) (state S.Store conn.new) (λ _. ⊥) }
{
    Ok(conn.query_all(sql, params)?)
}

/// The rows of a query inside a transaction.
pub fn rows_inside<S: Alter>(
    tx: &mut Transaction<'_, S>,
    sql: &str,
    params: &[ValueRef<'_>],
) -> Result<Vec<Row>, StoreFault>
    ensures same_reference { tx.new.conn.ghost_name ≡ tx.old.conn.ghost_name }
    ensures shown { HasCleanDisk (state S.Store tx.new.conn.now) → IsTrue tx.old.conn.now.in_transaction
        → IfOk result (λ rows. IsTrue tx.new.conn.now.in_transaction × Shown sql.now (bound params.now) (state S.Store tx.old.conn.now) (state S.Store tx.new.conn.now) rows.items) }
    ensures kept { KeepsInside S.Store tx.old.conn.now tx.new.conn.now }
    ensures survives { CommitsNothing S.Store tx.old.conn.now tx.new.conn.now }
{
    Ok(tx.query_all(sql, params)?)
}
