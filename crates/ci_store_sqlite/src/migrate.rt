//! Makes a store of version 1 one of version 2.

ghost use Rattle.std.specs.Prelude.{◌≡◌, ◌≢◌, false, codes, IsTrue, IfErr, OnOk};
ghost use Rattle.ci_store.specs.Prelude.{HasCleanDisk, Survives, state, Trees, Kept, CommitsNothing};
ghost use Rattle.ci_store_rows.specs.Prelude.{Stands, StandsIn, IsAt, LeavesOnly};
ghost use Rattle.ci_store_sqlite.specs.Open.{HasNumber, LacksNumber, LeavesNoMore};
ghost use Rattle.ci_store_sqlite.specs.Version1.{Stands1, HasTable, LeavesAny};

use crate::tables::{OpenFault, VERSION, has_number};
use ci_store::fault::StoreFault;
use ci_store::values::number;
use ci_store::write::change;
use ci_store_rows::texts::UPDATE_META;
use ci_store_rows::version2::CREATE_MODE;
use sqlite::types::ToSql;
use sqlite::{Alter, Connection, Transaction};

/// The version before this one, under the key `version`. Its stores have no table of process modes.
const VERSION_1: u64 = 1;

/// Makes the table of process modes, without rows.
fn make_table<S: Alter>(tx: &mut Transaction<'_, S>) -> Result<(), StoreFault>
    ensures same_reference { tx.new.conn.ghost_name ≡ tx.old.conn.ghost_name }
    ensures makes { HasCleanDisk (state S.Store tx.new.conn.now) → IsTrue tx.old.conn.now.in_transaction
        → OnOk result (IsTrue tx.new.conn.now.in_transaction × ((k : Kept) → Stands1 k (state S.Store tx.old.conn.now).now → HasTable k (state S.Store tx.new.conn.now).now)) }
    ensures survives { CommitsNothing S.Store tx.old.conn.now tx.new.conn.now }
{
    change(tx, CREATE_MODE, &[])?;
    Ok(())
}

/// Writes the version 2. Errors: `meta` has no row of a version, or several.
fn write_version<S: Alter>(tx: &mut Transaction<'_, S>) -> Result<(), StoreFault>
    ensures same_reference { tx.new.conn.ghost_name ≡ tx.old.conn.ghost_name }
    ensures makes { HasCleanDisk (state S.Store tx.new.conn.now) → IsTrue tx.old.conn.now.in_transaction
        → OnOk result (IsTrue tx.new.conn.now.in_transaction × ((k : Kept) → HasTable k (state S.Store tx.old.conn.now).now → Stands k (state S.Store tx.new.conn.now).now)) }
    ensures survives { CommitsNothing S.Store tx.old.conn.now tx.new.conn.now }
{
    let row = ["version".to_sql(), number(VERSION)?];
    if change(tx, UPDATE_META, &row)? == 1 {
        Ok(())
    } else {
        Err(StoreFault::Broken)
    }
}

/// Makes the table and writes the version, in one transaction.
fn commit_both<S: Alter>(conn: &mut Connection<S>) -> Result<(), StoreFault>
    requires { conn.old.in_transaction ≡ false }
    ensures idle { conn.new.in_transaction ≡ false }
    ensures made { HasCleanDisk (state S.Store conn.new) → OnOk result (IsTrue (state S.Store conn.new).is_open × ((k : Kept) → Stands1 k (state S.Store conn.old).now → IsAt S.Store k conn.new)) }
    ensures survives { Survives (state S.Store conn.old) (state S.Store conn.new) (λ db. (k : Kept) → Stands1 k (state S.Store conn.old).now → StandsIn k db) }
{
    let mut tx = conn.transaction();
    make_table(&mut tx)?;
    write_version(&mut tx)?;
    Ok(tx.commit()?)
}

/// Makes a store of version 1 one of version 2, in one transaction. Errors: O2, it isn't of version 1, and nothing has changed; O3, it
/// failed; Memory, memory was refused.
pub(crate) fn migrate<S: Alter>(conn: &mut Connection<S>) -> Result<(), OpenFault>
    requires { conn.old.in_transaction ≡ false }
    ensures idle { conn.new.in_transaction ≡ false }
    ensures found { HasCleanDisk (state S.Store conn.new) → OnOk result (HasNumber (codes "version") 1 (state S.Store conn.old).now) }
    ensures is_open { HasCleanDisk (state S.Store conn.new) → OnOk result (IsTrue (state S.Store conn.new).is_open) }
    ensures made { HasCleanDisk (state S.Store conn.new) → OnOk result ((k : Kept) → LeavesAny S.Store k conn.old → IsAt S.Store k conn.new) }
    ensures left { HasCleanDisk (state S.Store conn.new) → (k : Kept) → LeavesAny S.Store k conn.old → LeavesAny S.Store k conn.new }
    ensures survives { Survives (state S.Store conn.old) (state S.Store conn.new) (λ db. HasNumber (codes "version") 1 (state S.Store conn.old).now × ((k : Kept) → LeavesAny S.Store k conn.old → StandsIn k db)) }
    ensures refused { IfErr result (λ fault. fault ≡ OpenFault.O2 → LeavesNoMore S.Store conn.old conn.new) }
    ensures lacks { HasCleanDisk (state S.Store conn.new) → IfErr result (λ fault. fault ≡ OpenFault.O2 → LacksNumber (codes "version") 1 (state S.Store conn.old).now) }
    ensures known { IfErr result (λ fault. fault ≢ OpenFault.O1) }
{
    let _schema = conn.schema();
    let _is_idle = conn.is_autocommit();
    if !has_number(conn, "version", VERSION_1)? {
        return Err(OpenFault::O2);
    }
    Ok(commit_both(conn)?)
}
