//! Opens the tables of a store, also of one of version 1.

ghost use Rattle.std.specs.Prelude.{◌≡◌, ◌≤◌, false, codes, IfOk, IfErr};
ghost use Rattle.ci_store.specs.Prelude.{HasCleanDisk, state, doubt, Kept};
ghost use Rattle.ci_store_rows.specs.Prelude.{IsAt, LeavesOnly};
ghost use Rattle.ci_store_sqlite.specs.Open.{HasNumber, IsOurs, IsFailure, LeavesNoMore};
ghost use Rattle.ci_store_sqlite.specs.Version1.{LeavesAny};
ghost use Rattle.ci_store_sqlite.specs.AnyVersion.{HadVersion, BlamesAny};

use crate::migrate::migrate;
use crate::tables::{OpenFault, Tables};
use crate::{Alter, Connection};

/// Tables that were opened.
#[derive(Drop)]
pub struct Opened<S: Alter> {
    pub tables: Tables<S>,
    /// Was their store of version 1, and made one of version 2?
    pub migrated: bool,
}

/// Opens the tables of a store. One of version 1 gets the table of process modes, which is empty, and the version 2, in one transaction: it
/// keeps what it kept, and no resource group has an order.
///
/// Errors: O1, it is not of this format; O2, it is of another version than 1 and 2; O3, it failed, or a transaction is open; Memory, memory
/// was refused. What a stop leaves is then of version 1 or of version 2, and stands for what it stood for.
pub fn open<S: Alter>(conn: Connection<S>) -> Result<Opened<S>, (OpenFault, Connection<S>)>
    ensures clean { IfOk result (λ o. doubt (state S.Store conn).is_clean ≤ doubt (state S.Store o.tables).is_clean) }
    ensures clean_fault { IfErr result (λ e. doubt (state S.Store conn).is_clean ≤ doubt (state S.Store e.1).is_clean) }
    ensures opened { IfOk result (λ o. HasCleanDisk (state S.Store o.tables) → (k : Kept) → LeavesAny S.Store k conn → IsAt S.Store k o.tables) }
    ensures found { IfOk result (λ o. HasCleanDisk (state S.Store o.tables) → HadVersion o.migrated (state S.Store conn).now) }
    ensures ours { IfOk result (λ o. o.migrated ≡ false → HasCleanDisk (state S.Store o.tables) → IsOurs (state S.Store o.tables).now) }
    ensures less { IfOk result (λ o. o.migrated ≡ false → LeavesNoMore S.Store conn o.tables) }
    ensures left { IfErr result (λ e. HasCleanDisk (state S.Store e.1) → (k : Kept) → LeavesAny S.Store k conn → LeavesAny S.Store k e.1) }
    ensures left_of_2 { IfErr result (λ e. HasCleanDisk (state S.Store e.1) → (k : Kept) → LeavesOnly S.Store k conn → LeavesOnly S.Store k e.1) }
    ensures less_fault { IfErr result (λ e. ¬ HasNumber (codes "version") 1 (state S.Store conn).now → LeavesNoMore S.Store conn e.1) }
    ensures refused { IfErr result (λ e. ¬ IsFailure e.0 → LeavesNoMore S.Store conn e.1) }
    ensures blamed { IfErr result (λ e. HasCleanDisk (state S.Store e.1) → BlamesAny e.0 (state S.Store conn).now) }
    ensures own { IfErr result (λ e. HasCleanDisk (state S.Store e.1) → (k : Kept) → LeavesAny S.Store k conn → IsFailure e.0) }
{
    let _schema = conn.schema();
    if !conn.is_autocommit() {
        return Err((OpenFault::O3, conn));
    }
    let (fault, mut conn) = match Tables::open(conn) {
        Ok(tables) => {
            return Ok(Opened {
                tables,
                migrated: false,
            });
        }
        Err(refused) => refused,
    };
    if fault != OpenFault::O2 {
        return Err((fault, conn));
    }
    match migrate(&mut conn) {
        Ok(()) => Ok(Opened {
            tables: Tables::over(conn),
            migrated: true,
        }),
        Err(fault) => Err((fault, conn)),
    }
}
