//! A connection that is asked whether it is open still, before a call where that is in doubt.

ghost use Rattle.std.specs.Prelude.{◌≡◌, false, IsTrue, OnOk};
ghost use Rattle.ci_store.specs.Prelude.{IsPlain, understood, bound, HasCleanDisk, Survives, IsUnchanged, Shown, state, Kept};
ghost use Rattle.ci_store_rows.specs.Prelude.{the_schema, IsAt, LeavesOnly};
ghost use Rattle.ci_store_sqlite.specs.Calls.{LooksUp};

use crate::probe::probe_intact;
use ci_store::fault::StoreFault;
use ci_store::read::rows;
use sqlite::types::ValueRef;
use sqlite::{Alter, Connection, Row};
use std::marker::Model;

/// A connection between whose calls no transaction is open. Where a call has failed since it was last known to be open, that is in
/// doubt; where it isn't, it is open.
#[derive(Drop)]
pub(crate) struct Asked<S: Alter> {
    pub(crate) conn: Connection<S>,
    pub(crate) in_doubt: bool,
}

impl<S: Alter> Model for Asked<S> {
    ghost use Rattle.std.specs.Prelude.{◌≡◌, false, IsTrue};
    ghost use Rattle.sqlite.specs.State.{HasCleanDisk};
    ghost use Rattle.sqlite.specs.Held.{Held, held_code, state};

    ghost Value = { Held S };

    ghost coded = { held_code S.code };

    ghost view = { λ a. a.conn };

    ghost invariant = { λ a. (a.conn.in_transaction ≡ false) × (a.in_doubt ≡ false → HasCleanDisk (state S.Store a.conn) → IsTrue (state S.Store a.conn).is_open) };
}

impl<S: Alter> Asked<S> {
    /// A connection that is known to be open.
    pub(crate) fn open(conn: Connection<S>) -> Asked<S>
        requires idle { conn.in_transaction ≡ false }
        requires is_open { HasCleanDisk (state S.Store conn) → IsTrue (state S.Store conn).is_open }
        ensures { result ≡ conn }
    {
        Asked {
            conn,
            in_doubt: false,
        }
    }

    /// Gives the connection back.
    pub(crate) fn into_inner(self) -> Connection<S>
        ensures same { result ≡ self }
        ensures idle { result.in_transaction ≡ false }
    {
        let Asked { conn, in_doubt: _ } = self;
        conn
    }

    /// Tells that the connection is open; it is asked only where that is in doubt. Then it keeps what alone a stop leaves.
    /// Errors: it is not open, or memory was refused.
    pub(crate) fn ask(&mut self) -> Result<(), StoreFault>
        ensures same { HasCleanDisk (state S.Store self.new) → OnOk result (IsUnchanged (state S.Store self.old) (state S.Store self.new)) }
        ensures survives { Survives (state S.Store self.old) (state S.Store self.new) (λ _. ⊥) }
        ensures intact { HasCleanDisk (state S.Store self.new) → OnOk result ((k : Kept) → LeavesOnly S.Store k self.old → IsAt S.Store k self.new) }
        ensures left { HasCleanDisk (state S.Store self.new) → (k : Kept) → LeavesOnly S.Store k self.old → LeavesOnly S.Store k self.new }
    {
        let _schema = self.conn.schema();
        let _is_idle = self.conn.is_autocommit();
        if self.in_doubt {
            probe_intact(&mut self.conn)?;
            self.in_doubt = false;
        }
        Ok(())
    }

    /// The rows of a query that writes nothing. After a fault the connection is in doubt.
    pub(crate) fn look_up(
        &mut self,
        sql: &str,
        params: &[ValueRef<'_>],
    ) -> Result<Vec<Row>, StoreFault>
        requires { IsPlain (understood the_schema sql.now) }
        ensures { LooksUp S.Store self.old self.new result (λ _ rows. Shown sql.now (bound params.now) (state S.Store self.old) (state S.Store self.new) rows.items) }
    {
        self.ask()?;
        let found = rows(&mut self.conn, sql, params);
        self.in_doubt = found.is_err();
        found
    }
}
