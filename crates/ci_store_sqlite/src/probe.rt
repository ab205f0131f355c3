//! Whether a connection is open still, and holds what a stop leaves.

ghost use Rattle.std.specs.Prelude.{◌≡◌, ◌≤◌, false, OnOk};
ghost use Rattle.ci_store.specs.Prelude.{HasCleanDisk, Survives, IsUnchanged, doubt, state, Kept};
ghost use Rattle.ci_store_rows.specs.Prelude.{IsAt, LeavesOnly};

use ci_store::fault::StoreFault;
use sqlite::{Alter, Connection};

/// Tells that the connection is open, by a statement that is not run. Errors: it is not, or memory was refused.
fn probe<S: Alter>(conn: &mut Connection<S>) -> Result<(), StoreFault>
    requires { conn.old.in_transaction ≡ false }
    ensures idle { conn.new.in_transaction ≡ false }
    ensures same { HasCleanDisk (state S.Store conn.new) → OnOk result (IsUnchanged (state S.Store conn.old) (state S.Store conn.new)) }
    ensures survives { Survives (state S.Store conn.old) (state S.Store conn.new) (λ _. ⊥) }
{
    conn.prepare("SELECT 1")?;
    Ok(())
}

/// Tells that the connection is open, by a statement that is not run. Then it keeps what alone a stop leaves.
/// Errors: it is not open, or memory was refused.
pub(crate) fn probe_intact<S: Alter>(conn: &mut Connection<S>) -> Result<(), StoreFault>
    requires { conn.old.in_transaction ≡ false }
    ensures idle { conn.new.in_transaction ≡ false }
    ensures same { HasCleanDisk (state S.Store conn.new) → OnOk result (IsUnchanged (state S.Store conn.old) (state S.Store conn.new)) }
    ensures survives { Survives (state S.Store conn.old) (state S.Store conn.new) (λ _. ⊥) }
    ensures intact { HasCleanDisk (state S.Store conn.new) → OnOk result ((k : Kept) → LeavesOnly S.Store k conn.old → IsAt S.Store k conn.new) }
    ensures left { HasCleanDisk (state S.Store conn.new) → (k : Kept) → LeavesOnly S.Store k conn.old → LeavesOnly S.Store k conn.new }
{
    let _schema = conn.schema();
    let _is_idle = conn.is_autocommit();
    probe(conn)
}
