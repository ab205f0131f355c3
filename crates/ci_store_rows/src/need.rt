//! Pairs of pipelines' graphs as rows.

ghost use Rattle.std.specs.Prelude.{◌≡◌, length, map, IfOk};
ghost use Rattle.std.specs.List.{flat_map};
ghost use Rattle.ci_store.specs.Prelude.{Record, Put, applied, bound, KeepsInside, CommitsNothing};
ghost use Rattle.ci_store_rows.specs.Rows.{need_row};
ghost use Rattle.ci_store_rows.specs.Changes.{in_state, MakesInside};

use crate::read::{Loaded, Stored, has_columns};
use crate::texts;
use ci_machine::records::Need;
use ci_store::fault::StoreFault;
use ci_store::values::number;
use ci_store::write::{change, put};
use sqlite::types::ValueRef;
use sqlite::{Alter, Row, Transaction};
use std::alloc::Global;

impl Loaded for Need {
    ghost use Rattle.std.specs.Prelude.{◌≡◌};
    ghost use Rattle.ci_store_rows.specs.Rows.{need_row};

    ghost is_row = { λ row n. row ≡ need_row n };

    fn read(_: Global, row: &Row) -> Result<Need, StoreFault> {
        has_columns(row, 2)?;
        Ok(Need {
            job: row.get(0)?,
            pred: row.get(1)?,
        })
    }
}

impl Stored for Need {
    ghost use Rattle.ci_machine.specs.State.{with_record};
    ghost use Rattle.ci_machine.specs.declared.change.Record.TheVariants as variant;
    ghost use Rattle.ci_store_rows.specs.Changes.{in_state};

    ghost puts = { λ x. in_state (with_record (variant.Need x)) };

    fn put<S: Alter>(
        &self,
        tx: &mut Transaction<'_, S>,
        _: Global,
        is_new: bool,
    ) -> Result<(), StoreFault> {
        let job = number(self.job)?;
        let pred = number(self.pred)?;
        put(
            tx,
            is_new,
            texts::UPDATE_NEED,
            texts::INSERT_NEED,
            &[job, pred],
        )
    }
}

/// How many pairs one statement puts.
pub const RUN: usize = 16;

/// The values of the rows of the pairs, row by row.
fn values_of(alloc: Global, needs: &[Need]) -> Result<Vec<ValueRef<'static>>, StoreFault>
    ensures { IfOk result (λ values. bound values.items ≡ flat_map need_row needs.now) }
{
    let mut values = Vec::new(alloc);
    for need in needs {
        values.push(number(need.job)?)?;
        values.push(number(need.pred)?)?;
    }
    Ok(values)
}

/// Inserts the rows of sixteen pairs, of which none is there yet, by one statement. Errors: memory was refused, or the store failed.
pub fn put_run<S: Alter>(
    tx: &mut Transaction<'_, S>,
    alloc: Global,
    needs: &[Need],
) -> Result<(), StoreFault>
    requires { length needs.now ≡ RUN }
    ensures same_reference { tx.new.conn.ghost_name ≡ tx.old.conn.ghost_name }
    ensures makes { MakesInside S.Store (in_state (applied (map (λ n. Put (Record.Need n)) needs.now))) tx.old.conn.now tx.new.conn.now result }
    ensures kept { KeepsInside S.Store tx.old.conn.now tx.new.conn.now }
    ensures survives { CommitsNothing S.Store tx.old.conn.now tx.new.conn.now }
{
    let values = values_of(alloc, needs)?;
    change(tx, texts::INSERT_NEEDS, values.as_slice())?;
    Ok(())
}
