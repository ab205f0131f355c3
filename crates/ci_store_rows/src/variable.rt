//! Variables of projects as rows.

use crate::columns::text;
use crate::read::{Loaded, Stored, has_columns, text_at};
use crate::texts;
use ci_machine::records::Variable;
use ci_store::fault::StoreFault;
use ci_store::values::number;
use ci_store::write::put;
use sqlite::{Alter, Row, Transaction};
use std::alloc::Global;

impl Loaded for Variable {
    ghost use Rattle.std.specs.Prelude.{◌≡◌};
    ghost use Rattle.ci_store_rows.specs.Rows.{variable_row};

    ghost is_row = { λ row v. row ≡ variable_row v };

    fn read(_: Global, row: &Row) -> Result<Variable, StoreFault> {
        has_columns(row, 3)?;
        Ok(Variable {
            project: row.get(0)?,
            key: text_at(row, 1)?,
            value: text_at(row, 2)?,
        })
    }
}

impl Stored for Variable {
    ghost use Rattle.ci_machine.specs.State.{with_record};
    ghost use Rattle.ci_machine.specs.declared.change.Record.TheVariants as variant;
    ghost use Rattle.ci_store_rows.specs.Changes.{in_state};

    ghost puts = { λ x. in_state (with_record (variant.Variable x)) };

    fn put<S: Alter>(
        &self,
        tx: &mut Transaction<'_, S>,
        _: Global,
        is_new: bool,
    ) -> Result<(), StoreFault> {
        let project = number(self.project)?;
        put(
            tx,
            is_new,
            texts::UPDATE_VARIABLE,
            texts::INSERT_VARIABLE,
            &[project, text(&self.key), text(&self.value)],
        )
    }
}
