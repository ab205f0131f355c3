//! Held resource groups as rows.

use crate::columns::text;
use crate::read::{Loaded, Stored, has_columns, text_at};
use crate::texts;
use ci_machine::records::Holder;
use ci_store::fault::StoreFault;
use ci_store::values::number;
use ci_store::write::put;
use sqlite::{Alter, Row, Transaction};
use std::alloc::Global;

impl Loaded for Holder {
    ghost use Rattle.std.specs.Prelude.{◌≡◌};
    ghost use Rattle.ci_store_rows.specs.Rows.{holder_row};

    ghost is_row = { λ row h. row ≡ holder_row h };

    fn read(_: Global, row: &Row) -> Result<Holder, StoreFault> {
        has_columns(row, 3)?;
        Ok(Holder {
            project: row.get(0)?,
            attempt: row.get(2)?,
            group: text_at(row, 1)?,
        })
    }
}

impl Stored for Holder {
    ghost use Rattle.ci_machine.specs.Holders.{holder_cmp};
    ghost use Rattle.ci_machine.specs.State.{put};
    ghost use Rattle.ci_store_rows.specs.Changes.{in_holders};

    ghost puts = { λ h. in_holders (put holder_cmp h) };

    fn put<S: Alter>(
        &self,
        tx: &mut Transaction<'_, S>,
        _: Global,
        is_new: bool,
    ) -> Result<(), StoreFault> {
        let project = number(self.project)?;
        let attempt = number(self.attempt)?;
        put(
            tx,
            is_new,
            texts::UPDATE_HOLDER,
            texts::INSERT_HOLDER,
            &[project, text(&self.group), attempt],
        )
    }
}
