//! Projects as rows.

use crate::columns::{optional_text, text};
use crate::read::{Loaded, Stored, has_columns, optional_text_at, text_at};
use crate::texts;
use ci_machine::records::Project;
use ci_store::fault::StoreFault;
use ci_store::values::number;
use ci_store::write::put;
use sqlite::{Alter, Row, Transaction};
use std::alloc::Global;

impl Loaded for Project {
    ghost use Rattle.std.specs.Prelude.{◌≡◌};
    ghost use Rattle.ci_store_rows.specs.Rows.{project_row};

    ghost is_row = { λ row p. row ≡ project_row p };

    fn read(_: Global, row: &Row) -> Result<Project, StoreFault> {
        has_columns(row, 4)?;
        Ok(Project {
            id: row.get(0)?,
            name: text_at(row, 1)?,
            token: text_at(row, 2)?,
            file: optional_text_at(row, 3)?,
        })
    }
}

impl Stored for Project {
    ghost use Rattle.ci_machine.specs.State.{with_record};
    ghost use Rattle.ci_machine.specs.declared.change.Record.TheVariants as variant;
    ghost use Rattle.ci_store_rows.specs.Changes.{in_state};

    ghost puts = { λ x. in_state (with_record (variant.Project x)) };

    fn put<S: Alter>(
        &self,
        tx: &mut Transaction<'_, S>,
        _: Global,
        is_new: bool,
    ) -> Result<(), StoreFault> {
        let id = number(self.id)?;
        put(
            tx,
            is_new,
            texts::UPDATE_PROJECT,
            texts::INSERT_PROJECT,
            &[
                id,
                text(&self.name),
                text(&self.token),
                optional_text(&self.file),
            ],
        )
    }
}
