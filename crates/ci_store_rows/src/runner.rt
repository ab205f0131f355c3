//! Runners as rows.

use crate::columns::text;
use crate::json::list_text;
use crate::read::{Loaded, Stored, flag_at, has_columns, text_at, texts_at};
use crate::texts;
use ci_machine::records::Runner;
use ci_store::fault::StoreFault;
use ci_store::values::{number, optional_number};
use ci_store::write::put;
use sqlite::types::ToSql;
use sqlite::{Alter, Row, Transaction};
use std::alloc::Global;

impl Loaded for Runner {
    ghost use Rattle.ci_store_rows.specs.Load.{IsRunnerRow};

    ghost is_row = { IsRunnerRow };

    fn read(alloc: Global, row: &Row) -> Result<Runner, StoreFault> {
        has_columns(row, 7)?;
        Ok(Runner {
            id: row.get(0)?,
            project: row.get(3)?,
            untagged: flag_at(row, 5)?,
            paused: flag_at(row, 6)?,
            name: text_at(row, 1)?,
            token: text_at(row, 2)?,
            tags: texts_at(alloc, row, 4)?,
        })
    }
}

impl Stored for Runner {
    ghost use Rattle.ci_machine.specs.State.{with_record};
    ghost use Rattle.ci_machine.specs.declared.change.Record.TheVariants as variant;
    ghost use Rattle.ci_store_rows.specs.Changes.{in_state};

    ghost puts = { λ x. in_state (with_record (variant.Runner x)) };

    fn put<S: Alter>(
        &self,
        tx: &mut Transaction<'_, S>,
        alloc: Global,
        is_new: bool,
    ) -> Result<(), StoreFault> {
        let tags = list_text(alloc, &self.tags)?;
        let id = number(self.id)?;
        let project = optional_number(self.project)?;
        put(
            tx,
            is_new,
            texts::UPDATE_RUNNER,
            texts::INSERT_RUNNER,
            &[
                id,
                text(&self.name),
                text(&self.token),
                project,
                (&tags).to_sql(),
                self.untagged.to_sql(),
                self.paused.to_sql(),
            ],
        )
    }
}
