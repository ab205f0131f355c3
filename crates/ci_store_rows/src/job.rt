//! Jobs as rows.

ghost use Rattle.std.specs.Prelude.{IfOk};
ghost use Rattle.ci_store.specs.Prelude.{column};
ghost use Rattle.ci_store_rows.specs.Load.{HoldsSpec};

use crate::columns::text;
use crate::json::{read_spec, spec_text};
use crate::read::{Loaded, Stored, flag_at, has_columns, text_at};
use crate::texts;
use ci_machine::records::{Job, JobOptions};
use ci_store::fault::StoreFault;
use ci_store::values::number;
use ci_store::write::put;
use sqlite::types::ToSql;
use sqlite::{Alter, Row, Transaction};
use std::alloc::Global;

/// What was fixed of a job, of the column `spec`.
fn options_of(alloc: Global, row: &Row) -> Result<JobOptions, StoreFault>
    ensures { IfOk result (HoldsSpec (column row.now 5)) }
{
    let text: String = row.get(5)?;
    read_spec(alloc, text.as_str())
}

impl Loaded for Job {
    ghost use Rattle.ci_store_rows.specs.Load.{IsJobRow};

    ghost is_row = { IsJobRow };

    fn read(alloc: Global, row: &Row) -> Result<Job, StoreFault> {
        has_columns(row, 9)?;
        Ok(Job {
            id: row.get(0)?,
            pipeline: row.get(1)?,
            position: row.get(2)?,
            played: flag_at(row, 6)?,
            cancelled: flag_at(row, 7)?,
            set_aside: row.get(8)?,
            name: text_at(row, 3)?,
            stage: text_at(row, 4)?,
            options: options_of(alloc, row)?,
        })
    }
}

impl Stored for Job {
    ghost use Rattle.ci_machine.specs.State.{with_record};
    ghost use Rattle.ci_machine.specs.declared.change.Record.TheVariants as variant;
    ghost use Rattle.ci_store_rows.specs.Changes.{in_state};

    ghost puts = { λ x. in_state (with_record (variant.Job x)) };

    fn put<S: Alter>(
        &self,
        tx: &mut Transaction<'_, S>,
        alloc: Global,
        is_new: bool,
    ) -> Result<(), StoreFault> {
        let spec = spec_text(alloc, &self.options)?;
        let id = number(self.id)?;
        let pipeline = number(self.pipeline)?;
        let position = number(self.position)?;
        let set_aside = number(self.set_aside)?;
        put(
            tx,
            is_new,
            texts::UPDATE_JOB,
            texts::INSERT_JOB,
            &[
                id,
                pipeline,
                position,
                text(&self.name),
                text(&self.stage),
                (&spec).to_sql(),
                self.played.to_sql(),
                self.cancelled.to_sql(),
                set_aside,
            ],
        )
    }
}
