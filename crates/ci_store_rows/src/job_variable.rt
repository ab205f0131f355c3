//! Variables of jobs as rows.

use crate::columns::text;
use crate::read::{Loaded, Stored, has_columns, text_at};
use crate::texts;
use ci_machine::records::JobVariable;
use ci_store::fault::StoreFault;
use ci_store::values::number;
use ci_store::write::put;
use sqlite::{Alter, Row, Transaction};
use std::alloc::Global;

impl Loaded for JobVariable {
    ghost use Rattle.std.specs.Prelude.{◌≡◌};
    ghost use Rattle.ci_store_rows.specs.Rows.{job_variable_row};

    ghost is_row = { λ row v. row ≡ job_variable_row v };

    fn read(_: Global, row: &Row) -> Result<JobVariable, StoreFault> {
        has_columns(row, 3)?;
        Ok(JobVariable {
            job: row.get(0)?,
            key: text_at(row, 1)?,
            value: text_at(row, 2)?,
        })
    }
}

impl Stored for JobVariable {
    ghost use Rattle.ci_machine.specs.State.{with_record};
    ghost use Rattle.ci_machine.specs.declared.change.Record.TheVariants as variant;
    ghost use Rattle.ci_store_rows.specs.Changes.{in_state};

    ghost puts = { λ x. in_state (with_record (variant.JobVariable x)) };

    fn put<S: Alter>(
        &self,
        tx: &mut Transaction<'_, S>,
        _: Global,
        is_new: bool,
    ) -> Result<(), StoreFault> {
        let job = number(self.job)?;
        put(
            tx,
            is_new,
            texts::UPDATE_JOB_VARIABLE,
            texts::INSERT_JOB_VARIABLE,
            &[job, text(&self.key), text(&self.value)],
        )
    }
}
