//! Rows of jobs' statuses.

ghost use Rattle.std.specs.Prelude.{◌≡◌, IfSome};
ghost use Rattle.ci_store.specs.Prelude.{status_number};

use crate::read::{Loaded, Stored, count_at, has_columns};
use crate::texts;
use ci_board::facts::{Row as StatusRow, Status};
use ci_machine::records::BoardRow;
use ci_store::fault::StoreFault;
use ci_store::values::number;
use ci_store::write::put;
use sqlite::types::ToSql;
use sqlite::{Alter, Row, Transaction};
use std::alloc::Global;

fn read_status(number: u32) -> Option<Status>
    ensures { IfSome result (λ s. number ≡ status_number s) }
{
    match number {
        0 => Some(Status::Created),
        1 => Some(Status::Pending),
        2 => Some(Status::Running),
        3 => Some(Status::Success),
        4 => Some(Status::Failed),
        5 => Some(Status::Canceled),
        6 => Some(Status::Skipped),
        7 => Some(Status::Manual),
        _ => None,
    }
}

impl Loaded for BoardRow {
    ghost use Rattle.std.specs.Prelude.{◌≡◌};
    ghost use Rattle.ci_store_rows.specs.Rows.{board_row};

    ghost is_row = { λ row r. row ≡ board_row r };

    fn read(_: Global, row: &Row) -> Result<BoardRow, StoreFault> {
        has_columns(row, 5)?;
        Ok(BoardRow {
            job: row.get(0)?,
            row: StatusRow {
                status: read_status(row.get(1)?).ok_or(StoreFault::Broken)?,
                opens: count_at(row, 2)?,
                failed: count_at(row, 3)?,
                barred: count_at(row, 4)?,
            },
        })
    }
}

impl Stored for BoardRow {
    ghost use Rattle.ci_machine.specs.Kept.{row_cmp};
    ghost use Rattle.ci_machine.specs.State.{put};
    ghost use Rattle.ci_store_rows.specs.Changes.{in_board};

    ghost puts = { λ r. in_board (put row_cmp r) };

    fn put<S: Alter>(
        &self,
        tx: &mut Transaction<'_, S>,
        _: Global,
        is_new: bool,
    ) -> Result<(), StoreFault> {
        let job = number(self.job)?;
        let opens = number(self.row.opens as u64)?;
        let failed = number(self.row.failed as u64)?;
        let barred = number(self.row.barred as u64)?;
        put(
            tx,
            is_new,
            texts::UPDATE_ROW,
            texts::INSERT_ROW,
            &[
                job,
                self.row.status.as_number().to_sql(),
                opens,
                failed,
                barred,
            ],
        )
    }
}
