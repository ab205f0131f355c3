//! Process modes of resource groups as rows.

ghost use Rattle.std.specs.Prelude.{◌≡◌, IfSome};
ghost use Rattle.ci_store_rows.specs.Rows.{order_number};

use crate::columns::{order_number, text};
use crate::read::{Loaded, Stored, has_columns, text_at};
use crate::texts;
use ci_machine::records::{GroupMode, GroupOrder};
use ci_store::fault::StoreFault;
use ci_store::values::number;
use ci_store::write::put;
use sqlite::types::ToSql;
use sqlite::{Alter, Row, Transaction};
use std::alloc::Global;

fn read_order(number: u32) -> Option<GroupOrder>
    ensures { IfSome result (λ order. number ≡ order_number order) }
{
    match number {
        1 => Some(GroupOrder::OldestFirst),
        2 => Some(GroupOrder::NewestReadyFirst),
        _ => None,
    }
}

impl Loaded for GroupMode {
    ghost use Rattle.std.specs.Prelude.{◌≡◌};
    ghost use Rattle.ci_store_rows.specs.Rows.{mode_row};

    ghost is_row = { λ row m. row ≡ mode_row m };

    fn read(_: Global, row: &Row) -> Result<GroupMode, StoreFault> {
        has_columns(row, 3)?;
        Ok(GroupMode {
            project: row.get(0)?,
            order: read_order(row.get(2)?).ok_or(StoreFault::Broken)?,
            group: text_at(row, 1)?,
        })
    }
}

impl Stored for GroupMode {
    ghost use Rattle.ci_machine.specs.State.{with_record};
    ghost use Rattle.ci_machine.specs.declared.change.Record.TheVariants as variant;
    ghost use Rattle.ci_store_rows.specs.Changes.{in_state};

    ghost puts = { λ x. in_state (with_record (variant.Mode x)) };

    fn put<S: Alter>(
        &self,
        tx: &mut Transaction<'_, S>,
        _: Global,
        is_new: bool,
    ) -> Result<(), StoreFault> {
        let project = number(self.project)?;
        put(
            tx,
            is_new,
            texts::UPDATE_MODE,
            texts::INSERT_MODE,
            &[
                project,
                text(&self.group),
                order_number(self.order).to_sql(),
            ],
        )
    }
}
