//! Pipelines as rows.

ghost use Rattle.std.specs.Prelude.{◌≡◌, IfSome};
ghost use Rattle.ci_store_rows.specs.Rows.{kind_number, source_number};

use crate::columns::{kind_number, source_number, text};
use crate::read::{Loaded, Stored, has_columns, moment_at, text_at};
use crate::texts;
use ci_machine::records::{Pipeline, RefKind, Source};
use ci_store::fault::StoreFault;
use ci_store::values::number;
use ci_store::write::put;
use sqlite::types::ToSql;
use sqlite::{Alter, Row, Transaction};
use std::alloc::Global;

fn read_kind(number: u32) -> Option<RefKind>
    ensures { IfSome result (λ k. number ≡ kind_number k) }
{
    match number {
        0 => Some(RefKind::Branch),
        1 => Some(RefKind::Tag),
        _ => None,
    }
}

fn read_source(number: u32) -> Option<Source>
    ensures { IfSome result (λ k. number ≡ source_number k) }
{
    match number {
        0 => Some(Source::Push),
        1 => Some(Source::Web),
        2 => Some(Source::Schedule),
        3 => Some(Source::Api),
        4 => Some(Source::Trigger),
        _ => None,
    }
}

impl Loaded for Pipeline {
    ghost use Rattle.std.specs.Prelude.{◌≡◌};
    ghost use Rattle.ci_store_rows.specs.Rows.{pipeline_row};

    ghost is_row = { λ row p. row ≡ pipeline_row p };

    fn read(_: Global, row: &Row) -> Result<Pipeline, StoreFault> {
        has_columns(row, 6)?;
        Ok(Pipeline {
            id: row.get(0)?,
            project: row.get(1)?,
            kind: read_kind(row.get(3)?).ok_or(StoreFault::Broken)?,
            source: read_source(row.get(4)?).ok_or(StoreFault::Broken)?,
            created: moment_at(row, 5)?,
            git_ref: text_at(row, 2)?,
        })
    }
}

impl Stored for Pipeline {
    ghost use Rattle.ci_machine.specs.State.{with_record};
    ghost use Rattle.ci_machine.specs.declared.change.Record.TheVariants as variant;
    ghost use Rattle.ci_store_rows.specs.Changes.{in_state};

    ghost puts = { λ x. in_state (with_record (variant.Pipeline x)) };

    fn put<S: Alter>(
        &self,
        tx: &mut Transaction<'_, S>,
        _: Global,
        is_new: bool,
    ) -> Result<(), StoreFault> {
        let id = number(self.id)?;
        let project = number(self.project)?;
        let created = number(self.created.seconds())?;
        put(
            tx,
            is_new,
            texts::UPDATE_PIPELINE,
            texts::INSERT_PIPELINE,
            &[
                id,
                project,
                text(&self.git_ref),
                kind_number(self.kind).to_sql(),
                source_number(self.source).to_sql(),
                created,
            ],
        )
    }
}
