//! The records of rows.

ghost use Rattle.std.specs.Prelude.{◌≡◌, length, IfOk, OnOk};
ghost use Rattle.std.specs.List.{AllZip};
ghost use Rattle.ci_store.specs.Prelude.{Row, column, or_null, Text as Words, Blob, Kept, KeepsInside, CommitsNothing};
ghost use Rattle.ci_store_rows.specs.Load.{HoldsList};
ghost use Rattle.ci_store_rows.specs.Rows.{number, flag};
ghost use Rattle.ci_store_rows.specs.Changes.{MakesInside};

use crate::json::read_list;
use ci_machine::moment::Moment;
use ci_machine::text::{Bytes, Text, Texts};
use ci_store::fault::StoreFault;
use sqlite::{Alter, Row, Transaction};
use std::alloc::Global;

pub fn text_at(row: &Row, at: usize) -> Result<Text, StoreFault>
    ensures { IfOk result (λ t. column row.now at ≡ Words t) }
{
    let text: String = row.get(at)?;
    Ok(Text::new(text))
}

pub fn optional_text_at(row: &Row, at: usize) -> Result<Option<Text>, StoreFault>
    ensures { IfOk result (λ t. column row.now at ≡ or_null Words t) }
{
    let text: Option<String> = row.get(at)?;
    match text {
        Some(text) => Ok(Some(Text::new(text))),
        None => Ok(None),
    }
}

pub fn texts_at(alloc: Global, row: &Row, at: usize) -> Result<Texts, StoreFault>
    ensures { IfOk result (HoldsList (column row.now at)) }
{
    let text: String = row.get(at)?;
    read_list(alloc, text.as_str())
}

pub fn bytes_at(row: &Row, at: usize) -> Result<Bytes, StoreFault>
    ensures { IfOk result (λ b. column row.now at ≡ Blob b) }
{
    let bytes: Vec<u8> = row.get(at)?;
    Ok(Bytes::new(bytes))
}

pub fn moment_at(row: &Row, at: usize) -> Result<Moment, StoreFault>
    ensures { IfOk result (λ m. column row.now at ≡ number m) }
{
    Moment::new(row.get(at)?).ok_or(StoreFault::Broken)
}

pub fn count_at(row: &Row, at: usize) -> Result<usize, StoreFault>
    ensures { IfOk result (λ n. column row.now at ≡ number n) }
{
    let count: u64 = row.get(at)?;
    usize::try_from(count).map_err(|_| StoreFault::Broken)
}

/// A flag is 0 or 1.
pub fn flag_at(row: &Row, at: usize) -> Result<bool, StoreFault>
    ensures { IfOk result (λ b. column row.now at ≡ flag b) }
{
    let number: u32 = row.get(at)?;
    match number {
        0 => Ok(false),
        1 => Ok(true),
        _ => Err(StoreFault::Broken),
    }
}

pub fn has_columns(row: &Row, count: usize) -> Result<(), StoreFault>
    ensures { OnOk result (length row.now ≡ count) }
{
    if row.column_count() == count {
        Ok(())
    } else {
        Err(StoreFault::Broken)
    }
}

/// A record that a query shows, one in each row.
pub trait Loaded: Drop {
    /// The row has the values of the record.
    ghost is_row: { Row → Self → Type 0 };

    /// The record of a row. Errors: memory was refused, or the row is of no such record.
    fn read(alloc: Global, row: &Row) -> Result<Self, StoreFault>
        ensures { IfOk result (is_row row.now) };
}

/// A record that a table stores, one in each row.
pub trait Stored {
    /// What a put of the record makes of what is kept.
    ghost puts: { Self → Kept → Kept };

    /// Updates the row of the record, or inserts it where it is not there. A new one is only inserted. Errors: memory was
    /// refused, or the store failed.
    fn put<S: Alter>(
        &self,
        tx: &mut Transaction<'_, S>,
        alloc: Global,
        is_new: bool,
    ) -> Result<(), StoreFault>
        ensures same_reference { tx.new.conn.ghost_name ≡ tx.old.conn.ghost_name }
        ensures makes { MakesInside S.Store (puts self.now) tx.old.conn.now tx.new.conn.now result }
        ensures kept { KeepsInside S.Store tx.old.conn.now tx.new.conn.now }
        ensures survives { CommitsNothing S.Store tx.old.conn.now tx.new.conn.now };
}

/// The records of rows. Errors: as `read`.
pub fn read_all<R: Loaded>(alloc: Global, rows: &[Row]) -> Result<Vec<R>, StoreFault>
    ensures { IfOk result (λ found. AllZip R.is_row rows.now found.items) }
{
    let mut found = Vec::new(alloc);
    for row in rows {
        found.push(R::read(alloc, row)?)?;
    }
    Ok(found)
}
