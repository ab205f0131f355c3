//! Blocks of traces as rows.

ghost use Rattle.std.specs.Prelude.{◌≡◌, IsTrue, IfOk, OnOk};
ghost use Rattle.std.specs.List.{flat_map};
ghost use Rattle.ci_store.specs.Prelude.{column, HasCleanDisk, state, KeepsInside, CommitsNothing};
ghost use Rattle.ci_store_rows.specs.Changes.{PutsBlock};
ghost use Rattle.ci_store_rows.specs.Load.{bytes_in};

use crate::read::{Loaded, bytes_at, has_columns};
use crate::texts;
use ci_machine::text::Bytes;
use ci_store::fault::StoreFault;
use ci_store::values::number;
use ci_store::write::put;
use sqlite::types::{ToSql, ValueRef};
use sqlite::{Alter, Row, Transaction};
use std::alloc::Global;

/// How many bytes a block of a trace has; the last one may have fewer.
pub const BLOCK_BYTES: usize = 16_384;

/// A block of the trace of an attempt.
#[derive(Drop)]
pub struct Block {
    pub attempt: u64,
    /// Its place among the blocks of the trace, from 0.
    pub seq: u64,
    pub bytes: Bytes,
}

impl Loaded for Block {
    ghost use Rattle.std.specs.Prelude.{◌≡◌};
    ghost use Rattle.ci_store_rows.specs.Rows.{block_row};

    ghost is_row = { λ row b. row ≡ block_row b };

    fn read(_: Global, row: &Row) -> Result<Block, StoreFault> {
        has_columns(row, 3)?;
        let bytes = bytes_at(row, 2)?;
        let size = bytes.as_slice().len();
        if size == 0 || BLOCK_BYTES < size {
            return Err(StoreFault::Broken);
        }
        Ok(Block {
            attempt: row.get(0)?,
            seq: row.get(1)?,
            bytes,
        })
    }
}

/// Writes the bytes as the block at a place of the trace of an attempt. A new block is only inserted. Errors: memory was refused, or
/// the store failed.
pub fn put_block<S: Alter>(
    tx: &mut Transaction<'_, S>,
    attempt: u64,
    seq: u64,
    bytes: &[u8],
    is_new: bool,
) -> Result<(), StoreFault>
    ensures same_reference { tx.new.conn.ghost_name ≡ tx.old.conn.ghost_name }
    ensures puts { HasCleanDisk (state S.Store tx.new.conn.now) → IsTrue tx.old.conn.now.in_transaction
        → OnOk result (PutsBlock S.Store (record { attempt = attempt; seq = seq; bytes = bytes.now }) tx.old.conn.now tx.new.conn.now) }
    ensures kept { KeepsInside S.Store tx.old.conn.now tx.new.conn.now }
    ensures survives { CommitsNothing S.Store tx.old.conn.now tx.new.conn.now }
{
    let attempt = number(attempt)?;
    let seq = number(seq)?;
    put(
        tx,
        is_new,
        texts::UPDATE_BLOCK,
        texts::INSERT_BLOCK,
        &[attempt, seq, bytes.to_sql()],
    )
}

/// The bytes of rows of blocks, joined. Errors: memory was refused, or a row has no bytes as its third value.
pub fn joined(alloc: Global, rows: &[Row]) -> Result<Bytes, StoreFault>
    ensures { IfOk result (λ bytes. bytes ≡ flat_map (λ row. bytes_in (column row 2)) rows.now) }
{
    let mut all = Vec::with_capacity(alloc, rows.len().saturating_mul(BLOCK_BYTES))?;
    for row in rows {
        let ValueRef::Blob(bytes) = row.get_ref(2)? else {
            return Err(StoreFault::Broken);
        };
        all.extend_from_slice(bytes)?;
    }
    Ok(Bytes::new(all))
}
