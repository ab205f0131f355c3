//! Bytes behind the trace of an attempt: they fill its last block, and what is left makes new ones.

ghost use Rattle.std.specs.Prelude.{◌≡◌, ◌<◌, ◌≤◌, ◌+◌, ◌*◌, length, Some};
ghost use Rattle.ci_store.specs.Prelude.{state, changed, trace_of, Append, KeepsInside, CommitsNothing};
ghost use Rattle.ci_store_rows.specs.Prelude.{last_block, in_state, appended, MakesInside};
ghost use Rattle.ci_store_sqlite.specs.Appends.{kept_trace, FindsInside, MakesWhere};

use ci_machine::records::Trace;
use ci_store::fault::StoreFault;
use ci_store::read::rows_inside;
use ci_store::values::number;
use ci_store_rows::block::{BLOCK_BYTES, Block, put_block};
use ci_store_rows::read::Loaded;
use ci_store_rows::texts;
use sqlite::{Alter, Transaction};

/// The last block of the trace of an attempt, if it has any.
fn last_block<S: Alter>(
    tx: &mut Transaction<'_, S>,
    attempt: u64,
) -> Result<Option<Block>, StoreFault>
    ensures same_reference { tx.new.conn.ghost_name ≡ tx.old.conn.ghost_name }
    ensures finds { FindsInside S.Store tx.old.conn.now tx.new.conn.now result (λ k last. last ≡ last_block (kept_trace attempt k)) }
    ensures kept { KeepsInside S.Store tx.old.conn.now tx.new.conn.now }
    ensures survives { CommitsNothing S.Store tx.old.conn.now tx.new.conn.now }
{
    let attempt = number(attempt)?;
    let only = number(1)?;
    let rows = rows_inside(tx, texts::SELECT_LAST_BLOCKS, &[attempt, only])?;
    match rows.as_slice() {
        [] => Ok(None),
        [row] => Ok(Some(Block::read(*rows.allocator(), row)?)),
        _ => Err(StoreFault::Broken),
    }
}

/// Puts bytes behind the last block of a trace, which has room for them.
fn fill<S: Alter>(tx: &mut Transaction<'_, S>, last: Block, bytes: &[u8]) -> Result<(), StoreFault>
    requires { length last.bytes + length bytes.now ≤ BLOCK_BYTES }
    ensures same_reference { tx.new.conn.ghost_name ≡ tx.old.conn.ghost_name }
    ensures makes { MakesWhere S.Store (λ k. last_block (kept_trace last.attempt k) ≡ Some last) (appended last.attempt bytes.now) tx.old.conn.now tx.new.conn.now result }
    ensures kept { KeepsInside S.Store tx.old.conn.now tx.new.conn.now }
    ensures survives { CommitsNothing S.Store tx.old.conn.now tx.new.conn.now }
{
    if bytes.is_empty() {
        return Ok(());
    }
    let Block {
        attempt,
        seq,
        bytes: had,
    } = last;
    let mut all = had.into_vec();
    all.extend_from_slice(bytes)?;
    put_block(tx, attempt, seq, all.as_slice(), false)
}

/// Puts bytes behind a trace that ends where a block does: as new blocks, from this place on.
fn add_blocks<S: Alter>(
    tx: &mut Transaction<'_, S>,
    attempt: u64,
    first: u64,
    bytes: &[u8],
) -> Result<(), StoreFault>
    ensures same_reference { tx.new.conn.ghost_name ≡ tx.old.conn.ghost_name }
    ensures makes { MakesWhere S.Store (λ k. 0 < length bytes.now → length (trace_of k.state attempt) ≡ first * BLOCK_BYTES) (appended attempt bytes.now) tx.old.conn.now tx.new.conn.now result }
    ensures kept { KeepsInside S.Store tx.old.conn.now tx.new.conn.now }
    ensures survives { CommitsNothing S.Store tx.old.conn.now tx.new.conn.now }
{
    let mut seq = first;
    let mut rest = bytes;
    while !rest.is_empty() {
        let (block, behind) = rest.split_at(rest.len().min(BLOCK_BYTES));
        put_block(tx, attempt, seq, block, true)?;
        seq = seq.checked_add(1).ok_or(StoreFault::Broken)?;
        rest = behind;
    }
    Ok(())
}

/// Puts bytes behind the trace of an attempt. Errors: memory was refused, or the store failed, or the last block has more bytes than a block.
pub(crate) fn append<S: Alter>(tx: &mut Transaction<'_, S>, more: &Trace) -> Result<(), StoreFault>
    ensures same_reference { tx.new.conn.ghost_name ≡ tx.old.conn.ghost_name }
    ensures makes { MakesInside S.Store (in_state (changed (Append more.now))) tx.old.conn.now tx.new.conn.now result }
    ensures kept { KeepsInside S.Store tx.old.conn.now tx.new.conn.now }
    ensures survives { CommitsNothing S.Store tx.old.conn.now tx.new.conn.now }
{
    let bytes = more.bytes.as_slice();
    if bytes.is_empty() {
        return Ok(());
    }
    let Some(last) = last_block(tx, more.attempt)? else {
        return add_blocks(tx, more.attempt, 0, bytes);
    };
    let room = BLOCK_BYTES
        .checked_sub(last.bytes.as_slice().len())
        .ok_or(StoreFault::Broken)?;
    let next = last.seq.checked_add(1).ok_or(StoreFault::Broken)?;
    let (filling, rest) = bytes.split_at(room.min(bytes.len()));
    fill(tx, last, filling)?;
    add_blocks(tx, more.attempt, next, rest)
}
