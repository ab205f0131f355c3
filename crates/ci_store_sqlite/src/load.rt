//! Loads of records, by a query that writes nothing.

ghost use Rattle.std.specs.Prelude.{◌≡◌, ◌+◌, ◌*◌, [], ◌∷◌, length, take, IfOk};
ghost use Rattle.ci_store.specs.Prelude.{Text as Words, IsPlain, understood, bound, last_attempt_by, newest_of, trace_of, next_of, newer_in};
ghost use Rattle.ci_store_rows.specs.Prelude.{the_schema, ShowsRecords, FindsNumber, listed, last_block, number};
ghost use Rattle.ci_store_sqlite.specs.Calls.{LooksUp};
ghost use Rattle.ci_store_sqlite.specs.Appends.{kept_trace};

use crate::asked::Asked;
use ci_machine::change::Counter;
use ci_machine::moment::Moment;
use ci_machine::records::{Attempt, Pipeline};
use ci_machine::text::{Bytes, Text};
use ci_store::fault::StoreFault;
use ci_store::values::number;
use ci_store_rows::block::{BLOCK_BYTES, Block, joined};
use ci_store_rows::columns::{LAST_INTEGER, counter_key, kind_number, text};
use ci_store_rows::read::{Loaded, read_all};
use ci_store_rows::texts;
use sqlite::Alter;
use sqlite::types::{ToSql, ValueRef};

/// The next number of a kind.
pub(crate) fn next<S: Alter>(conn: &mut Asked<S>, counter: Counter) -> Result<u64, StoreFault>
    ensures { LooksUp S.Store conn.old conn.new result (λ k n. n ≡ next_of counter k.state.next) }
{
    let rows = conn.look_up(texts::SELECT_META, &[counter_key(counter).to_sql()])?;
    match rows.as_slice() {
        [row] => Ok(row.get(1)?),
        _ => Err(StoreFault::Broken),
    }
}

/// The record that a query shows, if it shows any. Errors: it shows more.
pub(crate) fn one<S: Alter, R: Loaded>(
    conn: &mut Asked<S>,
    sql: &str,
    params: &[ValueRef<'_>],
) -> Result<Option<R>, StoreFault>
    requires { IsPlain (understood the_schema sql.now) }
    ensures { LooksUp S.Store conn.old conn.new result (λ _ found. ShowsRecords R.is_row S.Store sql.now (bound params.now) conn.old conn.new (listed found)) }
{
    let rows = conn.look_up(sql, params)?;
    match rows.as_slice() {
        [] => Ok(None),
        [row] => Ok(Some(R::read(*rows.allocator(), row)?)),
        _ => Err(StoreFault::Broken),
    }
}

/// The record that a query by a number shows, if it shows any.
pub(crate) fn one_at<S: Alter, R: Loaded>(
    conn: &mut Asked<S>,
    sql: &str,
    id: u64,
) -> Result<Option<R>, StoreFault>
    requires { IsPlain (understood the_schema sql.now) }
    ensures { LooksUp S.Store conn.old conn.new result (λ _ found. ShowsRecords R.is_row S.Store sql.now (number id ∷ []) conn.old conn.new (listed found)) }
{
    let id = number(id)?;
    one(conn, sql, &[id])
}

/// The record with a number that a call names, which may be any: where it is over the greatest integer of SQL, none has it, and
/// the query of the records above that integer says so. Errors: that query shows one.
pub(crate) fn one_named<S: Alter, R: Loaded>(
    conn: &mut Asked<S>,
    sql: &str,
    above: &str,
    id: u64,
) -> Result<Option<R>, StoreFault>
    requires plain { IsPlain (understood the_schema sql.now) }
    requires plain_above { IsPlain (understood the_schema above.now) }
    ensures { LooksUp S.Store conn.old conn.new result (λ _ found. FindsNumber R.is_row S.Store sql.now above.now id conn.old conn.new found) }
{
    if id <= LAST_INTEGER {
        return one_at(conn, sql, id);
    }
    let found: Option<R> = one_at(conn, above, LAST_INTEGER)?;
    match found {
        None => Ok(None),
        Some(_) => Err(StoreFault::Broken),
    }
}

/// The record that a query by an owner's number and a name shows, if it shows any.
pub(crate) fn one_of<S: Alter, R: Loaded>(
    conn: &mut Asked<S>,
    sql: &str,
    owner: u64,
    name: &Text,
) -> Result<Option<R>, StoreFault>
    requires { IsPlain (understood the_schema sql.now) }
    ensures { LooksUp S.Store conn.old conn.new result (λ _ found. ShowsRecords R.is_row S.Store sql.now (number owner ∷ Words name.now ∷ []) conn.old conn.new (listed found)) }
{
    let owner = number(owner)?;
    one(conn, sql, &[owner, text(name)])
}

/// The records that a query shows.
pub(crate) fn list<S: Alter, R: Loaded>(
    conn: &mut Asked<S>,
    sql: &str,
    params: &[ValueRef<'_>],
) -> Result<Vec<R>, StoreFault>
    requires { IsPlain (understood the_schema sql.now) }
    ensures { LooksUp S.Store conn.old conn.new result (λ _ found. ShowsRecords R.is_row S.Store sql.now (bound params.now) conn.old conn.new found.items) }
{
    let rows = conn.look_up(sql, params)?;
    read_all(*rows.allocator(), rows.as_slice())
}

/// The records that a query by a number shows.
pub(crate) fn list_of<S: Alter, R: Loaded>(
    conn: &mut Asked<S>,
    sql: &str,
    owner: u64,
) -> Result<Vec<R>, StoreFault>
    requires { IsPlain (understood the_schema sql.now) }
    ensures { LooksUp S.Store conn.old conn.new result (λ _ found. ShowsRecords R.is_row S.Store sql.now (number owner ∷ []) conn.old conn.new found.items) }
{
    let owner = number(owner)?;
    list(conn, sql, &[owner])
}

/// The records that a query by the first number of a range and by its last one shows.
pub(crate) fn list_within<S: Alter, R: Loaded>(
    conn: &mut Asked<S>,
    sql: &str,
    first: u64,
    last: u64,
) -> Result<Vec<R>, StoreFault>
    requires { IsPlain (understood the_schema sql.now) }
    ensures { LooksUp S.Store conn.old conn.new result (λ _ found. ShowsRecords R.is_row S.Store sql.now (number first ∷ number last ∷ []) conn.old conn.new found.items) }
{
    let first = number(first)?;
    let last = number(last)?;
    list(conn, sql, &[first, last])
}

/// The records that a query by a moment and by how many it shows at most shows.
pub(crate) fn list_before<S: Alter, R: Loaded>(
    conn: &mut Asked<S>,
    sql: &str,
    before: Moment,
    count: u64,
) -> Result<Vec<R>, StoreFault>
    requires { IsPlain (understood the_schema sql.now) }
    ensures { LooksUp S.Store conn.old conn.new result (λ _ found. ShowsRecords R.is_row S.Store sql.now (number before ∷ number count ∷ []) conn.old conn.new found.items) }
{
    let before = number(before.seconds())?;
    let count = number(count)?;
    list(conn, sql, &[before, count])
}

/// The first newer pipeline of the same project, for the same branch or the same tag, as a query by these shows it.
pub(crate) fn newer<S: Alter>(
    conn: &mut Asked<S>,
    pipeline: &Pipeline,
) -> Result<Option<Pipeline>, StoreFault>
    ensures { LooksUp S.Store conn.old conn.new result (λ k found. found ≡ newer_in k.state pipeline.now) }
{
    let project = number(pipeline.project)?;
    let kind = kind_number(pipeline.kind);
    let id = number(pipeline.id)?;
    let only = number(1)?;
    one(
        conn,
        texts::SELECT_NEWER_PIPELINES,
        &[project, text(&pipeline.git_ref), kind.to_sql(), id, only],
    )
}

/// The newest pipelines of a project, at most so many, as a query by these shows them.
pub(crate) fn newest<S: Alter>(
    conn: &mut Asked<S>,
    project: u64,
    count: u64,
) -> Result<Vec<Pipeline>, StoreFault>
    ensures { LooksUp S.Store conn.old conn.new result (λ k found. found.items ≡ take count (newest_of k.state project)) }
{
    let project = number(project)?;
    let count = number(count)?;
    list(conn, texts::SELECT_NEWEST_PIPELINES, &[project, count])
}

/// The last attempt of a runner, as a query by these shows it.
pub(crate) fn last_by<S: Alter>(
    conn: &mut Asked<S>,
    runner: u64,
) -> Result<Option<Attempt>, StoreFault>
    ensures { LooksUp S.Store conn.old conn.new result (λ k found. found ≡ last_attempt_by k.state runner) }
{
    let runner = number(runner)?;
    let only = number(1)?;
    one(conn, texts::SELECT_ATTEMPTS_BY, &[runner, only])
}

/// The trace of an attempt: the bytes of all its blocks.
pub(crate) fn trace_of<S: Alter>(conn: &mut Asked<S>, attempt: u64) -> Result<Bytes, StoreFault>
    ensures { LooksUp S.Store conn.old conn.new result (λ k bytes. bytes ≡ trace_of k.state attempt) }
{
    let attempt = number(attempt)?;
    let rows = conn.look_up(texts::SELECT_BLOCKS, &[attempt])?;
    joined(*rows.allocator(), rows.as_slice())
}

/// The last block of the trace of an attempt, if it has any.
fn last_block<S: Alter>(conn: &mut Asked<S>, attempt: u64) -> Result<Option<Block>, StoreFault>
    ensures { LooksUp S.Store conn.old conn.new result (λ k last. last ≡ last_block (kept_trace attempt k)) }
{
    let attempt = number(attempt)?;
    let only = number(1)?;
    one(conn, texts::SELECT_LAST_BLOCKS, &[attempt, only])
}

/// The size of a trace that ends with the block, in bytes. Errors: it is over the greatest number of 64 bits.
fn size_to(last: &Block) -> Result<u64, StoreFault>
    ensures { IfOk result (λ size. size ≡ last.now.seq * BLOCK_BYTES + length last.now.bytes) }
{
    let before = last
        .seq
        .checked_mul(BLOCK_BYTES as u64)
        .ok_or(StoreFault::Broken)?;
    before
        .checked_add(last.bytes.as_slice().len() as u64)
        .ok_or(StoreFault::Broken)
}

/// The size of the trace of an attempt, in bytes, from its last block alone.
pub(crate) fn trace_size<S: Alter>(conn: &mut Asked<S>, attempt: u64) -> Result<u64, StoreFault>
    ensures { LooksUp S.Store conn.old conn.new result (λ k size. size ≡ length (trace_of k.state attempt)) }
{
    match last_block(conn, attempt)? {
        Some(last) => size_to(&last),
        None => Ok(0),
    }
}
