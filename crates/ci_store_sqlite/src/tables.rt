//! The tables, which are the only writer of their store.

ghost use Rattle.std.specs.Prelude.{◌≡◌, ◌≢◌, ◌≤◌, ◌⊎◌, false, IsTrue, IfOk, IfErr, OnOk, MatchBool};
ghost use Rattle.ci_store.specs.Prelude.{column, HasCleanDisk, Survives, IsUnchanged, state, Trees, doubt, Kept, nothing_kept, CommitsNothing};
ghost use Rattle.ci_store_rows.specs.Prelude.{the_schema, IsBlank, IsBare, Stands, StandsIn, IsAt, LeavesOnly, number};
ghost use Rattle.ci_store_sqlite.specs.Open.{HasNumber, LacksNumber, IsOurs, Blames, IsFailure, LeavesNoMore};

use crate::asked::Asked;
use crate::commit::{commit, first_new_job};
use crate::load;
use crate::probe::probe_intact;
use ci_board::facts::Status;
use ci_machine::change::Counter;
use ci_machine::moment::Moment;
use ci_machine::records::{
    Attempt, AttemptState, BoardRow, Demand, GroupMode, Holder, Job, JobVariable, Need, Pipeline,
    Project, Runner, Variable,
};
use ci_machine::text::{Bytes, Text};
use ci_store::delta::Delta;
use ci_store::fault::StoreFault;
use ci_store::read::rows;
use ci_store::store::Store;
use ci_store::values::number;
use ci_store::write::change;
use ci_store_rows::columns::{state_numbers, text};
use ci_store_rows::texts;
use ci_store_rows::version1::SCHEMA;
use ci_store_rows::version2::CREATE_MODE;
use sqlite::types::{ToSql, ValueRef};
use sqlite::{Alter, Connection, Error, ErrorCode, Row, Transaction};
use std::marker::Model;

/// The number of the format, under the key `format`: the four bytes `CIPS`.
pub const FORMAT: u64 = 1_128_878_163;

/// The version of the format, under the key `version`.
pub const VERSION: u64 = 2;

/// Why the tables were not opened.
#[derive(Clone, Copy, Debug, PartialEq, Eq)]
pub enum OpenFault {
    /// The store is not of this format.
    O1,
    /// It is of another version.
    O2,
    /// The store failed.
    O3,
    /// Memory was refused.
    Memory,
}

impl From<StoreFault> for OpenFault {
    ghost use Rattle.std.specs.Prelude.{◌≡◌};
    ghost use Rattle.ci_store_sqlite.specs.Open.{open_fault_of};

    ghost from_gives = { λ fault reason. reason ≡ open_fault_of fault };

    fn from(fault: StoreFault) -> OpenFault {
        match fault {
            StoreFault::Memory => OpenFault::Memory,
            StoreFault::Broken => OpenFault::O3,
        }
    }
}

/// The tables of the server. Between its calls no transaction is open.
#[derive(Drop)]
pub struct Tables<S: Alter> {
    conn: Asked<S>,
}

impl<S: Alter> Model for Tables<S> {
    ghost use Rattle.sqlite.specs.Held.{Held, held_code};

    ghost Value = { Held S };

    ghost coded = { held_code S.code };

    ghost view = { λ t. t.conn };
}

/// The rows that `meta` has at first.
const FIRST_ROWS: [(&str, u64); 7] = [
    ("format", FORMAT),
    ("version", VERSION),
    ("next_project", 1),
    ("next_runner", 1),
    ("next_pipeline", 1),
    ("next_job", 1),
    ("next_attempt", 1),
];

/// Makes the tables and the indexes, in a store that has none.
fn define<S: Alter>(tx: &mut Transaction<'_, S>) -> Result<(), StoreFault>
    ensures same_reference { tx.new.conn.ghost_name ≡ tx.old.conn.ghost_name }
    ensures makes { HasCleanDisk (state S.Store tx.new.conn.now) → IsTrue tx.old.conn.now.in_transaction
        → OnOk result (IsTrue tx.new.conn.now.in_transaction × (IsBlank S.Store tx.old.conn.now → IsBare the_schema (state S.Store tx.new.conn.now).now)) }
    ensures survives { CommitsNothing S.Store tx.old.conn.now tx.new.conn.now }
{
    for text in SCHEMA {
        change(tx, text, &[])?;
    }
    change(tx, CREATE_MODE, &[])?;
    Ok(())
}

/// Writes the first rows, in tables that have none.
fn fill<S: Alter>(tx: &mut Transaction<'_, S>) -> Result<(), StoreFault>
    ensures same_reference { tx.new.conn.ghost_name ≡ tx.old.conn.ghost_name }
    ensures makes { HasCleanDisk (state S.Store tx.new.conn.now) → IsTrue tx.old.conn.now.in_transaction
        → OnOk result (IsTrue tx.new.conn.now.in_transaction × (IsBare the_schema (state S.Store tx.old.conn.now).now → Stands nothing_kept (state S.Store tx.new.conn.now).now)) }
    ensures survives { CommitsNothing S.Store tx.old.conn.now tx.new.conn.now }
{
    for (key, num) in FIRST_ROWS {
        change(tx, texts::INSERT_META, &[key.to_sql(), number(num)?])?;
    }
    Ok(())
}

fn define_and_fill<S: Alter>(tx: &mut Transaction<'_, S>) -> Result<(), StoreFault>
    ensures same_reference { tx.new.conn.ghost_name ≡ tx.old.conn.ghost_name }
    ensures makes { HasCleanDisk (state S.Store tx.new.conn.now) → IsTrue tx.old.conn.now.in_transaction
        → OnOk result (IsTrue tx.new.conn.now.in_transaction × (IsBlank S.Store tx.old.conn.now → Stands nothing_kept (state S.Store tx.new.conn.now).now)) }
    ensures survives { CommitsNothing S.Store tx.old.conn.now tx.new.conn.now }
{
    define(tx)?;
    fill(tx)
}

/// Has the store no table, no index and no view?
fn is_blank<S: Alter>(conn: &Connection<S>) -> bool
    ensures { MatchBool result (IsBlank S.Store conn.now) (¬ IsBlank S.Store conn.now) }
{
    let schema = conn.schema();
    schema.tables.is_empty() && schema.indexes.is_empty() && schema.views.is_empty()
}

fn make_tables<S: Alter>(conn: &mut Connection<S>) -> Result<(), StoreFault>
    requires { conn.old.in_transaction ≡ false }
    ensures idle { conn.new.in_transaction ≡ false }
    ensures made { HasCleanDisk (state S.Store conn.new) → OnOk result (IsBlank S.Store conn.old → IsAt S.Store nothing_kept conn.new) }
    ensures survives { Survives (state S.Store conn.old) (state S.Store conn.new) (λ db. IsBlank S.Store conn.old → StandsIn nothing_kept db) }
{
    let mut tx = conn.transaction();
    define_and_fill(&mut tx)?;
    Ok(tx.commit()?)
}

/// Tells that the store has a table as `meta` is, by a statement that is not run. Errors: O1, it has none.
fn understands<S: Alter>(conn: &mut Connection<S>) -> Result<(), OpenFault>
    requires { conn.old.in_transaction ≡ false }
    ensures idle { conn.new.in_transaction ≡ false }
    ensures same { HasCleanDisk (state S.Store conn.new) → OnOk result (IsUnchanged (state S.Store conn.old) (state S.Store conn.new)) }
    ensures blamed { HasCleanDisk (state S.Store conn.new) → IfErr result (λ fault. Blames fault (state S.Store conn.old).now) }
    ensures unchanged { HasCleanDisk (state S.Store conn.new) → IfErr result (λ fault. ¬ IsFailure fault → IsUnchanged (state S.Store conn.old) (state S.Store conn.new)) }
    ensures survives { Survives (state S.Store conn.old) (state S.Store conn.new) (λ _. ⊥) }
{
    match conn.prepare(texts::SELECT_META) {
        Ok(_) => Ok(()),
        Err(Error::SqlInputError(_)) => Err(OpenFault::O1),
        Err(error) => Err(OpenFault::from(StoreFault::from(error))),
    }
}

/// Has a row of `meta` this number?
fn is_number(row: &Row, num: u64) -> Result<bool, StoreFault>
    ensures { IfOk result (λ found. MatchBool found (column row.now 1 ≡ number num) (column row.now 1 ≢ number num)) }
{
    let found: Result<u64, Error> = row.get(1);
    match found {
        Ok(found) => Ok(found == num),
        Err(Error::SqliteFailure(ErrorCode::OutOfMemory)) => Err(StoreFault::Memory),
        Err(_) => Ok(false),
    }
}

/// Has `meta` this number alone under the key? Errors: the store failed, or has no table as `meta` is; or memory was refused.
pub fn has_number<S: Alter>(
    conn: &mut Connection<S>,
    key: &str,
    num: u64,
) -> Result<bool, StoreFault>
    requires { conn.old.in_transaction ≡ false }
    ensures idle { conn.new.in_transaction ≡ false }
    ensures same { HasCleanDisk (state S.Store conn.new) → OnOk result (IsUnchanged (state S.Store conn.old) (state S.Store conn.new)) }
    ensures found { HasCleanDisk (state S.Store conn.new) → IfOk result (λ found. MatchBool found (HasNumber key.now num (state S.Store conn.old).now) (LacksNumber key.now num (state S.Store conn.old).now)) }
    ensures survives { Survives (state S.Store conn.old) (state S.Store conn.new) (λ _. ⊥) }
{
    let rows = rows(conn, texts::SELECT_META, &[key.to_sql()])?;
    match rows.as_slice() {
        [] => Ok(false),
        [row] => is_number(row, num),
        _ => Ok(false),
    }
}

/// Tells that the store is of this format and version. Errors: O1, it is of another format; O2, of another version.
fn recognize<S: Alter>(conn: &mut Connection<S>) -> Result<(), OpenFault>
    requires { conn.old.in_transaction ≡ false }
    ensures idle { conn.new.in_transaction ≡ false }
    ensures same { HasCleanDisk (state S.Store conn.new) → OnOk result (IsUnchanged (state S.Store conn.old) (state S.Store conn.new)) }
    ensures ours { HasCleanDisk (state S.Store conn.new) → OnOk result (IsOurs (state S.Store conn.old).now) }
    ensures blamed { HasCleanDisk (state S.Store conn.new) → IfErr result (λ fault. Blames fault (state S.Store conn.old).now) }
    ensures unchanged { HasCleanDisk (state S.Store conn.new) → IfErr result (λ fault. ¬ IsFailure fault → IsUnchanged (state S.Store conn.old) (state S.Store conn.new)) }
    ensures survives { Survives (state S.Store conn.old) (state S.Store conn.new) (λ _. ⊥) }
{
    understands(conn)?;
    if !has_number(conn, "format", FORMAT)? {
        return Err(OpenFault::O1);
    }
    if !has_number(conn, "version", VERSION)? {
        return Err(OpenFault::O2);
    }
    Ok(())
}

impl<S: Alter> Tables<S> {
    /// Makes the tables of an empty store, in one transaction. Errors: O1, the store has a table, an index or a view already; O3,
    /// it failed, or a transaction is open; Memory, memory was refused.
    pub fn create(mut conn: Connection<S>) -> Result<Tables<S>, (OpenFault, Connection<S>)>
        ensures clean { IfOk result (λ t. doubt (state S.Store conn).is_clean ≤ doubt (state S.Store t).is_clean) }
        ensures clean_fault { IfErr result (λ e. doubt (state S.Store conn).is_clean ≤ doubt (state S.Store e.1).is_clean) }
        ensures made { IfOk result (λ t. HasCleanDisk (state S.Store t) → IsBlank S.Store conn → IsAt S.Store nothing_kept t) }
        ensures left { IfErr result (λ e. HasCleanDisk (state S.Store e.1) → IsBlank S.Store conn → (db : Trees) → (state S.Store e.1).may_leave db → (state S.Store conn).may_leave db ⊎ StandsIn nothing_kept db) }
        ensures blank { OnOk result (IsBlank S.Store conn) }
        ensures added { IfErr result (λ e. HasCleanDisk (state S.Store e.1) → (db : Trees) → (state S.Store e.1).may_leave db → (state S.Store conn).may_leave db ⊎ (IsBlank S.Store conn × StandsIn nothing_kept db)) }
        ensures listed { IfErr result (λ e. e.0 ≡ OpenFault.O1 → ¬ IsBlank S.Store conn) }
        ensures unversioned { IfErr result (λ e. e.0 ≢ OpenFault.O2) }
    {
        if !conn.is_autocommit() {
            return Err((OpenFault::O3, conn));
        }
        if !is_blank(&conn) {
            return Err((OpenFault::O1, conn));
        }
        match make_tables(&mut conn) {
            Ok(()) => Ok(Tables {
                conn: Asked::open(conn),
            }),
            Err(fault) => Err((OpenFault::from(fault), conn)),
        }
    }

    /// Opens the tables of a store. Errors: O1, it is not of this format; O2, it is of another version; O3, it failed, or a
    /// transaction is open; Memory, memory was refused.
    pub fn open(mut conn: Connection<S>) -> Result<Tables<S>, (OpenFault, Connection<S>)>
        ensures clean { IfOk result (λ t. doubt (state S.Store conn).is_clean ≤ doubt (state S.Store t).is_clean) }
        ensures clean_fault { IfErr result (λ e. doubt (state S.Store conn).is_clean ≤ doubt (state S.Store e.1).is_clean) }
        ensures opened { IfOk result (λ t. HasCleanDisk (state S.Store t) → (k : Kept) → LeavesOnly S.Store k conn → IsAt S.Store k t) }
        ensures ours { IfOk result (λ t. HasCleanDisk (state S.Store t) → IsOurs (state S.Store t).now) }
        ensures same { IfOk result (λ t. HasCleanDisk (state S.Store t) → IsUnchanged (state S.Store conn) (state S.Store t)) }
        ensures left { IfErr result (λ e. HasCleanDisk (state S.Store e.1) → (k : Kept) → LeavesOnly S.Store k conn → LeavesOnly S.Store k e.1) }
        ensures less { IfOk result (λ t. LeavesNoMore S.Store conn t) }
        ensures less_fault { IfErr result (λ e. LeavesNoMore S.Store conn e.1) }
        ensures blamed { IfErr result (λ e. HasCleanDisk (state S.Store e.1) → Blames e.0 (state S.Store conn).now) }
        ensures own { IfErr result (λ e. HasCleanDisk (state S.Store e.1) → (k : Kept) → LeavesOnly S.Store k conn → IsFailure e.0) }
        ensures idle { IfErr result (λ e. ¬ IsFailure e.0 → e.1.in_transaction ≡ false) }
        ensures unchanged { IfErr result (λ e. HasCleanDisk (state S.Store e.1) → ¬ IsFailure e.0 → IsUnchanged (state S.Store conn) (state S.Store e.1)) }
    {
        if !conn.is_autocommit() {
            return Err((OpenFault::O3, conn));
        }
        if let Err(fault) = probe_intact(&mut conn) {
            return Err((OpenFault::from(fault), conn));
        }
        match recognize(&mut conn) {
            Ok(()) => Ok(Tables {
                conn: Asked::open(conn),
            }),
            Err(fault) => Err((fault, conn)),
        }
    }

    /// The tables of a store that is open, of this version, and in no transaction. Nothing is asked of it.
    pub fn over(conn: Connection<S>) -> Tables<S>
        requires idle { conn.in_transaction ≡ false }
        requires is_open { HasCleanDisk (state S.Store conn) → IsTrue (state S.Store conn).is_open }
        ensures same { result ≡ conn }
    {
        Tables {
            conn: Asked::open(conn),
        }
    }

    /// Gives the connection back.
    pub fn close(self) -> Connection<S>
        ensures same { result ≡ self }
        ensures idle { result.in_transaction ≡ false }
    {
        let Tables { conn } = self;
        conn.into_inner()
    }
}

impl<S: Alter> Store for Tables<S> {
    ghost use Rattle.std.proofs.Common.{inl};
    ghost use Rattle.sqlite.specs.State.{HasCleanDisk};
    ghost use Rattle.sqlite.specs.Held.{state};
    ghost use Rattle.ci_store_rows.specs.Stands.{LeavesOnly, LeavesEither};

    ghost honest = { λ t. HasCleanDisk (state S.Store t) };

    ghost holds = { λ t k. LeavesOnly S.Store k t };

    ghost leaves = { λ t k l. LeavesEither S.Store k l t };

    ghost held_is_left = { λ t k only db may. inl (only db may) };

    fn next(&mut self, counter: Counter) -> Result<u64, StoreFault> {
        load::next(&mut self.conn, counter)
    }

    fn project(&mut self, id: u64) -> Result<Option<Project>, StoreFault> {
        load::one_named(
            &mut self.conn,
            texts::SELECT_PROJECT,
            texts::SELECT_PROJECTS_ABOVE,
            id,
        )
    }

    fn project_with(&mut self, token: &Text) -> Result<Option<Project>, StoreFault> {
        load::one(&mut self.conn, texts::SELECT_PROJECT_WITH, &[text(token)])
    }

    fn variables_of(&mut self, project: u64) -> Result<Vec<Variable>, StoreFault> {
        load::list_of(&mut self.conn, texts::SELECT_VARIABLES, project)
    }

    fn variable(&mut self, project: u64, key: &Text) -> Result<Option<Variable>, StoreFault> {
        load::one_of(&mut self.conn, texts::SELECT_VARIABLE, project, key)
    }

    fn mode(&mut self, project: u64, group: &Text) -> Result<Option<GroupMode>, StoreFault> {
        load::one_of(&mut self.conn, texts::SELECT_MODE, project, group)
    }

    fn modes(&mut self) -> Result<Vec<GroupMode>, StoreFault> {
        load::list(&mut self.conn, texts::SELECT_MODES, &[])
    }

    fn runner(&mut self, id: u64) -> Result<Option<Runner>, StoreFault> {
        load::one_named(
            &mut self.conn,
            texts::SELECT_RUNNER,
            texts::SELECT_RUNNERS_ABOVE,
            id,
        )
    }

    fn runner_with(&mut self, token: &Text) -> Result<Option<Runner>, StoreFault> {
        load::one(&mut self.conn, texts::SELECT_RUNNER_WITH, &[text(token)])
    }

    fn runners(&mut self) -> Result<Vec<Runner>, StoreFault> {
        load::list(&mut self.conn, texts::SELECT_RUNNERS, &[])
    }

    fn pipeline(&mut self, id: u64) -> Result<Option<Pipeline>, StoreFault> {
        load::one_named(
            &mut self.conn,
            texts::SELECT_PIPELINE,
            texts::SELECT_PIPELINES_ABOVE,
            id,
        )
    }

    fn job(&mut self, id: u64) -> Result<Option<Job>, StoreFault> {
        load::one_named(
            &mut self.conn,
            texts::SELECT_JOB,
            texts::SELECT_JOBS_ABOVE,
            id,
        )
    }

    fn demand(&mut self, id: u64) -> Result<Option<Demand>, StoreFault> {
        load::one_named(
            &mut self.conn,
            texts::SELECT_DEMAND,
            texts::SELECT_DEMANDS_ABOVE,
            id,
        )
    }

    fn job_variables(&mut self, job: u64) -> Result<Vec<JobVariable>, StoreFault> {
        load::list_of(&mut self.conn, texts::SELECT_JOB_VARIABLES, job)
    }

    fn attempt(&mut self, id: u64) -> Result<Option<Attempt>, StoreFault> {
        load::one_named(
            &mut self.conn,
            texts::SELECT_ATTEMPT,
            texts::SELECT_ATTEMPTS_ABOVE,
            id,
        )
    }

    fn attempts_of(&mut self, job: u64) -> Result<Vec<Attempt>, StoreFault> {
        load::list_of(&mut self.conn, texts::SELECT_ATTEMPTS_OF, job)
    }

    fn last_attempt_by(&mut self, runner: u64) -> Result<Option<Attempt>, StoreFault> {
        load::last_by(&mut self.conn, runner)
    }

    fn live_attempts(&mut self) -> Result<Vec<Attempt>, StoreFault> {
        let (live, _, _) = state_numbers(AttemptState::Live);
        load::list(&mut self.conn, texts::SELECT_ATTEMPTS_IN, &[live.to_sql()])
    }

    fn trace_of(&mut self, attempt: u64) -> Result<Bytes, StoreFault> {
        load::trace_of(&mut self.conn, attempt)
    }

    fn trace_size(&mut self, attempt: u64) -> Result<u64, StoreFault> {
        load::trace_size(&mut self.conn, attempt)
    }

    fn jobs_of(&mut self, pipeline: u64) -> Result<Vec<Job>, StoreFault> {
        load::list_of(&mut self.conn, texts::SELECT_JOBS_OF, pipeline)
    }

    fn needs_within(&mut self, first: u64, last: u64) -> Result<Vec<Need>, StoreFault> {
        load::list_within(&mut self.conn, texts::SELECT_NEEDS_WITHIN, first, last)
    }

    fn attempts_within(&mut self, first: u64, last: u64) -> Result<Vec<Attempt>, StoreFault> {
        load::list_within(&mut self.conn, texts::SELECT_ATTEMPTS_WITHIN, first, last)
    }

    fn rows_within(&mut self, first: u64, last: u64) -> Result<Vec<BoardRow>, StoreFault> {
        load::list_within(&mut self.conn, texts::SELECT_ROWS_WITHIN, first, last)
    }

    fn row(&mut self, job: u64) -> Result<Option<BoardRow>, StoreFault> {
        load::one_at(&mut self.conn, texts::SELECT_ROW, job)
    }

    fn rows_with(&mut self, status: Status) -> Result<Vec<BoardRow>, StoreFault> {
        load::list_of(
            &mut self.conn,
            texts::SELECT_ROWS_WITH,
            u64::from(status.as_number()),
        )
    }

    fn holder(&mut self, project: u64, group: &Text) -> Result<Option<Holder>, StoreFault> {
        load::one_of(&mut self.conn, texts::SELECT_HOLDER, project, group)
    }

    fn holders_in(&mut self, project: u64) -> Result<Vec<Holder>, StoreFault> {
        load::list_of(&mut self.conn, texts::SELECT_HOLDERS_IN, project)
    }

    fn newer_of(&mut self, pipeline: &Pipeline) -> Result<Option<Pipeline>, StoreFault> {
        load::newer(&mut self.conn, pipeline)
    }

    fn pipelines_before(
        &mut self,
        before: Moment,
        count: u64,
    ) -> Result<Vec<Pipeline>, StoreFault> {
        load::list_before(
            &mut self.conn,
            texts::SELECT_PIPELINES_BEFORE,
            before,
            count,
        )
    }

    fn some_before(&mut self, before: Moment, count: u64) -> Result<Vec<Pipeline>, StoreFault> {
        load::list_before(
            &mut self.conn,
            texts::SELECT_SOME_PIPELINES_BEFORE,
            before,
            count,
        )
    }

    fn newest(&mut self, project: u64, count: u64) -> Result<Vec<Pipeline>, StoreFault> {
        load::newest(&mut self.conn, project, count)
    }

    fn commit(&mut self, delta: Delta) -> Result<(), StoreFault> {
        let (changes, rows, indexes, jobs) = delta.into_parts();
        let alloc = *changes.allocator();
        let first_new = first_new_job(&mut self.conn, changes.as_slice())?;
        commit(
            &mut self.conn,
            alloc,
            first_new,
            jobs.as_slice(),
            changes.as_slice(),
            rows.as_slice(),
            indexes.as_slice(),
        )
    }
}
