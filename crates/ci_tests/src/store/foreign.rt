//! Stores that are not ours, and rows that are no records: written through plain SQL.

use crate::disks::discard;
use crate::store::plain::{Load, are_shown, close, create, filled, found, open, parted};
use ci_board::facts::Status;
use ci_machine::change::Counter;
use ci_store_sqlite::Connection;
use ci_store_sqlite::tables::OpenFault;
use sqlite::MemStore;
use std::alloc::Global;
use std::test::Fail;

/// A store with a record of each kind, in which one statement was run.
fn altered(alloc: Global, statement: &str) -> Result<Connection<MemStore>, Fail> {
    let mut conn = close(filled(alloc)?);
    let _ = conn.execute(statement, &[])?;
    Ok(conn)
}

/// A store with another table alone.
fn noted(alloc: Global) -> Result<Connection<MemStore>, Fail> {
    let mut conn = Connection::open_in_memory(alloc)?;
    let _ = conn.execute("CREATE TABLE note (text TEXT)", &[])?;
    Ok(conn)
}

const SPEC_WITHOUT_SCRIPT: &str =
    r#"UPDATE job SET spec = '{"allow_failure":false,"interruptible":false,"needs":false,"resource_group":null,"retry":{"causes":[],"max":0},"tags":[],"timeout":3600,"when":"on_success"}'"#;

/// A script is a list of lines.
const SPEC_WITH_ONE_LINE: &str =
    r#"UPDATE job SET spec = '{"allow_failure":false,"interruptible":false,"needs":false,"resource_group":null,"retry":{"causes":[],"max":0},"script":"make","tags":[],"timeout":3600,"when":"on_success"}'"#;

/// A statement, and the load of a row that it spoils.
const BROKEN: &[(&str, Load)] = &[
    ("UPDATE runner SET tags = 'gpu'", Load::RunnerWith("r1")),
    ("UPDATE runner SET tags = '{}'", Load::RunnerWith("r1")),
    ("UPDATE runner SET paused = 2", Load::RunnerWith("r1")),
    ("UPDATE runner SET untagged = 2", Load::Runner(1)),
    ("UPDATE pipeline SET kind = 2", Load::Pipeline(1)),
    ("UPDATE pipeline SET created = -1", Load::Pipeline(1)),
    ("UPDATE job SET spec = '[]'", Load::Job(1)),
    (
        "UPDATE job SET spec = '{\"tags\":[\"gpu\"],\"timeout\":3600}'",
        Load::Job(1),
    ),
    ("UPDATE job SET spec = '[]'", Load::Demand(1)),
    (
        "UPDATE job SET spec = '{\"tags\":[\"gpu\"],\"timeout\":3600}'",
        Load::Demand(1),
    ),
    (SPEC_WITHOUT_SCRIPT, Load::Job(1)),
    (SPEC_WITH_ONE_LINE, Load::Job(1)),
    ("UPDATE job SET spec = '[]' WHERE id = 2", Load::JobsOf(1)),
    ("UPDATE board SET status = 9", Load::Row(1)),
    ("UPDATE board SET status = 9", Load::RowsWithin(1, 2)),
    ("UPDATE board SET barred = -1", Load::Row(1)),
    (
        "UPDATE board SET status = 1, open = -1",
        Load::RowsWith(Status::Pending),
    ),
    (
        "UPDATE board SET status = 7, open = -1",
        Load::RowsWith(Status::Manual),
    ),
    ("UPDATE attempt SET state = 7", Load::Attempt(1)),
    ("UPDATE attempt SET state = 7", Load::AttemptsOf(1)),
    ("UPDATE attempt SET cause = NULL", Load::Attempt(1)),
    (
        "INSERT INTO piece (attempt, seq, bytes) VALUES (1, 0, x'')",
        Load::TraceSize(1),
    ),
    (
        "INSERT INTO piece (attempt, seq, bytes) VALUES (1, -1, x'61')",
        Load::TraceSize(1),
    ),
    (
        "INSERT INTO piece (attempt, seq, bytes) VALUES (1, 9223372036854775807, x'61')",
        Load::TraceSize(1),
    ),
    (
        "DELETE FROM meta WHERE key = 'next_job'",
        Load::Next(Counter::Job),
    ),
    (
        "UPDATE meta SET num = -1 WHERE key = 'next_job'",
        Load::Next(Counter::Job),
    ),
    ("UPDATE mode SET mode = 0", Load::Mode(1, "prod")),
    ("UPDATE mode SET mode = 3", Load::Mode(1, "prod")),
    ("UPDATE mode SET mode = -1", Load::Mode(1, "prod")),
    ("UPDATE mode SET mode = 0", Load::Modes),
    (
        "INSERT INTO mode (project, grp, mode) VALUES (1, 'test', 3)",
        Load::Modes,
    ),
];

/// Is the load broken after the statement, while project 1 is there still?
fn is_spoilt(alloc: Global, statement: &str, load: Load) -> Result<bool, Fail> {
    let mut tables = found(open(altered(alloc, statement)?)).ok_or("not opened")?;
    let wants = [(load, "broken"), (Load::Project(1), "1 one p1 -")];
    are_shown(alloc, &mut tables, &wants)
}

#[test]
fn a_row_that_is_no_record_is_a_fault(rt: HostRuntime) -> Result<(), Fail> {
    for (statement, load) in BROKEN {
        assert!(rt; is_spoilt(rt.alloc(), statement, *load)?, "{statement}");
    }
    Ok(())
}

const FOREIGN: &[(&str, OpenFault)] = &[
    (
        "UPDATE meta SET num = 7 WHERE key = 'format'",
        OpenFault::O1,
    ),
    ("DELETE FROM meta WHERE key = 'format'", OpenFault::O1),
    ("DROP TABLE meta", OpenFault::O1),
    (
        "UPDATE meta SET num = 1 WHERE key = 'version'",
        OpenFault::O2,
    ),
    (
        "UPDATE meta SET num = 3 WHERE key = 'version'",
        OpenFault::O2,
    ),
    ("DELETE FROM meta WHERE key = 'version'", OpenFault::O2),
    ("BEGIN", OpenFault::O3),
];

/// The fault of an opening.
fn not_opened(conn: Connection<MemStore>) -> Option<OpenFault> {
    let (fault, conn) = parted(open(conn));
    discard(conn);
    fault
}

/// The fault of a creation.
fn not_created(conn: Connection<MemStore>) -> Option<OpenFault> {
    let (fault, conn) = parted(create(conn));
    discard(conn);
    fault
}

#[test]
fn another_store_is_not_opened(rt: HostRuntime) -> Result<(), Fail> {
    let alloc = rt.alloc();
    for (statement, wants) in FOREIGN {
        let fault = not_opened(altered(alloc, statement)?);
        assert_eq!(rt; fault, Some(*wants), "{statement}");
    }
    assert_eq!(rt; not_opened(noted(alloc)?), Some(OpenFault::O1));
    let blank = Connection::open_in_memory(alloc)?;
    assert_eq!(rt; not_opened(blank), Some(OpenFault::O1));
    Ok(())
}

#[test]
fn tables_are_not_made_among_others(rt: HostRuntime) -> Result<(), Fail> {
    let alloc = rt.alloc();
    assert_eq!(rt; not_created(noted(alloc)?), Some(OpenFault::O1));
    let begun = altered(alloc, "BEGIN")?;
    assert_eq!(rt; not_created(begun), Some(OpenFault::O3));
    Ok(())
}

/// A statement that gives a store another number, the fault of its opening, and a statement that gives it its own again if it has the other one.
const RENUMBERED: &[(&str, OpenFault, &str)] = &[
    (
        "UPDATE meta SET num = 1 WHERE key = 'version'",
        OpenFault::O2,
        "UPDATE meta SET num = 2 WHERE key = 'version' AND num = 1",
    ),
    (
        "UPDATE meta SET num = 3 WHERE key = 'version'",
        OpenFault::O2,
        "UPDATE meta SET num = 2 WHERE key = 'version' AND num = 3",
    ),
    (
        "UPDATE meta SET num = 7 WHERE key = 'format'",
        OpenFault::O1,
        "UPDATE meta SET num = 1128878163 WHERE key = 'format' AND num = 7",
    ),
];

/// What of the records is there in a store that was filled.
const FILLED: &[(Load, &str)] = &[
    (Load::Project(1), "1 one p1 -"),
    (Load::VariablesOf(1), "1 LEVEL=0"),
    (Load::Modes, "1 prod oldest_first"),
    (Load::Pipeline(1), "1 1 main tag schedule 60"),
    (Load::JobVariables(1), "1 CI=1; 1 KEY=1"),
    (Load::Row(1), "1 manual 2 1 3"),
    (Load::Next(Counter::Job), "3"),
];

/// Is the store refused with this fault, and has its other number still, and its records?
fn is_refused_and_left(
    alloc: Global,
    statement: &str,
    wants: OpenFault,
    back: &str,
) -> Result<bool, Fail> {
    let (fault, mut conn) = parted(open(altered(alloc, statement)?));
    let changed = conn.execute(back, &[])?;
    let mut tables = found(open(conn)).ok_or("not opened with its own number")?;
    Ok(fault == Some(wants) && changed == 1 && are_shown(alloc, &mut tables, FILLED)?)
}

#[test]
fn another_version_is_refused_and_left_as_it_is(rt: HostRuntime) -> Result<(), Fail> {
    for (statement, wants, back) in RENUMBERED {
        assert!(rt;
            is_refused_and_left(rt.alloc(), statement, *wants, back)?,
            "{statement}"
        );
    }
    Ok(())
}

/// A store of version 1, which has no table of process modes.
fn of_version_1(alloc: Global) -> Result<Connection<MemStore>, Fail> {
    let mut conn = altered(alloc, "DROP TABLE mode")?;
    let _ = conn.execute("UPDATE meta SET num = 1 WHERE key = 'version'", &[])?;
    Ok(conn)
}

#[test]
fn version_1_is_refused_and_gets_no_table(rt: HostRuntime) -> Result<(), Fail> {
    let (fault, mut conn) = parted(open(of_version_1(rt.alloc())?));
    assert_eq!(rt; fault, Some(OpenFault::O2));
    let modes = conn.query_all("SELECT sql FROM sqlite_schema WHERE name = 'mode'", &[])?;
    assert!(rt; modes.is_empty());
    let versions = conn.query_all("SELECT num FROM meta WHERE key = 'version'", &[])?;
    let version: u64 = versions.as_slice().first().ok_or("no version")?.get(0)?;
    assert_eq!(rt; version, 1);
    discard(conn);
    Ok(())
}
