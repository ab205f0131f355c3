//! A store of version 1 that is opened within a transaction.

use crate::server::rows::all_rows;
use crate::server::servers::opening;
use crate::server::version1::fill_version_1;
use ci_store_sqlite::Connection;
use ci_store_sqlite::tables::OpenFault;
use std::test::Fail;

#[test]
fn nothing_is_migrated_in_a_transaction(rt: HostRuntime) -> Result<(), Fail> {
    let alloc = rt.alloc();
    let mut conn = Connection::open_in_memory(alloc)?;
    fill_version_1(&mut conn)?;
    let before = all_rows(alloc, &mut conn)?;
    let _ = conn.execute("BEGIN", &[])?;
    let (within, mut conn) = opening(conn);
    let shown = all_rows(alloc, &mut conn)?;
    let _ = conn.execute("ROLLBACK", &[])?;
    let left = all_rows(alloc, &mut conn)?;
    let (behind, mut conn) = opening(conn);
    let migrated = all_rows(alloc, &mut conn)?;
    assert!(rt; within == Err(OpenFault::O3) && shown == before && left == before);
    assert!(rt; behind == Ok(true) && migrated != before);
    Ok(())
}
