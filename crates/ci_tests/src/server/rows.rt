//! What a store has, by plain SQL.

use crate::disks::{ALL_CALLS, Image};
use ci_store_sqlite::{Alter, Connection};
use std::alloc::Global;
use std::test::Fail;

/// Adds the rows of a query to a text.
fn add_rows<S: Alter>(
    alloc: Global,
    conn: &mut Connection<S>,
    query: &str,
    text: &mut String,
) -> Result<(), Fail> {
    let rows = conn.query_all(query, &[])?;
    let line = format!(in alloc; "{rows:?}\n")?;
    text.push_str(line.as_str())?;
    Ok(())
}

/// The tables and indexes with their texts, and all rows of each table.
pub fn all_rows<S: Alter>(alloc: Global, conn: &mut Connection<S>) -> Result<String, Fail> {
    let mut text = String::new(alloc);
    let tables = conn.query_all("SELECT name FROM sqlite_schema WHERE type = 'table'", &[])?;
    add_rows(alloc, conn, "SELECT * FROM sqlite_schema", &mut text)?;
    for table in &tables {
        let name = table.get::<String>(0)?;
        let query = format!(in alloc; "SELECT * FROM {name}")?;
        add_rows(alloc, conn, query.as_str(), &mut text)?;
    }
    Ok(text)
}

/// The same of files.
pub fn rows_of(alloc: Global, image: &Image) -> Result<String, Fail> {
    let mut conn = image.connect(alloc, ALL_CALLS).ok_or("not connected")?;
    all_rows(alloc, &mut conn)
}
