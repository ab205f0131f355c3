//! A file of version 1: the tables of that version, and rows that were written by hand.

use ci_store_rows::version1::SCHEMA;
use ci_store_sqlite::{Alter, Connection};
use std::test::Fail;

/// The rows. Project 1 has three pipelines, of the branches `a`, `b` and `c`, each with a job `ship` in the resource group `prod`: jobs 1,
/// 2 and 4. Job 1 has a live attempt of runner 1, granted at 1000, which holds the group and has a trace. The other two are pending, and
/// job 3 waits for job 2.
const ROWS: &[&str] = &[
    "INSERT INTO meta VALUES ('format', 1128878163), ('version', 1), ('next_project', 2), ('next_runner', 3), ('next_pipeline', 4), ('next_job', 5), ('next_attempt', 2)",
    "INSERT INTO project VALUES (1, 'p', 'p1-abababababababababababababababab', NULL)",
    "INSERT INTO variable VALUES (1, 'WHO', 'world')",
    "INSERT INTO runner VALUES (1, 'r', 'r1-abababababababababababababababab', NULL, '[]', 1, 0), (2, 's', 'r2-abababababababababababababababab', NULL, '[]', 1, 0)",
    "INSERT INTO pipeline VALUES (1, 1, 'a', 0, 3, 1000), (2, 1, 'b', 0, 3, 1000), (3, 1, 'c', 0, 3, 1000)",
    r#"INSERT INTO job VALUES (1, 1, 0, 'ship', 'test', '{"allow_failure":false,"interruptible":false,"needs":false,"resource_group":"prod","retry":{"causes":[],"max":0},"script":["x"],"tags":[],"timeout":3600,"when":"on_success"}', 0, 0, 0)"#,
    r#"INSERT INTO job VALUES (2, 2, 0, 'ship', 'test', '{"allow_failure":false,"interruptible":false,"needs":false,"resource_group":"prod","retry":{"causes":[],"max":0},"script":["x"],"tags":[],"timeout":3600,"when":"on_success"}', 0, 0, 0)"#,
    r#"INSERT INTO job VALUES (3, 2, 1, 'after', 'deploy', '{"allow_failure":false,"interruptible":false,"needs":false,"resource_group":null,"retry":{"causes":[],"max":0},"script":["x"],"tags":[],"timeout":3600,"when":"on_success"}', 0, 0, 0)"#,
    r#"INSERT INTO job VALUES (4, 3, 0, 'ship', 'test', '{"allow_failure":false,"interruptible":false,"needs":false,"resource_group":"prod","retry":{"causes":[],"max":0},"script":["x"],"tags":[],"timeout":3600,"when":"on_success"}', 0, 0, 0)"#,
    "INSERT INTO jobvar VALUES (1, 'CI', 'true'), (2, 'CI', 'true'), (3, 'CI', 'true'), (4, 'CI', 'true')",
    "INSERT INTO attempt VALUES (1, 1, 1, 'j1-abababababababababababababababab', 1000, 1000, 0, NULL, NULL)",
    "INSERT INTO piece VALUES (1, 0, x'68656c6c6f')",
    "INSERT INTO need VALUES (3, 2)",
    "INSERT INTO board VALUES (1, 2, 0, 0, 0), (2, 1, 0, 0, 0), (3, 0, 1, 0, 0), (4, 1, 0, 0, 0)",
    "INSERT INTO holder VALUES (1, 'prod', 1)",
];

fn run_each<S: Alter>(conn: &mut Connection<S>, statements: &[&str]) -> Result<(), Fail> {
    for statement in statements {
        let _ = conn.execute(statement, &[])?;
    }
    Ok(())
}

/// Makes the tables of version 1 in an empty store, with these rows.
pub fn fill_version_1<S: Alter>(conn: &mut Connection<S>) -> Result<(), Fail> {
    run_each(conn, &["BEGIN"])?;
    run_each(conn, &SCHEMA)?;
    run_each(conn, ROWS)?;
    run_each(conn, &["COMMIT"])
}
