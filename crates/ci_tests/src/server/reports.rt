//! Reports of a server, and what becomes of it where its store has a row that is no record.

use crate::server::acts::Act;
use crate::server::servers::{InMemory, after, altered, is_closed, let_go};
use ci_machine::reply::Code;
use std::alloc::Global;
use std::test::Fail;

/// Why the queue isn't told, if it isn't.
fn queue(alloc: Global, server: &mut InMemory) -> Option<Code> {
    server.queue(alloc).err()
}

/// Why the first pipeline isn't told.
fn pipeline(alloc: Global, server: &mut InMemory) -> Option<Code> {
    server.pipeline(alloc, 1).err()
}

/// Why the runners aren't told.
fn runners(alloc: Global, server: &mut InMemory) -> Option<Code> {
    server.runners(alloc).err()
}

#[test]
fn a_row_that_is_no_record_closes_the_server(rt: HostRuntime) -> Result<(), Fail> {
    let alloc = rt.alloc();
    let server = after(alloc, &[Act::AddRunner("r")])?;
    let mut server = altered(server, "UPDATE runner SET tags = 'gpu'")?;
    let before = (queue(alloc, &mut server), pipeline(alloc, &mut server));
    let was_closed = is_closed(&server);
    let broken = runners(alloc, &mut server);
    let closed = is_closed(&server);
    let behind = (queue(alloc, &mut server), pipeline(alloc, &mut server));
    let_go(server);
    assert!(rt; before == (None, None) && !was_closed);
    assert!(rt; broken == Some(Code::M17) && closed);
    assert!(rt; behind == (Some(Code::M17), Some(Code::M17)));
    Ok(())
}
