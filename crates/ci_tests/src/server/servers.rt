//! Servers over a store, and their calls without a clause.

use crate::disks::{ALL_CALLS, Image, OnDisks, closed, discard};
use crate::server::acts::{Act, call};
use crate::server::answers::Want;
use ci_machine::reply::Answer;
use ci_machine::request::Event;
pub use ci_server::server::Server;
use ci_store_sqlite::tables::OpenFault;
use ci_store_sqlite::{Alter, Connection};
use sqlite::MemStore;
use std::alloc::Global;
use std::test::Fail;

/// A server over an empty store, if its tables can be made.
fn created<S: Alter + Drop>(conn: Connection<S>) -> Result<Server<S>, Fail> {
    match Server::create(conn) {
        Ok(server) => Ok(server),
        Err(_) => Err("not created")?,
    }
}

/// A server over memory.
pub type InMemory = Server<MemStore>;

/// A server over memory, to which these things happened at 1000.
pub fn after(alloc: Global, acts: &[Act]) -> Result<InMemory, Fail> {
    let mut server = created(Connection::open_in_memory(alloc)?)?;
    match happen(alloc, &mut server, acts) {
        Ok(()) => Ok(server),
        Err(fail) => {
            let_go(server);
            Err(fail)
        }
    }
}

/// A server over the same store once a statement of SQL has run on it.
pub fn altered(server: InMemory, statement: &str) -> Result<InMemory, Fail> {
    let mut conn = left(server);
    let _ = conn.execute(statement, &[])?;
    over(conn)
}

/// The server of a connection that has its tables.
pub fn over<S: Alter + Drop>(conn: Connection<S>) -> Result<Server<S>, Fail> {
    match Server::open(conn) {
        Ok(server) => Ok(server),
        Err(_) => Err("not opened")?,
    }
}

/// The server of files that may fail, if it opens.
pub fn opened<S: Alter + Drop>(conn: Option<Connection<S>>) -> Option<Server<S>> {
    Server::open(conn?).ok()
}

/// What stands on the files of a server to which these things happened at 1000, and then those.
pub fn image_after(alloc: Global, acts: &[Act], more: &[Act]) -> Result<Image, Fail> {
    let blank = Image::blank(alloc).connect(alloc, ALL_CALLS);
    let mut server = created(blank.ok_or("not connected")?)?;
    happen(alloc, &mut server, acts)?;
    happen(alloc, &mut server, more)?;
    Ok(closed(alloc, left(server)).ok_or("not closed")?)
}

/// The server of files that don't fail.
pub fn server_of(alloc: Global, image: &Image) -> Result<Server<OnDisks>, Fail> {
    over(image.connect(alloc, ALL_CALLS).ok_or("not connected")?)
}

/// How an opening ended: with a fault, or else, was the store migrated? With the connection.
pub fn opening<S: Alter>(conn: Connection<S>) -> (Result<bool, OpenFault>, Connection<S>) {
    match Server::open(conn) {
        Ok(server) => {
            let migrated = server.migrated();
            (Ok(migrated), left(server))
        }
        Err((fault, conn)) => (Err(fault), conn),
    }
}

/// Has a fault of the store closed the server?
pub fn is_closed<S: Alter>(server: &Server<S>) -> bool {
    server.closed()
}

/// The connection of a server that goes.
pub fn left<S: Alter>(server: Server<S>) -> Connection<S> {
    server.close()
}

/// Lets a server go, with its store.
pub fn let_go<S: Alter + Drop>(server: Server<S>) {
    discard(left(server));
}

/// Has one thing happen, at a moment in seconds.
pub fn tell<S: Alter>(
    alloc: Global,
    server: &mut Server<S>,
    seconds: u64,
    act: Act,
) -> Result<Answer, Fail> {
    let (event, moment, seed) = call(alloc, seconds, act)?;
    Ok(match event {
        Event::Request(request) => Answer::Reply(server.handle(alloc, request, moment, seed)),
        Event::Sweep => Answer::Swept(server.sweep(alloc, moment)),
    })
}

/// Has things happen, one after the other, at 1000.
pub fn happen<S: Alter>(alloc: Global, server: &mut Server<S>, acts: &[Act]) -> Result<(), Fail> {
    for act in acts {
        let _ = tell(alloc, server, 1000, *act)?;
    }
    Ok(())
}

/// Has things handled as one list, each at its moment in seconds. What each is to be answered is looked at by the caller.
pub fn run<S: Alter>(
    alloc: Global,
    server: &mut Server<S>,
    acts: &[(u64, Act, Want)],
) -> Result<Vec<Answer>, Fail> {
    let mut calls = Vec::new(alloc);
    for (seconds, act, _) in acts {
        calls.push(call(alloc, *seconds, *act)?)?;
    }
    Ok(server.run(alloc, calls.as_slice())?)
}
