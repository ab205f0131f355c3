//! The loop over sockets of this machine: peers connect and send first, then the loop serves, and then they read.

use super::fakes::{Left, Parrot};
use ci_http_peers::serve::{Terms, Unserved, serve_peers};
use mio::net::TcpListener;
use std::cell::Cell;
use std::fs::File;
use std::io::{Read, Write};
use std::net::{Ipv4Addr, Shutdown, SocketAddr, TcpStream};
use std::process::Abort;
use std::test::Fail;

fn listen(rt: &HostRuntime) -> Result<TcpListener, Fail> {
    Ok(TcpListener::bind(rt, SocketAddr::from((Ipv4Addr::LOCALHOST, 0)))?)
}

/// A peer that has sent bytes, and may send more.
fn sends(rt: &HostRuntime, listener: &TcpListener, bytes: &[u8]) -> Result<TcpStream, Fail> {
    let mut stream = TcpStream::connect(rt, listener.local_addr()?)?;
    stream.write_all(bytes)?;
    Ok(stream)
}

/// How many bytes a peer gets.
fn got(rt: &HostRuntime, mut peer: TcpStream) -> Result<usize, Fail> {
    let mut bytes = Vec::new(rt.alloc());
    peer.read_to_end(&mut bytes)?;
    Ok(bytes.len())
}

/// Serves so many connections, whose peers have this time in milliseconds. Were all served?
fn served(rt: &HostRuntime, listener: &mut TcpListener, connections: u32, left: &mut Left) -> bool {
    let parrot = Parrot {
        alloc: rt.alloc(),
        reply: 100,
        asked: Cell::new(0),
    };
    let terms = Terms {
        patience: 300,
        connections,
    };
    match serve_peers(rt, rt.alloc(), rt, listener, terms, &parrot, left) {
        Ok(()) => true,
        Err(Unserved::Unanswered(_) | Unserved::NoClock | Unserved::NoWait) => false,
    }
}

/// Silent peers, one that sends a part, one that is gone, and requests: each request is answered, and the loop ends once all are over.
#[test]
fn side_by_side(rt: HostRuntime) -> Result<(), Fail> {
    let mut listener = listen(&rt)?;
    let silent = sends(&rt, &listener, b"")?;
    let part = sends(&rt, &listener, b"012345678")?;
    drop(sends(&rt, &listener, b"0123456789")?);
    let first = sends(&rt, &listener, b"0123456789")?;
    let second = sends(&rt, &listener, b"0123456789 and more")?;
    second.shutdown(Shutdown::Write)?;
    let mut left: Left = 9;
    assert!(rt; served(&rt, &mut listener, 5, &mut left));
    assert!(rt; left == 6);
    assert!(rt; got(&rt, silent)? == 0);
    assert!(rt; got(&rt, part)? == 0);
    assert!(rt; got(&rt, first)? == 100);
    assert!(rt; got(&rt, second)? == 100);
    Ok(())
}

/// More peers than places: those that came first and said nothing give way, and the last is answered.
#[test]
fn more_than_places(rt: HostRuntime) -> Result<(), Fail> {
    let mut listener = listen(&rt)?;
    let mut silent = Vec::new(rt.alloc());
    for _ in 0..300 {
        silent.push(sends(&rt, &listener, b"")?)?;
    }
    let last = sends(&rt, &listener, b"0123456789")?;
    let mut left: Left = 1;
    assert!(rt; served(&rt, &mut listener, 301, &mut left));
    assert!(rt; left == 0 && got(&rt, last)? == 100);
    Ok(())
}

/// The most files that are opened to leave no descriptor.
const MAX_FILES: usize = 2_000_000;

/// Where descriptors are short the loop goes on with the connection that it has. Two accepts that fail meanwhile, a tenth of a second
/// apart, are the others of its number.
#[test]
fn no_descriptors(rt: HostRuntime) -> Result<(), Fail> {
    let mut listener = listen(&rt)?;
    let silent = sends(&rt, &listener, b"")?;
    let second = sends(&rt, &listener, b"")?;
    let last = sends(&rt, &listener, b"0123456789")?;
    let mut files = Vec::new(rt.alloc());
    for _ in 0..MAX_FILES {
        match File::open(&rt, "/dev/null") {
            Ok(file) => files.push(file)?,
            Err(_) => break,
        }
    }
    assert!(rt; files.len() < MAX_FILES);
    // Three are left: two for the loop, and one for a connection.
    files.truncate(files.len().saturating_sub(3));
    let mut left: Left = 1;
    assert!(rt; served(&rt, &mut listener, 3, &mut left));
    drop(files);
    assert!(rt; left == 1 && got(&rt, silent)? == 0);
    drop(second);
    drop(last);
    Ok(())
}

/// Once no request can be answered the loop ends.
#[test]
fn no_more_answers(rt: HostRuntime) -> Result<(), Fail> {
    let mut listener = listen(&rt)?;
    let peer = sends(&rt, &listener, b"0123456789")?;
    let mut left: Left = 0;
    assert!(rt; !served(&rt, &mut listener, 2, &mut left));
    drop(peer);
    Ok(())
}
