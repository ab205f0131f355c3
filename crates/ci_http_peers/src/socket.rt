//! A socket as a connection.

use crate::wire::Wire;
use mio::net::TcpStream;
use mio::{Interest, Registry, Token};
use std::io::{self, Read, Write};
use std::net::Shutdown;

/// A socket that doesn't block, and where it is registered once it is waited for.
#[derive(Drop)]
pub(crate) struct Socket<'a> {
    stream: TcpStream,
    registry: &'a Registry,
}

impl<'a> Socket<'a> {
    /// A socket, which a loop with these sources is to hear of once it waits.
    pub(crate) fn new(stream: TcpStream, registry: &'a Registry) -> Socket<'a> {
        Socket { stream, registry }
    }
}

impl<'a> Wire for Socket<'a> {
    fn receive(&mut self, buf: &mut [u8]) -> io::Result<usize> {
        self.stream.read(buf)
    }

    fn send(&mut self, bytes: &[u8]) -> io::Result<usize> {
        self.stream.write(bytes)
    }

    fn end(&mut self) {
        let _ = self.stream.shutdown(Shutdown::Write);
    }

    /// The socket is registered once, for both ways: where it is ready already the loop hears of it too.
    fn listen(&mut self, place: usize) -> io::Result<()> {
        let both = Interest::READABLE | Interest::WRITABLE;
        self.registry.register(&mut self.stream, Token(place), both)
    }
}
