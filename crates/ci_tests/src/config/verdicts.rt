//! What is printed where a file can't be read, and what is said where nothing can be printed.

use ci_explain::check::{check, exit_status};
use std::io;
use std::io::{ErrorKind, Read, Write};
use std::test::Fail;

/// A reader that gives a few bytes, and then fails.
#[derive(Drop)]
struct Broken(bool);

impl Read for Broken {
    fn read(&mut self, buf: &mut [u8]) -> io::Result<usize> {
        if self.0 || buf.is_empty() {
            return Err(io::Error::from(ErrorKind::Other));
        }
        self.0 = true;
        buf[0] = b'a';
        Ok(1)
    }
}

#[test]
fn failures(rt: HostRuntime) -> Result<(), Fail> {
    let unopened: io::Result<Broken> = Err(io::Error::from(ErrorKind::NotFound));
    for file in [unopened, Ok(Broken(false))] {
        let mut out: Vec<u8> = Vec::new(rt.alloc());
        let verdict = check(rt.alloc(), "g.yml", file, &mut out)?;
        assert_eq!(rt;
            out.as_slice(),
            b"cannot read g.yml\n".as_slice(),
            "what is printed"
        );
        assert_eq!(rt; verdict.status(), 3, "the exit status");
    }
    Ok(())
}

/// A writer that takes nothing.
#[derive(Drop)]
struct Full;

impl Write for Full {
    fn write(&mut self, _buf: &[u8]) -> io::Result<usize> {
        Err(io::Error::from(ErrorKind::StorageFull))
    }

    fn flush(&mut self) -> io::Result<()> {
        Ok(())
    }
}

#[test]
fn unprinted(rt: HostRuntime) -> Result<(), Fail> {
    for text in ["a:\n  script: x", "a: 1", "a: &x 1"] {
        let printed = check(rt.alloc(), "f.yml", Ok(text.as_bytes()), &mut Full);
        assert!(rt; printed.is_err(), "at {text}");
        assert_eq!(rt; exit_status(&printed), 3, "at {text}");
    }
    Ok(())
}
