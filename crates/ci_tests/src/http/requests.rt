ghost use Rattle.ci_http_messages.specs.Prelude.{OpensWhole};

use ci_http_messages::call::{HeadRoom, read_request};
use ci_http_messages::fault::HttpFault;
use ci_http_messages::fields::Found;
use ci_http_messages::link::{Link, Sink};
use ci_http_messages::route::request_of;
use ci_http_messages::routing::paths::Paths;
use ci_http_messages::text::reply_bytes;
use ci_machine::reply::{Code, HttpStatus, JobStatus, Reply};
use std::alloc::Global;
use std::io::{self, ErrorKind, Read, Write};
use std::marker::Brand;
use std::process::Abort;
use std::sync::ledger::{Blank, Ledger};
use std::test::Fail;

fn read_parts<L: Ledger>(rt: &impl Abort, alloc: Global, blank: Blank)
    requires { OpensWhole blank.name blank.parts L.name L.parts }
{
    let bytes =
        b"PATCH /x?y HTTP/1.1\r\nA: 1\r\nJob-Token: \t t u \r\nContent-Length: 3\r\na: 2\r\n\r\nxyzw".as_slice();
    let mut reader = Link::<&[u8], L>::new(bytes, blank);
    let mut room = HeadRoom::new();
    let read = read_request(alloc, &mut reader, &mut room);
    assert!(rt; read.is_ok());
    if let Ok(call) = read {
        assert!(rt; call.method() == b"PATCH".as_slice());
        assert!(rt; call.target() == b"/x?y".as_slice());
        assert!(rt; call.body() == b"xyz".as_slice());
        assert!(rt;
            matches!(call.field(b"JOB-TOKEN"), Found::Once(value) if value == b"t u".as_slice())
        );
        assert!(rt; matches!(call.field(b"A"), Found::Twice));
        assert!(rt; matches!(call.field(b"B"), Found::Absent));
    }
    assert!(rt; reader.into_inner() == b"w".as_slice());
}

#[test]
fn parts_of_a_request(rt: HostRuntime) -> Result<(), Fail> {
    read_parts::<Brand>(&rt, rt.alloc(), Blank::new(1));
    Ok(())
}

#[test]
fn the_greatest_range_is_told(rt: HostRuntime) -> Result<(), Fail> {
    let piece = Reply {
        status: HttpStatus::Accepted,
        code: None,
        job_status: Some(JobStatus::Running),
        range: Some(18446744073709551615),
        allow: None,
        body: None,
    };
    let wanted =
        b"HTTP/1.1 202 Accepted\r\nJob-Status: running\r\nRange: 0-18446744073709551615\r\nContent-Length: 0\r\nConnection: close\r\n\r\n".as_slice();
    let bytes = reply_bytes(&piece);
    assert!(rt; bytes.head.as_slice() == wanted && bytes.body.is_empty());
    Ok(())
}

// Requests, the code that refuses each, if any, and whether memory is asked for.
const ROWS: &[(&[u8], Option<Code>, bool)] = &[
    (
        b"POST /api/v4/jobs/request HTTP/1.1\r\nContent-Length: 16\r\n\r\n{\"token\":\"nope\"}",
        None,
        true,
    ),
    (
        b"PATCH /api/v4/jobs/7/trace HTTP/1.1\r\nJOB-TOKEN: j\r\nContent-Range: 0-1\r\nContent-Length: 2\r\n\r\nab",
        None,
        true,
    ),
    (
        b"GET /api/v4/projects/1/jobs/2 HTTP/1.1\r\nPRIVATE-TOKEN: p1-ab\r\n\r\n",
        None,
        true,
    ),
    (
        b"PUT /api/v4/projects/1/variables/A HTTP/1.1\r\nPRIVATE-TOKEN: p1-ab\r\nContent-Length: 13\r\n\r\n{\"value\":\"v\"}",
        None,
        true,
    ),
    (
        b"PUT /api/v4/projects/1/resource_groups/A HTTP/1.1\r\nPRIVATE-TOKEN: p1-ab\r\nContent-Length: 28\r\n\r\n{\"process_mode\":\"unordered\"}",
        None,
        true,
    ),
    (
        b"GET /api/v4/projects/1/resource_groups/A HTTP/1.1\r\nPRIVATE-TOKEN: p1-ab\r\n\r\n",
        None,
        true,
    ),
    (
        b"POST /api/v4/jobs/request HTTP/1.1\r\nContent-Length: 8\r\n\r\n[\"nope\"]",
        Some(Code::H7),
        true,
    ),
    (
        b"POST /api/v4/jobs/request HTTP/1.1\r\nContent-Length: 0\r\n\r\n",
        Some(Code::H7),
        false,
    ),
    (
        b"GET /api/v4/projects/1/jobs/2 HTTP/1.1\r\nPRIVATE-TOKEN: p\r\nPRIVATE-TOKEN: p\r\n\r\n",
        Some(Code::H7),
        false,
    ),
    (
        b"GET /api/v4/jobs/0 HTTP/1.1\r\n\r\n",
        Some(Code::H5),
        false,
    ),
    (
        b"GET /api/v4/jobs/request HTTP/1.1\r\n\r\n",
        Some(Code::H6),
        false,
    ),
    (b"GET / HTTP/2.0\r\n\r\n", Some(Code::H1), false),
    (b"POST /nowhere HTTP/1.1\r\n\r\n", Some(Code::H3), false),
    (
        b"GET / HTTP/1.1\r\nContent-Length: 65537\r\n\r\n",
        Some(Code::H4),
        false,
    ),
    (
        b"PUT / HTTP/1.1\r\nTransfer-Encoding: chunked\r\n\r\n",
        Some(Code::H8),
        false,
    ),
];

// The code that refuses the bytes, if any.
fn code_over<L: Ledger>(alloc: Global, paths: &Paths, bytes: &[u8], blank: Blank) -> Option<Code>
    requires { OpensWhole blank.name blank.parts L.name L.parts }
{
    let mut reader = Link::<&[u8], L>::new(bytes, blank);
    let mut room = HeadRoom::new();
    match read_request(alloc, &mut reader, &mut room) {
        Ok(call) => match request_of(alloc, paths, &call) {
            Ok(_) => None,
            Err(reply) => reply.code,
        },
        Err(HttpFault::Refused(code)) => Some(code),
        Err(_) => Some(Code::M16),
    }
}

fn code_of(alloc: Global, paths: &Paths, bytes: &[u8]) -> Option<Code> {
    code_over::<Brand>(alloc, paths, bytes, Blank::new(1))
}

// Once the paths are built, nothing but the reading of requests asks for memory here. Where one
// allocation is refused, whichever it is (`rt try --test --fail-alloc N`), one answer at most is M16,
// of a request that asks for memory, and all others are as ever.
#[test]
fn want_of_memory_is_told_once(rt: HostRuntime) -> Result<(), Fail> {
    let paths = Paths::new(rt.alloc())?;
    let mut lacked = false;
    for (bytes, code, asks) in ROWS {
        for _ in 0..2 {
            let found = code_of(rt.alloc(), &paths, bytes);
            if *asks && found == Some(Code::M16) {
                assert!(&rt; !lacked);
                lacked = true;
            } else {
                assert!(&rt; found == *code);
            }
        }
    }
    Ok(())
}

// A reader of a byte a call and a writer, of which one call fails and the others don't.
#[derive(Drop)]
struct Flaky<'a> {
    rest: &'a [u8],
    // The call that fails, counted from 0, and how many calls there were.
    failing: usize,
    calls: usize,
}

impl<'a> Flaky<'a> {
    // Does this call fail? It is counted.
    fn fails(&mut self) -> bool {
        let call = self.calls;
        self.calls = call.saturating_add(1);
        call == self.failing
    }
}

impl<'a> Read for Flaky<'a> {
    fn read(&mut self, buf: &mut [u8]) -> io::Result<usize> {
        if self.fails() {
            return Err(io::Error::from(ErrorKind::Interrupted));
        }
        if self.rest.is_empty() || buf.is_empty() {
            return Ok(0);
        }
        buf[0] = self.rest[0];
        self.rest = &self.rest[1..];
        Ok(1)
    }
}

impl<'a> Write for Flaky<'a> {
    fn write(&mut self, bytes: &[u8]) -> io::Result<usize> {
        if self.fails() {
            return Err(io::Error::from(ErrorKind::Interrupted));
        }
        Ok(bytes.len())
    }

    fn flush(&mut self) -> io::Result<()> {
        Ok(())
    }
}

// Whether a failed call was answered as such, how often the reader or the writer was called, and how many bytes it has left.
fn read_once<L: Ledger>(alloc: Global, flaky: Flaky<'_>, blank: Blank) -> (bool, usize, usize)
    requires { OpensWhole blank.name blank.parts L.name L.parts }
{
    let mut reader = Link::<Flaky<'_>, L>::new(flaky, blank);
    let mut room = HeadRoom::new();
    let failed = matches!(
        read_request(alloc, &mut reader, &mut room),
        Err(HttpFault::ReadFailed)
    );
    let flaky = reader.into_inner();
    (failed, flaky.calls, flaky.rest.len())
}

fn written_once<L: Ledger>(flaky: Flaky<'_>, blank: Blank) -> (bool, usize, usize)
    requires { OpensWhole blank.name blank.parts L.name L.parts }
{
    let mut writer = Link::<Flaky<'_>, L>::new(flaky, blank);
    let failed = writer.put(b"xyz").is_err();
    let flaky = writer.into_inner();
    (failed, flaky.calls, flaky.rest.len())
}

#[test]
fn failed_calls_are_not_tried_again(rt: HostRuntime) -> Result<(), Fail> {
    let bytes = b"GET / HTTP/1.1\r\nContent-Length: 2\r\n\r\nab".as_slice();
    for failing in 0..bytes.len() {
        let flaky = Flaky {
            rest: bytes,
            failing,
            calls: 0,
        };
        let seen = read_once::<Brand>(rt.alloc(), flaky, Blank::new(1));
        assert_eq!(rt; seen, (true, failing + 1, bytes.len() - failing));
    }
    let flaky = Flaky {
        rest: bytes,
        failing: 0,
        calls: 0,
    };
    let seen = written_once::<Brand>(flaky, Blank::new(1));
    assert_eq!(rt; seen, (true, 1, bytes.len()));
    Ok(())
}
