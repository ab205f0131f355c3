//! A request as it was sent.

ghost use Rattle.std.specs.Prelude.{◌≡◌, ◌≤◌, [], length, count_by, Option, Some, Ok, Err, IfOk, IfErr};
ghost use Rattle.httparse.specs.Spans.{IsRequestWithin};
ghost use Rattle.ci_machine.specs.declared.reply.Code.{Code};
ghost use Rattle.ci_http_messages.specs.BodyLength.{body_length};
ghost use Rattle.ci_http_messages.specs.Fields.{values_of, Shows};
ghost use Rattle.ci_http_messages.specs.Head.{Head, IsHeadOf, head_at};
ghost use Rattle.ci_http_messages.specs.Opening.{is_line_feed};
ghost use Rattle.ci_http_messages.specs.Reading.{message, ended, refused, request, IsReading, IsReadingCode, Refuses, AwaitsBody};
ghost use Rattle.ci_http_messages.specs.Sources.{Tells, TakesFront, Fails};

use crate::body::{body_length, read_body};
use crate::fault::HttpFault;
use crate::fields::{Found, find_field};
use crate::head::{HeadBytes, read_head, whole_head};
use crate::limits::{MAX_HEAD_FIELDS, MAX_HEAD_LINES};
use crate::link::Source;
use ci_machine::reply::Code;
use httparse::spans::{EMPTY_HEADER_SPAN, HeaderSpan, RequestSpans};
use std::alloc::Global;
use std::marker::Model;

/// Room for the longest head, and for where its fields stand.
#[derive(Drop)]
pub struct HeadRoom {
    bytes: HeadBytes,
    headers: [HeaderSpan; MAX_HEAD_FIELDS],
}

impl HeadRoom {
    /// Room with no head in it.
    pub fn new() -> Self
        ensures { result.bytes.items ≡ [] }
    {
        HeadRoom {
            bytes: HeadBytes::new(),
            headers: [EMPTY_HEADER_SPAN; MAX_HEAD_FIELDS],
        }
    }
}

/// A request as it was sent: its method, its target, its fields and its body. Its head is lent from
/// the room that it was read into.
#[derive(Drop)]
pub struct Call<'r> {
    head: &'r [u8],
    headers: &'r [HeaderSpan],
    spans: RequestSpans,
    body: Vec<u8>,
}

impl<'r> Model for Call<'r> {
    ghost use Rattle.httparse.specs.Spans.{IsRequestWithin};
    ghost use Rattle.ci_http_messages.specs.Head.{head_at};
    ghost use Rattle.ci_http_messages.specs.Reading.{Message, message};

    ghost Value = { Message };

    ghost view = { λ c. message (head_at c.head.now c.headers.now c.spans) c.body.items };

    ghost invariant = { λ c. IsRequestWithin c.head.now c.headers.now c.spans };
}

impl<'r> Call<'r> {
    /// The method, as POST.
    pub fn method(&self) -> &[u8]
        ensures { result.now ≡ self.now.method }
    {
        self.spans.method.of(self.head)
    }

    /// The target: the path, and the query if there is one.
    pub fn target(&self) -> &[u8]
        ensures { result.now ≡ self.now.target }
    {
        self.spans.path.of(self.head)
    }

    /// The values of the fields of this name, whatever the case of its letters.
    pub fn field(&self, name: &[u8]) -> Found<'_>
        ensures { Shows result (values_of name.now self.now.fields) }
    {
        find_field(self.head, &self.headers[..self.spans.headers], name)
    }

    /// The body.
    pub fn body(&self) -> &[u8]
        ensures { result.now ≡ self.now.body }
    {
        &self.body
    }
}

/// Reads a request: its head and its body, or up to the fault, and not a byte more. The head is read
/// into `room`, in place of what is there, and lent from it.
///
/// Errors: the bytes end first; they are no request, or one over a limit (H1, H2, H3, H4, H8); a
/// call of the reader failed, which isn't tried again; memory was refused, which is asked for only
/// once a whole head says that a body follows.
pub fn read_request<'r, R: Source>(
    alloc: Global,
    reader: &mut R,
    room: &'r mut HeadRoom,
) -> Result<Call<'r>, HttpFault>
    ensures call { IfOk result (λ call. Tells (R.left reader.old) (R.left reader.new)
        (λ bytes rest. IsReading bytes (request call) rest)) }
    ensures refused { (why : Code) → result ≡ Err (HttpFault.Refused why) → Tells (R.left reader.old) (R.left reader.new)
        (λ bytes rest. IsReading bytes (refused why) rest) }
    // Also where the reader doesn't tell its bytes.
    ensures codes { (why : Code) → result ≡ Err (HttpFault.Refused why) → IsReadingCode why }
    ensures ended { result ≡ Err HttpFault.Ended → Tells (R.left reader.old) (R.left reader.new)
        (λ bytes rest. IsReading bytes ended rest) }
    ensures memory { result ≡ Err HttpFault.Memory → Tells (R.left reader.old) (R.left reader.new) AwaitsBody }
    ensures took { TakesFront (R.left reader.old) (R.left reader.new) }
    ensures failed { Fails result (Err HttpFault.ReadFailed) (R.failures reader.old) (R.failures reader.new) }
{
    read_head(reader, &mut room.bytes)?;
    let (spans, len) = match frame(room.bytes.as_slice(), &mut room.headers) {
        Ok(parts) => parts,
        Err(why) => return Err(HttpFault::Refused(why)),
    };
    let body = read_body(alloc, reader, len)?;
    Ok(Call {
        head: room.bytes.as_slice(),
        headers: &room.headers,
        spans,
        body,
    })
}

// The parts of a head, and how long the body is that follows it.
pub(crate) fn frame(bytes: &[u8], headers: &mut [HeaderSpan]) -> Result<(RequestSpans, usize), Code>
    requires room { length headers.old ≡ MAX_HEAD_FIELDS }
    requires lines { count_by is_line_feed bytes.now ≤ MAX_HEAD_LINES }
    ensures within { IfOk result (λ p. IsRequestWithin bytes.now headers.new p.0) }
    ensures head { IfOk result (λ p. IsHeadOf bytes.now (Some (head_at bytes.now headers.new p.0))) }
    ensures len { IfOk result (λ p. body_length (head_at bytes.now headers.new p.0) ≡ Ok p.1) }
    ensures refused { IfErr result (λ why. (head : Option Head) × IsHeadOf bytes.now head × Refuses head why) }
{
    let Some(spans) = whole_head(bytes, headers) else {
        return Err(Code::H1);
    };
    let fields = &headers[..spans.headers];
    let lengths = find_field(bytes, fields, b"content-length");
    let codings = find_field(bytes, fields, b"transfer-encoding");
    match body_length(spans.method.of(bytes), lengths, codings) {
        Ok(len) => Ok((spans, len)),
        Err(why) => Err(why),
    }
}
