//! The bytes of a reply.

ghost use Rattle.std.specs.Prelude.{◌≡◌, ◌<◌, ◌≤◌, ◌+◌, ◌^◌, ◌++◌, length, decimal, IfSome};
ghost use Rattle.arrayvec.specs.ArrayVec.{array_vec_len};
ghost use Rattle.ci_machine.specs.Reply.{status_text};
ghost use Rattle.ci_machine.specs.Prelude.{body_text};
ghost use Rattle.ci_http_messages.specs.ReplyText.{number_of, reason_of, status_line, type_text, crlf, job_status_line, range_line, allow_line, type_line, length_line, head_text, reply_text, IsResponse};

use crate::limits::MAX_REPLY_HEAD_BYTES;
use crate::routing::method::http_method;
use arrayvec::ArrayVec;
use ci_machine::reply::{Body, HttpStatus, JobStatus, Methods, Reply};
use http::StatusCode;
use itoa::Buffer;

/// The bytes of a reply: its head, which is kept here, and its body, which is lent.
#[derive(Drop)]
pub struct ReplyBytes<'a> {
    pub head: ArrayVec<u8, MAX_REPLY_HEAD_BYTES>,
    pub body: &'a [u8],
}

/// The bytes of a reply. It takes no memory.
///
/// Lines end by CR LF, in this order: the status line; `Job-Status`, `Range` and `Allow`, each
/// where the reply has it; `Content-Type`, where there is a body; `Content-Length`, but not with
/// 204; `Connection: close`; an empty line. Then comes the body.
pub fn reply_bytes(reply: &Reply) -> ReplyBytes<'_>
    ensures text { result.head.items ++ result.body.now ≡ reply_text reply.now }
    ensures response { IsResponse (result.head.items ++ result.body.now) reply.now.status result.body.now }
{
    let body = reply.body();
    let head = head_of(reply, body);
    ReplyBytes { head, body }
}

// The head of a reply with this body.
fn head_of(reply: &Reply, body: &[u8]) -> ArrayVec<u8, MAX_REPLY_HEAD_BYTES>
    requires { body.now ≡ body_text reply.now }
    ensures text { result.items ≡ head_text reply.now }
    ensures size { IfSome reply.now.range (λ n. n < 2 ^ 64) }
{
    let mut head = ArrayVec::new();
    put_status(&mut head, reply.status);
    put_job_status(&mut head, reply.job_status);
    put_range(&mut head, reply.range);
    put_allow(&mut head, reply.allow);
    put_type(&mut head, type_text(&reply.body), body);
    put_length(&mut head, reply.status, body.len() as u64);
    put(&mut head, b"Connection: close\r\n\r\n");
    head
}

// Writes the bytes at the end.
fn put(head: &mut ArrayVec<u8, MAX_REPLY_HEAD_BYTES>, bytes: &[u8])
    requires { array_vec_len head.old + length bytes.now ≤ MAX_REPLY_HEAD_BYTES }
    ensures items { head.new.items ≡ head.old.items ++ bytes.now }
    ensures len { array_vec_len head.new ≡ array_vec_len head.old + length bytes.now }
{
    let written = head.try_extend_from_slice(bytes).is_ok();
    prove!(written);
}

// Writes a field: its name with what parts it from the value, and the value.
fn put_field(head: &mut ArrayVec<u8, MAX_REPLY_HEAD_BYTES>, name: &[u8], value: &[u8])
    requires { array_vec_len head.old + length name.now + length value.now + 2 ≤ MAX_REPLY_HEAD_BYTES }
    ensures items { head.new.items ≡ head.old.items ++ (name.now ++ value.now ++ crlf) }
    ensures len { array_vec_len head.new ≡ array_vec_len head.old + length name.now + length value.now + 2 }
{
    put(head, name);
    put(head, value);
    put(head, b"\r\n");
}

// Writes a field whose value is a number.
fn put_number_field(head: &mut ArrayVec<u8, MAX_REPLY_HEAD_BYTES>, name: &[u8], n: u64)
    requires { array_vec_len head.old + length name.now + 22 ≤ MAX_REPLY_HEAD_BYTES }
    ensures items { head.new.items ≡ head.old.items ++ (name.now ++ decimal n ++ crlf) }
    ensures len { array_vec_len head.new ≤ array_vec_len head.old + length name.now + 22 }
{
    let mut buffer = Buffer::new();
    put_field(head, name, buffer.format(n).as_bytes());
}

// Writes the first line of a reply with this status.
fn put_status(head: &mut ArrayVec<u8, MAX_REPLY_HEAD_BYTES>, status: HttpStatus)
    requires { array_vec_len head.old + 64 ≤ MAX_REPLY_HEAD_BYTES }
    ensures items { head.new.items ≡ head.old.items ++ status_line status }
    ensures len { array_vec_len head.new ≤ array_vec_len head.old + 64 }
{
    put(head, b"HTTP/1.1 ");
    put(head, status_code(status).as_str().as_bytes());
    put(head, b" ");
    put(head, reason_of(status).as_bytes());
    put(head, b"\r\n");
}

fn put_job_status(head: &mut ArrayVec<u8, MAX_REPLY_HEAD_BYTES>, status: Option<JobStatus>)
    requires { array_vec_len head.old + 24 ≤ MAX_REPLY_HEAD_BYTES }
    ensures items { head.new.items ≡ head.old.items ++ job_status_line status }
    ensures len { array_vec_len head.new ≤ array_vec_len head.old + 24 }
{
    if let Some(status) = status {
        put_field(head, b"Job-Status: ", job_status_text(status));
    }
}

fn put_range(head: &mut ArrayVec<u8, MAX_REPLY_HEAD_BYTES>, size: Option<u64>)
    requires { array_vec_len head.old + 40 ≤ MAX_REPLY_HEAD_BYTES }
    ensures items { head.new.items ≡ head.old.items ++ range_line size }
    ensures size { IfSome size (λ n. n < 2 ^ 64) }
    ensures len { array_vec_len head.new ≤ array_vec_len head.old + 40 }
{
    if let Some(size) = size {
        put_number_field(head, b"Range: 0-", size);
    }
}

fn put_allow(head: &mut ArrayVec<u8, MAX_REPLY_HEAD_BYTES>, allow: Option<Methods>)
    requires { array_vec_len head.old + 32 ≤ MAX_REPLY_HEAD_BYTES }
    ensures items { head.new.items ≡ head.old.items ++ allow_line allow }
    ensures len { array_vec_len head.new ≤ array_vec_len head.old + 32 }
{
    let Some(methods) = allow else {
        return;
    };
    put(head, b"Allow: ");
    put(head, http_method(methods.first).as_str().as_bytes());
    if let Some(method) = methods.second {
        put(head, b", ");
        put(head, http_method(method).as_str().as_bytes());
    }
    put(head, b"\r\n");
}

fn put_type(head: &mut ArrayVec<u8, MAX_REPLY_HEAD_BYTES>, kind: &[u8], body: &[u8])
    requires { array_vec_len head.old + length kind.now + 24 ≤ MAX_REPLY_HEAD_BYTES }
    ensures items { head.new.items ≡ head.old.items ++ type_line kind.now body.now }
    ensures len { array_vec_len head.new ≤ array_vec_len head.old + length kind.now + 24 }
{
    if !body.is_empty() {
        put_field(head, b"Content-Type: ", kind);
    }
}

fn put_length(head: &mut ArrayVec<u8, MAX_REPLY_HEAD_BYTES>, status: HttpStatus, len: u64)
    requires { array_vec_len head.old + 40 ≤ MAX_REPLY_HEAD_BYTES }
    ensures items { head.new.items ≡ head.old.items ++ length_line status len }
    ensures len { array_vec_len head.new ≤ array_vec_len head.old + 40 }
{
    if status != HttpStatus::NoContent {
        put_number_field(head, b"Content-Length: ", len);
    }
}

// The status code of HTTP for a status.
fn status_code(status: HttpStatus) -> StatusCode
    ensures { result ≡ number_of status }
{
    match status {
        HttpStatus::Fine => StatusCode::OK,
        HttpStatus::Created => StatusCode::CREATED,
        HttpStatus::Accepted => StatusCode::ACCEPTED,
        HttpStatus::NoContent => StatusCode::NO_CONTENT,
        HttpStatus::BadRequest => StatusCode::BAD_REQUEST,
        HttpStatus::Unauthorized => StatusCode::UNAUTHORIZED,
        HttpStatus::Forbidden => StatusCode::FORBIDDEN,
        HttpStatus::NotFound => StatusCode::NOT_FOUND,
        HttpStatus::MethodNotAllowed => StatusCode::METHOD_NOT_ALLOWED,
        HttpStatus::LengthRequired => StatusCode::LENGTH_REQUIRED,
        HttpStatus::PayloadTooLarge => StatusCode::PAYLOAD_TOO_LARGE,
        HttpStatus::RangeNotSatisfiable => StatusCode::RANGE_NOT_SATISFIABLE,
        HttpStatus::HeaderFieldsTooLarge => StatusCode::REQUEST_HEADER_FIELDS_TOO_LARGE,
        HttpStatus::NotImplemented => StatusCode::NOT_IMPLEMENTED,
        HttpStatus::ServiceUnavailable => StatusCode::SERVICE_UNAVAILABLE,
    }
}

// The reason phrase of a status.
fn reason_of(status: HttpStatus) -> &'static str
    ensures text { result.now ≡ reason_of status }
    ensures len { length result.now ≤ 31 }
{
    status_code(status).canonical_reason().unwrap_or("")
}

// The state of an attempt, as its runner is told.
fn job_status_text(status: JobStatus) -> &'static [u8]
    ensures text { result.now ≡ status_text status }
    ensures len { length result.now ≤ 8 }
{
    status.as_str().as_bytes()
}

fn type_text(body: &Option<Body>) -> &'static [u8]
    ensures text { result.now ≡ type_text body.now }
    ensures len { length result.now ≤ 16 }
{
    match body {
        Some(Body::Plain(_)) => b"text/plain",
        _ => b"application/json",
    }
}
