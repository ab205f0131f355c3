//! The body of a request: how long it is, and its bytes.

ghost use Rattle.std.specs.Prelude.{◌≡◌, ◌<◌, ℕ, List, [], length, IfOk, OnOk, Err, if◌then◌else◌, ok_or};
ghost use Rattle.std.specs.Str.Parse.{digits_value};
ghost use Rattle.std.specs.Io.KnownBytes.{Consumes};
ghost use Rattle.ci_machine.specs.declared.reply.Code.{Code};
ghost use Rattle.ci_http_messages.specs.BodyLength.{length_after, wants_length};
ghost use Rattle.ci_http_messages.specs.Fields.{Shows};
ghost use Rattle.ci_machine.specs.Prelude.{is_number, within};
ghost use Rattle.ci_http_messages.specs.Sources.{Tells, TakesFront, Fails};

use crate::fault::HttpFault;
use crate::fields::Found;
use crate::limits::MAX_BODY_BYTES;
use crate::link::Source;
use ci_machine::reply::Code;
use ci_values::number::{is_number, value_within};
use http::Method;
use std::alloc::Global;

/// How long the body of a request is, by its method and the values of `Content-Length` and
/// `Transfer-Encoding` (RFC 9112, section 6).
///
/// Errors, the first that holds: a coding (H8); two lengths, or one that isn't digits (H1); no
/// length with POST, PUT or PATCH (H3); a length over 65,536 (H4).
pub fn body_length(method: &[u8], lengths: Found<'_>, codings: Found<'_>) -> Result<usize, Code>
    ensures { (ls cs : List (List ℕ)) → Shows lengths.entry ls → Shows codings.entry cs
        → result ≡ length_after method.now ls cs }
{
    if !matches!(codings, Found::Absent) {
        return Err(Code::H8);
    }
    match lengths {
        Found::Absent if wants_length(method) => Err(Code::H3),
        Found::Absent => Ok(0),
        Found::Once(text) => number_of(text),
        Found::Twice => Err(Code::H1),
    }
}

// Whether a request of this method says how long its body is.
fn wants_length(method: &[u8]) -> bool
    ensures { result ≡ wants_length method.now }
{
    method == Method::POST.as_str().as_bytes()
        || method == Method::PUT.as_str().as_bytes()
        || method == Method::PATCH.as_str().as_bytes()
}

// The number that the text writes, within the limit of a body.
fn number_of(text: &[u8]) -> Result<usize, Code>
    ensures { result ≡ (if is_number text.now then ok_or (within MAX_BODY_BYTES (digits_value 10 text.now)) Code.H4 else Err Code.H1) }
{
    if !is_number(text) {
        return Err(Code::H1);
    }
    match value_within(MAX_BODY_BYTES as u64, text) {
        Some(len) => Ok(len as usize),
        None => Err(Code::H4),
    }
}

/// Reads a body of this length, and not a byte more.
///
/// Errors: the bytes end first; a call of the reader failed; memory was refused, before any byte was
/// read. A body of no bytes takes no memory.
pub fn read_body<R: Source>(alloc: Global, reader: &mut R, len: usize) -> Result<Vec<u8>, HttpFault>
    ensures body { IfOk result (λ body. Consumes (R.left reader.old) (R.left reader.new) body.items) }
    ensures len { IfOk result (λ body. length body.items ≡ len) }
    ensures ended { result ≡ Err HttpFault.Ended → Tells (R.left reader.old) (R.left reader.new)
        (λ bytes rest. (length bytes < len) × (rest ≡ [])) }
    ensures not_refused { (why : Code) → result ≡ Err (HttpFault.Refused why) → ⊥ }
    ensures memory { result ≡ Err HttpFault.Memory → (reader.new ≡ reader.old) × (0 < len) }
    ensures took { TakesFront (R.left reader.old) (R.left reader.new) }
    ensures failed { Fails result (Err HttpFault.ReadFailed) (R.failures reader.old) (R.failures reader.new) }
{
    if len == 0 {
        return Ok(Vec::new(alloc));
    }
    let mut body = vec![in alloc; 0; len]?;
    fill(reader, &mut body)?;
    Ok(body)
}

// Fills the buffer.
fn fill<R: Source>(reader: &mut R, buf: &mut [u8]) -> Result<(), HttpFault>
    ensures bytes { OnOk result (Consumes (R.left reader.old) (R.left reader.new) buf.new) }
    ensures ended { result ≡ Err HttpFault.Ended → Tells (R.left reader.old) (R.left reader.new)
        (λ bytes rest. (length bytes < length buf.old) × (rest ≡ [])) }
    ensures not_refused { (why : Code) → result ≡ Err (HttpFault.Refused why) → ⊥ }
    ensures no_memory { result ≡ Err HttpFault.Memory → ⊥ }
    ensures took { TakesFront (R.left reader.old) (R.left reader.new) }
    ensures failed { Fails result (Err HttpFault.ReadFailed) (R.failures reader.old) (R.failures reader.new) }
{
    let mut at = 0;
    while at < buf.len() {
        let count = reader.get(&mut buf[at..])?;
        if count == 0 {
            return Err(HttpFault::Ended);
        }
        at += count;
    }
    Ok(())
}
