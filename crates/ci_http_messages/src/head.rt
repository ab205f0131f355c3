//! The head of a request: the bytes up to its first empty line, and their parts.

ghost use Rattle.std.specs.Prelude.{◌≡◌, ◌≤◌, length, count_by, nat_eq, OnOk, IfSome, IfNone, Some, None};
ghost use Rattle.std.specs.List.{starts_with, ends_with};
ghost use Rattle.httparse.specs.Spans.{IsRequestWithin};
ghost use Rattle.ci_machine.specs.declared.reply.Code.{Code};
ghost use Rattle.ci_http_messages.specs.Head.{IsHeadOf, head_at};
ghost use Rattle.ci_http_messages.specs.Opening.{is_line_feed, empty_line, head_len, short, too_large, opened, opening_of, IsOpening};
ghost use Rattle.ci_http_messages.specs.Sources.{Tells, TakesFront, Fails};

use crate::fault::HttpFault;
use crate::limits::{MAX_HEAD_BYTES, MAX_HEAD_FIELDS, MAX_HEAD_LINES};
use crate::link::Source;
use arrayvec::ArrayVec;
use ci_machine::reply::Code;
use httparse::Status;
use httparse::spans::{HeaderSpan, RequestSpans, parse_request};

/// The bytes of a head, and room for the longest.
pub(crate) type HeadBytes = ArrayVec<u8, MAX_HEAD_BYTES>;

/// Reads a head, up to and with its first CR LF CR LF, and not a byte more, into `head` in place of
/// what is there. It takes no memory.
///
/// Errors: the bytes end first; there is no CR LF CR LF within 8,192 bytes, or there are more than
/// 34 line feeds up to it (H2); a call of the reader failed.
pub fn read_head<R: Source>(reader: &mut R, head: &mut HeadBytes) -> Result<(), HttpFault>
    ensures head { OnOk result (Tells (R.left reader.old) (R.left reader.new)
        (λ bytes rest. opening_of bytes ≡ (opened head.new.items, rest))) }
    ensures lines { OnOk result (count_by is_line_feed head.new.items ≤ MAX_HEAD_LINES) }
    ensures ended { result ≡ Err HttpFault.Ended → Tells (R.left reader.old) (R.left reader.new)
        (λ bytes rest. opening_of bytes ≡ (short, rest)) }
    ensures refused { (why : Code) → result ≡ Err (HttpFault.Refused why) → why ≡ Code.H2 }
    ensures too_large { result ≡ Err (HttpFault.Refused Code.H2) → Tells (R.left reader.old) (R.left reader.new)
        (λ bytes rest. opening_of bytes ≡ (too_large, rest)) }
    ensures no_memory { result ≡ Err HttpFault.Memory → ⊥ }
    ensures took { TakesFront (R.left reader.old) (R.left reader.new) }
    ensures failed { Fails result (Err HttpFault.ReadFailed) (R.failures reader.old) (R.failures reader.new) }
{
    head.clear();
    for _ in 0..MAX_HEAD_BYTES {
        let mut byte = [0];
        if reader.get(&mut byte)? == 0 {
            return Err(HttpFault::Ended);
        }
        head.push(byte[0]);
        if ends_head(head.as_slice()) {
            if lines_of(head.as_slice()) > MAX_HEAD_LINES {
                return Err(HttpFault::Refused(Code::H2));
            }
            return Ok(());
        }
    }
    Err(HttpFault::Refused(Code::H2))
}

// Whether the bytes end with CR LF CR LF. Few bytes are LF, so that is asked first.
#[tactic(auto, using(crate::proofs::Places::ends_otherwise))]
fn ends_head(head: &[u8]) -> bool
    ensures { result ≡ ends_with nat_eq head.now empty_line }
{
    match head.last() {
        Some(b) if *b == b'\n' => head.ends_with(b"\r\n\r\n"),
        _ => false,
    }
}

/// How a text opens, as far as it has come.
#[derive(Clone, Copy, Drop)]
pub enum Opens {
    /// It ends before its head does.
    Short,
    /// Its head passes a limit.
    TooLarge,
    /// It has a head of so many bytes.
    Whole(usize),
}

/// How a text opens that is there as a whole.
pub fn opening_in(bytes: &[u8]) -> Opens
    ensures { IsOpening bytes.now result }
{
    let room = bytes.len().min(MAX_HEAD_BYTES);
    match head_len(&bytes[..room]) {
        Some(len) if lines_of(&bytes[..len]) > MAX_HEAD_LINES => Opens::TooLarge,
        Some(len) => Opens::Whole(len),
        None if bytes.len() < MAX_HEAD_BYTES => Opens::Short,
        None => Opens::TooLarge,
    }
}

// How many bytes stand up to and with the first CR LF CR LF.
fn head_len(text: &[u8]) -> Option<usize>
    ensures len { result ≡ head_len text.now }
    ensures within { IfSome result (λ len. len ≤ length text.now) }
{
    for at in 0..text.len() {
        if begins_empty_line(&text[at..]) {
            return Some(at + 4);
        }
    }
    None
}

// Whether the bytes begin with CR LF CR LF. Few bytes are CR, so that is asked first.
fn begins_empty_line(text: &[u8]) -> bool
    ensures { result ≡ starts_with nat_eq text.now empty_line }
{
    match text.first() {
        Some(b) if *b == b'\r' => text.starts_with(b"\r\n\r\n"),
        _ => false,
    }
}

// How many line feeds the bytes have.
fn lines_of(bytes: &[u8]) -> usize
    ensures { result ≡ count_by is_line_feed bytes.now }
{
    bytes.iter().filter(|b| **b == b'\n').count()
}

/// The spans of the head that the bytes are as a whole, or `None` where they aren't one. With so
/// few lines its fields always have room.
pub fn whole_head(bytes: &[u8], headers: &mut [HeaderSpan]) -> Option<RequestSpans>
    requires room { length headers.old ≡ MAX_HEAD_FIELDS }
    requires lines { count_by is_line_feed bytes.now ≤ MAX_HEAD_LINES }
    ensures within { IfSome result (IsRequestWithin bytes.now headers.new) }
    ensures found { IfSome result (λ spans. IsHeadOf bytes.now (Some (head_at bytes.now headers.new spans))) }
    ensures none { IfNone result (IsHeadOf bytes.now None) }
{
    match parse_request(bytes, headers) {
        Ok(Status::Complete(spans)) if spans.len == bytes.len() => Some(spans),
        _ => None,
    }
}
