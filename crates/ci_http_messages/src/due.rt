//! How many bytes a request takes, while they come.

ghost use Rattle.std.specs.Prelude.{◌≡◌, ◌≢◌, ◌<◌, ◌≤◌, ◌++◌, List, ℕ, [], length, IfSome, IfNone};
ghost use Rattle.ci_http_messages.specs.Reading.{ended, IsReading};
ghost use Rattle.ci_http_messages.specs.Opening.{short, opening_of};
ghost use Rattle.ci_http_messages.specs.Dues.{IsWhole};

use crate::call::frame;
use crate::head::{Opens, opening_in};
use crate::limits::MAX_HEAD_FIELDS;
use httparse::spans::EMPTY_HEADER_SPAN;

/// How many bytes the request takes that these begin with, whatever follows them; or, where they are refused, a number that they
/// have already. None where they end before its head does.
pub fn bytes_due(bytes: &[u8]) -> Option<usize>
    ensures none { IfNone result ((rest : List ℕ) × (opening_of bytes.now ≡ (short, rest))) }
    // With fewer bytes than that the request isn't whole.
    ensures fewer { IfSome result (λ due. (more : List ℕ) → length (bytes.now ++ more) < due → IsReading (bytes.now ++ more) ended []) }
    // With so many it is whole, or refused.
    ensures enough { IfSome result (λ due. (more : List ℕ) → due ≤ length (bytes.now ++ more) → IsWhole (bytes.now ++ more)) }
{
    let head = match opening_in(bytes) {
        Opens::Whole(len) => &bytes[..len],
        Opens::Short => return None,
        Opens::TooLarge => return Some(0),
    };
    let mut headers = [EMPTY_HEADER_SPAN; MAX_HEAD_FIELDS];
    match frame(head, &mut headers) {
        Ok((_, len)) => Some(head.len() + len),
        Err(_) => Some(0),
    }
}
