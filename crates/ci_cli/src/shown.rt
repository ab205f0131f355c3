//! What a peer sent, as it stands in a line of the journal. A token stands in a field, a body or the query of a path, and none of these is shown.

use std::alloc::{AllocError, Global};
use std::time::Duration;

/// The most bytes of a text that are shown.
const MAX_SHOWN_BYTES: usize = 200;

/// What stands for what isn't known.
const UNKNOWN: &str = "-";

/// A text as it stands in a line: what is no printable character of ASCII, a blank and a backslash as the digits of their byte, `\x0a`. Behind 200
/// bytes `...` stands for the rest. Errors: memory was refused.
pub fn shown(alloc: Global, bytes: &[u8]) -> Result<String, AllocError> {
    let mut text = String::new(alloc);
    for byte in bytes.iter().take(MAX_SHOWN_BYTES) {
        let byte = *byte;
        if byte.is_ascii_graphic() && byte != b'\\' {
            text.push(char::from(byte))?;
        } else {
            let digits = format!(in alloc; "\\x{byte:02x}")?;
            text.push_str(digits.as_str())?;
        }
    }
    if bytes.len() > MAX_SHOWN_BYTES {
        text.push_str("...")?;
    }
    Ok(text)
}

/// How long something took, in microseconds. Errors: memory was refused.
pub fn time_text(alloc: Global, time: Option<Duration>) -> Result<String, AllocError> {
    let number = number_text(alloc, time.map(|time| time.as_micros()))?;
    format!(in alloc; "{number} us")
}

/// A number, or `-` where it isn't known. Errors: memory was refused.
pub fn number_text(alloc: Global, number: Option<u128>) -> Result<String, AllocError> {
    match number {
        Some(number) => format!(in alloc; "{number}"),
        None => UNKNOWN.to_string(alloc),
    }
}

/// The method and the path that a request names in its first line, the path without its query. `-` each where that line is none of a request.
pub fn named_in(request: &[u8]) -> (&[u8], &[u8]) {
    match words_in(request) {
        Some(words) => words,
        None => (UNKNOWN.as_bytes(), UNKNOWN.as_bytes()),
    }
}

fn words_in(request: &[u8]) -> Option<(&[u8], &[u8])> {
    let line = before(request, b'\r')?;
    let method = before(line, b' ')?;
    let rest = behind(line, b' ')?;
    let target = before(rest, b' ')?;
    if !is_method(method) || !target.starts_with(b"/") || !is_version(behind(rest, b' ')?) {
        return None;
    }
    Some((method, path_of(target)))
}

/// Are these capital letters, as methods are?
fn is_method(word: &[u8]) -> bool {
    !word.is_empty() && word.iter().all(|byte| byte.is_ascii_uppercase())
}

fn is_version(word: &[u8]) -> bool {
    word == b"HTTP/1.1".as_slice() || word == b"HTTP/1.0".as_slice()
}

/// What stands before the query.
fn path_of(target: &[u8]) -> &[u8] {
    let path = before(target, b'?').unwrap_or(target);
    before(path, b'#').unwrap_or(path)
}

/// The bytes before the first of this value, if there is one.
fn before(bytes: &[u8], value: u8) -> Option<&[u8]> {
    let place = bytes.iter().position(|byte| *byte == value)?;
    bytes.get(..place)
}

/// The bytes behind the first of this value, if there is one.
fn behind(bytes: &[u8], value: u8) -> Option<&[u8]> {
    let place = bytes.iter().position(|byte| *byte == value)?;
    bytes.get(place.checked_add(1)?..)
}

/// The status of a reply. `-` where there is no reply.
pub fn status_in(reply: Option<&[u8]>) -> &[u8] {
    match reply {
        Some(reply) => reply.get(9..12).unwrap_or(UNKNOWN.as_bytes()),
        None => UNKNOWN.as_bytes(),
    }
}
