//! The token at the front of a text.

ghost use Rattle.std.specs.Prelude.{◌≡◌, ◌<◌, ◌≤◌, get_or, drop, false, length, IfSome, IfOk};
ghost use Rattle.ci_expr.specs.Lexeme.{word_length, until, escapes, ends_body, body_length, name_front, text_front, pattern_front, null_front, lexeme};
ghost use Rattle.ci_expr.specs.Character.{is_blank, starts_word, is_word};
ghost use Rattle.ci_expr.specs.Token.{IsFront};
ghost use Rattle.ci_expr.specs.View.{Gives};

use crate::fault::{ExprCode, ExprFault};
use crate::token::Kind;

/// A byte that parts tokens.
pub fn is_blank(byte: u8) -> bool
    ensures { result ≡ is_blank byte }
{
    byte == b' ' || byte == b'\t' || byte == b'\r' || byte == b'\n'
}

/// A byte that a name begins with.
fn starts_word(byte: u8) -> bool
    ensures { result ≡ starts_word byte }
{
    (b'a' <= byte && byte <= b'z') || (b'A' <= byte && byte <= b'Z') || byte == b'_'
}

/// A byte of a name.
fn is_word(byte: u8) -> bool
    ensures { result ≡ is_word byte }
{
    starts_word(byte) || (b'0' <= byte && byte <= b'9')
}

/// The byte at a place, 0 past the end.
pub fn byte_at(bytes: &[u8], i: usize) -> u8
    ensures { result ≡ get_or bytes.now i 0 }
{
    if i < bytes.len() { bytes[i] } else { 0 }
}

/// How many bytes of a name come first.
fn word_length(bytes: &[u8]) -> usize
    ensures value { result ≡ word_length bytes.now }
    ensures bound { result ≤ length bytes.now }
{
    for (i, byte) in bytes.iter().enumerate() {
        if !is_word(*byte) {
            return i;
        }
    }
    bytes.len()
}

/// How many bytes come before a mark.
fn until(bytes: &[u8], mark: u8) -> Option<usize>
    ensures value { result ≡ until mark bytes.now }
    ensures bound { IfSome result (λ i. i < length bytes.now) }
{
    for (i, byte) in bytes.iter().enumerate() {
        if *byte == mark {
            return Some(i);
        }
    }
    None
}

/// How many bytes come before the `/` that ends a pattern.
fn body_length(bytes: &[u8]) -> Option<usize>
    ensures value { result ≡ body_length false bytes.now }
    ensures bound { IfSome result (λ i. i < length bytes.now) }
{
    let mut escaped = false;
    for (i, byte) in bytes.iter().enumerate() {
        if ends_body(escaped, *byte) {
            return Some(i);
        }
        escaped = escapes(escaped, *byte);
    }
    None
}

/// Whether a byte takes the next with it.
fn escapes(escaped: bool, byte: u8) -> bool
    ensures { result ≡ escapes escaped byte }
{
    !escaped && byte == b'\\'
}

/// Whether a byte ends a pattern.
fn ends_body(escaped: bool, byte: u8) -> bool
    ensures { result ≡ ends_body escaped byte }
{
    !escaped && byte == b'/'
}

/// The name behind a `$`.
fn name_front(bytes: &[u8]) -> Result<(Kind, usize), ExprFault>
    ensures { Gives (λ x. x) result (name_front bytes.now) }
{
    if starts_word(byte_at(bytes, 0)) {
        Ok((Kind::Name, 1 + word_length(bytes)))
    } else {
        Err(ExprFault::Fault(ExprCode::X2))
    }
}

/// The text behind a mark.
fn text_front(bytes: &[u8], mark: u8) -> Result<(Kind, usize), ExprFault>
    ensures { Gives (λ x. x) result (text_front mark bytes.now) }
{
    match until(bytes, mark) {
        Some(i) => Ok((Kind::Text, 2 + i)),
        None => Err(ExprFault::Fault(ExprCode::X3)),
    }
}

/// The pattern behind a `/`.
fn pattern_front(bytes: &[u8]) -> Result<(Kind, usize), ExprFault>
    ensures { Gives (λ x. x) result (pattern_front bytes.now) }
{
    match body_length(bytes) {
        Some(i) => {
            if byte_at(bytes, i + 1) == b'i' {
                if is_word(byte_at(bytes, i + 2)) {
                    Err(ExprFault::Fault(ExprCode::X2))
                } else {
                    Ok((Kind::Pattern, 3 + i))
                }
            } else {
                Ok((Kind::Pattern, 2 + i))
            }
        }
        None => Err(ExprFault::Fault(ExprCode::X3)),
    }
}

/// The word `null`.
fn null_front(bytes: &[u8]) -> Result<(Kind, usize), ExprFault>
    ensures { Gives (λ x. x) result (null_front bytes.now) }
{
    if byte_at(bytes, 1) != b'u' {
        return Err(ExprFault::Fault(ExprCode::X2));
    }
    if byte_at(bytes, 2) != b'l' {
        return Err(ExprFault::Fault(ExprCode::X2));
    }
    if byte_at(bytes, 3) != b'l' {
        return Err(ExprFault::Fault(ExprCode::X2));
    }
    if is_word(byte_at(bytes, 4)) {
        return Err(ExprFault::Fault(ExprCode::X2));
    }
    Ok((Kind::Null, 4))
}

/// The token at the front of a text that begins with no blank.
fn lexeme(bytes: &[u8]) -> Result<(Kind, usize), ExprFault>
    ensures { Gives (λ x. x) result (lexeme bytes.now) }
{
    let first = byte_at(bytes, 0);
    let second = byte_at(bytes, 1);
    if first == b'$' {
        return name_front(rest_of(bytes));
    }
    if first == b'"' {
        return text_front(rest_of(bytes), first);
    }
    if first == b'\'' {
        return text_front(rest_of(bytes), first);
    }
    if first == b'/' {
        return pattern_front(rest_of(bytes));
    }
    if first == b'n' {
        return null_front(bytes);
    }
    if first == b'(' {
        return Ok((Kind::Left, 1));
    }
    if first == b')' {
        return Ok((Kind::Right, 1));
    }
    if first == b'=' {
        if second == b'=' {
            return Ok((Kind::Equal, 2));
        }
        if second == b'~' {
            return Ok((Kind::Match, 2));
        }
        return Err(ExprFault::Fault(ExprCode::X2));
    }
    if first == b'!' {
        if second == b'=' {
            return Ok((Kind::Unequal, 2));
        }
        if second == b'~' {
            return Ok((Kind::Mismatch, 2));
        }
        return Err(ExprFault::Fault(ExprCode::X2));
    }
    if first == b'&' {
        if second == b'&' {
            return Ok((Kind::And, 2));
        }
        return Err(ExprFault::Fault(ExprCode::X2));
    }
    if first == b'|' {
        if second == b'|' {
            return Ok((Kind::Or, 2));
        }
        return Err(ExprFault::Fault(ExprCode::X2));
    }
    Err(ExprFault::Fault(ExprCode::X2))
}

/// The bytes behind the first.
fn rest_of(bytes: &[u8]) -> &[u8]
    ensures { result.now ≡ drop 1 bytes.now }
{
    if bytes.is_empty() { bytes } else { &bytes[1..] }
}

/// The token at the front, which is one of the language.
pub fn front(bytes: &[u8]) -> Result<(Kind, usize), ExprFault>
    ensures exact { Gives (λ x. x) result (lexeme bytes.now) }
    ensures front { IfOk result (IsFront bytes.now) }
{
    lexeme(bytes)
}
