//! What a token says: its slice without the marks.

ghost use Rattle.std.specs.Prelude.{◌≡◌, ◌<◌, Option, option_map};
ghost use Rattle.ci_expr.specs.Descent.{behind_byte, before_byte, text_of, body_of, pattern_of, operand_by};
ghost use Rattle.ci_expr.specs.View.{operand_view};

use crate::lexeme::byte_at;
use crate::token::{Kind, Token};
use crate::tree::Operand;

/// What follows an ASCII byte that a slice begins with.
pub fn behind_byte(slice: &str, byte: u8) -> Option<&str>
    requires ascii { byte < 128 }
    requires some { 0 < byte }
    ensures { option_map (λ s. s.now) result ≡ behind_byte byte slice.now }
{
    if byte_at(slice.as_bytes(), 0) == byte {
        Some(&slice[1..])
    } else {
        None
    }
}

/// What comes before an ASCII byte that a slice ends with.
fn before_byte(slice: &str, byte: u8) -> Option<&str>
    requires ascii { byte < 128 }
    requires some { 0 < byte }
    ensures { option_map (λ s. s.now) result ≡ before_byte byte slice.now }
{
    let last = slice.len().saturating_sub(1);
    if byte_at(slice.as_bytes(), last) == byte {
        Some(&slice[..last])
    } else {
        None
    }
}

/// The text between two equal marks.
fn text_of(slice: &str) -> Option<&str>
    ensures { option_map (λ s. s.now) result ≡ text_of slice.now }
{
    let mark = byte_at(slice.as_bytes(), 0);
    if mark == b'"' || mark == b'\'' {
        before_byte(&slice[1..], mark)
    } else {
        None
    }
}

/// The body of what follows the first `/` of a pattern, and whether `i` follows it.
fn body_of(slice: &str) -> Option<(&str, bool)>
    ensures { option_map (λ p. (p.0.now, p.1)) result ≡ body_of slice.now }
{
    match before_byte(slice, b'i') {
        Some(cut) => match before_byte(cut, b'/') {
            Some(body) => Some((body, true)),
            None => None,
        },
        None => match before_byte(slice, b'/') {
            Some(body) => Some((body, false)),
            None => None,
        },
    }
}

/// The body of a pattern, and whether `i` follows it.
pub fn pattern_of(slice: &str) -> Option<(&str, bool)>
    ensures { option_map (λ p. (p.0.now, p.1)) result ≡ pattern_of slice.now }
{
    match behind_byte(slice, b'/') {
        Some(behind) => body_of(behind),
        None => None,
    }
}

/// What a variable is compared with, where the token is a text, `null` or a variable.
pub fn operand_of<'a>(token: &Token<'a>) -> Option<Operand<'a>>
    ensures { option_map operand_view result ≡ operand_by token.now.slice.now token.now.kind }
{
    match token.kind {
        Kind::Null => Some(Operand::Null),
        Kind::Text => match text_of(token.slice) {
            Some(text) => Some(Operand::Text(text)),
            None => None,
        },
        Kind::Name => match behind_byte(token.slice, b'$') {
            Some(name) => Some(Operand::Variable(name)),
            None => None,
        },
        _ => None,
    }
}
