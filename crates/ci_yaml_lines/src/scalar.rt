//! Plain scalars.

ghost use Rattle.std.specs.Prelude.{◌≡◌, ◌≤◌, ◌||◌, IfSome, codes};
ghost use Rattle.std.specs.Str.{bytes_eq};
ghost use Rattle.ci_yaml_lines.specs.Scalar.{count_of, negative_of, number_or_text, plain_value};
ghost use Rattle.ci_yaml_lines.specs.View.{value_view};
ghost use Rattle.ci_yaml_lines.specs.Spans.{texts_in};
ghost use Rattle.ci_yaml_lines.specs.SpansParsed.{OnlyText, text_spans};
ghost use Rattle.ci_yaml_lines.specs.SpansOf.{spans_of};

use crate::tree::{Span, Text, Tree, Words};
use ci_values::limits::MAX_NUMBER;

/// The number that these digits write, without a leading zero, up to `MAX_NUMBER`.
fn count(digits: &[u8]) -> Option<u64>
    ensures value { result ≡ count_of digits.now }
    ensures limit { IfSome result (λ n. n ≤ MAX_NUMBER) }
{
    match digits {
        [b'1'..=b'9', ..] => {}
        _ => return None,
    }
    let mut number: u64 = 0;
    for digit in digits {
        if *digit < b'0' || b'9' < *digit {
            return None;
        }
        number = number * 10 + (*digit - b'0') as u64;
        if number > MAX_NUMBER {
            return None;
        }
    }
    Some(number)
}

/// Whether a plain scalar stands for null.
fn is_null(text: &str) -> bool
    ensures { result ≡ (bytes_eq text.now (codes "null") || bytes_eq text.now (codes "~")) }
{
    text == "null" || text == "~"
}

/// The value of a plain scalar.
pub fn plain(text: &str, span: Span) -> Tree<'_>
    ensures value { value_view result ≡ plain_value text.now }
    ensures spans { OnlyText text.now span (texts_in result) }
    ensures exact { spans_of (texts_in result) ≡ text_spans span (value_view result) }
{
    if text == "true" {
        return Tree::Bool(true);
    }
    if text == "false" {
        return Tree::Bool(false);
    }
    if is_null(text) {
        return Tree::Null;
    }
    if text == "0" {
        return Tree::Int(0);
    }
    number_or_text(text, span)
}

/// The number behind a minus.
fn negative(bytes: &[u8]) -> Option<u64>
    ensures value { result ≡ negative_of bytes.now }
    ensures limit { IfSome result (λ n. n ≤ MAX_NUMBER) }
{
    match bytes {
        [b'-', digits @ ..] => count(digits),
        _ => None,
    }
}

/// A number that is written in decimal, or a text.
fn number_or_text(text: &str, span: Span) -> Tree<'_>
    ensures value { value_view result ≡ number_or_text text.now }
    ensures spans { OnlyText text.now span (texts_in result) }
    ensures exact { spans_of (texts_in result) ≡ text_spans span (value_view result) }
{
    match count(text.as_bytes()) {
        Some(number) => Tree::Int(number as i64),
        None => match negative(text.as_bytes()) {
            Some(number) => Tree::Int(-(number as i64)),
            None => Tree::Text(Text {
                words: Words::Lent(text),
                span,
            }),
        },
    }
}
