//! Cutting the text of a line, and where its parts stand.

ghost use Rattle.std.specs.Prelude.{◌≡◌, ◌+◌, ◌-◌, ◌≤◌, ◌<◌, length, take, drop, min, slice_index};
ghost use Rattle.std.specs.Str.{IsCharBoundary};
ghost use Rattle.ci_yaml_lines.specs.Scalar.{is_nil, trim_end, drop_blanks, before_comment, tail_of};
ghost use Rattle.ci_yaml_lines.specs.Line.{spaces};
ghost use Rattle.ci_yaml_lines.specs.Spans.{span_before};

use crate::scan::{blanks, comment_len, spaces, trimmed_len};
use crate::tree::{Place, Span};

/// The line that is read: its number, and how many bytes come before its end, blanks there left out.
#[derive(Clone, Copy)]
pub struct SourceLine {
    pub line: usize,
    pub end: usize,
}

impl SourceLine {
    /// The place so many bytes before the end.
    fn place(self, behind: usize) -> Place
        ensures { result ≡ (record { line = self.line; column = self.end - behind }) }
    {
        Place {
            line: self.line,
            column: self.end.saturating_sub(behind),
        }
    }

    /// Where the first bytes stand of a text that reaches to the line's end.
    pub fn front(self, text: &str, len: usize) -> Span
        ensures { result ≡ span_before self text.now (drop len text.now) }
    {
        Span {
            start: self.place(text.len()),
            end: self.place(text.len().saturating_sub(len)),
        }
    }

    /// Where the bytes stand that come before a rest, in a text that reaches to the line's end as the rest does.
    pub fn before(self, text: &str, rest: &str) -> Span
        ensures { result ≡ span_before self text.now rest.now }
    {
        Span {
            start: self.place(text.len()),
            end: self.place(rest.len()),
        }
    }
}

/// The text without its first bytes.
pub fn skip(text: &str, n: usize) -> &str
    requires { IsCharBoundary text.now n }
    ensures { result.now ≡ drop n text.now }
{
    &text[n..]
}

/// The first bytes of the text.
pub fn front(text: &str, n: usize) -> &str
    requires { IsCharBoundary text.now n }
    ensures { result.now ≡ take n text.now }
{
    &text[..n]
}

/// The text behind its first byte, which is ASCII.
pub fn tail(text: &str) -> &str
    requires some { 0 < length text.now }
    requires ascii { slice_index text.now 0 < 128 }
    ensures { result.now ≡ tail_of text.now }
{
    skip(text, 1)
}

/// The texts before and behind an ASCII byte.
#[tactic(auto, using(crate::proofs::Cuts::behind_ascii))]
pub fn split_around(text: &str, i: usize) -> (&str, &str)
    requires within { i < length text.now }
    requires ascii { slice_index text.now i < 128 }
    ensures front { result.0.now ≡ take i text.now }
    ensures rest { result.1.now ≡ drop (i + 1) text.now }
{
    (front(text, i), skip(text, i + 1))
}

/// The text without the spaces and tabs at its end.
#[tactic(auto, using(crate::proofs::Cuts::boundaries))]
pub fn trim_end(text: &str) -> &str
    ensures { result.now ≡ trim_end text.now }
{
    front(text, trimmed_len(text.as_bytes()))
}

/// The text without the spaces and tabs that it begins with.
#[tactic(auto, using(crate::proofs::Cuts::boundaries))]
pub fn drop_blanks(text: &str) -> &str
    ensures { result.now ≡ drop_blanks text.now }
{
    skip(text, blanks(text.as_bytes()))
}

/// Whether the text has spaces and tabs alone.
pub fn is_all_blank(text: &str) -> bool
    ensures { result ≡ is_nil (drop_blanks text.now) }
{
    drop_blanks(text).is_empty()
}

/// The text without the spaces that it begins with.
#[tactic(auto, using(crate::proofs::Cuts::boundaries))]
pub fn drop_spaces(text: &str) -> &str
    ensures { result.now ≡ drop (spaces text.now) text.now }
{
    skip(text, spaces(text.as_bytes()))
}

/// The text before a comment, where this byte comes before it.
#[tactic(auto, using(crate::proofs::Cuts::boundaries))]
pub fn before_comment(last: u8, text: &str) -> &str
    ensures { result.now ≡ before_comment last text.now }
{
    front(text, comment_len(last, text.as_bytes()))
}

/// The text without the spaces that it begins with, but at most so many.
pub fn skip_spaces(text: &str, most: usize) -> &str
    ensures { result.now ≡ drop (min (spaces text.now) most) text.now }
{
    let n = spaces(text.as_bytes()).min(most);
    skip(text, n)
}
