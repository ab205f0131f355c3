//! What stands behind a dash or a colon, or alone on a line.

ghost use Rattle.std.specs.Prelude.{◌≡◌, IfOk, Some, None, [], ◌∷◌};
ghost use Rattle.ci_yaml_lines.specs.Least.{least};
ghost use Rattle.ci_yaml_lines.specs.Tree.{text as text_value};
ghost use Rattle.ci_yaml_lines.specs.Line.{behind_value, header_rest, header_of, written_quoted, written_plain, written_at, written};
ghost use Rattle.ci_yaml_lines.specs.Scalar.{before_comment, drop_blanks, quoted};
ghost use Rattle.ci_yaml_lines.specs.View.{value_view, given_view, quoted_view, chomp_view, listed_view, written_of_list, written_view, least_written};
ghost use Rattle.ci_yaml_lines.specs.Spans.{texts_in, items_texts, given_texts, span_before, Stand};
ghost use Rattle.ci_yaml_lines.specs.SpansOf.{spans_of, given_spans};

use crate::code::{Code, least_of, when};
use crate::cut::{SourceLine, before_comment, drop_blanks, tail, trim_end};
use crate::entry::Chomp;
use crate::flow::{Listed, plain_code, read_list};
use crate::quoted::{Quoted, is_quote, read_quoted};
use crate::scalar::plain;
use crate::scan::{has_tab_from, head_is, is_digit_next, is_only_comment};
use crate::tree::{Text, Tree, Words};
use std::alloc::{AllocError, Global};

/// The value that is written, or how the literal block below is read, and the least code that holds.
#[derive(Drop)]
pub struct Written<'a> {
    pub given: Option<Tree<'a>>,
    pub header: Option<Chomp>,
    pub code: Option<Code>,
}

/// The least code of what follows a value, whose last byte this is: it is a comment, and `-` or `:` doesn't stand directly before a tab.
#[tactic(auto, using(crate::proofs::Leasts::least_append))]
fn behind_value(last: u8, text: &str) -> Option<Code>
    ensures { result ≡ least (behind_value last text.now) }
{
    let front = before_comment(last, text);
    let tab = has_tab_from(last, front.as_bytes());
    let other = !is_only_comment(last, text.as_bytes());
    least_of(when(tab, Code::Y9), when(other, Code::Y11))
}

/// The empty text before a text that reaches to the line's end.
fn no_text<'a>(source: SourceLine, text: &'a str) -> Tree<'a>
    ensures value { value_view result ≡ text_value [] }
    ensures spans { Stand source text.now (texts_in result) text.now }
    ensures exact { spans_of (texts_in result) ≡ span_before source text.now text.now ∷ [] }
{
    Tree::Text(Text {
        words: Words::Lent(""),
        span: source.before(text, text),
    })
}

/// A literal block's header: the text that begins with its bar, and what follows the bar.
fn header_of<'a>(source: SourceLine, text: &'a str, rest: &str) -> Written<'a>
    ensures value { written_view result ≡ least_written (header_of rest.now) }
    ensures spans { Stand source text.now (given_texts result.given) [] }
    ensures exact { spans_of (given_texts result.given) ≡ span_before source text.now text.now ∷ [] }
{
    if head_is(b'-', rest.as_bytes()) {
        header_rest(source, text, Chomp::Strip, b'-', tail(rest))
    } else if head_is(b'+', rest.as_bytes()) {
        header_rest(source, text, Chomp::Keep, b'+', tail(rest))
    } else {
        header_rest(source, text, Chomp::Clip, b'|', rest)
    }
}

/// The same, where the rest follows the sign, or the bar, if there is no sign; this is the byte before the rest.
#[tactic(auto, using(crate::proofs::Leasts::least_append))]
fn header_rest<'a>(
    source: SourceLine,
    text: &'a str,
    how: Chomp,
    last: u8,
    rest: &str,
) -> Written<'a>
    ensures value { written_view result ≡ least_written (header_rest (chomp_view how) last rest.now) }
    ensures spans { Stand source text.now (given_texts result.given) [] }
    ensures exact { spans_of (given_texts result.given) ≡ span_before source text.now text.now ∷ [] }
{
    let digit = when(is_digit_next(rest.as_bytes()), Code::Y9);
    Written {
        given: Some(no_text(source, text)),
        header: Some(how),
        code: least_of(digit, behind_value(last, rest)),
    }
}

#[tactic(auto, using(crate::proofs::Parsed::texts_and_codes))]
fn closed(quoted: Quoted<'_>) -> Written<'_>
    ensures value { written_view result ≡ least_written (written_quoted (Some (quoted_view quoted.entry))) }
    ensures spans { given_texts result.given ≡ quoted.entry.text ∷ [] }
{
    let Quoted { text, wrong, rest } = quoted;
    let escape = when(wrong, Code::Y7);
    let other = behind_value(b'\'', rest);
    Written {
        given: Some(Tree::Text(text)),
        header: None,
        code: least_of(escape, other),
    }
}

/// A quoted scalar that isn't closed.
fn unclosed<'a>(source: SourceLine, text: &'a str) -> Written<'a>
    ensures value { written_view result ≡ least_written (written_quoted None) }
    ensures spans { Stand source text.now (given_texts result.given) [] }
    ensures exact { spans_of (given_texts result.given) ≡ span_before source text.now text.now ∷ [] }
{
    Written {
        given: Some(no_text(source, text)),
        header: None,
        code: Some(Code::Y6),
    }
}

fn written_list(list: Listed<'_>) -> Written<'_>
    ensures value { written_view result ≡ written_of_list (listed_view list.entry) }
    ensures spans { given_texts result.given ≡ items_texts list.entry.items.items }
{
    let Listed { items, code, rest } = list;
    let behind = match rest {
        Some(text) => behind_value(b']', text),
        None => None,
    };
    Written {
        given: Some(Tree::List(items)),
        header: None,
        code: least_of(code, behind),
    }
}

fn written_plain<'a>(source: SourceLine, text: &'a str) -> Written<'a>
    ensures value { written_view result ≡ least_written (written_plain (before_comment 0 text.now)) }
    ensures spans { Stand source text.now (given_texts result.given) [] }
    ensures exact { quoted text.now ≡ None → spans_of (given_texts result.given) ≡ given_spans source (given_view result.given) text.now }
{
    let raw = before_comment(0, text);
    let scalar = trim_end(raw);
    Written {
        given: Some(plain(scalar, source.front(text, scalar.len()))),
        header: None,
        code: plain_code(raw, raw, scalar),
    }
}

/// The value that begins at the front. Errors: memory was refused.
pub fn read_value<'a>(
    alloc: Global,
    source: SourceLine,
    text: &'a str,
) -> Result<Written<'a>, AllocError>
    ensures value { IfOk result (λ w. written_view w ≡ least_written (written_at text.now)) }
    ensures spans { IfOk result (λ w. Stand source text.now (given_texts w.given) []) }
    ensures exact { IfOk result (λ w. spans_of (given_texts w.given) ≡ given_spans source (written_at text.now).given text.now) }
{
    if is_quote(text.as_bytes()) {
        match read_quoted(alloc, source, text)? {
            Some(quoted) => Ok(closed(quoted)),
            None => Ok(unclosed(source, text)),
        }
    } else if head_is(b'[', text.as_bytes()) {
        let list = read_list(alloc, source, text)?;
        Ok(written_list(list))
    } else if head_is(b'|', text.as_bytes()) {
        Ok(header_of(source, text, tail(text)))
    } else {
        Ok(written_plain(source, text))
    }
}

/// The value in the text behind this byte. Errors: memory was refused.
pub fn read_written<'a>(
    alloc: Global,
    source: SourceLine,
    last: u8,
    text: &'a str,
) -> Result<Written<'a>, AllocError>
    ensures value { IfOk result (λ w. written_view w ≡ least_written (written last text.now)) }
    ensures spans { IfOk result (λ w. Stand source text.now (given_texts w.given) []) }
    ensures exact { IfOk result (λ w. spans_of (given_texts w.given) ≡ given_spans source (written last text.now).given (drop_blanks text.now)) }
{
    if is_only_comment(last, text.as_bytes()) {
        return Ok(Written {
            given: None,
            header: None,
            code: None,
        });
    }
    read_value(alloc, source, drop_blanks(text))
}
