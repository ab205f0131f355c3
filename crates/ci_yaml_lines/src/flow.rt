//! Lists on one line.

ghost use Rattle.std.specs.Prelude.{◌≡◌, ℕ, ◌||◌, List, [], ◌∷◌, IfOk, None, true};
ghost use Rattle.ci_yaml_lines.specs.declared.cut.SourceLine.{SourceLine};
ghost use Rattle.ci_yaml_lines.specs.Least.{least};
ghost use Rattle.ci_yaml_lines.specs.Scalar.{is_nil, head_is, drop_blanks, is_forbidden, has_tab_after, plain_codes, quoted};
ghost use Rattle.ci_yaml_lines.specs.Line.{end_of, cut_place, place_codes, plain_place, behind_quoted, place, places, listed};
ghost use Rattle.ci_yaml_lines.specs.Spans.{texts_in, items_texts, Stand};
ghost use Rattle.ci_yaml_lines.specs.SpansParsed.{behind_end, behind_list};
ghost use Rattle.ci_yaml_lines.specs.SpansOf.{spans_of, scalar_spans, places_spans, list_spans};
ghost use Rattle.ci_yaml_lines.specs.View.{value_view, quoted_view, end_view, cut_view, place_view, listed_view, least_place, least_listed};

use crate::code::{Code, least_of, when};
use crate::cut::{SourceLine, drop_blanks, front, is_all_blank, skip, tail, trim_end};
use crate::quoted::{Quoted, is_quote, read_quoted};
use crate::scalar::plain;
use crate::scan::{has_colon, has_inner, has_tab_after, head_is, is_forbidden, place_len};
use crate::tree::Tree;
use std::alloc::{AllocError, Global};

/// Where a place ends: before a comma, before the closing bracket, or, which is a fault, nowhere.
#[derive(Drop)]
enum End<'a> {
    Comma(&'a str),
    Bracket(&'a str),
    Missing,
}

/// The text of a place, and where it ends.
#[derive(Drop)]
struct Cut<'a> {
    raw: &'a str,
    end: End<'a>,
}

/// A place: its value, the least code that holds of it, and where it ends.
#[derive(Drop)]
struct Place<'a> {
    value: Tree<'a>,
    code: Option<Code>,
    end: End<'a>,
}

/// The places of a list, the least code that holds of them, and what follows the closing bracket.
#[derive(Drop)]
pub struct Listed<'a> {
    pub items: Vec<Tree<'a>>,
    pub code: Option<Code>,
    pub rest: Option<&'a str>,
}

/// Where the text before this ends.
fn end_of(text: &str) -> End<'_>
    ensures { end_view result ≡ end_of text.now }
{
    if head_is(b',', text.as_bytes()) {
        End::Comma(tail(text))
    } else if head_is(b']', text.as_bytes()) {
        End::Bracket(tail(text))
    } else {
        End::Missing
    }
}

/// The place that the text begins with, behind this byte.
#[tactic(auto, using(crate::proofs::Cuts::boundaries))]
fn cut_place(last: u8, text: &str) -> Cut<'_>
    ensures { cut_view result ≡ cut_place last text.now }
{
    let n = place_len(last, text.as_bytes());
    let raw = front(text, n);
    Cut {
        raw,
        end: end_of(skip(text, n)),
    }
}

/// Whether a plain scalar begins with what it may not, or holds `-` or `:` before a tab.
fn has_excluded_form(front: &str, raw: &str) -> bool
    ensures { result ≡ (is_forbidden front.now || has_tab_after raw.now) }
{
    is_forbidden(front.as_bytes()) || has_tab_after(raw.as_bytes())
}

/// The least code of a plain scalar that is a value. The front begins with it, the raw text reaches up to its end.
#[tactic(auto, using(crate::proofs::Leasts::least_append))]
pub fn plain_code(front: &str, raw: &str, text: &str) -> Option<Code>
    ensures { result ≡ least (plain_codes front.now raw.now text.now) }
{
    let form = when(has_excluded_form(front, raw), Code::Y9);
    let colon = when(has_colon(text.as_bytes()), Code::Y11);
    least_of(form, colon)
}

fn is_nil(text: &str) -> bool
    ensures { result ≡ is_nil text.now }
{
    text.is_empty()
}

/// The least code of a plain place.
#[tactic(auto, using(crate::proofs::Leasts::least_append))]
fn place_code(front: &str, raw: &str, text: &str) -> Option<Code>
    ensures { result ≡ least (place_codes front.now raw.now text.now) }
{
    if is_nil(text) {
        return Some(Code::Y8);
    }
    let plain = plain_code(front, raw, text);
    let inner = when(has_inner(text.as_bytes()), Code::Y9);
    least_of(plain, inner)
}

fn plain_place<'a>(source: SourceLine, text: &'a str) -> Place<'a>
    ensures value { place_view result ≡ least_place (plain_place text.now (cut_place 44 text.now)) }
    ensures spans { Stand source text.now (texts_in result.value) (behind_end result.end) }
    ensures exact { spans_of (texts_in result.value) ≡ scalar_spans source None (value_view result.value) (drop_blanks text.now) }
{
    let Cut { raw, end } = cut_place(b',', text);
    let trimmed = trim_end(raw);
    let scalar = drop_blanks(trimmed);
    let from = drop_blanks(text);
    Place {
        value: plain(scalar, source.front(from, scalar.len())),
        code: place_code(from, raw, scalar),
        end,
    }
}

fn behind_quoted<'a>(quoted: Quoted<'a>) -> Place<'a>
    ensures value { place_view result ≡ least_place (behind_quoted (quoted_view quoted.entry) (cut_place 39 (quoted_view quoted.entry).rest)) }
    ensures spans { (source : SourceLine) (bs : List ℕ) → Stand source bs (quoted.entry.text ∷ []) quoted.entry.rest.now → Stand source bs (texts_in result.value) (behind_end result.end) }
    ensures exact { texts_in result.value ≡ quoted.entry.text ∷ [] }
{
    let Quoted { text, wrong, rest } = quoted;
    let Cut { raw, end } = cut_place(b'\'', rest);
    let escape = when(wrong, Code::Y7);
    let tab = when(has_tab_after(raw.as_bytes()), Code::Y9);
    let other = when(!is_all_blank(raw), Code::Y11);
    let behind = least_of(tab, other);
    Place {
        value: Tree::Text(text),
        code: least_of(escape, behind),
        end,
    }
}

/// The place that the text begins with. Errors: memory was refused.
fn read_place<'a>(alloc: Global, source: SourceLine, text: &'a str) -> Result<Place<'a>, AllocError>
    ensures value { IfOk result (λ p. place_view p ≡ least_place (place text.now)) }
    ensures spans { IfOk result (λ p. Stand source text.now (texts_in p.value) (behind_end p.end)) }
    ensures exact { IfOk result (λ p. spans_of (texts_in p.value) ≡ scalar_spans source (quoted (drop_blanks text.now)) (value_view p.value) (drop_blanks text.now)) }
{
    let from = drop_blanks(text);
    if !is_quote(from.as_bytes()) {
        return Ok(plain_place(source, text));
    }
    match read_quoted(alloc, source, from)? {
        Some(quoted) => Ok(behind_quoted(quoted)),
        None => Ok(Place {
            value: Tree::Null,
            code: Some(Code::Y6),
            end: End::Missing,
        }),
    }
}

/// The first n places from here on; no list has more places than bytes, its bracket counted. Errors: memory was refused.
fn read_places<'a>(
    alloc: Global,
    source: SourceLine,
    n: usize,
    text: &'a str,
) -> Result<Listed<'a>, AllocError>
    ensures value { IfOk result (λ l. listed_view l ≡ least_listed (places n text.now)) }
    ensures spans { IfOk result (λ l. Stand source text.now (items_texts l.items.items) (behind_list l.rest)) }
    ensures exact { IfOk result (λ l. spans_of (items_texts l.items.items) ≡ places_spans source n text.now) }
{
    let mut items = Vec::new(alloc);
    let mut code = None;
    let mut rest = text;
    'places: for i in 0..n {
        let Place {
            value,
            code: holds,
            end,
        } = read_place(alloc, source, rest)?;
        items.push(value)?;
        code = least_of(code, holds);
        match end {
            End::Comma(more) => rest = more,
            End::Bracket(behind) => {
                return Ok(Listed {
                    items,
                    code,
                    rest: Some(behind),
                });
            }
            End::Missing => {
                return Ok(Listed {
                    items,
                    code: least_of(code, Some(Code::Y8)),
                    rest: None,
                });
            }
        }
    }
    Ok(Listed {
        items,
        code,
        rest: None,
    })
}

/// The list that begins here with its bracket. Errors: memory was refused.
pub fn read_list<'a>(
    alloc: Global,
    source: SourceLine,
    text: &'a str,
) -> Result<Listed<'a>, AllocError>
    requires { head_is 91 text.now ≡ true }
    ensures value { IfOk result (λ l. listed_view l ≡ least_listed (listed text.now)) }
    ensures spans { IfOk result (λ l. Stand source text.now (items_texts l.items.items) (behind_list l.rest)) }
    ensures exact { IfOk result (λ l. spans_of (items_texts l.items.items) ≡ list_spans source text.now) }
{
    let inner = tail(text);
    let from = drop_blanks(inner);
    if head_is(b']', from.as_bytes()) {
        return Ok(Listed {
            items: Vec::new(alloc),
            code: None,
            rest: Some(tail(from)),
        });
    }
    read_places(alloc, source, text.len(), inner)
}
