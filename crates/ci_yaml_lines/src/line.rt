//! What one line says.

ghost use Rattle.std.specs.Prelude.{◌≡◌, ◌==◌, ◌+◌, ◌≤◌, ◌&&◌, ◌||◌, suc, None, IfOk, IfSome, option_map, map, length, is_some, [], ◌∷◌, ◌++◌};
ghost use Rattle.ci_values.specs.declared.limits.TheConstants.{MAX_FILE_BYTES};
ghost use Rattle.ci_yaml_lines.specs.Least.{least_of};
ghost use Rattle.ci_yaml_lines.specs.Scalar.{drop_blanks, quoted};
ghost use Rattle.ci_yaml_lines.specs.Line.{written, split_colon, plain_key, quoted_key, keyed, is_dash, item, parse_entries, keyed_or_bare, parse_content, is_document_mark, has_control, has_byte_order_mark, is_skipped, parse_line};
ghost use Rattle.ci_yaml_lines.specs.View.{bytes_of, quoted_view, keyed_view, least_keyed, written_view, head_view, entry_view, item_view, least_item, ColumnsFit, parsed_view, least_parsed, with_entries, least_entry, key_parsed, bare_parsed};
ghost use Rattle.ci_yaml_lines.specs.Spans.{head_texts, given_texts, entries_texts, Stand, StandOn};
ghost use Rattle.ci_yaml_lines.specs.SpansParsed.{GoOn, KeyOf, ItemStands, ItemHasSpans};
ghost use Rattle.ci_yaml_lines.specs.SpansOf.{spans_of, scalar_span, given_spans, keyed_spans, entries_spans, content_spans, line_spans};

use crate::code::{Code, least_of, when};
use crate::cut::{SourceLine, drop_blanks, drop_spaces, front, skip, tail, trim_end};
use crate::entry::{Entry, Head, ParsedLine};
use crate::quoted::{Quoted, is_quote, read_quoted};
use crate::scan::{
    has_byte_order_mark, has_control, has_tab_after, head_is, is_colon, is_dash, is_document_mark,
    is_forbidden, is_only_comment, key_len, spaces,
};
use crate::tree::{Text, Words};
use crate::written::{Written, read_value, read_written};
use std::alloc::{AllocError, Global};

/// A key, what follows its colon, and the least code that holds of it.
#[derive(Drop)]
struct Keyed<'a> {
    name: Text<'a>,
    rest: &'a str,
    code: Option<Code>,
}

/// The text before the colon that ends a plain key, and the text behind it.
#[tactic(auto, using(crate::proofs::Cuts::boundaries))]
fn split_colon(text: &str) -> Option<(&str, &str)>
    ensures { split_colon text.now ≡ option_map (λ p. record { raw = p.0.now; rest = p.1.now }) result }
{
    let n = key_len(text.as_bytes());
    let rest = skip(text, n);
    if head_is(b':', rest.as_bytes()) {
        Some((front(text, n), tail(rest)))
    } else {
        None
    }
}

fn plain_key<'a>(source: SourceLine, text: &'a str) -> Option<Keyed<'a>>
    ensures value { option_map keyed_view result ≡ option_map least_keyed (plain_key (split_colon text.now)) }
    ensures spans { IfSome result (λ k. Stand source text.now (k.name ∷ []) k.rest.now) }
    ensures exact { IfSome result (λ k. k.name.span ≡ scalar_span source None (bytes_of k.name) text.now) }
{
    let (raw, rest) = split_colon(text)?;
    let name = trim_end(raw);
    Some(Keyed {
        name: Text {
            words: Words::Lent(name),
            span: source.front(text, name.len()),
        },
        rest,
        code: when(has_tab_after(raw.as_bytes()), Code::Y9),
    })
}

fn quoted_key(quoted: Option<Quoted<'_>>) -> Option<Keyed<'_>>
    ensures value { option_map keyed_view result ≡ option_map least_keyed (quoted_key (option_map quoted_view quoted.entry)) }
    ensures spans { KeyOf quoted.entry result }
{
    let Quoted { text, wrong, rest } = quoted?;
    let from = drop_blanks(rest);
    if wrong || !is_colon(from.as_bytes()) {
        return None;
    }
    Some(Keyed {
        name: text,
        rest: tail(from),
        code: None,
    })
}

/// The key that the text begins with, if it is a key line. Errors: memory was refused.
fn read_key<'a>(
    alloc: Global,
    source: SourceLine,
    text: &'a str,
) -> Result<Option<Keyed<'a>>, AllocError>
    ensures value { IfOk result (λ k. option_map keyed_view k ≡ option_map least_keyed (keyed text.now)) }
    ensures spans { IfOk result (λ o. IfSome o (λ k. Stand source text.now (k.name ∷ []) k.rest.now)) }
    ensures exact { IfOk result (λ o. IfSome o (λ k. k.name.span ≡ scalar_span source (quoted text.now) (bytes_of k.name) text.now)) }
{
    if is_quote(text.as_bytes()) {
        let quoted = read_quoted(alloc, source, text)?;
        Ok(quoted_key(quoted))
    } else if is_forbidden(text.as_bytes()) {
        Ok(None)
    } else {
        Ok(plain_key(source, text))
    }
}

/// What stands behind a dash: further entries, so many columns on, or a value.
#[derive(Drop)]
enum Item<'a> {
    Inner(u32, &'a str),
    Value(Written<'a>),
}

/// Whether further entries stand there. Errors: memory was refused.
fn has_entries(alloc: Global, source: SourceLine, text: &str) -> Result<bool, AllocError>
    ensures { IfOk result (λ b. b ≡ (is_dash text.now || is_some (keyed text.now))) }
{
    if is_dash(text.as_bytes()) {
        return Ok(true);
    }
    let keyed = read_key(alloc, source, text)?;
    Ok(keyed.is_some())
}

/// What stands behind a dash. Errors: memory was refused.
fn read_item<'a>(alloc: Global, source: SourceLine, text: &'a str) -> Result<Item<'a>, AllocError>
    requires fits { length text.now ≤ MAX_FILE_BYTES }
    ensures value { IfOk result (λ i. item_view i ≡ least_item (item text.now)) }
    ensures fits { IfOk result (λ i. ColumnsFit (length text.now) (item_view i)) }
    ensures spans { IfOk result (λ i. ItemStands source text.now i) }
    ensures exact { IfOk result (λ i. ItemHasSpans source text.now i) }
{
    let n = spaces(text.as_bytes());
    let inner = drop_spaces(text);
    if is_only_comment(b'-', text.as_bytes()) {
        return Ok(Item::Value(Written {
            given: None,
            header: None,
            code: None,
        }));
    }
    if head_is(b'\t', inner.as_bytes()) {
        return Ok(Item::Value(Written {
            given: None,
            header: None,
            code: Some(Code::Y2),
        }));
    }
    if has_entries(alloc, source, inner)? {
        Ok(Item::Inner(1 + n as u32, inner))
    } else {
        let value = read_written(alloc, source, b'-', text)?;
        Ok(Item::Value(value))
    }
}

/// The last entry of a line, after those before it. Errors: memory was refused.
fn entry_of<'a>(
    entries: Vec<Entry<'a>>,
    column: u32,
    head: Head<'a>,
    value: Written<'a>,
    code: Option<Code>,
) -> Result<ParsedLine<'a>, AllocError>
    ensures value { IfOk result (λ s. parsed_view s ≡ with_entries (map entry_view entries.entry.items) (least_entry column (head_view head.entry) (written_view value.entry) code)) }
    ensures spans { IfOk result (λ s. entries_texts s.entries.items ≡ entries_texts entries.entry.items ++ (head_texts head.entry ++ given_texts value.entry.given)) }
{
    let mut entries = entries;
    let Written {
        given,
        header,
        code: holds,
    } = value;
    entries.push(Entry {
        column,
        head,
        given,
    })?;
    Ok(ParsedLine {
        entries,
        header,
        code: least_of(code, holds),
    })
}

/// A key after the entries before it. Errors: memory was refused.
fn with_key<'a>(
    alloc: Global,
    source: SourceLine,
    entries: Vec<Entry<'a>>,
    column: u32,
    key: Keyed<'a>,
) -> Result<ParsedLine<'a>, AllocError>
    ensures value { IfOk result (λ s. parsed_view s ≡ with_entries (map entry_view entries.entry.items) (key_parsed column (keyed_view key.entry))) }
    ensures spans { IfOk result (λ s. GoOn source (entries_texts entries.entry.items ++ key.entry.name ∷ []) key.entry.rest.now (entries_texts s.entries.items)) }
    ensures exact { IfOk result (λ s. spans_of (entries_texts s.entries.items) ≡ spans_of (entries_texts entries.entry.items)
        ++ (key.entry.name.span ∷ given_spans source (written 58 key.entry.rest.now).given (drop_blanks key.entry.rest.now))) }
{
    let Keyed { name, rest, code } = key;
    let value = read_written(alloc, source, b':', rest)?;
    entry_of(entries, column, Head::Key(name), value, code)
}

/// A value alone after the entries before it. Errors: memory was refused.
fn with_value<'a>(
    entries: Vec<Entry<'a>>,
    column: u32,
    value: Written<'a>,
) -> Result<ParsedLine<'a>, AllocError>
    ensures value { IfOk result (λ s. parsed_view s ≡ with_entries (map entry_view entries.entry.items) (bare_parsed column (written_view value.entry))) }
    ensures spans { IfOk result (λ s. entries_texts s.entries.items ≡ entries_texts entries.entry.items ++ given_texts value.entry.given) }
{
    let code = match value.header {
        Some(_) => Some(Code::Y9),
        None => None,
    };
    entry_of(entries, column, Head::Bare, value, code)
}

/// A key, or a value alone, after the entries before it. Errors: memory was refused.
fn keyed_or_bare<'a>(
    alloc: Global,
    source: SourceLine,
    entries: Vec<Entry<'a>>,
    column: u32,
    text: &'a str,
) -> Result<ParsedLine<'a>, AllocError>
    ensures value { IfOk result (λ s. parsed_view s ≡ with_entries (map entry_view entries.entry.items) (least_parsed (keyed_or_bare column text.now (keyed text.now)))) }
    ensures spans { IfOk result (λ s. GoOn source (entries_texts entries.entry.items) text.now (entries_texts s.entries.items)) }
    ensures exact { IfOk result (λ s. spans_of (entries_texts s.entries.items) ≡ spans_of (entries_texts entries.entry.items) ++ keyed_spans source (keyed text.now) text.now) }
{
    match read_key(alloc, source, text)? {
        Some(key) => with_key(alloc, source, entries, column, key),
        None => {
            let value = read_value(alloc, source, text)?;
            with_value(entries, column, value)
        }
    }
}

/// What the text in a column says, which begins with no blank. It says at most n entries. Errors: memory was refused.
fn parse_entries<'a>(
    alloc: Global,
    source: SourceLine,
    n: usize,
    column: u32,
    text: &'a str,
) -> Result<ParsedLine<'a>, AllocError>
    requires fits { column + length text.now ≤ MAX_FILE_BYTES }
    ensures value { IfOk result (λ s. parsed_view s ≡ least_parsed (parse_entries n column text.now)) }
    ensures spans { IfOk result (λ s. Stand source text.now (entries_texts s.entries.items) []) }
    ensures exact { IfOk result (λ s. spans_of (entries_texts s.entries.items) ≡ entries_spans source n text.now) }
{
    let mut entries = Vec::new(alloc);
    let mut column = column;
    let mut rest = text;
    'dashes: for i in 0..n {
        if !is_dash(rest.as_bytes()) {
            return keyed_or_bare(alloc, source, entries, column, rest);
        }
        match read_item(alloc, source, tail(rest))? {
            Item::Inner(columns, inner) => {
                entries.push(Entry {
                    column,
                    head: Head::Dash,
                    given: None,
                })?;
                column += columns;
                rest = inner;
            }
            Item::Value(value) => return entry_of(entries, column, Head::Dash, value, None),
        }
    }
    Ok(ParsedLine {
        entries,
        header: None,
        code: None,
    })
}

/// Whether a document mark stands in the first column.
fn has_document_mark(column: u32, text: &str) -> bool
    ensures { result ≡ ((column == 0) && is_document_mark text.now) }
{
    column == 0 && is_document_mark(text.as_bytes())
}

/// Whether a character stands in the line that the profile does not take.
fn has_excluded(line: &str) -> bool
    ensures { result ≡ (has_control line.now || has_byte_order_mark line.now) }
{
    has_control(line.as_bytes()) || has_byte_order_mark(line.as_bytes())
}

/// What a content line says after so many spaces. Errors: memory was refused.
fn parse_content<'a>(
    alloc: Global,
    source: SourceLine,
    column: u32,
    text: &'a str,
) -> Result<ParsedLine<'a>, AllocError>
    requires fits { column + length text.now ≤ MAX_FILE_BYTES }
    ensures value { IfOk result (λ s. parsed_view s ≡ least_parsed (parse_content column text.now)) }
    ensures spans { IfOk result (λ s. Stand source text.now (entries_texts s.entries.items) []) }
    ensures exact { IfOk result (λ s. spans_of (entries_texts s.entries.items) ≡ content_spans source text.now) }
{
    if head_is(b'\t', text.as_bytes()) {
        return Ok(ParsedLine {
            entries: Vec::new(alloc),
            header: None,
            code: Some(Code::Y2),
        });
    }
    let mark = when(has_document_mark(column, text), Code::Y9);
    let parsed = parse_entries(alloc, source, text.len() + 1, column, text)?;
    Ok(with_code(mark, parsed))
}

fn with_code<'a>(code: Option<Code>, parsed: ParsedLine<'a>) -> ParsedLine<'a>
    ensures value { parsed_view result ≡ (record { entries = (parsed_view parsed.entry).entries; header = (parsed_view parsed.entry).header; code = least_of code (parsed_view parsed.entry).code }) }
    ensures entries { result.entries ≡ parsed.entry.entries }
{
    let ParsedLine {
        entries,
        header,
        code: holds,
    } = parsed;
    ParsedLine {
        entries,
        header,
        code: least_of(code, holds),
    }
}

/// Whether the line says nothing: it has spaces and tabs alone, or is a comment.
fn is_skipped(line: &str) -> bool
    ensures { result ≡ is_skipped line.now }
{
    let from = drop_blanks(line);
    from.is_empty() || head_is(b'#', from.as_bytes())
}

/// What a line outside literal blocks says; its number is counted from 1. Errors: memory was refused.
pub fn parse_line<'a>(
    alloc: Global,
    number: usize,
    line: &'a str,
) -> Result<ParsedLine<'a>, AllocError>
    requires fits { length line.now ≤ MAX_FILE_BYTES }
    ensures value { IfOk result (λ s. parsed_view s ≡ least_parsed (parse_line line.now)) }
    // The texts stand in the line.
    ensures spans { IfOk result (λ s. StandOn number line.now (entries_texts s.entries.items)) }
    // Each stands where the line's definition finds it.
    ensures exact { IfOk result (λ s. spans_of (entries_texts s.entries.items) ≡ line_spans number line.now) }
{
    let form = when(has_excluded(line), Code::Y9);
    if is_skipped(line) {
        return Ok(ParsedLine {
            entries: Vec::new(alloc),
            header: None,
            code: form,
        });
    }
    let column = spaces(line.as_bytes());
    let text = trim_end(drop_spaces(line));
    let source = SourceLine {
        line: number,
        end: column + text.len(),
    };
    let parsed = parse_content(alloc, source, column as u32, text)?;
    Ok(with_code(form, parsed))
}
