//! Quoted scalars.

ghost use Rattle.std.specs.Prelude.{◌≡◌, Some, false, ◌==◌, ◌||◌, if◌then◌else◌, [], ◌∷◌, ◌++◌, ◌<◌, ◌≤◌, ◌⊎◌, IfOk, IfSome, option_map, slice_index, string_bytes, length};
ghost use Rattle.std.specs.List.{position};
ghost use Rattle.ci_yaml_lines.specs.Scalar.{single, double, quoted, is_quote, with_words, from_place, escape_of};
ghost use Rattle.ci_yaml_lines.specs.View.{quoted_view, quoted_words_view, with_wrong, from_quote, from_mark, ended};
ghost use Rattle.ci_yaml_lines.specs.Lent.{is_lent, IsLent, LentUpTo, LentBetween};
ghost use Rattle.ci_yaml_lines.specs.Spans.{span_before, Stand};

use crate::cut::{SourceLine, split_around, tail};
use crate::scan::head_is;
use crate::tree::{Text, Words};
use std::alloc::{AllocError, Global};

/// A quoted scalar: its text, whether a backslash stands wrongly in it, and what follows it.
#[derive(Drop)]
pub struct Quoted<'a> {
    pub text: Text<'a>,
    pub wrong: bool,
    pub rest: &'a str,
}

/// The same after the opening quote: its words, whether a backslash stands wrongly in it, and what follows it.
#[derive(Drop)]
struct QuotedWords<'a> {
    words: Words<'a>,
    wrong: bool,
    rest: &'a str,
}

fn first_quote(bytes: &[u8]) -> Option<usize>
    ensures { result ≡ position (λ b. b == 39) bytes.now }
{
    bytes.iter().position(|byte| *byte == b'\'')
}

/// Where the first single quote stands.
#[tactic(auto, using(crate::proofs::Quotes::single_marks))]
fn quote_at(bytes: &[u8]) -> Option<usize>
    ensures place { IfSome result (λ i. (i < length bytes.now) × (slice_index bytes.now i ≡ 39)) }
    ensures value { single bytes.now ≡ from_place single bytes.now result }
{
    first_quote(bytes)
}

/// The text before the first single quote, and the text behind it.
fn split_quote(text: &str) -> Option<(&str, &str)>
    ensures shorter { IfSome result (λ p. length p.1.now < length text.now) }
    ensures parts { IfSome result (λ p. text.now ≡ p.0.now ++ 39 ∷ p.1.now) }
    ensures value { single text.now ≡ from_quote result }
{
    let i = quote_at(text.as_bytes())?;
    Some(split_around(text, i))
}

/// Words that the source writes as they are.
fn lent<'a>(words: &'a str, rest: &'a str) -> Option<QuotedWords<'a>>
    ensures value { option_map quoted_words_view result ≡ Some (record { text = words.now; wrong = false; rest = rest.now }) }
    ensures lent { IfSome result (λ q. IsLent words.now q.words) }
{
    Some(QuotedWords {
        words: Words::Lent(words),
        wrong: false,
        rest,
    })
}

/// Words that the source writes in another way, with what was found at their end, if they end.
fn owned<'a>(words: String, end: Option<(bool, &'a str)>) -> Option<QuotedWords<'a>>
    ensures value { option_map quoted_words_view result ≡ ended (string_bytes words) end.entry }
    ensures own { IfSome result (λ q. is_lent q.words ≡ false) }
{
    let (wrong, rest) = end?;
    Some(QuotedWords {
        words: Words::Owned(words),
        wrong,
        rest,
    })
}

/// A scalar in single quotes, after the first quote. Errors: memory was refused.
fn single<'a>(alloc: Global, text: &'a str) -> Result<Option<QuotedWords<'a>>, AllocError>
    ensures value { IfOk result (λ q. option_map quoted_words_view q ≡ single text.now) }
    ensures lent { IfOk result (λ o. IfSome o (λ q. LentUpTo 39 text.now q)) }
{
    let Some((front, rest)) = split_quote(text) else {
        return Ok(None);
    };
    if head_is(b'\'', rest.as_bytes()) {
        let mut words = String::from_str(alloc, front)?;
        let end = add_pairs(&mut words, rest)?;
        return Ok(owned(words, end));
    }
    Ok(lent(front, rest))
}

/// Adds what a quote and this rest say: no backslash stands wrongly, and what follows, if the scalar ends. Errors: memory was refused.
fn add_pairs<'a>(words: &mut String, rest: &'a str) -> Result<Option<(bool, &'a str)>, AllocError>
    ensures { IfOk result (λ e. ended (string_bytes words.new) e ≡ with_words (string_bytes words.old) (single (39 ∷ rest.now))) }
{
    let mut rest = rest;
    'pairs: while head_is(b'\'', rest.as_bytes()) {
        let Some((front, behind)) = split_quote(tail(rest)) else {
            return Ok(None);
        };
        words.push_str("'")?;
        words.push_str(front)?;
        rest = behind;
    }
    Ok(Some((false, rest)))
}

fn first_quote_or_backslash(bytes: &[u8]) -> Option<usize>
    ensures { result ≡ position (λ b. (b == 34) || (b == 92)) bytes.now }
{
    bytes
        .iter()
        .position(|byte| *byte == b'"' || *byte == b'\\')
}

/// Where the first double quote or backslash stands.
#[tactic(auto, using(crate::proofs::Quotes::double_marks))]
fn quote_or_backslash_at(bytes: &[u8]) -> Option<usize>
    ensures place { IfSome result (λ i. (i < length bytes.now) × ((slice_index bytes.now i ≡ 34) ⊎ (slice_index bytes.now i ≡ 92))) }
    ensures value { double bytes.now ≡ from_place double bytes.now result }
{
    first_quote_or_backslash(bytes)
}

/// What the byte behind a backslash stands for.
fn escape(bytes: &[u8]) -> Option<&'static str>
    ensures { option_map (λ s. s.now) result ≡ escape_of bytes.now }
{
    match bytes {
        [b'\\', ..] => Some("\\"),
        [b'"', ..] => Some("\""),
        [b'n', ..] => Some("\n"),
        [b't', ..] => Some("\t"),
        _ => None,
    }
}

/// The text before the first double quote or backslash, whether it is a backslash, and the text behind it.
fn split_mark(text: &str) -> Option<(&str, bool, &str)>
    ensures shorter { IfSome result (λ p. length p.2.now < length text.now) }
    ensures parts { IfSome result (λ p. text.now ≡ p.0.now ++ (if p.1 then 92 else 34) ∷ p.2.now) }
    ensures value { double text.now ≡ from_mark result }
{
    let bytes = text.as_bytes();
    let i = quote_or_backslash_at(bytes)?;
    let (front, rest) = split_around(text, i);
    Some((front, bytes[i] == b'\\', rest))
}

/// A scalar in double quotes, after the first quote. Errors: memory was refused.
fn double<'a>(alloc: Global, text: &'a str) -> Result<Option<QuotedWords<'a>>, AllocError>
    ensures value { IfOk result (λ q. option_map quoted_words_view q ≡ double text.now) }
    ensures lent { IfOk result (λ o. IfSome o (λ q. LentUpTo 34 text.now q)) }
{
    let Some((front, slash, rest)) = split_mark(text) else {
        return Ok(None);
    };
    if slash {
        let mut words = String::from_str(alloc, front)?;
        let end = add_escapes(&mut words, rest)?;
        return Ok(owned(words, end));
    }
    Ok(lent(front, rest))
}

/// Adds what a backslash and the byte behind it stand for, and answers what follows, and whether the backslash
/// stands rightly. Errors: memory was refused.
fn unescape<'a>(words: &mut String, rest: &'a str) -> Result<(bool, &'a str), AllocError>
    ensures shorter { IfOk result (λ r. length r.1.now ≤ length rest.now) }
    ensures value { IfOk result (λ r. with_words (string_bytes words.new) (with_wrong r.0 (double r.1.now)) ≡ with_words (string_bytes words.old) (double (92 ∷ rest.now))) }
{
    match escape(rest.as_bytes()) {
        Some(meant) => {
            words.push_str(meant)?;
            Ok((false, tail(rest)))
        }
        None => Ok((true, rest)),
    }
}

/// Adds what a backslash and this rest say: whether a backslash stands wrongly, and what follows, if the scalar ends. Errors: memory
/// was refused.
fn add_escapes<'a>(words: &mut String, rest: &'a str) -> Result<Option<(bool, &'a str)>, AllocError>
    ensures { IfOk result (λ e. ended (string_bytes words.new) e ≡ with_words (string_bytes words.old) (double (92 ∷ rest.now))) }
{
    let mut wrong = false;
    let mut rest = rest;
    'escapes: loop {
        let (misused, more) = unescape(words, rest)?;
        wrong = wrong | misused;
        let Some((front, slash, behind)) = split_mark(more) else {
            return Ok(None);
        };
        words.push_str(front)?;
        rest = behind;
        if !slash {
            return Ok(Some((wrong, rest)));
        }
    }
}

/// Whether a quoted scalar begins there.
pub fn is_quote(bytes: &[u8]) -> bool
    ensures { result ≡ is_quote bytes.now }
{
    head_is(b'\'', bytes) || head_is(b'"', bytes)
}

/// What stands inside the quotes at the front, if they are closed. Errors: memory was refused.
fn read_words<'a>(alloc: Global, text: &'a str) -> Result<Option<QuotedWords<'a>>, AllocError>
    ensures value { IfOk result (λ q. option_map quoted_words_view q ≡ quoted text.now) }
    ensures lent { IfOk result (λ o. IfSome o (λ q. LentBetween text.now q.words q.rest.now)) }
{
    if head_is(b'\'', text.as_bytes()) {
        single(alloc, tail(text))
    } else if head_is(b'"', text.as_bytes()) {
        double(alloc, tail(text))
    } else {
        Ok(None)
    }
}

/// The quoted scalar at the front, if it is closed. Errors: memory was refused.
pub fn read_quoted<'a>(
    alloc: Global,
    source: SourceLine,
    text: &'a str,
) -> Result<Option<Quoted<'a>>, AllocError>
    ensures value { IfOk result (λ q. option_map quoted_view q ≡ quoted text.now) }
    // From the opening quote to behind the closing one.
    ensures span { IfOk result (λ o. IfSome o (λ q. q.text.span ≡ span_before source text.now q.rest.now)) }
    ensures spans { IfOk result (λ o. IfSome o (λ q. Stand source text.now (q.text ∷ []) q.rest.now)) }
{
    match read_words(alloc, text)? {
        Some(QuotedWords { words, wrong, rest }) => Ok(Some(Quoted {
            text: Text {
                words,
                span: source.before(text, rest),
            },
            wrong,
            rest,
        })),
        None => Ok(None),
    }
}
