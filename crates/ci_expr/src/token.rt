//! Tokens of an expression.

ghost use Rattle.std.specs.Prelude.{◌<◌, ◌≤◌, drop, length, List, Result, IfOk};
ghost use Rattle.ci_expr.specs.declared.fault.ExprCode.{ExprCode as Code};
ghost use Rattle.ci_expr.specs.Token.{Token as Read};
ghost use Rattle.ci_expr.specs.Reading.{token_from, tokens_of};
ghost use Rattle.ci_expr.specs.Meaning.{Tokenizes, Answers, AtMostOneList};
ghost use Rattle.ci_expr.specs.View.{Gives, token_view, tokens_view};

use crate::fault::{ExprCode, ExprFault};
use crate::lexeme::{front, is_blank};
use std::alloc::Global;

/// What a token is.
#[derive(Clone, Copy, Debug, PartialEq, Eq)]
pub enum Kind {
    /// `$` and a name: an ASCII letter or `_`, then ASCII letters, ASCII digits and `_`.
    Name,
    /// A text in `"` or `'`, without escapes.
    Text,
    /// `null`.
    Null,
    /// `==`.
    Equal,
    /// `!=`.
    Unequal,
    /// `=~`.
    Match,
    /// `!~`.
    Mismatch,
    /// `&&`.
    And,
    /// `||`.
    Or,
    /// `(`.
    Left,
    /// `)`.
    Right,
    /// A pattern between `/` and `/` or `/i`; in it a backslash takes the next character with it.
    Pattern,
}

/// A token.
#[derive(Clone, Copy)]
pub struct Token<'a> {
    /// What it is.
    pub kind: Kind,
    /// Its slice of the text, with its marks and flag.
    pub slice: &'a str,
    /// The place of its first byte in the text.
    pub start: usize,
    /// The place behind its last byte.
    pub end: usize,
}

/// The token at a place where no blank stands.
fn token_at(text: &str, at: usize) -> Result<Token<'_>, ExprFault>
    requires { at < length text.now }
    ensures exact { Gives token_view result (token_from at (drop at text.now)) }
    ensures size { IfOk result (λ t. (at < t.end) × (t.end ≤ length text.now)) }
{
    let (kind, length) = front(&text.as_bytes()[at..])?;
    let end = at + length;
    Ok(Token {
        kind,
        slice: &text[at..end],
        start: at,
        end,
    })
}

/// The longest text that is read, in bytes.
const MAX_LENGTH: usize = 1024;

/// The tokens of a text, read from the left.
fn read_tokens(alloc: Global, text: &str) -> Result<Vec<Token<'_>>, ExprFault>
    ensures exact { Gives tokens_view result (tokens_of text.now) }
{
    if text.len() > MAX_LENGTH {
        return Err(ExprFault::Fault(ExprCode::X1));
    }
    let mut found = Vec::new(alloc);
    let mut at = 0;
    'all: while at < text.len() {
        if is_blank(text.as_bytes()[at]) {
            at += 1;
        } else {
            match token_at(text, at) {
                Ok(token) => {
                    at = token.end;
                    found.push(token)?;
                }
                Err(stop) => return Err(stop),
            }
        }
    }
    Ok(found)
}

/// The tokens of a text, in their order: slices with nothing but space, tab, CR and LF between them.
///
/// Errors: memory was refused; or the first fault: the text is longer than 1,024 bytes (X1), or what comes first of a
/// character or word that begins no token (X2) and a quoted text or pattern that doesn't end (X3).
pub fn tokens(alloc: Global, text: &str) -> Result<Vec<Token<'_>>, ExprFault>
    // What is answered are the tokens of the text, or its first fault.
    ensures answer { Answers tokens_view result (Tokenizes text.now) }
    // Where the text has tokens, or a fault, that is answered.
    ensures only { (r : Result (List Read) Code) → Tokenizes text.now r → Gives tokens_view result r }
    // There is no choice.
    ensures one { AtMostOneList }
{
    read_tokens(alloc, text)
}
