//! What is wrong with a list of tokens before the grammar is asked.

ghost use Rattle.std.specs.Prelude.{◌≡◌, ◌+◌, ◌^◌, ◌<◌, map, false};
ghost use Rattle.ci_expr.specs.Order.{open_after, closes_none, balances, deepest, is_pattern, has_stray, list_fault};
ghost use Rattle.ci_expr.specs.Faults.{takes_pattern};
ghost use Rattle.ci_expr.specs.View.{token_view};

use crate::fault::ExprCode;
use crate::token::{Kind, Token};

/// The most parentheses that may be open at once.
const MAX_DEPTH: usize = 32;

/// How many parentheses are open after a token.
fn open_after(count: usize, kind: Kind) -> usize
    requires { count + 1 < 2 ^ 64 }
    ensures { result ≡ open_after count kind }
{
    match kind {
        Kind::Left => count + 1,
        Kind::Right => count.saturating_sub(1),
        _ => count,
    }
}

/// Does a token close a parenthesis where none is open?
fn closes_none(count: usize, kind: Kind) -> bool
    ensures { result ≡ closes_none count kind }
{
    match kind {
        Kind::Right => count == 0,
        _ => false,
    }
}

/// Does no parenthesis close what isn't open, and is none left open?
fn balances(tokens: &[Token]) -> bool
    ensures { result ≡ balances 0 (map token_view tokens.now) }
{
    let mut count = 0;
    for token in tokens {
        if closes_none(count, token.kind) {
            return false;
        }
        count = open_after(count, token.kind);
    }
    count == 0
}

/// The most parentheses that are open at once.
fn deepest(tokens: &[Token]) -> usize
    ensures { result ≡ deepest 0 (map token_view tokens.now) }
{
    let mut count = 0;
    let mut most = 0;
    for token in tokens {
        most = count.max(most);
        count = open_after(count, token.kind);
    }
    count.max(most)
}

/// Is it a pattern?
fn is_pattern(kind: Kind) -> bool
    ensures { result ≡ is_pattern kind }
{
    matches!(kind, Kind::Pattern)
}

/// May a pattern come next?
fn takes_pattern(kind: Kind) -> bool
    ensures { result ≡ takes_pattern kind }
{
    matches!(kind, Kind::Match | Kind::Mismatch)
}

/// Does a pattern stand where no `=~` or `!~` is directly before it?
fn has_stray(tokens: &[Token]) -> bool
    ensures { result ≡ has_stray false (map token_view tokens.now) }
{
    let mut after = false;
    for token in tokens {
        if is_pattern(token.kind) && !after {
            return true;
        }
        after = takes_pattern(token.kind);
    }
    false
}

/// The first fault of a list of tokens that isn't the grammar's.
pub fn list_fault(tokens: &[Token]) -> Option<ExprCode>
    ensures { result ≡ list_fault (map token_view tokens.now) }
{
    if !balances(tokens) {
        return Some(ExprCode::X5);
    }
    if has_stray(tokens) {
        return Some(ExprCode::X6);
    }
    if deepest(tokens) > MAX_DEPTH {
        return Some(ExprCode::X7);
    }
    None
}
