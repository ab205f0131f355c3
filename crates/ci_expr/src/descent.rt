//! The formula of a list of tokens, read from the left.

ghost use Rattle.std.specs.Prelude.{◌≡◌, ◌+◌, ◌<◌, ◌≤◌, length, map, option_map, IfOk, IfSome};
ghost use Rattle.ci_expr.specs.Descent.{is_kind, behind, compared_from, matched_from, named_from, formula_from};
ghost use Rattle.ci_expr.specs.Formula.{chain, test, part, sign};
ghost use Rattle.ci_expr.specs.View.{Gives, token_view, tree_view, read_view, IsDescent};

use crate::fault::{ExprCode, ExprFault};
use crate::part::{behind_byte, operand_of, pattern_of};
use crate::token::{Kind, Token};
use crate::tree::{Join, Tree};
use std::alloc::Global;

/// A formula, and the tokens behind it.
type Read<'t, 'a> = (Tree<'a>, &'t [Token<'a>]);

/// The tokens behind one of this kind.
fn behind<'t, 'a>(tokens: &'t [Token<'a>], kind: Kind) -> Option<&'t [Token<'a>]>
    ensures value { option_map (λ rest. map token_view rest.now) result ≡ behind kind (map token_view tokens.now) }
    ensures size { IfSome result (λ rest. length rest.now < length tokens.now) }
{
    match tokens.split_first() {
        Some((token, rest)) => {
            if is_kind(token.kind, kind) {
                Some(rest)
            } else {
                None
            }
        }
        None => None,
    }
}

/// Are the two kinds the same?
fn is_kind(a: Kind, b: Kind) -> bool
    ensures { result ≡ is_kind a b }
{
    a as u8 == b as u8
}

/// A variable with `==` or `!=`, behind the sign.
fn compared_from<'t, 'a>(
    negated: bool,
    name: &'a str,
    tokens: &'t [Token<'a>],
) -> Result<Read<'t, 'a>, ExprFault>
    ensures exact { Gives read_view result (compared_from negated name.now (map token_view tokens.now)) }
    ensures size { IfOk result (λ r. length r.1.now ≤ length tokens.now) }
{
    match tokens.split_first() {
        Some((token, rest)) => match operand_of(token) {
            Some(operand) => Ok((Tree::Equal(negated, name, operand), rest)),
            None => Err(ExprFault::Fault(ExprCode::X4)),
        },
        None => Err(ExprFault::Fault(ExprCode::X4)),
    }
}

/// A variable with `=~` or `!~`, behind the sign.
fn matched_from<'t, 'a>(
    negated: bool,
    name: &'a str,
    tokens: &'t [Token<'a>],
) -> Result<Read<'t, 'a>, ExprFault>
    ensures exact { Gives read_view result (matched_from negated name.now (map token_view tokens.now)) }
    ensures size { IfOk result (λ r. length r.1.now ≤ length tokens.now) }
{
    match tokens.split_first() {
        Some((token, rest)) => {
            if !is_kind(token.kind, Kind::Pattern) {
                return Err(ExprFault::Fault(ExprCode::X4));
            }
            match pattern_of(token.slice) {
                Some((body, insensitive)) => Ok((
                    Tree::Found(negated, name, body, insensitive),
                    rest,
                )),
                None => Err(ExprFault::Fault(ExprCode::X4)),
            }
        }
        None => Err(ExprFault::Fault(ExprCode::X4)),
    }
}

/// A test that begins with a variable, behind its name.
fn named_from<'t, 'a>(name: &'a str, tokens: &'t [Token<'a>]) -> Result<Read<'t, 'a>, ExprFault>
    ensures exact { Gives read_view result (named_from name.now (map token_view tokens.now)) }
    ensures size { IfOk result (λ r. length r.1.now ≤ length tokens.now) }
{
    match tokens.split_first() {
        Some((sign, rest)) => match sign.kind {
            Kind::Equal => compared_from(false, name, rest),
            Kind::Unequal => compared_from(true, name, rest),
            Kind::Match => matched_from(false, name, rest),
            Kind::Mismatch => matched_from(true, name, rest),
            _ => Ok((Tree::Present(name), tokens)),
        },
        None => Ok((Tree::Present(name), tokens)),
    }
}

/// The kind of the token that joins.
fn sign_of(join: Join) -> Kind
    ensures { result ≡ sign join }
{
    match join {
        Join::Or => Kind::Or,
        Join::And => Kind::And,
    }
}

/// The longest run of formulas at the front that are joined so.
#[cycle(descent)]
fn chain_from<'t, 'a>(
    alloc: Global,
    join: Join,
    tokens: &'t [Token<'a>],
) -> Result<Read<'t, 'a>, ExprFault>
    ensures exact { IsDescent (chain join) (map token_view tokens.now) result }
    ensures size { IfOk result (λ r. length r.1.now < length tokens.now) }
{
    let (first, rest) = part_from(alloc, join, tokens)?;
    match behind(rest, sign_of(join)) {
        Some(more) => {
            let (others, rest) = chain_from(alloc, join, more)?;
            let first = Box::new(alloc, first)?;
            let others = Box::new(alloc, others)?;
            Ok((Tree::Joined(join, first, others), rest))
        }
        None => Ok((first, rest)),
    }
}

/// The formula at the front of those that are joined so.
#[cycle(descent)]
fn part_from<'t, 'a>(
    alloc: Global,
    join: Join,
    tokens: &'t [Token<'a>],
) -> Result<Read<'t, 'a>, ExprFault>
    ensures exact { IsDescent (part join) (map token_view tokens.now) result }
    ensures size { IfOk result (λ r. length r.1.now < length tokens.now) }
{
    match join {
        Join::Or => chain_from(alloc, Join::And, tokens),
        Join::And => test_from(alloc, tokens),
    }
}

/// The test at the front.
#[cycle(descent)]
fn test_from<'t, 'a>(alloc: Global, tokens: &'t [Token<'a>]) -> Result<Read<'t, 'a>, ExprFault>
    ensures exact { IsDescent test (map token_view tokens.now) result }
    ensures size { IfOk result (λ r. length r.1.now < length tokens.now) }
{
    match tokens.split_first() {
        Some((token, rest)) => match token.kind {
            Kind::Left => {
                let (inner, rest) = chain_from(alloc, Join::Or, rest)?;
                match behind(rest, Kind::Right) {
                    Some(rest) => Ok((Tree::Group(Box::new(alloc, inner)?), rest)),
                    None => Err(ExprFault::Fault(ExprCode::X4)),
                }
            }
            Kind::Name => match behind_byte(token.slice, b'$') {
                Some(name) => named_from(name, rest),
                None => Err(ExprFault::Fault(ExprCode::X4)),
            },
            _ => Err(ExprFault::Fault(ExprCode::X4)),
        },
        None => Err(ExprFault::Fault(ExprCode::X4)),
    }
}

/// The formula of a whole list of tokens.
pub fn formula_from<'a>(alloc: Global, tokens: &[Token<'a>]) -> Result<Tree<'a>, ExprFault>
    ensures { Gives tree_view result (formula_from (map token_view tokens.now)) }
{
    let (tree, rest) = chain_from(alloc, Join::Or, tokens)?;
    if rest.is_empty() {
        Ok(tree)
    } else {
        Err(ExprFault::Fault(ExprCode::X4))
    }
}
