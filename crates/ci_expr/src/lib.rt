//! Expressions of rules: their tokens, their grammar and their value.
#![tactic(auto)]

mod answer;
mod answers;
mod budget;
mod cost;
mod descent;
mod expr;
mod fault;
mod formula;
pub mod laws;
mod lexeme;
mod looks;
mod order;
mod part;
mod pattern;
mod source;
mod token;
mod tree;

pub use answers::Answers;
pub use budget::PatternBudget;
pub use cost::{left_by_looks, left_by_patterns};
pub use expr::{Expr, parse, parse_within};
pub use fault::{ExprCode, ExprFault};
pub use formula::Env;
pub use looks::Look;
pub use pattern::Pattern;
pub use token::{Kind, Token, tokens};
