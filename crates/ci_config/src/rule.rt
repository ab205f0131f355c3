//! The rules of a job.

use crate::keyword::RuleWhen;
use crate::value::Variable;
use ci_expr::Expr;

/// A rule.
#[derive(Drop)]
pub struct Rule<'t> {
    pub condition: Option<Expr>,
    pub when: Option<RuleWhen>,
    pub allow_failure: Option<bool>,
    pub variables: Vec<Variable<'t>>,
}
