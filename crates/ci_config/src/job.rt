//! A job.

use crate::need::Need;
use crate::rule::Rule;
use crate::value::Variable;
use ci_values::when::{AllowFailure, Retry, When};

/// A job. What isn't written is `None`, an empty list, `false`, or the stage `test`.
#[derive(Drop)]
pub struct JobSpec<'t> {
    pub name: &'t str,
    pub stage: &'t str,
    pub script: Vec<&'t str>,
    pub needs: Option<Vec<Need<'t>>>,
    pub rules: Option<Vec<Rule<'t>>>,
    pub when: Option<When>,
    pub allow_failure: Option<AllowFailure>,
    pub retry: Option<Retry>,
    pub tags: Vec<&'t str>,
    /// In seconds.
    pub timeout: Option<u32>,
    pub resource_group: Option<&'t str>,
    pub interruptible: bool,
    pub variables: Vec<Variable<'t>>,
}
