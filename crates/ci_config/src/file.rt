//! The top level of a file.

use crate::job::JobSpec;
use crate::value::Variable;

/// What a file configures.
#[derive(Drop)]
pub struct Config<'t> {
    /// In their order, with `.pre` and `.post`.
    pub stages: Vec<&'t str>,
    /// Those of the top level.
    pub variables: Vec<Variable<'t>>,
    /// Those that aren't hidden, in the order of the file.
    pub jobs: Vec<JobSpec<'t>>,
}
