//! Values.

use ci_yaml_lines::tree::Words;

/// A variable.
#[derive(Drop)]
pub struct Variable<'t> {
    pub name: &'t str,
    pub value: Words<'t>,
}
