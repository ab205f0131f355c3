//! What a job needs.

/// A job that is needed.
#[derive(Clone, Copy)]
pub struct Need<'t> {
    pub job: &'t str,
    pub optional: bool,
}
