//! What a look came to.

ghost use Rattle.std.specs.Prelude.{◌≡◌, chars, string_bytes};
ghost use Rattle.ci_expr.specs.Found.{config_of, is_found_in};

use crate::looks::Look;

/// Whether the pattern of a look is found in its text.
#[derive(Drop)]
pub struct Answer<'a> {
    pub look: Look<'a>,
    pub found: bool,
    pub ghost right: { found ≡ is_found_in (config_of look.pattern.now.insensitive) (chars (string_bytes look.pattern.now.source)) look.text.now },
}
