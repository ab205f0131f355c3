//! Copies of texts.

ghost use Rattle.std.specs.Prelude.{◌≡◌, IfOk, IfErr};

use ci_machine::reply::Code;
use ci_machine::text::Text;
use std::alloc::Global;

/// A copy of a text. Errors: memory was refused (M16).
pub fn copy_of(alloc: Global, text: &str) -> Result<Text, Code>
    ensures ok { IfOk result (λ copy. copy ≡ text.now) }
    ensures err { IfErr result (λ why. why ≡ Code.M16) }
{
    match Text::copy_of(alloc, text) {
        Ok(copy) => Ok(copy),
        Err(_) => Err(Code::M16),
    }
}
