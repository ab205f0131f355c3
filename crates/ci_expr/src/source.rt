//! The source of a pattern: its body, with `\/` as `/`.

ghost use Rattle.std.specs.Prelude.{◌≡◌, ◌++◌, chars, encode_utf8_all, string_bytes, IfOk, OnOk};
ghost use Rattle.ci_expr.specs.Source.{pair, source_of};

use std::alloc::{AllocError, Global};

/// Writes a backslash with this character behind it, or the slash alone.
fn write_pair(written: &mut String, c: char) -> Result<(), AllocError>
    ensures { OnOk result (string_bytes written.new ≡ string_bytes written.old ++ encode_utf8_all (pair c)) }
{
    if c != '/' {
        written.push('\\')?;
    }
    written.push(c)
}

/// The source of a pattern with these characters in its body.
fn source_from(alloc: Global, text: &[char]) -> Result<String, AllocError>
    ensures { IfOk result (λ s. string_bytes s ≡ encode_utf8_all (source_of text.now)) }
{
    let mut written = String::new(alloc);
    let mut rest = text;
    while !rest.is_empty() {
        if rest[0] == '\\' && rest.len() > 1 {
            write_pair(&mut written, rest[1])?;
            rest = &rest[2..];
        } else {
            written.push(rest[0])?;
            rest = &rest[1..];
        }
    }
    Ok(written)
}

/// The source of a pattern with this body.
pub fn source_of(alloc: Global, body: &str) -> Result<String, AllocError>
    ensures { IfOk result (λ s. chars (string_bytes s) ≡ source_of (chars body.now)) }
{
    let text: Vec<char> = body.chars().collect(alloc)?;
    source_from(alloc, &text)
}
