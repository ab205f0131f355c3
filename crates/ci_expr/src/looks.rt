//! Patterns, and what they are looked for in, each once.

ghost use Rattle.std.specs.Prelude.{◌≡◌, OnOk};
ghost use Rattle.ci_expr.specs.Built.{pattern_view, patterns_view, same_pattern, look_view, looks_view, same_look, Look as Meant};
ghost use Rattle.ci_expr.specs.Distinct.{is_among, with_one};

use crate::pattern::Pattern;
use std::alloc::AllocError;

/// A pattern and a text that it is looked for in.
#[derive(Clone, Copy)]
pub struct Look<'a> {
    pub pattern: &'a Pattern,
    pub text: &'a str,
}

/// Whether two patterns are the same: one source, read with one flag.
pub fn same_pattern(a: &Pattern, b: &Pattern) -> bool
    ensures { result ≡ same_pattern (pattern_view a.now) (pattern_view b.now) }
{
    a.insensitive == b.insensitive && a.source.as_str() == b.source.as_str()
}

/// Whether the same pattern is among others.
fn has_pattern(patterns: &[&Pattern], pattern: &Pattern) -> bool
    ensures { result ≡ is_among same_pattern (pattern_view pattern.now) (patterns_view patterns.now) }
{
    for other in patterns {
        if same_pattern(pattern, other) {
            return true;
        }
    }
    false
}

/// Puts a pattern behind others, unless it is among them.
pub fn put_pattern<'a>(
    patterns: &mut Vec<&'a Pattern>,
    pattern: &'a Pattern,
) -> Result<(), AllocError>
    ensures { OnOk result (patterns_view patterns.new.items ≡ with_one same_pattern (patterns_view patterns.old.items) (pattern_view pattern.now)) }
{
    if !has_pattern(patterns, pattern) {
        patterns.push(pattern)?;
    }
    Ok(())
}

/// Whether this look is for a pattern in a text.
pub fn is_look(look: &Look, pattern: &Pattern, text: &str) -> bool
    ensures { result ≡ same_look (record { pattern = pattern_view pattern.now; text = text.now }) (look_view look.now) }
{
    same_pattern(pattern, look.pattern) && text == look.text
}

/// Whether a pattern is looked for in a text by one of these.
fn has_look(looks: &[Look], pattern: &Pattern, text: &str) -> bool
    ensures { result ≡ is_among same_look (record { pattern = pattern_view pattern.now; text = text.now }) (looks_view looks.now) }
{
    for look in looks {
        if is_look(look, pattern, text) {
            return true;
        }
    }
    false
}

/// Puts a look for a pattern in a text behind others, unless it is among them.
pub fn put_look<'a>(
    looks: &mut Vec<Look<'a>>,
    pattern: &'a Pattern,
    text: &'a str,
) -> Result<(), AllocError>
    ensures { OnOk result (looks_view looks.new.items ≡ with_one same_look (looks_view looks.old.items) (record { pattern = pattern_view pattern.now; text = text.now })) }
{
    if !has_look(looks, pattern, text) {
        looks.push(Look { pattern, text })?;
    }
    Ok(())
}
