//! What building a pattern costs, and looking for it.

ghost use Rattle.std.specs.Prelude.{◌≡◌, ◌≤◌, ◌+◌, length, string_bytes, sum_by};
ghost use Rattle.ci_expr.specs.Budget.{is_class_mark, class_marks, class_cost, Leaves};
ghost use Rattle.ci_expr.specs.Budget.{is_flag, names_unicode, drops_unicode, may_drop_unicode};
ghost use Rattle.ci_expr.specs.Built.{pattern_view, patterns_view, cost_of, look_view, looks_view, look_cost};

use crate::looks::Look;
use crate::pattern::Pattern;

/// A byte where a class may begin or a range may be.
fn is_class_mark(byte: u8) -> bool
    ensures { result ≡ is_class_mark byte }
{
    byte == b'\\' || byte == b'[' || byte == b'-'
}

/// How many of the bytes are such.
fn class_marks(bytes: &[u8]) -> usize
    ensures value { result ≡ class_marks bytes.now }
    ensures bound { result ≤ length bytes.now }
{
    let mut count = 0;
    for byte in bytes {
        if is_class_mark(*byte) {
            count += 1;
        }
    }
    count
}

/// What a class costs.
fn class_cost(insensitive: bool) -> usize
    ensures { result ≡ class_cost insensitive }
{
    if insensitive { 250 } else { 50 }
}

/// What is left of a budget behind what building a pattern costs, or nothing where it costs more.
pub fn left_by_pattern(pattern: &Pattern, budget: usize) -> Option<usize>
    ensures { Leaves budget (cost_of (pattern_view pattern.now)) result }
{
    let marks = class_marks(pattern.source.as_bytes());
    let classes = class_cost(pattern.insensitive).checked_mul(marks)?;
    budget
        .checked_sub(20)?
        .checked_sub(pattern.source.len())?
        .checked_sub(classes)?
        .checked_sub(pattern.bytes / 100)
}

/// A letter of a flag.
fn is_flag(byte: u8) -> bool
    ensures { result ≡ is_flag byte }
{
    byte == b'i'
        || byte == b'm'
        || byte == b's'
        || byte == b'U'
        || byte == b'u'
        || byte == b'R'
        || byte == b'x'
}

/// Whether flags begin here, with `u` among them.
fn names_unicode(bytes: &[u8]) -> bool
    ensures { result ≡ names_unicode bytes.now }
{
    for byte in bytes {
        if *byte == b'u' {
            return true;
        }
        if !is_flag(*byte) {
            return false;
        }
    }
    false
}

/// Whether flags begin here, with `u` among those behind a hyphen.
fn drops_unicode(bytes: &[u8]) -> bool
    ensures { result ≡ drops_unicode bytes.now }
{
    let mut rest = bytes;
    while !rest.is_empty() {
        if rest[0] == b'-' {
            return names_unicode(&rest[1..]);
        }
        if !is_flag(rest[0]) {
            return false;
        }
        rest = &rest[1..];
    }
    false
}

/// Whether flags may turn Unicode off, as in `(?-u)`.
fn may_drop_unicode(bytes: &[u8]) -> bool
    ensures { result ≡ may_drop_unicode bytes.now }
{
    let mut rest = bytes;
    while !rest.is_empty() {
        if rest[0] == b'?' && drops_unicode(&rest[1..]) {
            return true;
        }
        rest = &rest[1..];
    }
    false
}

/// What is left of a budget behind what building patterns costs, or nothing where it costs more. A unit is about a microsecond.
pub fn left_by_patterns(patterns: &[&Pattern], budget: usize) -> Option<usize>
    ensures { Leaves budget (sum_by cost_of (patterns_view patterns.now)) result }
{
    let mut left = budget;
    for pattern in patterns {
        match left_by_pattern(pattern, left) {
            Some(next) => left = next,
            None => return None,
        }
    }
    Some(left)
}

/// What is left of a budget behind what a look costs, or nothing where it costs more.
fn left_by_look(look: &Look, budget: usize) -> Option<usize>
    ensures { Leaves budget (look_cost (look_view look.now)) result }
{
    let places = look.text.len().checked_add(1)?;
    let once = look.pattern.bytes.checked_mul(places)?;
    if may_drop_unicode(look.pattern.source.as_bytes()) {
        budget.checked_sub(once.checked_mul(places)?)
    } else {
        budget.checked_sub(once)
    }
}

/// What is left of a budget behind what looks cost, or nothing where they cost more. A unit is a byte of a pattern's tables at one place of
/// a text, about a nanosecond.
pub fn left_by_looks(looks: &[Look], budget: usize) -> Option<usize>
    ensures { Leaves budget (sum_by look_cost (looks_view looks.now)) result }
{
    let mut left = budget;
    for look in looks {
        match left_by_look(look, left) {
            Some(next) => left = next,
            None => return None,
        }
    }
    Some(left)
}
