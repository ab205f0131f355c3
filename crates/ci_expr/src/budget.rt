//! What is left for building patterns, and the patterns that were paid from it.

ghost use Rattle.std.specs.Prelude.{◌≡◌, ◌+◌, ◌++◌, ◌∷◌, ℕ, [], string_bytes, chars, is_some, IfOk, IfErr, IfSome};
ghost use Rattle.ci_expr.specs.Built.{pattern_view, same_pattern, cost_of, built_of, spent};
ghost use Rattle.ci_expr.specs.Distinct.{is_among, with_one};
ghost use Rattle.ci_expr.specs.Found.{IsPattern};
ghost use Rattle.ci_expr.specs.View.{IsOfPattern};

use crate::cost::left_by_pattern;
use crate::fault::{ExprCode, ExprFault};
use crate::pattern::{Pattern, Refusal, checked};
use std::alloc::{AllocError, Global};

/// What building patterns may still cost, and those that were built: the same pattern is built and paid once.
#[derive(Drop)]
pub struct PatternBudget {
    /// What is left. A unit is about a microsecond.
    pub left: usize,
    /// The patterns that were built, each once.
    pub built: Vec<Pattern>,
}

/// The same pattern, with its source in this text.
fn with_source(pattern: &Pattern, source: String) -> Pattern
    requires { string_bytes source ≡ string_bytes pattern.now.source }
    ensures { pattern_view result ≡ pattern_view pattern.now }
{
    Pattern {
        source,
        insensitive: pattern.insensitive,
        bytes: pattern.bytes,
    }
}

/// Whether a pattern has this source and flag.
fn is_written(pattern: &Pattern, source: &str, insensitive: bool) -> bool
    ensures { (bytes : ℕ) → result ≡ same_pattern (record { insensitive = insensitive; source = source.now; bytes = bytes }) (pattern_view pattern.now) }
{
    insensitive == pattern.insensitive && source == pattern.source.as_str()
}

impl PatternBudget {
    /// A budget of so much, from which nothing was paid yet.
    pub fn new(alloc: Global, left: usize) -> PatternBudget
        ensures left { result.left ≡ left }
        ensures built { built_of result ≡ [] }
    {
        PatternBudget {
            left,
            built: Vec::new(alloc),
        }
    }

    /// The pattern of this source and flag, where it was built.
    fn known(&self, source: &str, insensitive: bool) -> Option<&Pattern>
        ensures same { IfSome result (λ p. (p.now.insensitive ≡ insensitive) × (string_bytes p.now.source ≡ source.now)) }
        ensures known { (bytes : ℕ) → is_some result ≡ is_among same_pattern (record { insensitive = insensitive; source = source.now; bytes = bytes }) (built_of self.now) }
    {
        for pattern in &self.built {
            if is_written(pattern, source, insensitive) {
                return Some(pattern);
            }
        }
        None
    }

    /// Pays for a pattern that was built, or says that it costs more than is left.
    fn pay(&mut self, pattern: &Pattern) -> Result<(), ExprFault>
        ensures built { IfOk result (λ _. built_of self.new ≡ built_of self.old ++ pattern_view pattern.now ∷ []) }
        ensures left { IfOk result (λ _. self.new.left + cost_of (pattern_view pattern.now) ≡ self.old.left) }
        ensures refused { IfErr result IsOfPattern }
    {
        let Some(left) = left_by_pattern(pattern, self.left) else {
            return Err(ExprFault::Fault(ExprCode::X8));
        };
        let source = pattern.source.clone()?;
        self.built.push(with_source(pattern, source))?;
        self.left = left;
        Ok(())
    }

    /// The pattern of this source and flag: as it was built before, or built and paid now.
    pub fn pattern(
        &mut self,
        alloc: Global,
        source: String,
        insensitive: bool,
    ) -> Result<Pattern, ExprFault>
        ensures source { IfOk result (λ p. string_bytes p.source ≡ string_bytes source) }
        ensures flag { IfOk result (λ p. p.insensitive ≡ insensitive) }
        ensures pattern { IfOk result (λ p. IsPattern insensitive (chars (string_bytes source))) }
        ensures built { IfOk result (λ p. built_of self.new ≡ with_one same_pattern (built_of self.old) (pattern_view p)) }
        ensures left { IfOk result (λ p. self.new.left + spent self.new ≡ self.old.left + spent self.old) }
        ensures refused { IfErr result IsOfPattern }
    {
        if let Some(known) = self.known(source.as_str(), insensitive) {
            return Ok(with_source(known, source));
        }
        match checked(alloc, source, insensitive) {
            Ok(pattern) => {
                self.pay(&pattern)?;
                Ok(pattern)
            }
            Err(Refusal::Memory) => Err(ExprFault::Memory),
            Err(Refusal::Syntax | Refusal::Size) => Err(ExprFault::Fault(ExprCode::X8)),
        }
    }
}
