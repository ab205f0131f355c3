//! What looking for patterns came to, kept so that each look is made once.

ghost use Rattle.std.specs.Prelude.{◌≡◌, ◌++◌, true, filter, chars, string_bytes, is_some, IfSome, IfOk, IfErr, OnOk};
ghost use Rattle.ci_expr.specs.Answered.{answered, AreAnswered, RefusesLooks};
ghost use Rattle.ci_expr.specs.Built.{pattern_view, same_pattern, looks_view, same_look};
ghost use Rattle.ci_expr.specs.Distinct.{is_among};
ghost use Rattle.ci_expr.specs.Found.{config_of, is_found_in};
ghost use Rattle.ci_expr.specs.View.{IsOfPattern};

use crate::answer::Answer;
use crate::fault::ExprFault;
use crate::looks::{Look, is_look, same_pattern};
use crate::pattern::{Pattern, automaton_of, is_found_by};
use regex_vm::PikeVm;
use std::alloc::Global;

/// What looks came to.
#[derive(Drop)]
pub struct Answers<'a> {
    answers: Vec<Answer<'a>>,
}

impl<'a> Answers<'a> {
    /// Of these looks, no two of which are the same: each is made once. A pattern is built once, and let go before the next is built.
    ///
    /// Errors: memory was refused; or `regex`, which has built each pattern before, now refuses one (X8).
    pub fn of(alloc: Global, looks: &[Look<'a>]) -> Result<Answers<'a>, ExprFault>
        ensures answered { IfOk result (λ a. AreAnswered a (looks_view looks.now)) }
        ensures refused { IfErr result (λ e. RefusesLooks e (looks_view looks.now)) }
    {
        let mut answers = Answers {
            answers: Vec::new(alloc),
        };
        for look in looks {
            if answers.find(look.pattern, look.text).is_none() {
                answers.put_all(alloc, look.pattern, looks)?;
            }
        }
        Ok(answers)
    }

    /// Makes those of the looks that are for this pattern.
    fn put_all(
        &mut self,
        alloc: Global,
        pattern: &Pattern,
        looks: &[Look<'a>],
    ) -> Result<(), ExprFault>
        ensures answered { OnOk result (answered self.new ≡ answered self.old ++ filter (λ l. same_pattern (pattern_view pattern.now) l.pattern) (looks_view looks.now)) }
        ensures refused { IfErr result IsOfPattern }
    {
        let nfa = automaton_of(alloc, pattern)?;
        let mut search = PikeVm::new(alloc, &nfa)?;
        for look in looks {
            if same_pattern(pattern, look.pattern) {
                let found = is_found_by(&mut search, &nfa, look.pattern, look.text);
                self.answers.push(Answer { look: *look, found })?;
            }
        }
        Ok(())
    }

    /// Whether a pattern was found in a text, where that was looked for.
    fn find(&self, pattern: &Pattern, text: &str) -> Option<bool>
        ensures answered { is_some result ≡ is_among same_look (record { pattern = pattern_view pattern.now; text = text.now }) (answered self.now) }
        ensures found { IfSome result (λ found. found ≡ is_found_in (config_of pattern.now.insensitive) (chars (string_bytes pattern.now.source)) text.now) }
    {
        for answer in &self.answers {
            if is_look(&answer.look, pattern, text) {
                return Some(answer.found);
            }
        }
        None
    }

    /// Whether a pattern is found in a text, where that was looked for, and else false.
    pub fn is_found(&self, pattern: &Pattern, text: &str) -> bool
        ensures { is_among same_look (record { pattern = pattern_view pattern.now; text = text.now }) (answered self.now) ≡ true
            → result ≡ is_found_in (config_of pattern.now.insensitive) (chars (string_bytes pattern.now.source)) text.now }
    {
        self.find(pattern, text).unwrap_or(false)
    }
}
