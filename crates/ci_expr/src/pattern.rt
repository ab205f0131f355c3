//! Patterns, kept as their texts and built when they are asked.

ghost use Rattle.std.specs.Prelude.{◌≡◌, ◌≢◌, ◌≤◌, ◌+◌, ◌*◌, ◌^◌, is_some, not, chars, string_bytes, vec_len, IfOk, IfErr};
ghost use Rattle.regex.specs.Patterns.{Re, find_str};
ghost use Rattle.regex_hir.specs.Meaning.{meaning};
ghost use Rattle.regex_hir.specs.Text.{is_boundary};
ghost use Rattle.regex_nfa.specs.Sizes.{table_bytes};
ghost use Rattle.regex_compile.specs.Implements.{Implements};
ghost use Rattle.ci_expr.specs.Found.{config_of, is_found_in, IsAutomatonOf, HasTables, IsPattern, IsRefused};
ghost use Rattle.ci_expr.specs.View.{IsOfPattern};

use crate::fault::{ExprCode, ExprFault};
use regex_compile::{Error, compile};
use regex_nfa::Nfa;
use regex_syntax::{Config, ErrorKind, Parsed, parse};
use regex_vm::PikeVm;
use std::alloc::Global;

/// The most bytes that the tables of a built pattern may take, by `regex`'s own limit: 2 MiB.
pub const MAX_PATTERN_BYTES: usize = 2_097_152;

/// A pattern that was built once.
#[derive(Drop)]
pub struct Pattern {
    /// Its text, as `regex` reads it.
    pub source: String,
    /// Letters match in either case.
    pub insensitive: bool,
    /// What the tables of its automaton take, in bytes.
    pub bytes: usize,
    pub ghost measured: { HasTables insensitive (string_bytes source) bytes },
}

/// Why a pattern was not built.
#[derive(Drop)]
pub enum Refusal {
    /// Memory was refused.
    Memory,
    /// It is no pattern of `regex`.
    Syntax,
    /// It takes more than `MAX_PATTERN_BYTES`.
    Size,
}

/// The options under which a pattern is read, where `insensitive` says that letters match in either case.
fn options(insensitive: bool) -> Config
    ensures { result ≡ config_of insensitive }
{
    let mut options = Config::default();
    options.flags.case_insensitive = insensitive;
    options
}

/// The automaton of what was read.
fn automaton(alloc: Global, parsed: &Parsed) -> Result<Nfa, Refusal>
    ensures implements { IfOk result (λ nfa. Implements nfa (meaning parsed.now.hir)) }
    ensures small { IfOk result (λ nfa. table_bytes nfa ≤ MAX_PATTERN_BYTES + 24) }
    ensures refused { IfErr result (λ e. e ≢ Refusal.Syntax) }
{
    let Ok(groups) = u32::try_from(parsed.names.len()) else {
        return Err(Refusal::Size);
    };
    match compile(alloc, &parsed.hir, groups, MAX_PATTERN_BYTES) {
        Ok(nfa) => Ok(nfa),
        Err(Error::OutOfMemory) => Err(Refusal::Memory),
        // `Malformed` is never answered for what `parse` has read.
        Err(Error::TooBig | Error::Malformed) => Err(Refusal::Size),
    }
}

/// Builds the automaton of a pattern, where `insensitive` says that letters match in either case.
fn build_pattern(alloc: Global, source: &str, insensitive: bool) -> Result<Nfa, Refusal>
    ensures automaton { IfOk result (IsAutomatonOf insensitive source.now) }
    ensures pattern { IfOk result (λ nfa. IsPattern insensitive (chars source.now)) }
    ensures small { IfOk result (λ nfa. table_bytes nfa ≤ MAX_PATTERN_BYTES + 24) }
    ensures refused { IfErr result (IsRefused insensitive (chars source.now)) }
{
    match parse(alloc, source, &options(insensitive)) {
        Ok(parsed) => automaton(alloc, &parsed),
        Err(error) if error.kind == ErrorKind::OutOfMemory => Err(Refusal::Memory),
        Err(_) => Err(Refusal::Syntax),
    }
}

/// What the tables of an automaton take, in bytes: 12 for a state, and 8 for a range of a state that has several.
fn bytes_of(nfa: &Nfa) -> usize
    requires { table_bytes nfa.now ≤ MAX_PATTERN_BYTES + 24 }
    ensures { result ≡ table_bytes nfa.now }
{
    12 * nfa.states.len() + 8 * nfa.transitions.len()
}

/// The pattern of a text that can be built. It is built here to see that it can be and how large, and not kept.
pub fn checked(alloc: Global, source: String, insensitive: bool) -> Result<Pattern, Refusal>
    ensures source { IfOk result (λ p. p.source ≡ source) }
    ensures flag { IfOk result (λ p. p.insensitive ≡ insensitive) }
    ensures pattern { IfOk result (λ p. IsPattern insensitive (chars (string_bytes source))) }
    ensures refused { IfErr result (IsRefused insensitive (chars (string_bytes source))) }
{
    match build_pattern(alloc, source.as_str(), insensitive) {
        Ok(nfa) => Ok(Pattern {
            source,
            insensitive,
            bytes: bytes_of(&nfa),
        }),
        Err(refusal) => Err(refusal),
    }
}

/// Whether no character goes on at a place.
fn is_cut(text: &[u8], at: usize) -> bool
    ensures { result ≡ is_boundary text.now at }
{
    if at >= text.len() {
        return true;
    }
    (text[at] < 0x80) | (text[at] > 0xBF)
}

/// Whether an automaton finds a match somewhere in a text. An empty match inside a character is none.
fn finds(search: &mut PikeVm, nfa: &Nfa, text: &str) -> bool
    requires { search.old.states ≡ vec_len nfa.now.states }
    ensures found { (re : Re) → Implements nfa.now re → result ≡ is_some (find_str re text.now 0) }
    ensures states { search.new.states ≡ vec_len nfa.now.states }
{
    let bytes = text.as_bytes();
    let end = bytes.len();
    let mut at = 0;
    loop {
        let Some((from, _)) = search.find(nfa, bytes, at, end, end, &mut []) else {
            return false;
        };
        if is_cut(bytes, from) {
            return true;
        }
        at = from + 1;
    }
}

/// The automaton of a pattern. Errors: memory was refused; or `regex`, which has built it before, refuses it now (X8).
pub fn automaton_of(alloc: Global, pattern: &Pattern) -> Result<Nfa, ExprFault>
    ensures automaton { IfOk result (IsAutomatonOf pattern.now.insensitive (string_bytes pattern.now.source)) }
    ensures refused { IfErr result IsOfPattern }
{
    match build_pattern(alloc, pattern.source.as_str(), pattern.insensitive) {
        Ok(nfa) => Ok(nfa),
        Err(Refusal::Memory) => Err(ExprFault::Memory),
        Err(Refusal::Syntax | Refusal::Size) => Err(ExprFault::Fault(ExprCode::X8)),
    }
}

/// Whether a pattern is found somewhere in a text, by its automaton.
///
/// A search takes time by the automaton's states and the text's bytes, and memory by the states alone.
pub fn is_found_by(search: &mut PikeVm, nfa: &Nfa, pattern: &Pattern, text: &str) -> bool
    requires states { search.old.states ≡ vec_len nfa.now.states }
    requires automaton { IsAutomatonOf pattern.now.insensitive (string_bytes pattern.now.source) nfa.now }
    ensures found { result ≡
        is_found_in (config_of pattern.now.insensitive) (chars (string_bytes pattern.now.source)) text.now }
    ensures states { search.new.states ≡ vec_len nfa.now.states }
{
    finds(search, nfa, text)
}
