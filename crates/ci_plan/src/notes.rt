//! Comparisons in rules that mean something else here than they do in GitLab, since nothing defines a variable of theirs.

ghost use Rattle.std.specs.Prelude.{◌≡◌, [], ◌∷◌, ◌++◌, IfOk, OnOk, option_map, map};
ghost use Rattle.ci_machine_steps.specs.Prelude.{layer_view, meaning_of};
ghost use Rattle.ci_config.specs.Prelude.{value_view};
ghost use Rattle.ci_graph_layout.specs.Prelude.{token_view, list_of, map_of, text_of, config_view, pairs_view, values_view, names, given_view};
ghost use Rattle.ci_plan.specs.Notes.{is_defined, is_other_of_gitlab, is_of_gitlab, is_sign, variable_of, matters, side, first_compared, compared, compared_in, known, member, rules_in, items_by, condition_in, with_names, of_condition, of_rules, is_noted, each_once, notes_of};

use crate::records::Note;
use ci_config::Config;
use ci_expr::{ExprFault, Kind, Token, tokens};
use ci_graph_layout::{Given, seen};
use ci_machine::text::Text;
use ci_values::items::Items;
use ci_yaml::Tree;
use ci_yaml_lines::tree::Text as Words;
use std::alloc::{AllocError, Global};

/// A rule of a job, and the variables that it sees.
#[derive(Clone, Copy)]
struct Asking<'a> {
    job: &'a str,
    /// The number of the rule, from 1.
    rule: usize,
    seen: &'a [(&'a str, &'a str)],
}

/// Have the variables one of this name?
fn has_name(variables: &[(&str, &str)], name: &str) -> bool
    ensures { result ≡ names (layer_view variables.now) name.now }
{
    for variable in variables {
        if variable.0 == name {
            return true;
        }
    }
    false
}

/// Do the rules see the variable, or does another pipeline have it, of a branch or of a tag?
fn is_defined(seen: &[(&str, &str)], name: &str) -> bool
    ensures { result ≡ is_defined (layer_view seen.now) name.now }
{
    has_name(seen, name) || name == "CI_COMMIT_BRANCH" || name == "CI_COMMIT_TAG"
}

fn is_other_of_gitlab(name: &str) -> bool
    ensures { result ≡ is_other_of_gitlab name.now }
{
    name == "CHAT_CHANNEL"
        || name == "CHAT_INPUT"
        || name == "CHAT_USER_ID"
        || name == "KUBECONFIG"
        || name == "TRIGGER_PAYLOAD"
}

/// Does GitLab predefine the variable, by its name?
fn is_of_gitlab(name: &str) -> bool
    ensures { result ≡ is_of_gitlab name.now }
{
    let bytes = name.as_bytes();
    bytes.starts_with(b"CI_") || bytes.starts_with(b"GITLAB_") || is_other_of_gitlab(name)
}

/// Is there a note of the variable?
fn is_noted(notes: &[Note], name: &str) -> bool
    ensures { result ≡ is_noted notes.now name.now }
{
    for note in notes {
        if note.variable.as_str() == name {
            return true;
        }
    }
    false
}

/// Notes that a rule compares with a variable, where nothing defines it and it isn't noted yet.
fn put_note(
    alloc: Global,
    asking: Asking<'_>,
    notes: &mut Vec<Note>,
    name: &str,
) -> Result<(), AllocError>
    ensures { OnOk result (notes.new.items ≡ with_names asking.entry notes.old.items (name.now ∷ [])) }
{
    if is_defined(asking.seen, name) || is_noted(notes, name) {
        return Ok(());
    }
    notes.push(Note {
        job: Text::copy_of(alloc, asking.job)?,
        rule: asking.rule,
        variable: Text::copy_of(alloc, name)?,
    })?;
    Ok(())
}

/// The name of the variable that a token is.
fn variable_of<'a>(token: &Token<'a>) -> Option<&'a str>
    ensures { option_map (λ s. s.now) result ≡ variable_of (token_view token.now) }
{
    match token.kind {
        Kind::Name => token.slice.strip_prefix('$'),
        _ => None,
    }
}

/// Is it `==`, `!=`, `=~` or `!~`?
fn is_sign(kind: Kind) -> bool
    ensures { result ≡ is_sign kind }
{
    matches!(
        kind,
        Kind::Equal | Kind::Unequal | Kind::Match | Kind::Mismatch
    )
}

/// Is a variable that nothing defines to be noted, beside what it is compared with?
fn matters(name: &str, other: Kind) -> bool
    ensures { result ≡ matters name.now other }
{
    match other {
        Kind::Name => true,
        Kind::Text | Kind::Pattern => is_of_gitlab(name),
        _ => false,
    }
}

/// Notes the variable of one side of a comparison, whose other side is of this kind.
fn put_side(
    alloc: Global,
    asking: Asking<'_>,
    notes: &mut Vec<Note>,
    token: &Token<'_>,
    other: Kind,
) -> Result<(), AllocError>
    ensures { OnOk result (notes.new.items ≡ with_names asking.entry notes.old.items (side (token_view token.now) other)) }
{
    let Some(name) = variable_of(token) else {
        return Ok(());
    };
    if matters(name, other) {
        put_note(alloc, asking, notes, name)?;
    }
    Ok(())
}

/// Notes both sides of a comparison, the left one first.
#[tactic(auto, using(crate::proofs::Noting::once_more))]
fn put_sides(
    alloc: Global,
    asking: Asking<'_>,
    notes: &mut Vec<Note>,
    left: &Token<'_>,
    right: &Token<'_>,
) -> Result<(), AllocError>
    ensures { OnOk result (notes.new.items ≡ with_names asking.entry notes.old.items (side (token_view left.now) right.now.kind ++ side (token_view right.now) left.now.kind)) }
{
    put_side(alloc, asking, notes, left, right.kind)?;
    put_side(alloc, asking, notes, right, left.kind)
}

/// Notes both sides of a comparison, where tokens begin with one.
fn put_first(
    alloc: Global,
    asking: Asking<'_>,
    notes: &mut Vec<Note>,
    tokens: &[Token<'_>],
) -> Result<(), AllocError>
    ensures { OnOk result (notes.new.items ≡ with_names asking.entry notes.old.items (first_compared (map token_view tokens.now))) }
{
    match tokens {
        [left, sign, right, ..] => {
            if is_sign(sign.kind) {
                put_sides(alloc, asking, notes, left, right)?;
            }
            Ok(())
        }
        _ => Ok(()),
    }
}

/// Notes the comparisons of tokens.
fn put_of_tokens(
    alloc: Global,
    asking: Asking<'_>,
    notes: &mut Vec<Note>,
    tokens: &[Token<'_>],
) -> Result<(), AllocError>
    ensures { OnOk result (notes.new.items ≡ with_names asking.entry notes.old.items (compared (map token_view tokens.now))) }
{
    for place in 0..tokens.len() {
        put_first(alloc, asking, notes, &tokens[place..])?;
    }
    Ok(())
}

/// Notes the comparisons of a condition's text.
fn put_of_text(
    alloc: Global,
    asking: Asking<'_>,
    notes: &mut Vec<Note>,
    text: &str,
) -> Result<(), AllocError>
    ensures { OnOk result (notes.new.items ≡ with_names asking.entry notes.old.items (compared_in text.now)) }
{
    match tokens(alloc, text) {
        Ok(tokens) => put_of_tokens(alloc, asking, notes, &tokens),
        Err(ExprFault::Memory) => Err(AllocError),
        Err(ExprFault::Fault(_)) => Ok(()),
    }
}

/// The pairs of a map.
fn pairs_of<'a, 't>(tree: &'a Tree<'t>) -> Option<&'a [(Words<'t>, Tree<'t>)]>
    ensures { option_map (λ s. pairs_view s.now) result ≡ known (map_of (value_view tree.now)) }
{
    match tree {
        Tree::Map(pairs) => Some(pairs.as_slice()),
        _ => None,
    }
}

/// The value of a key among pairs.
fn value_in<'a, 't>(pairs: &'a [(Words<'t>, Tree<'t>)], key: &str) -> Option<&'a Tree<'t>>
    ensures { option_map (λ t. value_view t.now) result ≡ meaning_of (pairs_view pairs.now) key.now }
{
    for pair in pairs {
        if pair.0.as_str() == key {
            return Some(&pair.1);
        }
    }
    None
}

/// The value of a map's key, if it is a map that has it.
fn member<'a, 't>(tree: &'a Tree<'t>, key: &str) -> Option<&'a Tree<'t>>
    ensures { option_map (λ t. value_view t.now) result ≡ member key.now (value_view tree.now) }
{
    match pairs_of(tree) {
        Some(pairs) => value_in(pairs, key),
        None => None,
    }
}

/// The items of a list.
fn items_of<'a, 't>(tree: &'a Tree<'t>) -> Option<&'a [Tree<'t>]>
    ensures { option_map (λ s. values_view s.now) result ≡ known (list_of (value_view tree.now)) }
{
    match tree {
        Tree::List(items) => Some(items.as_slice()),
        _ => None,
    }
}

/// The text that a tree is.
fn text_of<'a>(tree: &'a Tree<'_>) -> Option<&'a str>
    ensures { option_map (λ s. s.now) result ≡ known (text_of (value_view tree.now)) }
{
    match tree {
        Tree::Text(text) => Some(text.as_str()),
        _ => None,
    }
}

/// The rules of a job of a file.
fn rules_in<'a, 't>(tree: &'a Tree<'t>, job: &str) -> Option<&'a [Tree<'t>]>
    ensures { items_by (option_map (λ s. values_view s.now) result) ≡ rules_in (value_view tree.now) job.now }
{
    match member(tree, job) {
        Some(of_job) => match member(of_job, "rules") {
            Some(rules) => items_of(rules),
            None => None,
        },
        None => None,
    }
}

/// The text of a rule's condition.
fn condition_in<'a>(rule: &'a Tree<'_>) -> Option<&'a str>
    ensures { option_map (λ s. s.now) result ≡ condition_in (value_view rule.now) }
{
    match member(rule, "if") {
        Some(condition) => text_of(condition),
        None => None,
    }
}

/// Notes the comparisons of a rule.
fn put_of_rule(
    alloc: Global,
    asking: Asking<'_>,
    notes: &mut Vec<Note>,
    rule: &Tree<'_>,
) -> Result<(), AllocError>
    ensures { OnOk result (notes.new.items ≡ each_once notes.old.items (of_condition asking.entry.job.now asking.entry.rule (layer_view asking.entry.seen.now) (condition_in (value_view rule.now)))) }
{
    match condition_in(rule) {
        Some(text) => put_of_text(alloc, asking, notes, text),
        None => Ok(()),
    }
}

/// Notes the comparisons of a job's rules, which see these variables.
#[tactic(auto, using(crate::proofs::Noting::each_once_more))]
fn put_of_rules<'x>(
    alloc: Global,
    rules: &[Tree<'_>],
    job: &'x str,
    seen: &'x [(&'x str, &'x str)],
    notes: &mut Vec<Note>,
) -> Result<(), AllocError>
    ensures { OnOk result (notes.new.items ≡ each_once notes.old.items (of_rules job.now 1 (layer_view seen.now) (values_view rules.now))) }
{
    for (i, rule) in rules.iter().enumerate() {
        let asking = Asking {
            job,
            rule: i + 1,
            seen,
        };
        put_of_rule(alloc, asking, notes, rule)?;
    }
    Ok(())
}

/// Notes the comparisons of the rules that a job of a file has, which see these variables.
fn put_of_job<'x>(
    alloc: Global,
    tree: &Tree<'_>,
    job: &'x str,
    seen: &'x [(&'x str, &'x str)],
    notes: &mut Vec<Note>,
) -> Result<(), AllocError>
    ensures { OnOk result (notes.new.items ≡ each_once notes.old.items (of_rules job.now 1 (layer_view seen.now) (rules_in (value_view tree.now) job.now))) }
{
    match rules_in(tree, job) {
        Some(rules) => put_of_rules(alloc, rules, job, seen, notes),
        None => Ok(()),
    }
}

/// A note for each variable that nothing defines, where a rule of the file compares it with another variable, or with a text or a pattern where it
/// is one of GitLab's: the first rule that does. Errors: memory was refused.
#[tactic(auto, using(crate::proofs::Noting::each_once_more), unfolding(crate::specs::Notes::notes_of))]
pub(crate) fn notes<'a, 't>(
    alloc: Global,
    tree: &Tree<'_>,
    given: &Given<'a>,
    config: &'a Config<'t>,
) -> Result<Items<Note>, AllocError>
    ensures { IfOk result (λ notes. notes ≡ notes_of (given_view given.now) (config_view config.now) (value_view tree.now)) }
{
    let mut found = Vec::new(alloc);
    for job in &config.jobs {
        let pairs = seen(alloc, given, config, job)?;
        put_of_job(alloc, tree, job.name, &pairs, &mut found)?;
    }
    Ok(Items::new(found))
}
