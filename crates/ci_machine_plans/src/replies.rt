//! What the plans of several events share: refusals, the reply to what was made, tokens, and lists of row changes.

ghost use Rattle.std.specs.Prelude.{◌≡◌, ◌≤◌, ◌∷◌, ◌++◌, [], None, IfOk};
ghost use Rattle.ci_machine.specs.declared.change.RowChange.TheVariants as change;
ghost use Rattle.ci_machine.specs.declared.change.Record.TheVariants as row;
ghost use Rattle.ci_machine.specs.declared.reply.Detail.TheVariants as detail;
ghost use Rattle.serde_json.specs.Written.{compact_text};
ghost use Rattle.ci_machine_steps.specs.Prelude.{created_data};
ghost use Rattle.ci_machine_steps.specs.Plans as plans;
ghost use Rattle.ci_machine_plans.specs.Refusals as refusals;

use crate::body;
use ci_machine::change::{Changes, Counter, Record, RowChange};
use ci_machine::records::{Attempt, MAX_NUMBER};
use ci_machine::reply::{Body, Code, Detail, FaultCode, HttpStatus, Reply};
use ci_machine::request::Seed;
use ci_machine::text::Text;
use std::alloc::{AllocError, Global};

/// The plan that refuses an event: it changes nothing, and takes no memory.
pub fn refused(alloc: Global, code: Code) -> (Reply, Changes)
    ensures { result ≡ plans.refused code }
{
    unchanged(alloc, Reply::refusal(code))
}

/// Why what was to be made isn't.
#[derive(Clone, Copy, Drop)]
pub enum Refusal {
    Code(Code),
    /// M14, for this fault.
    Fault(FaultCode),
}

/// The plan that refuses what was to be made.
pub fn unmade(alloc: Global, refusal: Refusal) -> Result<(Reply, Changes), AllocError>
    ensures { IfOk result (λ plan. plan ≡ refusals.unmade refusal) }
{
    match refusal {
        Refusal::Code(code) => Ok(refused(alloc, code)),
        Refusal::Fault(code) => faulted(alloc, &Detail::Code(code)),
    }
}

/// The plan that refuses what has a fault: M14 with its detail.
pub fn faulted(alloc: Global, detail: &Detail) -> Result<(Reply, Changes), AllocError>
    ensures { IfOk result (λ plan. plan ≡ plans.faulted detail.now) }
{
    let text = body::fault(alloc, detail)?;
    let mut reply = Reply::refusal(Code::M14);
    reply.body = Some(Body::Json(text));
    Ok(unchanged(alloc, reply))
}

/// Why a record with a name isn't made with this next number, if it isn't: M14 `K16` where the name isn't one, M15 where
/// the number is over the limit.
pub(crate) fn refusal_of_named(name: &Text, next: u64) -> Option<Refusal>
    ensures plan { (made : plans.Plan) → refusals.unless result made ≡ refusals.named name.now next made }
    ensures within { result ≡ None → next ≤ MAX_NUMBER }
{
    if !name.is_name() {
        Some(Refusal::Fault(FaultCode::K(16)))
    } else if next > MAX_NUMBER {
        Some(Refusal::Code(Code::M15))
    } else {
        None
    }
}

/// A reply with no changes.
pub(crate) fn unchanged(alloc: Global, reply: Reply) -> (Reply, Changes)
    ensures { result ≡ (reply, []) }
{
    (reply, Changes::new(Vec::new(alloc)))
}

/// The token of a record: a letter, its number, a dash and the seed in hex.
pub(crate) fn token(
    alloc: Global,
    letter: &str,
    number: u64,
    seed: Seed,
) -> Result<Text, AllocError>
    ensures { IfOk result (λ t. t ≡ plans.token_of letter.now number seed) }
{
    let hex = hex::encode(alloc, seed.0)?;
    let hex = hex.as_str();
    let text = format!(in alloc; "{letter}{number}-{hex}")?;
    Ok(Text::new(text))
}

/// The token of a new project or runner, and the body that tells it.
pub(crate) fn identity(
    alloc: Global,
    letter: &str,
    id: u64,
    seed: Seed,
) -> Result<(Text, Text), AllocError>
    ensures token { IfOk result (λ made. made.0 ≡ plans.token_of letter.now id seed) }
    ensures body { IfOk result (λ made. made.1 ≡ compact_text (created_data id (plans.token_of letter.now id seed))) }
{
    let token = token(alloc, letter, id, seed)?;
    let text = body::created(alloc, id, &token)?;
    Ok((token, text))
}

/// These changes, and one more after them.
pub(crate) fn and(
    mut changes: Vec<RowChange>,
    change: RowChange,
) -> Result<Vec<RowChange>, AllocError>
    ensures { IfOk result (λ all. all.items ≡ changes.items ++ change ∷ []) }
{
    changes.push(change)?;
    Ok(changes)
}

/// A new record with this number, and the number that comes next.
fn numbered(alloc: Global, new: Record, counter: Counter, id: u64) -> Result<Changes, AllocError>
    requires { id ≤ MAX_NUMBER }
    ensures { IfOk result (λ changes. changes ≡ plans.numbered new counter id) }
{
    let changes = and(Vec::new(alloc), RowChange::Put(new))?;
    let changes = and(changes, RowChange::Put(Record::Next(counter, id + 1)))?;
    Ok(Changes::new(changes))
}

/// What was made is told with this body (201), and these are the changes.
pub fn created(text: Text, changes: Changes) -> (Reply, Changes)
    ensures { result ≡ (plans.created text, changes) }
{
    let mut reply = Reply::plain(HttpStatus::Created);
    reply.body = Some(Body::Json(text));
    (reply, changes)
}

/// The plan that makes a record with this number, and replies with this body (201).
pub(crate) fn made(
    alloc: Global,
    text: Text,
    new: Record,
    counter: Counter,
    id: u64,
) -> Result<(Reply, Changes), AllocError>
    requires { id ≤ MAX_NUMBER }
    ensures { IfOk result (λ plan. plan ≡ (plans.created text, plans.numbered new counter id)) }
{
    let changes = numbered(alloc, new, counter, id)?;
    Ok(created(text, changes))
}

/// A reply (200) with this body.
pub fn fine(body: Body) -> Reply
    ensures { result ≡ plans.fine body }
{
    let mut reply = Reply::plain(HttpStatus::Fine);
    reply.body = Some(body);
    reply
}

/// One change.
pub fn only(alloc: Global, change: RowChange) -> Result<Changes, AllocError>
    ensures { IfOk result (λ changes. changes ≡ change ∷ []) }
{
    let changes = and(Vec::new(alloc), change)?;
    Ok(Changes::new(changes))
}

/// An attempt in place of the one with its number.
pub(crate) fn put(alloc: Global, attempt: Attempt) -> Result<Changes, AllocError>
    ensures { IfOk result (λ changes. changes ≡ change.Put (row.Attempt attempt) ∷ []) }
{
    let changes = and(Vec::new(alloc), RowChange::Put(Record::Attempt(attempt)))?;
    Ok(Changes::new(changes))
}
