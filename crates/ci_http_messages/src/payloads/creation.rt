//! A pipeline that is to be made.

ghost use Rattle.std.specs.Prelude.{◌≡◌, Some, IfOk, IfErr, option_map};
ghost use Rattle.serde_json.specs.View.{view, items_view};
ghost use Rattle.ci_http_messages.specs.Json.{MayBeJson};
ghost use Rattle.ci_http_messages.specs.Refusals.{IsWhyNot};
ghost use Rattle.ci_http_messages.specs.Creations.{ref_of, kind_of, source_named, source_of, variable_of, each_variable, variables_of, creation_in};

use crate::payloads::copy::copy_of;
use crate::payloads::json::{object_in, text_of};
use ci_machine::records::{RefKind, Source};
use ci_machine::reply::Code;
use ci_machine::request::{NewPipeline, PipelineVariable, PipelineVariables};
use ci_machine::text::Text;
use ci_values::text::is_name;
use serde_json::Value;
use std::alloc::Global;

/// The pipeline of a project that a body asks to make, with the project's token. The body is a JSON
/// object: `ref` is a name; `tag`, which may be missing, is true for a tag; `source`, which may be
/// missing, is one of `push`, `web`, `schedule`, `api` and `trigger`; and `variables`, which may be
/// missing, is a list of objects, each with a text `key` and a text `value`.
///
/// Errors: the body is something else (H7); memory was refused (M16).
pub fn creation_in(
    alloc: Global,
    project: u64,
    token: Text,
    body: &[u8],
) -> Result<NewPipeline, Code>
    ensures ok { IfOk result (λ creation. creation_in project token body.now ≡ Some creation) }
    ensures err { IfErr result (λ why. IsWhyNot (MayBeJson body.now) why (creation_in project token body.now)) }
{
    let object = object_in(alloc, body)?;
    let Some(git_ref) = ref_of(object.get("ref")) else {
        return Err(Code::H7);
    };
    let Some(kind) = kind_of(object.get("tag")) else {
        return Err(Code::H7);
    };
    let Some(source) = source_of(object.get("source")) else {
        return Err(Code::H7);
    };
    let variables = variables_of(alloc, object.get("variables"))?;
    let git_ref = copy_of(alloc, git_ref)?;
    Ok(NewPipeline {
        project,
        token,
        git_ref,
        kind,
        source,
        variables,
    })
}

// The branch or the tag that the pipeline runs for.
fn ref_of(member: Option<&Value>) -> Option<&str>
    ensures { option_map (λ text. text.now) result ≡ ref_of (option_map (λ value. view value.now) member.entry) }
{
    let text = text_of(member)?;
    if is_name(text) { Some(text) } else { None }
}

// Whether that is a tag.
fn kind_of(member: Option<&Value>) -> Option<RefKind>
    ensures { result ≡ kind_of (option_map (λ value. view value.now) member.entry) }
{
    let Some(value) = member else {
        return Some(RefKind::Branch);
    };
    Some(if value.as_bool()? {
        RefKind::Tag
    } else {
        RefKind::Branch
    })
}

// What made the pipeline.
fn source_of(member: Option<&Value>) -> Option<Source>
    ensures { result ≡ source_of (option_map (λ value. view value.now) member.entry) }
{
    match member {
        Some(value) => source_named(value.as_str()?),
        None => Some(Source::Api),
    }
}

// The source whose text this is.
fn source_named(text: &str) -> Option<Source>
    ensures { result ≡ source_named text.now }
{
    if text == "push" {
        Some(Source::Push)
    } else if text == "web" {
        Some(Source::Web)
    } else if text == "schedule" {
        Some(Source::Schedule)
    } else if text == "api" {
        Some(Source::Api)
    } else if text == "trigger" {
        Some(Source::Trigger)
    } else {
        None
    }
}

// The variables of the pipeline. Errors: the member is something else (H7); memory was refused (M16).
fn variables_of(alloc: Global, member: Option<&Value>) -> Result<PipelineVariables, Code>
    ensures ok { IfOk result (λ variables. variables_of (option_map (λ value. view value.now) member.entry) ≡ Some variables) }
    ensures err { IfErr result (λ why. IsWhyNot (Unit {0}) why (variables_of (option_map (λ value. view value.now) member.entry))) }
{
    let Some(value) = member else {
        return Ok(PipelineVariables::new(Vec::new(alloc)));
    };
    match value.as_array() {
        Some(entries) => each_variable(alloc, entries.as_slice()),
        None => Err(Code::H7),
    }
}

// The variables that the entries of the list are, in its order.
fn each_variable(alloc: Global, entries: &[Value]) -> Result<PipelineVariables, Code>
    ensures ok { IfOk result (λ variables. each_variable (items_view entries.now) ≡ Some variables) }
    ensures err { IfErr result (λ why. IsWhyNot (Unit {0}) why (each_variable (items_view entries.now))) }
{
    let mut variables = Vec::new(alloc);
    for entry in entries {
        let variable = variable_of(alloc, entry)?;
        let Ok(()) = variables.push(variable) else {
            return Err(Code::M16);
        };
    }
    Ok(PipelineVariables::new(variables))
}

// The variable that an entry of the list is.
fn variable_of(alloc: Global, entry: &Value) -> Result<PipelineVariable, Code>
    ensures ok { IfOk result (λ variable. variable_of (view entry.now) ≡ Some variable) }
    ensures err { IfErr result (λ why. IsWhyNot (Unit {0}) why (variable_of (view entry.now))) }
{
    let Some(key) = text_of(entry.get("key")) else {
        return Err(Code::H7);
    };
    let Some(value) = text_of(entry.get("value")) else {
        return Err(Code::H7);
    };
    let key = copy_of(alloc, key)?;
    let value = copy_of(alloc, value)?;
    Ok(PipelineVariable { key, value })
}
