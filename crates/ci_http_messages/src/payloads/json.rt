//! The JSON object that a body is, and the texts of its members.

ghost use Rattle.std.specs.Prelude.{◌≡◌, ◌⊎◌, None, Some, IfOk, IfErr, OnOk, option_map};
ghost use Rattle.serde_json.specs.View.{view};
ghost use Rattle.ci_http_messages.specs.Json.{MayBeJson, object_in, text_of, text_or_empty};
ghost use Rattle.ci_http_messages.specs.Refusals.{IsWhyNot};

use ci_machine::reply::Code;
use serde_json::Value;
use std::alloc::Global;
use std::str;

/// The JSON object that the bytes write in UTF-8. Errors: they write none (H7); memory was refused
/// (M16).
#[tactic(auto, using(crate::proofs::Utf8::is_text, crate::proofs::Utf8::no_text))]
pub(crate) fn object_in(alloc: Global, body: &[u8]) -> Result<Value, Code>
    ensures ok { IfOk result (λ value. object_in body.now ≡ Some (view value)) }
    ensures text { OnOk result (MayBeJson body.now) }
    ensures err { IfErr result (λ why. IsWhyNot (MayBeJson body.now) why (object_in body.now)) }
{
    let Ok(text) = str::from_utf8(body) else {
        return Err(Code::H7);
    };
    match Value::from_str(alloc, text) {
        Ok(value) if value.is_object() => Ok(value),
        Ok(_) => Err(Code::H7),
        Err(e) if e.is_memory() => Err(Code::M16),
        Err(_) => Err(Code::H7),
    }
}

/// The text of a member that has to be there. `None` where it is missing, or of another kind.
pub(crate) fn text_of(member: Option<&Value>) -> Option<&str>
    ensures { option_map (λ text. text.now) result ≡ text_of (option_map (λ value. view value.now) member.entry) }
{
    member?.as_str()
}

/// The text of a member, which is empty where the member is missing. `None` where it is of another
/// kind.
pub(crate) fn text_or_empty(member: Option<&Value>) -> Option<&str>
    ensures { option_map (λ text. text.now) result ≡ text_or_empty (option_map (λ value. view value.now) member.entry) }
{
    match member {
        Some(value) => value.as_str(),
        None => Some(""),
    }
}
