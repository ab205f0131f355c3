//! The process mode of a resource group.

ghost use Rattle.std.specs.Prelude.{◌≡◌, Some, IfOk, IfErr, option_map};
ghost use Rattle.serde_json.specs.View.{view};
ghost use Rattle.ci_http_messages.specs.Json.{MayBeJson};
ghost use Rattle.ci_http_messages.specs.Refusals.{IsWhyNot};
ghost use Rattle.ci_http_messages.specs.Modes.{order_named, mode_of, mode_in};

use crate::payloads::json::{object_in, text_of};
use ci_machine::records::GroupOrder;
use ci_machine::reply::Code;
use serde_json::Value;
use std::alloc::Global;

/// The process mode in a body: the member `process_mode` of a JSON object, one of `unordered`,
/// `oldest_first` and `newest_ready_first`. `None` is `unordered`.
///
/// Errors: the body is something else (H7); memory was refused (M16).
pub fn mode_in(alloc: Global, body: &[u8]) -> Result<Option<GroupOrder>, Code>
    ensures ok { IfOk result (λ order. mode_in body.now ≡ Some order) }
    ensures err { IfErr result (λ why. IsWhyNot (MayBeJson body.now) why (mode_in body.now)) }
{
    let object = object_in(alloc, body)?;
    match mode_of(object.get("process_mode")) {
        Some(order) => Ok(order),
        None => Err(Code::H7),
    }
}

// The mode that a member names.
fn mode_of(member: Option<&Value>) -> Option<Option<GroupOrder>>
    ensures { result ≡ mode_of (option_map (λ value. view value.now) member.entry) }
{
    order_named(text_of(member)?)
}

// The order whose mode has this text.
fn order_named(text: &str) -> Option<Option<GroupOrder>>
    ensures { result ≡ order_named text.now }
{
    if text == "unordered" {
        Some(None)
    } else if text == "oldest_first" {
        Some(Some(GroupOrder::OldestFirst))
    } else if text == "newest_ready_first" {
        Some(Some(GroupOrder::NewestReadyFirst))
    } else {
        None
    }
}
