//! The bodies that carry one text: a token, the value of a variable, a CI file.

ghost use Rattle.std.specs.Prelude.{◌≡◌, true, Some, IfOk, IfErr};
ghost use Rattle.std.specs.Str.{is_utf8};
ghost use Rattle.ci_http_messages.specs.Json.{MayBeJson};
ghost use Rattle.ci_http_messages.specs.Refusals.{IsWhyNot};
ghost use Rattle.ci_http_messages.specs.Texts.{token_in, value_in, file_in};

use crate::payloads::copy::copy_of;
use crate::payloads::json::{object_in, text_of, text_or_empty};
use ci_machine::reply::Code;
use ci_machine::text::Text;
use std::alloc::Global;
use std::str;

/// The token in a body: the member `token` of a JSON object, a text. It is empty where the member
/// is missing.
///
/// Errors: the body is something else (H7); memory was refused (M16).
pub fn token_in(alloc: Global, body: &[u8]) -> Result<Text, Code>
    ensures ok { IfOk result (λ token. token_in body.now ≡ Some token) }
    ensures err { IfErr result (λ why. IsWhyNot (MayBeJson body.now) why (token_in body.now)) }
{
    let object = object_in(alloc, body)?;
    let Some(token) = text_or_empty(object.get("token")) else {
        return Err(Code::H7);
    };
    copy_of(alloc, token)
}

/// The value of a variable in a body: the member `value` of a JSON object, a text.
///
/// Errors: the body is something else (H7); memory was refused (M16).
pub fn value_in(alloc: Global, body: &[u8]) -> Result<Text, Code>
    ensures ok { IfOk result (λ value. value_in body.now ≡ Some value) }
    ensures err { IfErr result (λ why. IsWhyNot (MayBeJson body.now) why (value_in body.now)) }
{
    let object = object_in(alloc, body)?;
    let Some(value) = text_of(object.get("value")) else {
        return Err(Code::H7);
    };
    copy_of(alloc, value)
}

/// The CI file that a body is: any text in UTF-8.
///
/// Errors: the body isn't UTF-8 (H7); memory was refused (M16).
#[tactic(auto, using(crate::proofs::Utf8::is_text, crate::proofs::Utf8::no_text))]
pub fn file_in(alloc: Global, body: &[u8]) -> Result<Text, Code>
    ensures ok { IfOk result (λ file. file_in body.now ≡ Some file) }
    ensures err { IfErr result (λ why. IsWhyNot (is_utf8 body.now ≡ true) why (file_in body.now)) }
{
    let Ok(text) = str::from_utf8(body) else {
        return Err(Code::H7);
    };
    copy_of(alloc, text)
}
