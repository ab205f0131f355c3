//! Whether a server is open, as it is answered.

ghost use Rattle.std.specs.Prelude.{◌≡◌};
ghost use Rattle.ci_http.specs.Health.{TellsHealth};

use ci_machine::reply::{Body, Code, HttpStatus, Reply};
use ci_machine::text::Text;
use std::alloc::Global;

/// The reply to who asks whether a server is open, by whether it is closed: 200 with a fixed body, or the refusal M17. Memory for the
/// body may be refused (M16).
pub(crate) fn health_reply(alloc: Global, closed: bool) -> Reply
    ensures { TellsHealth closed result }
{
    if closed {
        return Reply::refusal(Code::M17);
    }
    let Ok(text) = Text::copy_of(alloc, "{\"status\":\"ok\"}") else {
        return Reply::refusal(Code::M16);
    };
    let mut reply = Reply::plain(HttpStatus::Fine);
    reply.body = Some(Body::Json(text));
    reply
}
