//! Sweeping a server until there is nothing left to do, and telling a log of it.

ghost use Rattle.std.specs.Prelude.{◌↔◌, IsTrue};
ghost use Rattle.ci_http.specs.Sweeping.{DidSomething, SweepsUpTo};

use crate::log::Log;
use ci_machine::moment::Moment;
use ci_machine::reply::Swept;
use ci_server::server::Server;
use sqlite::Alter;
use std::alloc::Global;

/// How many sweeps come before a request, at most.
const MAX_SWEEPS: u32 = 1_000;

/// Sweeps until a sweep finds nothing or is refused, but no more than a thousand times. Where the last one found nothing, the server holds a
/// state in which no live attempt is due at that moment and no pipeline is redundant.
///
/// The log is told each sweep that ended or cancelled something, once and as they come, and nothing else.
pub fn sweep_all<S: Alter, L: Log>(
    alloc: Global,
    server: &mut Server<S>,
    moment: Moment,
    log: &mut L,
)
    ensures { SweepsUpTo S.Store L.tells moment MAX_SWEEPS server.old server.new log.old log.new }
{
    for _ in 0..MAX_SWEEPS {
        let swept = server.sweep(alloc, moment);
        if !did_something(swept) {
            return;
        }
        log.tell(swept);
    }
}

/// Did a sweep end a lease or cancel a pipeline?
fn did_something(swept: Swept) -> bool
    ensures { IsTrue result ↔ DidSomething swept }
{
    match swept {
        Swept::Ended(_, _) | Swept::Cancelled(_) => true,
        Swept::Nothing | Swept::Refused(_) => false,
    }
}
