//! What stands over the whole life of a server: its calls, and its stops and openings between and within them.

ghost use Rattle.std.specs.Prelude.{List};
ghost use Rattle.ci_store.specs.Prelude.{Held};
ghost use Rattle.ci_memory.specs.declared.remembering.Remembering.{Remembering};
ghost use Rattle.ci_machine_steps.specs.Prelude.{Answer};
ghost use Rattle.ci_server.specs.declared.fail_stop.FailStop.{FailStop};
ghost use Rattle.ci_server.specs.Handling.{Call};
ghost use Rattle.ci_server.specs.Server.{IsHonest, HandlesEach};
ghost use Rattle.ci_server.specs.Lifetime.{Beginning, Operation, ComesOf, called_each, LosesNoStep, KeepsItsGroups};
ghost use Rattle.ci_server.specs.Settled.{HasOneHistory};
ghost use Rattle.ci_server.specs.Repeats.{LivesRepeat};

use ci_machine_laws::laws::{a_step_is_answered, laws_of_each_reached_state};
use ci_machine_laws::repeats::repeats_change_nothing;
use ci_store_sqlite::Alter;

/// No step is lost. A server was made in a store that listed nothing (`Server::create`), or opened over a store that an earlier
/// program left, of version 1 or of this one, or over the empty state that a failed creation left; then came requests and sweeps
/// (`Server::handle`, `Server::sweep`, `Server::run`) in any order, with whatever moments and seeds; and as often as one likes it was stopped,
/// within a call or after it, and opened (`Server::open`) over what the stop left, where an opening may also fail, the first one too. While the disk
/// returns what was written each such life has one history (`settled`): that of a server that was made begins with nothing, and over a store that was
/// found it goes on from one that led to the state for which its files stood; a call that was answered adds its line; an opening settles whether
/// the one call in which the store had failed took place, and adds its line if it did; and what is settled stays, whatever happens later. So a
/// migration settles nothing else, and neither does one in which the store failed. An open server holds the state that its history leads to,
/// and its laws hold. A stop leaves files of that state alone, or besides it of the one after the one unanswered call: files of version 2, but
/// where no opening has gone well yet, and of version 1 or 2 there. In each such file the table `holder` has rows for just the live attempts of
/// jobs with a resource group; a group of a project has one of these at most.
///
/// `kept` and `groups` say so of a server by its operations alone: what it holds, and each file that a stop may leave, is of a state that
/// some history of them leads to.
///
/// In the one history what a runner sent again changed nothing (`repeats`): so a final state that was answered 200 changes nothing whenever it
/// comes again, whatever stops, openings, sweeps, requests and moments came between.
pub fn no_step_is_lost<S: Alter>()
    ensures settled { HasOneHistory S.Store }
    ensures kept { (began : Beginning) (operations : List Operation) (server : FailStop (Remembering (Held S))) → ComesOf S.Store began operations server → IsHonest S.Store server.store → LosesNoStep S.Store began operations server }
    ensures groups { (began : Beginning) (operations : List Operation) (server : FailStop (Remembering (Held S))) → ComesOf S.Store began operations server → IsHonest S.Store server.store → KeepsItsGroups S.Store began operations server }
    ensures repeats { LivesRepeat S.Store }
    ensures runs { (began : Beginning) (operations : List Operation) (old new : FailStop (Remembering (Held S))) (cs : List Call) (rs : List Answer) → ComesOf S.Store began operations old → HandlesEach S.Store old cs rs new → ComesOf S.Store began (called_each cs rs operations) new }
{
    laws_of_each_reached_state();
    a_step_is_answered();
    repeats_change_nothing();
}
