//! A server that is stopped within a commit, and opened again.

ghost use Rattle.std.specs.Prelude.{[]};
ghost use Rattle.ci_server.specs.Prelude.{was_made, was_found};
ghost use Rattle.ci_server_witness.specs.Stopped.{NamesStoppedLife};

use ci_config::laws::answers_once_without_patterns;
use ci_server::lifetime::no_step_is_lost;
use ci_store_sqlite::Alter;
use ci_yaml::laws::{has_not_both, has_one_tree, reads_trees};

/// What becomes of a grant in whose commit the store fails. A project and a runner were made, the project got a file of one job, and a
/// pipeline was made of it; the runner asked for the job, the store failed in that call, and it was answered M17; and the
/// server was opened again over what a stop had left. Both states are named: the one before the grant, and the one after it, with its
/// lease.
///
/// Before the opening the server is closed, and each file that a stop may leave is of one of the two (`stopped`). By the opening
/// it is settled for good which it was (`settled`): the grant isn't in the history, and the server holds the state before it; or
/// its line is, and the server holds the state after it. The latter is so where a stop left the file that the commit was to make
/// (`committed`).
///
/// The server was made (`made`), or opened over the empty tables that a creation had left (`found`).
///
/// Of the store it is assumed that it may fail in that call, and that it returns what was written.
pub fn stopped_within_a_grant<S: Alter>()
    ensures made { NamesStoppedLife S.Store was_made }
    ensures found { NamesStoppedLife S.Store (was_found []) }
{
    has_one_tree();
    has_not_both();
    reads_trees();
    answers_once_without_patterns();
    no_step_is_lost::<S>();
}
