//! A server that is made, grants a job, is closed and is opened again.

ghost use Rattle.std.specs.Prelude.{[], ◌∷◌, List, IfOk, IfErr};
ghost use Rattle.ci_machine_steps.specs.Prelude.{Plan, State, empty, applied};
ghost use Rattle.ci_machine_laws.specs.Examples.{token};
ghost use Rattle.ci_server.specs.Prelude.{Operation, opened};
ghost use Rattle.ci_server_witness.specs.Life.{IsOpenAt, IsPlanned, IsCause, IsLeased, planned, until_grant, with_attempt, life};

use crate::requests::{file, job_request, pipeline, project, runner};
use ci_config::laws::answers_once_without_patterns;
use ci_machine::moment::Moment;
use ci_machine::reply::Reply;
use ci_machine::request::{Request, Seed};
use ci_server::server::Server;
use ci_store_sqlite::Connection;
use ci_store_sqlite::tables::OpenFault;
use ci_yaml::laws::{has_not_both, has_one_tree, reads_trees};
use sqlite::MemStore;
use std::alloc::{AllocError, Global};

/// The moment of each request, in seconds.
const MOMENT: u64 = 1000;

/// The seed that comes with each.
const SEED: Seed = Seed([0xab; 16]);

/// Why the server didn't come.
#[derive(Drop)]
pub enum Stop {
    /// Memory was refused for the store, or for what a request says.
    Memory,
    /// The store wasn't made, or not opened again.
    Unopened(OpenFault),
    /// A request was refused.
    Refused(Reply),
}

impl From<AllocError> for Stop {
    ghost use Rattle.std.specs.Prelude.{◌≡◌};
    ghost use Rattle.ci_server_witness.specs.declared.life.Stop.TheVariants.{Memory};

    ghost from_gives = { λ _ stop. stop ≡ Memory };

    fn from(_: AllocError) -> Stop {
        Stop::Memory
    }
}

/// A server over memory, of which nothing is claimed in vain. It was made in a store that listed nothing; a project and a runner
/// were made; the project got a file of one job, and a pipeline was made of it; the runner asked for a job and was granted it; and
/// the server was closed and opened again. So it meets each premise of `no_step_is_lost`, and it holds the one attempt still, with its lease.
///
/// Errors: what was called refused, for want of memory or since the store failed, and for no other reason.
pub fn granted_and_reopened(alloc: Global) -> Result<Server<MemStore>, Stop>
    ensures lives { IfOk result (IsOpenAt life with_attempt) }
    ensures leased { IsLeased with_attempt token }
    ensures stopped { IfErr result IsCause }
{
    let server = granted(alloc)?;
    reopened(server)
}

/// A new server, which has granted a job.
fn granted(alloc: Global) -> Result<Server<MemStore>, Stop>
    ensures granted { IfOk result (IsOpenAt until_grant with_attempt) }
    ensures stopped { IfErr result IsCause }
{
    has_one_tree();
    has_not_both();
    reads_trees();
    answers_once_without_patterns();
    let server = created(alloc)?;
    let server = taken(alloc, server, project(alloc)?)?;
    let server = taken(alloc, server, runner(alloc)?)?;
    let server = taken(alloc, server, file(alloc)?)?;
    let server = taken(alloc, server, pipeline(alloc)?)?;
    taken(alloc, server, job_request(alloc)?)
}

/// A new server over an empty store.
fn created(alloc: Global) -> Result<Server<MemStore>, Stop>
    ensures created { IfOk result (IsOpenAt [] empty) }
    ensures stopped { IfErr result IsCause }
{
    let conn = Connection::open_in_memory(alloc)?;
    match Server::create(conn) {
        Ok(server) => Ok(server),
        Err((fault, _)) => Err(Stop::Unopened(fault)),
    }
}

/// The server after a request that isn't refused.
fn taken(
    alloc: Global,
    mut server: Server<MemStore>,
    request: Request,
) -> Result<Server<MemStore>, Stop>
    ensures taken { (operations : List Operation) (s : State) (plan : Plan) → IsOpenAt operations s server → IsPlanned s request plan → IfOk result (IsOpenAt (planned request plan ∷ operations) (applied plan.1 s)) }
    ensures stopped { (operations : List Operation) (s : State) (plan : Plan) → IsOpenAt operations s server → IsPlanned s request plan → IfErr result IsCause }
{
    let Some(moment) = Moment::new(MOMENT) else {
        unreachable!()
    };
    let reply = server.handle(alloc, request, moment, SEED);
    if reply.code.is_none() {
        Ok(server)
    } else {
        Err(Stop::Refused(reply))
    }
}

/// The server of the store that another one had.
fn reopened(server: Server<MemStore>) -> Result<Server<MemStore>, Stop>
    ensures reopened { (operations : List Operation) (s : State) → IsOpenAt operations s server → IfOk result (IsOpenAt (opened ∷ operations) s) }
    ensures stopped { (operations : List Operation) (s : State) → IsOpenAt operations s server → IfErr result IsCause }
{
    match Server::open(server.close()) {
        Ok(server) => Ok(server),
        Err((fault, _)) => Err(Stop::Unopened(fault)),
    }
}
