//! The server: requests and sweeps over the tables.

ghost use Rattle.std.specs.Prelude.{◌≡◌, ◌≢◌, ◌⊎◌, ◌∷◌, [], false, true, codes, IfOk, IfErr, OnErr};
ghost use Rattle.ci_store.specs.Prelude.{HasCleanDisk, state, Trees};
ghost use Rattle.ci_memory.specs.declared.remembering.Remembering.{Remembering};
ghost use Rattle.ci_machine.specs.declared.reply.Answer.TheVariants as answer;
ghost use Rattle.ci_machine.specs.declared.request.Event.TheVariants as event;
ghost use Rattle.ci_machine_steps.specs.Prelude.{Seed, Kept, nothing_kept};
ghost use Rattle.ci_store_sqlite.specs.Prelude.{IsBlank, HasNumber, IsFailure, LeavesNoMore, StandsIn, LeavesOnly, LeavesAny, BlamesAny};
ghost use Rattle.ci_memory_boards.specs.Order.{InOrder};
ghost use Rattle.ci_memory.specs.Right.{IsRight};
ghost use Rattle.ci_server.specs.Reports.{Reports, TellsNothing, TellsQueue, TellsPipelineAt, TellsRunners};
ghost use Rattle.ci_server.specs.Server.{Handles, HandlesEach, Creates, Opens, closed_by_each, each_refused};
ghost use Rattle.ci_server.specs.Runs.{Runs};
ghost use Rattle.ci_server.specs.Repeats.{Repeats, RunsRepeats};
ghost use Rattle.ci_server.specs.Due.{FindsNothingDue};

use crate::fail_stop::FailStop;
use ci_machine::moment::Moment;
use ci_machine::reply::{Answer, Code, Reply, Swept};
use ci_machine::report::{PipelineRows, QueueRow, RunnerRow};
use ci_machine::request::{Event, Request, Seed};
use ci_machine_laws::due::what_is_due_ends;
use ci_machine_laws::laws::{a_step_is_answered, laws_of_each_reached_state};
use ci_machine_laws::repeats::repeats_change_nothing;
use ci_memory::remembering::Remembering;
use ci_store_sqlite::open::{Opened, open};
use ci_store_sqlite::tables::{OpenFault, Tables};
use ci_store_sqlite::{Alter, Connection};
use std::alloc::{AllocError, Global};
use std::marker::Model;

/// A server over the tables of a store, with what it remembers of them. From the first fault of the store on it is closed, and answers
/// M17 to all.
#[derive(Drop)]
pub struct Server<S: Alter> {
    inner: FailStop<Remembering<Tables<S>>>,
}

impl<S: Alter> Model for Server<S> {
    ghost use Rattle.sqlite.specs.Held.{Held, held_code};
    ghost use Rattle.ci_server.specs.declared.fail_stop.FailStop.{FailStop};
    ghost use Rattle.ci_memory.specs.declared.remembering.Remembering.{Remembering};
    ghost use Rattle.ci_server.specs.Server.{fail_stop_code, remembering_code};

    ghost Value = { FailStop (Remembering (Held S)) };

    ghost coded = { fail_stop_code (remembering_code (held_code S.code)) };

    ghost view = { λ s. s.inner };

    ghost invariant = { λ s. Unit {0} };
}

impl<S: Alter> Server<S> {
    /// A server over an empty store, whose tables it makes: they keep nothing, and each next number is 1.
    /// Errors: O1, the store lists something; O3, it failed; Memory, memory was refused. The connection comes back: a stop
    /// leaves of it no more than before, or, of a store that listed nothing, tables that keep nothing.
    pub fn create(conn: Connection<S>) -> Result<Server<S>, (OpenFault, Connection<S>)>
        ensures made { IfOk result (Creates S.Store conn) }
        ensures left { IfErr result (λ e. HasCleanDisk (state S.Store e.1) → IsBlank S.Store conn → (db : Trees) → (state S.Store e.1).may_leave db → (state S.Store conn).may_leave db ⊎ StandsIn nothing_kept db) }
        ensures added { IfErr result (λ e. HasCleanDisk (state S.Store e.1) → (db : Trees) → (state S.Store e.1).may_leave db → (state S.Store conn).may_leave db ⊎ (IsBlank S.Store conn × StandsIn nothing_kept db)) }
        ensures listed { IfErr result (λ e. e.0 ≡ OpenFault.O1 → ¬ IsBlank S.Store conn) }
        ensures unversioned { IfErr result (λ e. e.0 ≢ OpenFault.O2) }
    {
        match Tables::create(conn) {
            Ok(store) => Ok(Server::over(store, false)),
            Err(fault) => Err(fault),
        }
    }

    /// A server over the tables that a store has. It holds the state, with what follows from it, that each file which a stop may
    /// leave stands for. A store of version 1 is migrated first, in one transaction: it is of version 2 then, stands for the same, and
    /// no resource group has an order.
    ///
    /// Errors: O1, the store is not of this format; O2, it is of another version than 1 and 2; O3, it failed; Memory, memory was refused.
    /// The connection comes back. What a stop leaves of it stands for what it stood for, as of version 1 or 2, and as of version 2 alone where it
    /// was so. It is no more than before where the store isn't of version 1, and at O1 and O2.
    pub fn open(conn: Connection<S>) -> Result<Server<S>, (OpenFault, Connection<S>)>
        ensures opened { IfOk result (Opens S.Store conn) }
        ensures left { IfErr result (λ e. HasCleanDisk (state S.Store e.1) → (k : Kept) → LeavesAny S.Store k conn → LeavesAny S.Store k e.1) }
        ensures left_of_2 { IfErr result (λ e. HasCleanDisk (state S.Store e.1) → (k : Kept) → LeavesOnly S.Store k conn → LeavesOnly S.Store k e.1) }
        ensures less { IfErr result (λ e. ¬ HasNumber (codes "version") 1 (state S.Store conn).now → LeavesNoMore S.Store conn e.1) }
        ensures refused { IfErr result (λ e. ¬ IsFailure e.0 → LeavesNoMore S.Store conn e.1) }
        ensures blamed { IfErr result (λ e. HasCleanDisk (state S.Store e.1) → BlamesAny e.0 (state S.Store conn).now) }
        ensures own { IfErr result (λ e. HasCleanDisk (state S.Store e.1) → (k : Kept) → LeavesAny S.Store k conn → IsFailure e.0) }
    {
        match open(conn) {
            Ok(Opened { tables, migrated }) => Ok(Server::over(tables, migrated)),
            Err(fault) => Err(fault),
        }
    }

    /// An open server over tables, of which nothing is remembered yet.
    fn over(tables: Tables<S>, migrated: bool) -> Server<S>
        ensures open { result ≡ record { store = record { store = tables; memory = result.store.memory }; closed = false; migrated = migrated } }
        ensures right { (k : Kept) → InOrder k → IsRight result.store.memory k }
    {
        Server {
            inner: FailStop {
                store: Remembering::over(tables),
                closed: false,
                migrated,
            },
        }
    }

    /// Has a fault of the store closed the server?
    pub fn closed(&self) -> bool
        ensures closed { result ≡ self.now.closed }
    {
        self.inner.closed
    }

    /// Did the opening find a store of version 1, of which it made one of version 2? It is so exactly where it did (`found` of `Opens`), and
    /// stays so whatever is handled. It isn't so of a server that was made.
    pub fn migrated(&self) -> bool
        ensures migrated { result ≡ self.now.migrated }
    {
        self.inner.migrated
    }

    /// Gives the connection back, for a reopening.
    pub fn close(self) -> Connection<S>
        ensures same { result ≡ self.store.store }
        ensures idle { result.in_transaction ≡ false }
    {
        let Server { inner } = self;
        let FailStop {
            store,
            closed: _,
            migrated: _,
        } = inner;
        let Remembering { store, memory: _ } = store;
        store.close()
    }

    /// Handles a request, at a moment and with a seed.
    ///
    /// Besides the machine's own replies: M16 where memory was refused, and nothing happened; M17 where the store
    /// failed in this call or an earlier one, and the server is closed exactly from the first M17 on. The call is a run of
    /// one, whose laws hold.
    ///
    /// What a runner sends again changes nothing (`repeats`), by each history that leads to what the server holds: what it sent already at
    /// this moment, where nothing has changed since; and a final state that any line of the history was answered 200 to, whatever came
    /// between. This is answered as it was then, or M5 once its attempt has gone with a pruned pipeline.
    pub fn handle(&mut self, alloc: Global, request: Request, moment: Moment, seed: Seed) -> Reply
        ensures handled { Handles S.Store self.old (event.Request request, moment, seed) self.new (answer.Reply result) }
        ensures run { Runs S.Store self.old ((event.Request request, moment, seed) ∷ []) (answer.Reply result ∷ []) self.new }
        ensures repeats { Repeats S.Store self.old (event.Request request, moment, seed) self.new (answer.Reply result) }
    {
        laws_of_each_reached_state();
        a_step_is_answered();
        repeats_change_nothing();
        self.inner.handle(alloc, request, moment, seed)
    }

    /// Sweeps at a moment: of the leases that are over it ends the one of the attempt of least number. Where none is over, it
    /// cancels the redundant pipeline of least number, if there is one.
    ///
    /// Besides what it ended or cancelled, or nothing: M16 where memory was refused, and nothing happened; M17 where the store failed in
    /// this call or an earlier one, and the server is closed exactly from the first M17 on. The call is a run of one, whose
    /// laws hold.
    ///
    /// Where it finds nothing, the server holds the state that it held, in which no live attempt is due at that moment and no pipeline is
    /// redundant (`nothing`).
    pub fn sweep(&mut self, alloc: Global, moment: Moment) -> Swept
        ensures swept { (seed : Seed) → Handles S.Store self.old (event.Sweep, moment, seed) self.new (answer.Swept result) }
        ensures run { (seed : Seed) → Runs S.Store self.old ((event.Sweep, moment, seed) ∷ []) (answer.Swept result ∷ []) self.new }
        ensures nothing { result ≡ Swept.Nothing → FindsNothingDue S.Store moment self.old self.new }
    {
        laws_of_each_reached_state();
        a_step_is_answered();
        what_is_due_ends();
        self.inner.sweep(alloc, moment)
    }

    /// The pending jobs, by number, as a report for an operator tells them. It changes nothing.
    ///
    /// Errors: M16, memory was refused; M17, the store failed in this call or an earlier one, and the server is closed.
    pub fn queue(&mut self, alloc: Global) -> Result<Vec<QueueRow>, Code>
        ensures told { Reports S.Store self.old self.new TellsQueue result }
    {
        self.inner.queue(alloc)
    }

    /// The pipeline with a number and its jobs, by number, as a report tells them; none where there is no such pipeline. It changes
    /// nothing. Errors: as `queue`.
    pub fn pipeline(&mut self, alloc: Global, id: u64) -> Result<Option<PipelineRows>, Code>
        ensures told { Reports S.Store self.old self.new (TellsPipelineAt id) result }
    {
        self.inner.pipeline(alloc, id)
    }

    /// The runners, by number, as a report tells them. It changes nothing. Errors: as `queue`.
    pub fn runners(&mut self, alloc: Global) -> Result<Vec<RunnerRow>, Code>
        ensures told { Reports S.Store self.old self.new TellsRunners result }
    {
        self.inner.runners(alloc)
    }

    /// Looks up what the first poll of a runner would, so that it needn't: for a server that was just opened. It changes nothing, and tells nothing.
    /// Errors: as `queue`.
    pub fn prepare(&mut self, alloc: Global) -> Result<(), Code>
        ensures told { Reports S.Store self.old self.new TellsNothing result }
    {
        self.inner.prepare(alloc)
    }

    /// Handles events one after the other, each at its moment and with its seed.
    ///
    /// From a state that a history leads to: the answers tell the history that the run went on to, whose laws hold; the
    /// store holds the state that it leads to, and a stop leaves that state alone. From the first fault of the store on
    /// a stop leaves that state, or the one after the one call that was not answered, and no other.
    ///
    /// In that history what a runner sent again changed nothing (`repeats`).
    ///
    /// It closes the server exactly where an answer is M17. On a closed one each answer is M17, and nothing changes.
    ///
    /// Errors: there is no memory for the answers, and nothing was handled.
    pub fn run(
        &mut self,
        alloc: Global,
        calls: &[(Event, Moment, Seed)],
    ) -> Result<Vec<Answer>, AllocError>
        ensures was_honest { HasCleanDisk (state S.Store self.new.store.store) → HasCleanDisk (state S.Store self.old.store.store) }
        ensures each { IfOk result (λ answers. HandlesEach S.Store self.old calls.now answers.items self.new) }
        ensures run { IfOk result (λ answers. Runs S.Store self.old calls.now answers.items self.new) }
        ensures repeats { IfOk result (λ answers. RunsRepeats S.Store self.old calls.now answers.items self.new) }
        ensures closes { IfOk result (λ answers. self.new.closed ≡ closed_by_each answers.items self.old.closed) }
        ensures refused { self.old.closed ≡ true → IfOk result (λ answers. answers.items ≡ each_refused calls.now) }
        ensures untouched { self.old.closed ≡ true → IfOk result (λ _. self.new ≡ self.old) }
        ensures memory { OnErr result (self.new ≡ self.old) }
    {
        laws_of_each_reached_state();
        a_step_is_answered();
        repeats_change_nothing();
        self.inner.run(alloc, calls)
    }
}
