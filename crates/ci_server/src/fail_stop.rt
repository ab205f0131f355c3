//! Events over a store, up to the store's first fault.

ghost use Rattle.std.specs.Prelude.{◌≡◌, ◌<◌, ◌≤◌, ◌+◌, ◌++◌, ◌∷◌, [], false, IfOk, OnErr, vec_len, vec_capacity};
ghost use Rattle.ci_machine.specs.declared.reply.Answer.TheVariants as answer;
ghost use Rattle.ci_machine.specs.declared.request.Event.TheVariants as event;
ghost use Rattle.ci_machine_steps.specs.Prelude.{Seed, Request, outcome_by, outcome_of};
ghost use Rattle.ci_server.specs.Handling.{refused, code_of, answer_by, closed_by};
ghost use Rattle.ci_server.specs.Holding.{Holds, Leaves};
ghost use Rattle.ci_server.specs.Reports.{ReportsBy, TellsQueue, TellsPipelineAt, TellsRunners, TellsNothing, report_of, closed_after};
ghost use Rattle.ci_server.specs.Server.{HandlesBy, HandlesEachBy};

use crate::events;
use ci_machine::moment::Moment;
use ci_machine::reply::{Answer, Code, Reply, Swept};
use ci_machine::report::{PipelineRows, QueueRow, RunnerRow};
use ci_machine::request::{Event, Request, Seed};
use ci_machine_laws::laws::{a_step_is_answered, sound_of_each_reached_state};
use ci_server_events::overview::pipeline::pipeline_rows;
use ci_server_events::overview::queue::queue_rows;
use ci_server_events::overview::runners::runner_rows;
use ci_server_events::prepare::prepare;
use ci_server_lookups::searches::Searches;
use ci_store::fault::StoreFault;
use std::alloc::{AllocError, Global};

/// A store that events are handled over. It stops at the store's first fault: from then on it is closed, refuses each event
/// with M17, and the store isn't touched.
#[derive(Drop)]
pub struct FailStop<T> {
    pub store: T,
    pub closed: bool,
    /// Was the store migrated as it was opened?
    pub migrated: bool,
}

impl<T: Searches> FailStop<T> {
    /// Handles a request: looks up what it needs, plans, and commits what the plan changes.
    pub(crate) fn handle(
        &mut self,
        alloc: Global,
        request: Request,
        now: Moment,
        seed: Seed,
    ) -> Reply
        ensures { HandlesBy T.honest (Holds T.holds) (Leaves T.leaves) self.old (event.Request request, now, seed) self.new (answer.Reply result) }
    {
        a_step_is_answered();
        sound_of_each_reached_state();
        if self.closed {
            return Reply::refusal(Code::M17);
        }
        let reply = reply_by(events::handle(alloc, &mut self.store, request, now, seed));
        self.closed = is_store_fault(reply.code);
        reply
    }

    /// Sweeps: ends one lease that is over; where there is none, cancels one redundant pipeline, if there is one.
    pub(crate) fn sweep(&mut self, alloc: Global, now: Moment) -> Swept
        ensures { (seed : Seed) → HandlesBy T.honest (Holds T.holds) (Leaves T.leaves) self.old (event.Sweep, now, seed) self.new (answer.Swept result) }
    {
        a_step_is_answered();
        sound_of_each_reached_state();
        if self.closed {
            return Swept::Refused(Code::M17);
        }
        let swept = swept_by(events::sweep(alloc, &mut self.store, now));
        self.closed = is_swept_fault(&swept);
        swept
    }

    /// The pending jobs. Errors: M16, memory was refused; M17, the store failed, now or before.
    pub(crate) fn queue(&mut self, alloc: Global) -> Result<Vec<QueueRow>, Code>
        ensures { ReportsBy T.honest (Holds T.holds) (Leaves T.leaves) self.old self.new TellsQueue result }
    {
        sound_of_each_reached_state();
        if self.closed {
            return Err(Code::M17);
        }
        let told = report_of(queue_rows(alloc, &mut self.store));
        self.closed = is_report_fault(&told);
        told
    }

    /// The pipeline with a number and its jobs, if it is there. Errors: as `queue`.
    pub(crate) fn pipeline(&mut self, alloc: Global, id: u64) -> Result<Option<PipelineRows>, Code>
        ensures { ReportsBy T.honest (Holds T.holds) (Leaves T.leaves) self.old self.new (TellsPipelineAt id) result }
    {
        sound_of_each_reached_state();
        if self.closed {
            return Err(Code::M17);
        }
        let told = report_of(pipeline_rows(alloc, &mut self.store, id));
        self.closed = is_report_fault(&told);
        told
    }

    /// The runners. Errors: as `queue`.
    pub(crate) fn runners(&mut self, alloc: Global) -> Result<Vec<RunnerRow>, Code>
        ensures { ReportsBy T.honest (Holds T.holds) (Leaves T.leaves) self.old self.new TellsRunners result }
    {
        sound_of_each_reached_state();
        if self.closed {
            return Err(Code::M17);
        }
        let told = report_of(runner_rows(alloc, &mut self.store));
        self.closed = is_report_fault(&told);
        told
    }

    /// Looks up what the first poll of a runner would, so that it needn't: what is pending is remembered then. It tells nothing. Errors: as `queue`.
    pub(crate) fn prepare(&mut self, alloc: Global) -> Result<(), Code>
        ensures { ReportsBy T.honest (Holds T.holds) (Leaves T.leaves) self.old self.new TellsNothing result }
    {
        sound_of_each_reached_state();
        if self.closed {
            return Err(Code::M17);
        }
        let told = report_of(prepare(alloc, &mut self.store));
        self.closed = is_report_fault(&told);
        told
    }

    /// Handles events one after the other. Errors: there is no memory for the answers, and nothing was handled.
    pub(crate) fn run(
        &mut self,
        alloc: Global,
        calls: &[(Event, Moment, Seed)],
    ) -> Result<Vec<Answer>, AllocError>
        ensures was_honest { T.honest self.new.store → T.honest self.old.store }
        ensures each { IfOk result (λ answers. HandlesEachBy T.honest (Holds T.holds) (Leaves T.leaves) self.old calls.now answers.items self.new) }
        ensures memory { OnErr result (self.new ≡ self.old) }
    {
        let mut answers = Vec::with_capacity(alloc, calls.len())?;
        for call in calls {
            let answer = self.handle_copy(alloc, call);
            push_within_capacity(&mut answers, answer);
        }
        Ok(answers)
    }

    /// Handles a copy of an event. Where there is no memory for the copy, it is not handled.
    fn handle_copy(&mut self, alloc: Global, call: &(Event, Moment, Seed)) -> Answer
        ensures { HandlesBy T.honest (Holds T.holds) (Leaves T.leaves) self.old call.now self.new result }
    {
        let (event, moment, seed) = call;
        if self.closed {
            return refused(event, Code::M17);
        }
        match event.clone() {
            Ok(event) => self.handle_event(alloc, event, *moment, *seed),
            Err(_) => refused(event, Code::M16),
        }
    }

    fn handle_event(&mut self, alloc: Global, event: Event, moment: Moment, seed: Seed) -> Answer
        ensures { HandlesBy T.honest (Holds T.holds) (Leaves T.leaves) self.old (event, moment, seed) self.new result }
    {
        match event {
            Event::Request(request) => Answer::Reply(self.handle(alloc, request, moment, seed)),
            Event::Sweep => Answer::Swept(self.sweep(alloc, moment)),
        }
    }
}

/// The code of the refusal for a fault of the store.
fn code_of(fault: StoreFault) -> Code
    ensures { result ≡ code_of fault }
{
    match fault {
        StoreFault::Memory => Code::M16,
        StoreFault::Broken => Code::M17,
    }
}

/// The reply to a request, by what it did to the store.
fn reply_by(done: Result<Reply, StoreFault>) -> Reply
    ensures { (request : Request) → answer.Reply result ≡ answer_by answer.Reply (event.Request request) done }
{
    match done {
        Ok(reply) => reply,
        Err(fault) => Reply::refusal(code_of(fault)),
    }
}

/// The answer to a sweep, by what it did to the store.
fn swept_by(done: Result<Swept, StoreFault>) -> Swept
    ensures { answer.Swept result ≡ answer_by answer.Swept event.Sweep done }
{
    match done {
        Ok(swept) => swept,
        Err(fault) => Swept::Refused(code_of(fault)),
    }
}

/// The answer of a report, by what its look-ups found.
fn report_of<A: Drop>(told: Result<A, StoreFault>) -> Result<A, Code>
    ensures { result ≡ report_of told }
{
    match told {
        Ok(told) => Ok(told),
        Err(fault) => Err(code_of(fault)),
    }
}

/// Did a report fail at the store?
fn is_report_fault<A>(answer: &Result<A, Code>) -> bool
    ensures { result ≡ closed_after answer.now false }
{
    match answer {
        Ok(_) => false,
        Err(code) => *code == Code::M17,
    }
}

/// Does the code of a refusal say that the store failed?
fn is_store_fault(code: Option<Code>) -> bool
    ensures { result ≡ closed_by (outcome_by code) false }
{
    code == Some(Code::M17)
}

/// Did the sweep fail at the store?
fn is_swept_fault(swept: &Swept) -> bool
    ensures { result ≡ closed_by (outcome_of (answer.Swept swept.now)) false }
{
    match swept {
        Swept::Refused(code) => is_store_fault(Some(*code)),
        Swept::Ended(_, _) | Swept::Cancelled(_) | Swept::Nothing => false,
    }
}

/// The answer that refuses an event.
fn refused(event: &Event, code: Code) -> Answer
    ensures { result ≡ refused event.now code }
{
    match event {
        Event::Request(_) => Answer::Reply(Reply::refusal(code)),
        Event::Sweep => Answer::Swept(Swept::Refused(code)),
    }
}

fn push_within_capacity<T: Drop>(items: &mut Vec<T>, item: T)
    requires { vec_len items.old < vec_capacity items.old }
    ensures items { items.new.items ≡ items.old.items ++ item ∷ [] }
    ensures len { vec_len items.new ≡ vec_len items.old + 1 }
    ensures capacity { vec_capacity items.old ≤ vec_capacity items.new }
{
    match items.push(item) {
        Ok(()) => {}
        Err(_) => unreachable!(),
    }
}
