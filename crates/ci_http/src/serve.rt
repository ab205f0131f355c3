//! One request, from the bytes that come in to the bytes that go out.

ghost use Rattle.std.specs.Prelude.{◌≡◌, ◌<◌, ◌≤◌, ◌+◌, ◌++◌, ◌⊎◌, [], length, true, false, Err, IfOk, OnOk, OnErr, MatchResult};
ghost use Rattle.std.specs.Io.KnownBytes.{Appends};
ghost use Rattle.ci_machine.specs.declared.reply.Reply.{Reply};
ghost use Rattle.ci_http_messages.specs.Prelude.{ended, IsReading, reply_text, request_in, AsksMemory, Tells, TakesFront, Fails};
ghost use Rattle.ci_machine.specs.declared.reply.Answer.TheVariants as answer;
ghost use Rattle.ci_machine.specs.declared.request.Event.TheVariants as event;
ghost use Rattle.ci_machine.specs.Prelude.{refusal};
ghost use Rattle.ci_server.specs.Prelude.{ServerOver, Handles};
ghost use Rattle.ci_http.specs.Sweeping.{SweepsUpTo};
ghost use Rattle.ci_http.specs.Serving.{AnswersAsked, LacksMemory, Serves, WritesFront};

use crate::health::health_reply;
use crate::log::Log;
use crate::sweep::sweep_all;
use arrayvec::ArrayVec;
use ci_http_messages::call::{Call, HeadRoom, read_request};
use ci_http_messages::fault::HttpFault;
use ci_http_messages::link::{Failed, Sink, Source};
use ci_http_messages::route::{Demand, request_of};
use ci_http_messages::routing::paths::Paths;
use ci_http_messages::text::reply_bytes;
use ci_machine::moment::Moment;
use ci_machine::reply::{Code, Reply};
use ci_machine::request::{Request, Seed};
use ci_server::server::Server;
use sqlite::Alter;
use std::alloc::Global;

/// The longest reply that is written by one call, in bytes: its head and its body.
pub const MAX_JOINED_BYTES: usize = 4096;

/// What became of one request.
#[derive(Clone, Copy, Drop, PartialEq, Eq)]
pub enum Served {
    /// A reply was written.
    Replied,
    /// The bytes ended before the request did: nothing was handled or written.
    Ended,
    /// A call of the reader failed: nothing was handled or written.
    ReadFailed,
    /// A call of the writer failed, which had less room than the reply takes: a beginning of it was
    /// written, and what the request did stands.
    WriteFailed,
}

/// Serves one request: reads it, sweeps the server at this moment, a thousand times at most, has it handle the request at most once, at
/// this moment and with this seed, and writes the reply. Nothing is tried again.
///
/// Who asks whether the server is open (`Demand::Health`) is told so, by what is known of it: no store is touched, and it isn't swept.
///
/// The log is told what `sweep_all` tells it, and nothing else.
///
/// `paths` has the table of routes; it is built once and lent to each call. A reply whose head and
/// body have room in 4,096 bytes together is handed to the writer as one text. Nothing is
/// allocated after the request was handled.
pub fn serve_one<R: Source, W: Sink, S: Alter, L: Log>(
    alloc: Global,
    reader: &mut R,
    writer: &mut W,
    server: &mut Server<S>,
    paths: &Paths,
    moment: Moment,
    seed: Seed,
    log: &mut L,
) -> Served
    // The bytes written are those of the reply to what was read.
    ensures replied { result ≡ Served.Replied → (reply : Reply)
        × Serves S.Store L.tells 1000 moment seed server.old server.new log.old log.new reply (R.left reader.old) (R.left reader.new)
        × Appends (W.written writer.old) (W.written writer.new) (reply_text reply) }
    // A beginning of these was written, and the step stands. It comes only where the writer had less room than they take.
    ensures write_failed { result ≡ Served.WriteFailed → (reply : Reply)
        × Serves S.Store L.tells 1000 moment seed server.old server.new log.old log.new reply (R.left reader.old) (R.left reader.new)
        × WritesFront (W.written writer.old) (W.written writer.new) (reply_text reply)
        × (W.room writer.old < length (reply_text reply)) }
    // Nothing was handled and nothing written.
    ensures ended { result ≡ Served.Ended → (server.new ≡ server.old) × (log.new ≡ log.old) × (writer.new ≡ writer.old)
        × Tells (R.left reader.old) (R.left reader.new) (λ bytes rest. IsReading bytes ended rest) }
    ensures read_failed { result ≡ Served.ReadFailed → (server.new ≡ server.old) × (log.new ≡ log.old) × (writer.new ≡ writer.old) }
    // In any case a beginning of the reader's bytes was taken, and no others.
    ensures took { TakesFront (R.left reader.old) (R.left reader.new) }
    // The answer tells of each call of the reader or the writer that failed, and of no other.
    ensures reads { Fails result Served.ReadFailed (R.failures reader.old) (R.failures reader.new) }
    ensures writes { Fails result Served.WriteFailed (W.failures writer.old) (W.failures writer.new) }
{
    match reply_to(alloc, reader, server, paths, moment, seed, log) {
        Ok(reply) => match send(writer, &reply) {
            Ok(()) => Served::Replied,
            Err(_) => Served::WriteFailed,
        },
        Err(Unread::Ended) => Served::Ended,
        Err(Unread::Failed) => Served::ReadFailed,
    }
}

// Why there is no reply.
#[derive(Drop)]
enum Unread {
    Ended,
    Failed,
}

// The reply to what the reader gives.
fn reply_to<R: Source, S: Alter, L: Log>(
    alloc: Global,
    reader: &mut R,
    server: &mut Server<S>,
    paths: &Paths,
    moment: Moment,
    seed: Seed,
    log: &mut L,
) -> Result<Reply, Unread>
    ensures reply { IfOk result (λ reply.
        Serves S.Store L.tells 1000 moment seed server.old server.new log.old log.new reply (R.left reader.old) (R.left reader.new)) }
    ensures none { OnErr result ((server.new ≡ server.old) × (log.new ≡ log.old)) }
    ensures ended { result ≡ Err Unread.Ended → Tells (R.left reader.old) (R.left reader.new)
        (λ bytes rest. IsReading bytes ended rest) }
    ensures took { TakesFront (R.left reader.old) (R.left reader.new) }
    ensures failed { Fails result (Err Unread.Failed) (R.failures reader.old) (R.failures reader.new) }
{
    let mut room = HeadRoom::new();
    match read_request(alloc, reader, &mut room) {
        Ok(call) => Ok(answer(alloc, &call, server, paths, moment, seed, log)),
        Err(HttpFault::Refused(why)) => Ok(refuse(alloc, server, moment, why, log)),
        Err(HttpFault::Memory) => Ok(refuse(alloc, server, moment, Code::M16, log)),
        Err(HttpFault::Ended) => Err(Unread::Ended),
        Err(HttpFault::ReadFailed) => Err(Unread::Failed),
    }
}

// The reply to a call.
fn answer<S: Alter, L: Log>(
    alloc: Global,
    call: &Call<'_>,
    server: &mut Server<S>,
    paths: &Paths,
    moment: Moment,
    seed: Seed,
    log: &mut L,
) -> Reply
    ensures { (LacksMemory S.Store L.tells 1000 moment seed server.old server.new log.old log.new result × AsksMemory call.now)
        ⊎ AnswersAsked S.Store L.tells 1000 moment seed server.old server.new log.old log.new result (request_in call.now) }
{
    match request_of(alloc, paths, call) {
        Ok(Demand::Request(request)) => handle_swept(alloc, request, server, moment, seed, log),
        Ok(Demand::Health) => health_reply(alloc, server.closed()),
        Err(reply) => {
            sweep_all(alloc, server, moment, log);
            reply
        }
    }
}

// Sweeps the server, and has it handle a request.
fn handle_swept<S: Alter, L: Log>(
    alloc: Global,
    request: Request,
    server: &mut Server<S>,
    moment: Moment,
    seed: Seed,
    log: &mut L,
) -> Reply
    ensures { (mid : ServerOver S) × SweepsUpTo S.Store L.tells moment 1000 server.old mid log.old log.new
        × Handles S.Store mid (event.Request request, moment, seed) server.new (answer.Reply result) }
{
    sweep_all(alloc, server, moment, log);
    server.handle(alloc, request, moment, seed)
}

// Sweeps the server, and gives the reply that refuses what can't be read.
fn refuse<S: Alter, L: Log>(
    alloc: Global,
    server: &mut Server<S>,
    moment: Moment,
    why: Code,
    log: &mut L,
) -> Reply
    ensures swept { SweepsUpTo S.Store L.tells moment 1000 server.old server.new log.old log.new }
    ensures reply { result ≡ refusal why }
{
    sweep_all(alloc, server, moment, log);
    Reply::refusal(why)
}

// Writes a reply. Errors: a call of the writer failed, and a beginning was written.
fn send<W: Sink>(writer: &mut W, reply: &Reply) -> Result<(), Failed>
    ensures ok { OnOk result (Appends (W.written writer.old) (W.written writer.new) (reply_text reply.now)) }
    ensures err { OnErr result (WritesFront (W.written writer.old) (W.written writer.new) (reply_text reply.now)) }
    ensures none_failed { OnOk result (W.failures writer.new ≡ W.failures writer.old) }
    ensures failed { OnErr result (W.failures writer.new ≡ W.failures writer.old + 1) }
    ensures room { OnErr result (W.room writer.old < length (reply_text reply.now)) }
{
    let text = reply_bytes(reply);
    put_both(writer, text.head.as_slice(), text.body)
}

// Writes the head and the body, as one text if there is room for both or the body is empty. Errors:
// a call of the writer failed, and a beginning was written.
fn put_both<W: Sink>(writer: &mut W, head: &[u8], body: &[u8]) -> Result<(), Failed>
    ensures ok { OnOk result (Appends (W.written writer.old) (W.written writer.new) (head.now ++ body.now)) }
    ensures err { OnErr result (WritesFront (W.written writer.old) (W.written writer.new) (head.now ++ body.now)) }
    ensures none_failed { OnOk result (W.failures writer.new ≡ W.failures writer.old) }
    ensures failed { OnErr result (W.failures writer.new ≡ W.failures writer.old + 1) }
    ensures room { OnErr result (W.room writer.old < length head.now + length body.now) }
{
    if body.is_empty() {
        return put_all(writer, head);
    }
    let mut whole = ArrayVec::new();
    if join(&mut whole, head, body) {
        put_all(writer, whole.as_slice())
    } else {
        put_each(writer, head, body)
    }
}

// Fills the buffer with the head and the body as one text, if there is room for both.
fn join(whole: &mut ArrayVec<u8, MAX_JOINED_BYTES>, head: &[u8], body: &[u8]) -> bool
    requires { whole.old.items ≡ [] }
    ensures whole { result ≡ true → whole.new.items ≡ head.now ++ body.now }
    ensures room { result ≡ false → MAX_JOINED_BYTES < length head.now + length body.now }
{
    whole.try_extend_from_slice(head).is_ok() && whole.try_extend_from_slice(body).is_ok()
}

// Writes the head, and then the body. Errors: a call of the writer failed, and a beginning was written.
fn put_each<W: Sink>(writer: &mut W, head: &[u8], body: &[u8]) -> Result<(), Failed>
    ensures ok { OnOk result (Appends (W.written writer.old) (W.written writer.new) (head.now ++ body.now)) }
    ensures err { OnErr result (WritesFront (W.written writer.old) (W.written writer.new) (head.now ++ body.now)) }
    ensures none_failed { OnOk result (W.failures writer.new ≡ W.failures writer.old) }
    ensures failed { OnErr result (W.failures writer.new ≡ W.failures writer.old + 1) }
    ensures room { OnErr result (W.room writer.old < length head.now + length body.now) }
{
    match put_all(writer, head) {
        Ok(()) => put_all(writer, body),
        Err(e) => Err(e),
    }
}

// Writes all the bytes. Errors: a call of the writer failed, and a beginning was written.
fn put_all<W: Sink>(writer: &mut W, bytes: &[u8]) -> Result<(), Failed>
    ensures ok { OnOk result (Appends (W.written writer.old) (W.written writer.new) bytes.now) }
    ensures err { OnErr result (WritesFront (W.written writer.old) (W.written writer.new) bytes.now) }
    ensures none_failed { OnOk result (W.failures writer.new ≡ W.failures writer.old) }
    ensures failed { OnErr result (W.failures writer.new ≡ W.failures writer.old + 1) }
    ensures room { MatchResult result
        (λ _. W.room writer.old ≤ W.room writer.new + length bytes.now)
        (λ _. W.room writer.old < length bytes.now) }
{
    let mut rest = bytes;
    while !rest.is_empty() {
        let count = writer.put(rest)?;
        rest = &rest[count..];
    }
    Ok(())
}
