//! One request that is whole, from its bytes to those of its reply.

ghost use Rattle.std.specs.Prelude.{◌≡◌, ◌<◌, ◌≤◌, ◌-◌, ◌⊎◌, ℕ, Option, List, [], Some, Ok, Err, IfOk, IfSome, IfNone, vec_len, vec_capacity};
ghost use Rattle.ci_machine.specs.declared.reply.Reply.{Reply};
ghost use Rattle.ci_machine.specs.declared.request.Seed.{Seed as SeedOf};
ghost use Rattle.ci_http_messages.specs.Prelude.{reply_text};
ghost use Rattle.ci_http.specs.Serving.{Serves};
ghost use Rattle.ci_http.specs.declared.stamps.Unstamped.{Unstamped as WhyNone};
ghost use Rattle.ci_http.specs.Attending.{ServesSwept, LosesReply};

use crate::Server;
use crate::link::{Buffer, Link};
use crate::log::Log;
use crate::serve::{Served, serve_one};
use crate::stamps::{Stamps, Unstamped};
use ci_http_messages::routing::paths::Paths;
use ci_machine::moment::Moment;
use ci_machine::request::Seed;
use sqlite::Alter;
use std::alloc::Global;
use std::marker::Brand;
use std::sync::ledger::{Blank, Ledger};

/// For how many bytes of a reply memory is asked for before its request is handled.
const ROOM_BYTES: usize = 4_096;

/// Why a request gets no reply.
#[derive(Clone, Copy, Drop, PartialEq, Eq)]
pub enum Unanswered {
    /// There is no moment or no seed for it: nothing was done.
    NoStamp(Unstamped),
    /// Its bytes end before it does, or memory for its reply was refused. What it asked for was done only if its reply
    /// is longer than 4,096 bytes.
    NoReply,
}

/// Serves the request of these bytes: one stamp is made for it, the server is swept at its moment, and then it is handled at that
/// moment and with that seed, once. Who asks whether the server is open is told so, and nothing changes. The log is told each sweep that ended a
/// lease or cancelled a pipeline, as it was made, and nothing else.
///
/// Memory for a reply of 4,096 bytes is asked for before all else; for what is longer once the request was handled. So a reply that is
/// no longer is lost only where nothing was done (`no_reply`).
///
/// Errors: there is no stamp; the bytes end before the request, or memory for the reply was refused.
pub fn attend<T: Stamps, S: Alter, L: Log>(
    alloc: Global,
    bytes: &[u8],
    server: &mut Server<S>,
    paths: &Paths,
    stamps: &mut T,
    log: &mut L,
) -> Result<Vec<u8>, Unanswered>
    // One stamp was made, and with it the server was swept and served these bytes. The bytes of that reply are answered.
    ensures replied { IfOk result (λ text. (stamp : ℕ × SeedOf) × (reply : Reply)
        × T.gives stamps.old stamps.new (Ok stamp)
        × ServesSwept S.Store L.tells 1000 stamp server.old server.new log.old log.new bytes.now reply
        × (text.items ≡ reply_text reply)) }
    // One stamp was made; nothing else was done, or with it the server was swept and served these bytes, and the reply is longer than 4,096
    // bytes.
    ensures no_reply { result ≡ Err Unanswered.NoReply → (stamp : ℕ × SeedOf)
        × T.gives stamps.old stamps.new (Ok stamp)
        × (((server.new ≡ server.old) × (log.new ≡ log.old)) ⊎ LosesReply S.Store L.tells 1000 4096 stamp server.old server.new log.old log.new bytes.now) }
    // Nothing was done.
    ensures no_stamp { (why : WhyNone) → result ≡ Err (Unanswered.NoStamp why) → (server.new ≡ server.old) × (log.new ≡ log.old)
        × T.gives stamps.old stamps.new (Err why) }
{
    match stamps.next() {
        Ok((moment, seed)) => match serve_bytes(alloc, bytes, server, paths, moment, seed, log) {
            Some(text) => Ok(text),
            None => Err(Unanswered::NoReply),
        },
        Err(why) => Err(Unanswered::NoStamp(why)),
    }
}

// Serves the request of these bytes. None where the bytes end before it, or memory for its reply was refused.
fn serve_bytes<S: Alter, L: Log>(
    alloc: Global,
    bytes: &[u8],
    server: &mut Server<S>,
    paths: &Paths,
    moment: Moment,
    seed: Seed,
    log: &mut L,
) -> Option<Vec<u8>>
    ensures some { IfSome result (λ text. (reply : Reply)
        × ServesSwept S.Store L.tells 1000 (moment, seed) server.old server.new log.old log.new bytes.now reply
        × (text.items ≡ reply_text reply)) }
    ensures none { IfNone result (((server.new ≡ server.old) × (log.new ≡ log.old))
        ⊎ LosesReply S.Store L.tells 1000 ROOM_BYTES (moment, seed) server.old server.new log.old log.new bytes.now) }
{
    let Ok(room) = Vec::with_capacity(alloc, ROOM_BYTES) else {
        return None;
    };
    let (reads, writes) = (Blank::new(1), Blank::new(1));
    serve_by::<S, Brand, Brand, L>(
        alloc, bytes, room, server, paths, moment, seed, reads, writes, log,
    )
}

// Serves the request of these bytes into an empty room. None as above.
fn serve_by<S: Alter, A: Ledger, B: Ledger, L: Log>(
    alloc: Global,
    bytes: &[u8],
    room: Vec<u8>,
    server: &mut Server<S>,
    paths: &Paths,
    moment: Moment,
    seed: Seed,
    reads: Blank,
    writes: Blank,
    log: &mut L,
) -> Option<Vec<u8>>
    requires empty { room.items ≡ [] }
    requires roomy { ROOM_BYTES ≤ vec_capacity room - vec_len room }
    requires reads_name { reads.name ≡ A.name }
    requires reads_parts { reads.parts ≡ A.parts }
    requires reads_one { 0 < reads.parts }
    requires writes_name { writes.name ≡ B.name }
    requires writes_parts { writes.parts ≡ B.parts }
    requires writes_one { 0 < writes.parts }
    ensures some { IfSome result (λ text. (reply : Reply)
        × ServesSwept S.Store L.tells 1000 (moment, seed) server.old server.new log.old log.new bytes.now reply
        × (text.items ≡ reply_text reply)) }
    ensures none { IfNone result (((server.new ≡ server.old) × (log.new ≡ log.old))
        ⊎ LosesReply S.Store L.tells 1000 ROOM_BYTES (moment, seed) server.old server.new log.old log.new bytes.now) }
{
    let mut reader = Link::<&[u8], A>::new(bytes, reads);
    let mut writer = Buffer::<B>::new(room, writes);
    match serve_one(
        alloc,
        &mut reader,
        &mut writer,
        server,
        paths,
        moment,
        seed,
        log,
    ) {
        Served::Replied => Some(writer.into_text()),
        Served::Ended => None,
        Served::ReadFailed => None,
        Served::WriteFailed => None,
    }
}
