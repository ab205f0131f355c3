//! All peers: whose turn it is is said from outside, and what becomes of each here.

ghost use Rattle.std.specs.Prelude.{◌≡◌, ◌≢◌, ◌<◌, ◌≤◌, ◌↔◌, ◌⊎◌, ◌++◌, ℕ, List, [], ◌∷◌, map, replicate, slice_get, slice_set, Option, Some, None, true, false, Result, Ok, IsTrue, IfOk, OnOk, OnErr, MatchResult};
ghost use Rattle.ci_http_peers.specs.declared.peer.Among.TheVariants.{All, Reading, Writing};
ghost use Rattle.ci_http_peers.specs.declared.peer.Peer.{Peer as PeerOf};
ghost use Rattle.ci_http_peers.specs.declared.chair.Chair.{Chair as ChairOf};
ghost use Rattle.ci_http_peers.specs.Turns.{Answers, AnswersHere, AnswersLast, AnswersOnce, Begins, CallsAt, Ends, EndsReply, Finishes, GoesOn, HasAll, IsGone, IsHeard, Replies, SameBut, Seats, StaysOrYields, cleared, cleared_at, is_at};
ghost use Rattle.ci_http_peers.specs.Answers.{text_of};
ghost use Rattle.ci_http_peers.specs.Peer.{is_among};
ghost use Rattle.ci_http_peers.specs.Peers.{IsNext, IsNextDeadline, bytes_held, kept};

use crate::answerer::Answerer;
use crate::chair::{Chair, Step};
use crate::peer::{Among, Peer, Stage};
use crate::peers::{
    MAX_PEERS, MAX_REPLY_BYTES, end_late, have_room, make_room, next_deadline, next_place, places,
    put,
};
use crate::wire::Wire;
use std::alloc::{AllocError, Global};

/// The most bytes of a read.
const READ_BYTES: usize = 16_384;

/// A table of peers, each with its connection.
#[derive(Drop)]
pub struct Hall<W> {
    alloc: Global,
    peers: Vec<Option<Peer>>,
    chairs: Vec<Option<Chair<W>>>,
    scratch: Vec<u8>,
    /// How long a whole request may take to come, and a whole reply to be taken, in milliseconds.
    patience: u64,
}

impl<W: Wire + Drop> Hall<W> {
    /// A table at which nobody sits. Errors: memory was refused.
    pub fn new(alloc: Global, patience: u64) -> Result<Hall<W>, AllocError>
        ensures peers { IfOk result (λ hall. hall.peers.items ≡ replicate MAX_PEERS None) }
        ensures chairs { IfOk result (λ hall. hall.chairs.items ≡ replicate MAX_PEERS None) }
        ensures patience { IfOk result (λ hall. hall.patience ≡ patience) }
    {
        Ok(Hall {
            alloc,
            peers: places(alloc)?,
            chairs: places(alloc)?,
            scratch: Vec::from_elem(alloc, 0, READ_BYTES)?,
            patience,
        })
    }

    /// When something is to be done though no connection is ready, in milliseconds. None where nobody sits.
    pub fn next_deadline(&self) -> Option<u64>
        ensures { IsNextDeadline self.now.peers.items result }
    {
        next_deadline(self.peers.as_slice())
    }

    /// Takes one more peer, and goes on with it. Where the table is full another gives way, once it was seen whether its request has
    /// come meanwhile.
    ///
    /// Errors: no request can be answered any more.
    pub fn admit<T, E, A: Answerer<T, E>>(
        &mut self,
        wire: W,
        answerer: &A,
        subject: &mut T,
        now: u64,
    ) -> Result<(), E>
        // Whose place it would be goes on first; then the new one sits down at the place that is the next by then. All others stay, or
        // yield to replies.
        ensures seats { (first : Option ℕ) × (seats : List (Option PeerOf)) × (chairs : List (Option (ChairOf W)))
            × IsNext self.old.peers.items first
            × ((k : ℕ) → first ≢ Some k → StaysOrYields self.old.peers.items self.old.chairs.items seats chairs k)
            × OnOk result (Seats now self.old.patience seats chairs self.new.peers.items self.new.chairs.items) }
        ensures answered { (requests : List (List ℕ)) × Answers (A.answers answerer.now) requests subject.old subject.new }
        ensures patience { self.new.patience ≡ self.old.patience }
    {
        self.go_on_first(answerer, subject, now)?;
        let Some(place) = next_place(self.peers.as_slice()) else {
            return Ok(());
        };
        let chair = Chair::new(self.alloc, wire);
        self.seat(place, Peer::reading(now, self.patience), chair);
        self.go_on(place, answerer, subject, now)
    }

    /// Goes on with the peer whose place would be that of one more: its request may have come meanwhile.
    ///
    /// Errors: no request can be answered any more.
    fn go_on_first<T, E, A: Answerer<T, E>>(
        &mut self,
        answerer: &A,
        subject: &mut T,
        now: u64,
    ) -> Result<(), E>
        ensures others { (first : Option ℕ) × IsNext self.old.peers.items first
            × ((k : ℕ) → first ≢ Some k → StaysOrYields self.old.peers.items self.old.chairs.items self.new.peers.items self.new.chairs.items k) }
        ensures answered { (requests : List (List ℕ)) × Answers (A.answers answerer.now) requests subject.old subject.new }
        ensures patience { self.new.patience ≡ self.old.patience }
    {
        match next_place(self.peers.as_slice()) {
            Some(place) => self.go_on(place, answerer, subject, now),
            None => Ok(()),
        }
    }

    /// Ends the peers whose time is over.
    pub fn end_late(&mut self, now: u64)
        ensures peers { self.new.peers.items ≡ map (kept now) self.old.peers.items }
        ensures chairs { self.new.chairs.items ≡ cleared self.new.peers.items self.old.chairs.items }
        ensures patience { self.new.patience ≡ self.old.patience }
    {
        end_late(&mut self.peers, now);
        clear(self.peers.as_slice(), &mut self.chairs);
    }

    /// Goes on with the peer of a place until its connection isn't ready or is over.
    ///
    /// Errors: no request can be answered any more.
    pub fn go_on<T, E, A: Answerer<T, E>>(
        &mut self,
        place: usize,
        answerer: &A,
        subject: &mut T,
        now: u64,
    ) -> Result<(), E>
        // No other place is touched, but for who yields to replies.
        ensures others { (k : ℕ) → k ≢ place → StaysOrYields self.old.peers.items self.old.chairs.items self.new.peers.items self.new.chairs.items k }
        // Who sits here has the time as before, unless the request was answered or the reply went.
        ensures here { GoesOn now self.old.patience (slice_get self.old.peers.items place) (slice_get self.new.peers.items place) }
        // One request was answered at most, and only where one was to come.
        ensures answered { AnswersOnce W (A.answers answerer.now) (slice_get self.old.peers.items place) subject.old subject.new }
        // Who stays is heard of by the loop.
        ensures heard { OnOk result (IsHeard (slice_get self.new.chairs.items place)) }
        ensures patience { self.new.patience ≡ self.old.patience }
    {
        for _ in 0..u64::MAX {
            match self.step(place, answerer, subject, now)? {
                Step::Waits => {
                    self.wait(place);
                    return Ok(());
                }
                Step::Over => {
                    self.leave(place);
                    return Ok(());
                }
                Step::Again | Step::Whole | Step::Went => {}
            }
        }
        self.wait(place);
        Ok(())
    }

    /// One call on the connection of a place, and what follows where with it a request is whole or a reply went.
    fn step<T, E, A: Answerer<T, E>>(
        &mut self,
        place: usize,
        answerer: &A,
        subject: &mut T,
        now: u64,
    ) -> Result<Step, E>
        ensures peers { SameBut place self.old.peers.items self.new.peers.items }
        ensures chairs { SameBut place self.old.chairs.items self.new.chairs.items }
        ensures here { GoesOn now self.old.patience (slice_get self.old.peers.items place) (slice_get self.new.peers.items place) }
        // One request was answered at most, and only where one was to come, all of whose bytes have.
        ensures once { AnswersOnce W (A.answers answerer.now) (slice_get self.old.peers.items place) subject.old subject.new }
        // It was the one of this connection.
        ensures whose { AnswersHere (A.says_due answerer.now) W.receives (A.answers answerer.now) (slice_get self.old.chairs.items place) subject.old subject.new }
        // None is to come here any more then.
        ensures last { OnOk result (AnswersLast W (A.answers answerer.now) (slice_get self.old.peers.items place)
            (slice_get self.new.peers.items place) subject.old subject.new) }
        ensures patience { self.new.patience ≡ self.old.patience }
    {
        match self.call(place, answerer) {
            Step::Whole => {
                self.answer(place, answerer, subject, now)?;
                Ok(Step::Again)
            }
            Step::Went => Ok(self.end_reply(place, now)),
            step => Ok(step),
        }
    }

    /// One call on the connection of a place, by what its peer is at.
    fn call<T, E, A: Answerer<T, E>>(&mut self, place: usize, answerer: &A) -> Step
        ensures peers { self.new.peers.items ≡ self.old.peers.items }
        ensures chairs { SameBut place self.old.chairs.items self.new.chairs.items }
        // Where nobody sits, or nobody's connection is, there is nothing to go on with.
        ensures nobody { is_at All (slice_get self.old.peers.items place) ≡ false → result ≡ Step.Over }
        ensures none { IsGone (slice_get self.old.chairs.items place) → result ≡ Step.Over }
        ensures calls { (peer : PeerOf) → (old : ChairOf W)
            → slice_get self.old.peers.items place ≡ Some (Some peer) → slice_get self.old.chairs.items place ≡ Some (Some old)
            → (new : ChairOf W) × (slice_get self.new.chairs.items place ≡ Some (Some new))
            × CallsAt (A.says_due answerer.now) W.receives W.sends peer.stage old new result }
        ensures whole { result ≡ Step.Whole → (is_at Reading (slice_get self.old.peers.items place) ≡ true)
            × (chair : ChairOf W) × (slice_get self.new.chairs.items place ≡ Some (Some chair)) × HasAll chair }
        ensures went { result ≡ Step.Went → is_at Writing (slice_get self.old.peers.items place) ≡ true }
        ensures patience { self.new.patience ≡ self.old.patience }
    {
        let Some(Some(peer)) = self.peers.get(place) else {
            return Step::Over;
        };
        let stage = peer.stage;
        call_at(stage, &mut self.chairs, place, &mut self.scratch, answerer)
    }

    /// Has the request of a place answered, and begins its reply, or ends the peer where there is none.
    fn answer<T, E, A: Answerer<T, E>>(
        &mut self,
        place: usize,
        answerer: &A,
        subject: &mut T,
        now: u64,
    ) -> Result<(), E>
        ensures answers { (chair : ChairOf W) → slice_get self.old.chairs.items place ≡ Some (Some chair)
            → (text : Option (List ℕ)) × A.answers answerer.now chair.bytes.items subject.old subject.new text
            × OnOk result (Replies now self.old.patience place chair text self.old.peers.items self.old.chairs.items self.new.peers.items self.new.chairs.items) }
        ensures none { IsGone (slice_get self.old.chairs.items place) → subject.new ≡ subject.old }
        ensures failed { OnErr result (self.new.peers.items ≡ self.old.peers.items) }
        ensures peers { Begins now self.old.patience place self.old.peers.items self.new.peers.items }
        ensures chairs { SameBut place self.old.chairs.items self.new.chairs.items }
        ensures patience { self.new.patience ≡ self.old.patience }
    {
        let Some(reply) = answer_at(self.chairs.as_slice(), place, answerer, subject)? else {
            self.leave(place);
            return Ok(());
        };
        let peer = Peer::writing(reply.len(), now, self.patience);
        reply_at(&mut self.chairs, place, reply);
        put(&mut self.peers, place, Some(peer));
        Ok(())
    }

    /// The reply of a place went as a whole.
    fn end_reply(&mut self, place: usize, now: u64) -> Step
        ensures ends { (chair : ChairOf W) → slice_get self.old.chairs.items place ≡ Some (Some chair)
            → EndsReply W.ends now place chair self.old.peers.items self.old.chairs.items self.new.peers.items self.new.chairs.items result }
        ensures none { IsGone (slice_get self.old.chairs.items place) → (result ≡ Step.Over) × (self.new.peers.items ≡ self.old.peers.items) }
        ensures peers { Finishes now place self.old.peers.items self.new.peers.items }
        ensures chairs { SameBut place self.old.chairs.items self.new.chairs.items }
        ensures patience { self.new.patience ≡ self.old.patience }
    {
        let Some(step) = end_at(&mut self.chairs, place) else {
            return Step::Over;
        };
        put(&mut self.peers, place, Some(Peer::ending(now)));
        step
    }

    /// The connection of a place isn't ready: the loop is to hear of it. Where its reply waits, and those that wait are too many bytes in
    /// all now, those give way that have been going longest.
    fn wait(&mut self, place: usize)
        ensures others { (k : ℕ) → k ≢ place → StaysOrYields self.old.peers.items self.old.chairs.items self.new.peers.items self.new.chairs.items k }
        ensures here { IsGone (slice_get self.new.peers.items place) ⊎ (slice_get self.new.peers.items place ≡ slice_get self.old.peers.items place) }
        ensures heard { IsHeard (slice_get self.new.chairs.items place) }
        ensures room { is_at Writing (slice_get self.new.peers.items place) ≡ true → bytes_held self.new.peers.items ≤ MAX_REPLY_BYTES }
        ensures patience { self.new.patience ≡ self.old.patience }
    {
        self.listen(place);
        if self.is_writing(place) && !have_room(self.peers.as_slice()) {
            make_room(&mut self.peers);
            clear(self.peers.as_slice(), &mut self.chairs);
        }
    }

    /// Does a reply go to the peer of a place?
    fn is_writing(&self, place: usize) -> bool
        ensures { result ≡ is_at Writing (slice_get self.now.peers.items place) }
    {
        match self.peers.get(place) {
            Some(Some(peer)) => Among::Writing.has(peer.stage),
            _ => false,
        }
    }

    /// Has the loop hear of the connection of a place, or ends it where the system refuses.
    fn listen(&mut self, place: usize)
        ensures peers { SameBut place self.old.peers.items self.new.peers.items }
        ensures chairs { SameBut place self.old.chairs.items self.new.chairs.items }
        ensures here { IsGone (slice_get self.new.peers.items place) ⊎ (self.new.peers.items ≡ self.old.peers.items) }
        ensures heard { IsHeard (slice_get self.new.chairs.items place) }
        ensures patience { self.new.patience ≡ self.old.patience }
    {
        if !listen_at(&mut self.chairs, place) {
            self.leave(place);
        }
    }

    /// A peer sits down at a place; who sat there is gone.
    fn seat(&mut self, place: usize, peer: Peer, chair: Chair<W>)
        ensures peers { self.new.peers.items ≡ slice_set self.old.peers.items place (Some peer) }
        ensures chairs { self.new.chairs.items ≡ slice_set self.old.chairs.items place (Some chair) }
        ensures patience { self.new.patience ≡ self.old.patience }
    {
        put(&mut self.peers, place, Some(peer));
        put(&mut self.chairs, place, Some(chair));
    }

    /// The peer of a place goes, and its connection is over.
    fn leave(&mut self, place: usize)
        ensures peers { self.new.peers.items ≡ slice_set self.old.peers.items place None }
        ensures chairs { self.new.chairs.items ≡ slice_set self.old.chairs.items place None }
        ensures patience { self.new.patience ≡ self.old.patience }
    {
        put(&mut self.peers, place, None);
        put(&mut self.chairs, place, None);
    }
}

/// One call on a connection, by what its peer is at.
fn call_one<W: Wire, T, E, A: Answerer<T, E>>(
    stage: Stage,
    chair: &mut Chair<W>,
    scratch: &mut [u8],
    answerer: &A,
) -> Step
    ensures calls { CallsAt (A.says_due answerer.now) W.receives W.sends stage chair.old chair.new result }
    ensures whole { result ≡ Step.Whole → (is_among Reading stage ≡ true) × HasAll chair.new }
    ensures went { result ≡ Step.Went → is_among Writing stage ≡ true }
{
    match stage {
        Stage::Reading => chair.read(scratch, answerer),
        Stage::Writing(_) => chair.write(),
        Stage::Ending => chair.drain(scratch),
    }
}

/// One call on the connection of a place, by what its peer is at. Where there is none it is over.
fn call_at<W: Wire + Drop, T, E, A: Answerer<T, E>>(
    stage: Stage,
    chairs: &mut [Option<Chair<W>>],
    place: usize,
    scratch: &mut [u8],
    answerer: &A,
) -> Step
    ensures others { SameBut place chairs.old chairs.new }
    ensures none { IsGone (slice_get chairs.old place) → (result ≡ Step.Over) × (chairs.new ≡ chairs.old) }
    ensures calls { (old : ChairOf W) → slice_get chairs.old place ≡ Some (Some old)
        → (new : ChairOf W) × (chairs.new ≡ slice_set chairs.old place (Some new))
        × CallsAt (A.says_due answerer.now) W.receives W.sends stage old new result }
    ensures whole { result ≡ Step.Whole → (is_among Reading stage ≡ true)
        × (chair : ChairOf W) × (slice_get chairs.new place ≡ Some (Some chair)) × HasAll chair }
    ensures went { result ≡ Step.Went → is_among Writing stage ≡ true }
{
    if place < chairs.len() {
        if let Some(chair) = &mut chairs[place] {
            return call_one(stage, chair, scratch, answerer);
        }
    }
    Step::Over
}

/// What is answered to the request of a place: none where there is no connection, or it is to end without a reply.
///
/// Errors: no request can be answered any more.
fn answer_at<W: Wire + Drop, T, E, A: Answerer<T, E>>(
    chairs: &[Option<Chair<W>>],
    place: usize,
    answerer: &A,
    subject: &mut T,
) -> Result<Option<Vec<u8>>, E>
    ensures none { IsGone (slice_get chairs.now place) → (result ≡ Ok None) × (subject.new ≡ subject.old) }
    ensures answers { (chair : ChairOf W) → slice_get chairs.now place ≡ Some (Some chair)
        → A.answers answerer.now chair.bytes.items subject.old subject.new (text_of result) }
{
    match chairs.get(place) {
        Some(Some(chair)) => answerer.answer(subject, chair.request()),
        _ => Ok(None),
    }
}

/// From now on this reply goes over the connection of a place.
fn reply_at<W: Wire + Drop>(chairs: &mut [Option<Chair<W>>], place: usize, reply: Vec<u8>)
    ensures others { SameBut place chairs.old chairs.new }
    ensures replies { (chair : ChairOf W) → slice_get chairs.old place ≡ Some (Some chair)
        → chairs.new ≡ slice_set chairs.old place (Some (record chair { bytes = reply; count = 0 })) }
{
    if place < chairs.len() {
        if let Some(chair) = &mut chairs[place] {
            chair.reply(reply);
        }
    }
}

/// Tells the peer of a place that its reply is whole, unless just its request came. What follows; none where its connection is over.
fn end_at<W: Wire + Drop>(chairs: &mut [Option<Chair<W>>], place: usize) -> Option<Step>
    ensures others { SameBut place chairs.old chairs.new }
    ensures none { IsGone (slice_get chairs.old place) → (result ≡ None) × (chairs.new ≡ chairs.old) }
    ensures over { (chair : ChairOf W) → slice_get chairs.old place ≡ Some (Some chair) → chair.is_exact ≡ true
        → (result ≡ None) × (chairs.new ≡ chairs.old) }
    ensures ends { (chair : ChairOf W) → slice_get chairs.old place ≡ Some (Some chair) → chair.is_exact ≡ false
        → (new : ChairOf W) × (chairs.new ≡ slice_set chairs.old place (Some new)) × Ends W.ends chair new
        × (chair.is_heard ≡ true → result ≡ Some Step.Again) × (chair.is_heard ≡ false → result ≡ Some Step.Waits) }
{
    if place < chairs.len() {
        if let Some(chair) = &mut chairs[place] {
            if !chair.ends_with_reply() {
                return Some(chair.end());
            }
        }
    }
    None
}

/// Has the loop hear of the connection of a place. Does it then? Not where there is none, or the system refuses.
fn listen_at<W: Wire + Drop>(chairs: &mut [Option<Chair<W>>], place: usize) -> bool
    ensures others { SameBut place chairs.old chairs.new }
    ensures heard { result ≡ true → IsHeard (slice_get chairs.new place) }
{
    if place < chairs.len() {
        listen_one(&mut chairs[place], place)
    } else {
        false
    }
}

/// Has the loop hear of a connection, if there is one. Does it then? Not where there is none, or the system refuses.
fn listen_one<W: Wire + Drop>(chair: &mut Option<Chair<W>>, place: usize) -> bool
    ensures heard { result ≡ true → IsHeard (Some chair.new) }
{
    match chair {
        Some(chair) => chair.listen(place).is_ok(),
        None => false,
    }
}

/// Ends the connections of the places where nobody sits.
fn clear<W: Wire + Drop>(peers: &[Option<Peer>], chairs: &mut [Option<Chair<W>>])
    ensures { chairs.new ≡ cleared peers.now chairs.old }
{
    for place in 0..peers.len() {
        clear_one(peers[place], place, chairs);
    }
}

/// Ends the connection of a place where nobody sits.
fn clear_one<W: Wire + Drop>(seat: Option<Peer>, place: usize, chairs: &mut [Option<Chair<W>>])
    ensures { chairs.new ≡ cleared_at seat place chairs.old }
{
    if seat.is_none() {
        put(chairs, place, None);
    }
}
