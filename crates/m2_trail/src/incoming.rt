//! A socket of the peer, with its half and its trail.

ghost use Rattle.std.specs.Prelude.{◌≡◌, ◌<◌, ◌≤◌, [], ◌∷◌, true, false, Some, None, length, IsOk, IsSome, IfOk, IfErr, IfSome, OnOk, OnErr, is_none, not};
ghost use Rattle.std.specs.Option.{option_copied};
ghost use Rattle.m2_fabric.specs.End.{after_news};
ghost use Rattle.m2_fabric.specs.Log.{nothing_done};
ghost use Rattle.m2_handshake.specs.Moves.{can_ask, is_at_rest};
ghost use Rattle.m2_addr.specs.declared.addr.Addr.{Addr};
ghost use Rattle.m2_control.specs.Laws.{IsInBounds};
ghost use Rattle.m2_handshake.specs.Greeting.{control_of};
ghost use Rattle.m2_session.specs.SessionLaws.{takes};
ghost use Rattle.m2_trail.specs.Arrivals.{IsArrival, IsEndOf, closed_of, left_of};
ghost use Rattle.m2_trail.specs.Asks.{IsMain};
ghost use Rattle.m2_trail.specs.Incoming.{IsAnswered, ReadsOn, StepsOn, WritesOn, accepted, after_judging, after_refusing, after_replying};
ghost use Rattle.m2_trail.specs.Replies.{refusal, reply_to};
ghost use Rattle.m2_trail.specs.Trails.{IsTaken, IsWholeTrail, begins, half_bytes, opener_of, trail_now, unread_of};
ghost use Rattle.m2_trail.specs.Unput.{is_some};

use crate::arrival::Takeover;
use crate::facts::facts_of_ask;
use crate::loose::Loose;
use crate::moving::{note_read, note_write, read_into, room_for_read};
use crate::step::IncomingStep;
use crate::trail::Trail;
use crate::unput::Unput;
use m2_addr::Addr;
use m2_bytes::{Items, NoMemory};
use m2_control::{Control, IdentMissingFeatures};
use m2_fabric::{End, EndRead, EndWrite, News, SocketId};
use m2_handshake::{Ask, AskStep, Half, HalfStep};
use m2_journal::{Entry, EntryList, JudgedItem};
use m2_session::Answer;
use std::alloc::Global;
use std::marker::Model;

/// How many bytes a piece to read into has at most.
pub const MOST_READ: usize = 65_536;

/// A socket of the peer that no record took: its end, the half that reads and answers there, what the
/// half has written and isn't put, and the trail. Its end is open.
///
/// Makers: [`new`](Incoming::new), [`begin`](Incoming::begin). Readers: [`id`](Incoming::id), [`end`](Incoming::end),
/// [`trail`](Incoming::trail), [`ask`](Incoming::ask), [`has_text`](Incoming::has_text),
/// [`rests`](Incoming::rests); [`is_whole`](Incoming::is_whole) says what is kept. Calls: [`read`](Incoming::read) and [`write`](Incoming::write) move bytes,
/// [`step`](Incoming::step) is one answer of the half. Ends: [`Arrival::of`](crate::Arrival::of) where it was asked,
/// [`close`](Incoming::close), [`leave`](Incoming::leave).
///
/// What was written is put before the half is stepped on, and an ask has its reply before anything is
/// read: an asked socket becomes an [`Arrival`](crate::Arrival), which comes back with its reply. Each call answers for
/// want of memory and leaves all that contracts see as it was, or does what its answer says.
#[derive(Drop)]
pub struct Incoming<E: End> {
    alloc: Global,
    end: E,
    half: Half,
    trail: Trail,
    unput: Unput,
    ask: Option<Ask>,
    is_judged: bool,
    refused: Option<u64>,
}

impl<E: End> Model for Incoming<E> {
    ghost use Rattle.std.specs.Prelude.{◌≤◌, min};
    ghost use Rattle.m2_trail.specs.Incoming.{IncomingNow, Keeps};
    ghost use Rattle.m2_trail.specs.Trails.{trail_now};

    ghost Value = { IncomingNow };

    ghost view = { λ i. record {
      end = E.seen i.end;
      trail = trail_now i.trail;
      half = i.half.standing;
      left = i.unput;
      ask = i.ask;
      is_judged = i.is_judged;
      refused = i.refused;
      room = min i.trail.judged.room i.trail.judged_after.room;
    } };

    ghost invariant = { λ i. Keeps (record {
      end = E.seen i.end;
      trail = trail_now i.trail;
      half = i.half.standing;
      left = i.unput;
      ask = i.ask;
      is_judged = i.is_judged;
      refused = i.refused;
      room = min i.trail.judged.room i.trail.judged_after.room;
    }) × (1 ≤ i.trail.entries.room) };
}

impl<E: End> Incoming<E> {
    /// An end that was accepted and did nothing yet, with a half that names this kind of node. Err hands
    /// the end back for want of memory.
    pub fn new(alloc: Global, end: E, entity: u8) -> Result<Incoming<E>, E>
        requires { (E.seen end).log ≡ nothing_done }
        ensures ok { IfOk result (λ i. i ≡ accepted entity (E.seen end) i.room) }
        ensures err { IfErr result (λ back. E.seen back ≡ E.seen end) }
    {
        let mut entries = EntryList::empty(alloc);
        if entries.reserve(1).is_err() {
            return Err(end);
        }
        Ok(Incoming::begin(alloc, end, entity, entries))
    }

    /// The same with a list for its entries, in which that of a close has its room: takes no memory, so it
    /// can't fail where the end was just accepted.
    pub fn begin(alloc: Global, end: E, entity: u8, entries: EntryList) -> Incoming<E>
        requires unused { (E.seen end).log ≡ nothing_done }
        requires none { entries.items ≡ [] }
        requires room { 1 ≤ entries.room }
        ensures { result ≡ accepted entity (E.seen end) result.room }
    {
        let socket = end.id();
        Incoming {
            alloc,
            end,
            half: Half::server(alloc, entity, opener_of(&socket)),
            trail: Trail {
                socket,
                entity,
                entries,
                judged: Items::empty(alloc),
                judged_after: Items::empty(alloc),
            },
            unput: Unput::empty(alloc),
            ask: None,
            is_judged: false,
            refused: None,
        }
    }

    /// The socket's name.
    pub fn id(&self) -> SocketId
        ensures { result ≡ self.now.end.id }
    {
        self.end.id()
    }

    pub fn end(&self) -> &E
        ensures { E.seen result.now ≡ self.now.end }
    {
        &self.end
    }

    pub fn trail(&self) -> &Trail
        ensures { trail_now result.now ≡ self.now.trail }
    {
        &self.trail
    }

    /// The ask that has no reply.
    pub fn ask(&self) -> Option<&Ask>
        ensures { option_copied result ≡ self.now.ask }
    {
        self.ask.as_ref()
    }

    /// Whether the half has written something that isn't put.
    pub fn has_text(&self) -> bool
        ensures { result ≡ is_some self.now.left }
    {
        self.unput.is_some()
    }

    /// Whether the half has nothing to do before more bytes come, or owes a reply.
    pub fn rests(&self) -> bool
        ensures { result ≡ is_at_rest self.now.half }
    {
        self.half.rests()
    }

    /// Tells an end in memory of the other side.
    pub fn hear(&mut self, bytes: &[u8], news: News) -> Result<(), NoMemory>
        ensures ok { OnOk result (self.new ≡ record self.old { end = after_news news bytes.now self.old.end }) }
        ensures err { OnErr result (self.new ≡ self.old) }
    {
        self.end.hear(bytes, news)
    }

    /// Reads once into the first part of the piece, and feeds the half with what it gave.
    pub fn read(&mut self, piece: &mut [u8]) -> EndRead
        requires some { 0 < length piece.old }
        requires most { length piece.old ≤ MOST_READ }
        requires unasked { self.old.ask ≡ None }
        ensures { ReadsOn result piece.new self.old self.new }
    {
        if room_for_read(&mut self.half, &mut self.trail).is_err() {
            return EndRead::NoMemory;
        }
        let answer = read_into(&mut self.end, &mut self.half, piece);
        note_read(answer, &mut self.trail);
        answer
    }

    /// Writes once of what isn't put.
    pub fn write(&mut self) -> EndWrite
        requires { 0 < length self.old.left }
        ensures { WritesOn result self.old self.new }
    {
        if self.trail.entries.reserve(2).is_err() {
            return EndWrite::NoMemory;
        }
        let answer = self.end.write(self.unput.as_slice());
        note_write(answer, &mut self.unput, &mut self.trail);
        answer
    }

    /// One answer of the half.
    pub fn step(&mut self) -> IncomingStep
        requires put { self.old.left ≡ [] }
        requires unasked { self.old.ask ≡ None }
        ensures { StepsOn result self.old self.new }
    {
        if self.half.can_ask() {
            self.seek_ask()
        } else {
            self.go_on()
        }
    }

    /// Closes the end, and notes it. Takes no memory.
    pub fn close(self) -> Loose<E>
        ensures { result ≡ closed_of self }
    {
        let mut end = self.end;
        let mut trail = self.trail;
        end.close();
        trail.entries.push_reserved(Entry::Closed {
            socket: trail.socket,
        });
        Loose::new(end, trail)
    }

    /// Leaves the half as it is. Takes no memory.
    pub fn leave(self) -> Loose<E>
        ensures { result ≡ left_of self }
    {
        Loose::new(self.end, self.trail)
    }

    /// One answer of a half that hasn't signed.
    fn go_on(&mut self) -> IncomingStep
        requires put { self.old.left ≡ [] }
        requires unasked { self.old.ask ≡ None }
        requires unsigned { can_ask self.old.half ≡ false }
        ensures { StepsOn result self.old self.new }
    {
        match self.unput.go_on(&mut self.half) {
            HalfStep::NotYet => IncomingStep::Rests,
            HalfStep::Wrote => IncomingStep::Wrote,
            HalfStep::Authed => IncomingStep::Signed,
            HalfStep::Fault(fault) => IncomingStep::Fault(fault),
            HalfStep::NoMemory => IncomingStep::NoMemory,
        }
    }

    /// One answer of a half that has signed.
    fn seek_ask(&mut self) -> IncomingStep
        requires put { self.old.left ≡ [] }
        requires unasked { self.old.ask ≡ None }
        requires signed { can_ask self.old.half ≡ true }
        ensures { StepsOn result self.old self.new }
    {
        match self.half.ask() {
            AskStep::NotYet => IncomingStep::Rests,
            AskStep::Asked(ask) => {
                self.ask = Some(ask);
                IncomingStep::Asked
            }
            AskStep::Fault(fault) => IncomingStep::Fault(fault),
            AskStep::NoMemory => IncomingStep::NoMemory,
        }
    }

    /// What a socket of the peer is, for contracts alone: its end is open, and its trail is of that socket and tells
    /// all that the end did, with the two facts of a trail.
    pub fn is_whole(&self)
        ensures unclosed { self.now.end.log.closed ≡ false }
        ensures whole { IsWholeTrail self.now.trail self.now.end }
    {
        let _ = &self.end;
    }

    /// What is known of a socket that was asked, for contracts alone.
    pub(crate) fn is_asked(&self)
        requires { IsSome self.now.ask }
        ensures { IsArrival self.now }
    {
        let _ = &self.ask;
    }

    /// That the ask keeps the bounds of its fields, for contracts alone.
    pub(crate) fn has_bounds(&self)
        ensures { IfSome self.now.ask (λ ask. IsInBounds (control_of ask)) }
    {
        let _ = &self.ask;
    }

    /// The main address of the ask.
    pub(crate) fn peer(&self) -> Addr
        requires { IsSome self.now.ask }
        ensures { IfSome self.now.ask (λ ask. IsMain ask result) }
    {
        match &self.ask {
            Some(ask) => main_of(ask),
            None => unreachable!(),
        }
    }

    /// Whether the ask was judged.
    pub(crate) fn is_judged(&self) -> bool
        ensures { result ≡ self.now.is_judged }
    {
        self.is_judged
    }

    /// Makes room for one more judged ask.
    pub(crate) fn reserve_judged(&mut self) -> Result<(), NoMemory>
        ensures same { self.new ≡ record self.old { room = self.new.room } }
        ensures room { OnOk result (0 < self.new.room) }
    {
        self.trail.judged.reserve(1)?;
        self.trail.judged_after.reserve(1)
    }

    /// Notes the answer to the ask.
    pub(crate) fn note(&mut self, answer: Answer)
        requires asked { IsSome self.old.ask }
        requires unjudged { self.old.is_judged ≡ false }
        requires room { 0 < self.old.room }
        ensures { self.new ≡ after_judging answer self.new.room self.old }
    {
        let Some(ask) = &self.ask else { unreachable!() };
        self.trail.judged.push_reserved(JudgedItem {
            ask: facts_of_ask(ask),
            answer,
        });
        let place = self.trail.entries.len();
        self.trail.judged_after.push_reserved(place);
        self.is_judged = true;
    }

    /// Gives the reply to the judged ask.
    pub(crate) fn put_reply(&mut self, answer: &Answer, c: &Control) -> Result<(), NoMemory>
        requires asked { IsSome self.old.ask }
        requires judged { IsAnswered answer.now self.old }
        requires reply { reply_to answer.now ≡ c.now ∷ [] }
        ensures ok { OnOk result (self.new ≡ after_replying c.now self.old) }
        ensures err { OnErr result (self.new ≡ self.old) }
    {
        self.unput.put_reply(&mut self.half, c)?;
        self.ask = None;
        self.is_judged = false;
        Ok(())
    }

    /// Refuses the ask, which isn't judged.
    pub(crate) fn put_refusal(&mut self, bits: u64) -> Result<(), NoMemory>
        requires asked { IsSome self.old.ask }
        requires unjudged { self.old.is_judged ≡ false }
        ensures ok { OnOk result (self.new ≡ after_refusing (refusal bits) bits self.old) }
        ensures err { OnErr result (self.new ≡ self.old) }
    {
        let refusal = Control::IdentMissingFeatures(IdentMissingFeatures { bits });
        self.unput.put_reply(&mut self.half, &refusal)?;
        let _refused = self.ask.take();
        self.refused = Some(bits);
        Ok(())
    }

    /// Hands on the socket whose ask was judged by an answer that takes it.
    pub(crate) fn take(self, answer: &Answer) -> Takeover<E>
        requires judged { IsAnswered answer.now self }
        requires asked { IsSome self.ask }
        requires takes { takes answer.now ≡ true }
        ensures end { E.seen result.end ≡ self.end }
        ensures unclosed { self.end.log.closed ≡ false }
        ensures trail { trail_now result.trail ≡ self.trail }
        ensures unread { result.decoder.rest ≡ unread_of self.trail self.end.log }
        ensures ungranted { result.decoder.granted ≡ false }
        ensures end_of_got { IsEndOf result.decoder.rest self.end.log.got }
        ensures whole { IsWholeTrail self.trail self.end }
        ensures taken { IsTaken (begins self.trail) (half_bytes self.trail self.end.log) self.trail.judged (unread_of self.trail self.end.log) }
    {
        Takeover {
            end: self.end,
            decoder: self.half.finish(),
            trail: self.trail,
        }
    }
}

/// The address of a socket's opener as its acceptor knows it: of the kind of msgr2, with nonce 0.
fn opener_of(socket: &SocketId) -> Addr
    ensures { result ≡ opener_of socket.now }
{
    Addr {
        kind: Addr::MSGR2,
        nonce: 0,
        ip: socket.from_ip,
        port: socket.from_port,
    }
}

/// The main address of an ask that has one.
fn main_of(ask: &Ask) -> Addr
    requires { (main : Addr) × IsMain ask.now main }
    ensures { IsMain ask.now result }
{
    let main = match ask {
        Ask::Ident(ident) => ident.addrs.main(),
        Ask::Reconnect(reconnect) => reconnect.addrs.main(),
    };
    match main {
        Ok(main) => main,
        Err(_) => unreachable!(),
    }
}
