//! A socket of the peer that was asked.

ghost use Rattle.std.specs.Prelude.{◌≡◌, ◌<◌, ◌≤◌, ℕ, [], ◌∷◌, true, false, Some, None, IsSome, IsOk, IfOk, IfErr, IfSome, OnOk, OnErr};
ghost use Rattle.m2_fabric.specs.End.{after_news};
ghost use Rattle.m2_handshake.specs.declared.ident.IdentCheck.TheVariants as checks;
ghost use Rattle.m2_journal.specs.Lawful.{IsReadable};
ghost use Rattle.m2_journal.specs.SideFacts.{SideFacts};
ghost use Rattle.m2_session.specs.SessionLaws.{takes};
ghost use Rattle.m2_trail.specs.Arrivals.{IsArrival, IsEndOf, closed_of, left_of};
ghost use Rattle.m2_trail.specs.Asks.{AgreesWith, IsMain, check_of, facts_of_ask, is_ident};
ghost use Rattle.m2_trail.specs.Incoming.{IsAnswered, after_judging, after_refusing, after_replying, items_of, with_judged};
ghost use Rattle.m2_trail.specs.Replies as replies;
ghost use Rattle.m2_trail.specs.Trails.{IsTakenTrail, IsWholeTrail, trail_now, unread_of};

use crate::facts::facts_of_ask;
use crate::home::HomeOf;
use crate::incoming::Incoming;
use crate::loose::Loose;
use crate::replies::reply_to;
use crate::trail::Trail;
use m2_addr::Addr;
use m2_bytes::NoMemory;
use m2_fabric::{End, News, SocketId};
use m2_frame::Decoder;
use m2_handshake::{Ask, IdentCheck, check_ident};
use m2_policy::Policy;
use m2_session::{Answer, AskFacts};
use m2_shared::Item;
use std::marker::Model;

/// A socket of the peer that was asked, until it is taken or replied to. All that its half has written is put.
///
/// Maker: [`of`](Arrival::of). Readers: [`id`](Arrival::id), [`end`](Arrival::end),
/// [`trail`](Arrival::trail), [`ask`](Arrival::ask), [`peer`](Arrival::peer),
/// [`ask_facts`](Arrival::ask_facts), [`is_judged`](Arrival::is_judged), [`check`](Arrival::check). Judging:
/// [`reserve_judged`](Arrival::reserve_judged), [`note`](Arrival::note). Ends: [`take`](Arrival::take) where
/// the answer takes the socket; [`reply`](Arrival::reply), [`refuse`](Arrival::refuse) and
/// [`into_incoming`](Arrival::into_incoming), which give the socket back; [`close`](Arrival::close),
/// [`leave`](Arrival::leave).
#[derive(Drop)]
pub struct Arrival<E: End> {
    of: Incoming<E>,
}

/// What a record takes: the end, with the bytes that the half has left unread in a decoder, and the trail.
#[derive(Drop)]
pub struct Takeover<E: End> {
    pub end: E,
    pub decoder: Decoder,
    pub trail: Trail,
}

impl<E: End> Model for Arrival<E> {
    ghost use Rattle.std.specs.Prelude.{IsSome};
    ghost use Rattle.m2_trail.specs.Incoming.{IncomingNow};

    ghost Value = { IncomingNow };

    ghost view = { λ a. a.of };

    ghost invariant = { λ a. IsSome a.of.ask };
}

/// It belongs to its home as long as nothing of it was judged.
impl<E: End> Item for Arrival<E> {
    type Owner = HomeOf;

    ghost use Rattle.m2_trail.specs.Home.{IsAtHome};

    ghost belongs = { λ home a. IsAtHome home.center home.centers a };
}

impl<E: End> Arrival<E> {
    /// A socket that was asked. Takes no memory.
    pub fn of(of: Incoming<E>) -> Arrival<E>
        requires { IsSome of.ask }
        ensures { result ≡ of }
    {
        Arrival { of }
    }

    /// What an arrival is, for contracts alone: its end is open and its trail tells all that the end did;
    /// its half was fed just what the end got and has written just what the end has put, and owes the
    /// reply to the ask, its last; and that ask is the last of those that were judged or the next one after
    /// them.
    pub fn is_arrival(&self)
        ensures { IsArrival self.now }
    {
        self.of.is_asked();
    }

    /// The socket's name.
    pub fn id(&self) -> SocketId
        ensures { result ≡ self.now.end.id }
    {
        self.of.id()
    }

    pub fn end(&self) -> &E
        ensures { E.seen result.now ≡ self.now.end }
    {
        self.of.end()
    }

    pub fn trail(&self) -> &Trail
        ensures { trail_now result.now ≡ self.now.trail }
    {
        self.of.trail()
    }

    pub fn ask(&self) -> &Ask
        ensures { self.now.ask ≡ Some result.now }
    {
        match self.of.ask() {
            Some(ask) => ask,
            None => unreachable!(),
        }
    }

    /// The main address of the ask.
    pub fn peer(&self) -> Addr
        ensures { IfSome self.now.ask (λ ask. IsMain ask result) }
    {
        self.of.peer()
    }

    /// The numbers of the ask. They can be read by a side with whose policy the ask agrees.
    pub fn ask_facts(&self) -> AskFacts
        ensures facts { IfSome self.now.ask (λ ask. result ≡ facts_of_ask ask) }
        ensures readable { (f : SideFacts) → IfSome self.now.ask (λ ask. AgreesWith f.policy ask → IsReadable f result) }
    {
        self.of.has_bounds();
        facts_of_ask(self.ask())
    }

    /// Whether the ask was judged.
    pub fn is_judged(&self) -> bool
        ensures { result ≡ self.now.is_judged }
    {
        self.of.is_judged()
    }

    /// What is found in the ask before it is judged: in an ident whether it is meant for this address,
    /// agrees with the policy and supports what is required; in a reconnect nothing.
    pub fn check(&self, mine: &Addr, policy: &Policy, required: u64) -> IdentCheck
        ensures exact { IfSome self.now.ask (λ ask. result ≡ check_of ask mine.now policy.now required) }
        ensures agreed { result ≡ checks.Fine → IfSome self.now.ask (AgreesWith policy.now) }
    {
        match self.ask() {
            Ask::Ident(ident) => check_ident(ident, mine, policy, required),
            Ask::Reconnect(_) => IdentCheck::Fine,
        }
    }

    /// Tells an end in memory of the other side.
    pub fn hear(&mut self, bytes: &[u8], news: News) -> Result<(), NoMemory>
        ensures ok { OnOk result (self.new ≡ record self.old { end = after_news news bytes.now self.old.end }) }
        ensures err { OnErr result (self.new ≡ self.old) }
    {
        self.of.hear(bytes, news)
    }

    /// Makes room for one more judged ask, so that noting it can't fail.
    pub fn reserve_judged(&mut self) -> Result<(), NoMemory>
        ensures same { self.new ≡ record self.old { room = self.new.room } }
        ensures room { OnOk result (0 < self.new.room) }
    {
        self.of.reserve_judged()
    }

    /// Notes the answer to the ask. Takes no memory.
    pub fn note(&mut self, answer: Answer)
        requires unjudged { self.old.is_judged ≡ false }
        requires room { 0 < self.old.room }
        ensures { self.new ≡ after_judging answer self.new.room self.old }
    {
        self.of.note(answer);
    }

    /// Gives the reply to the ask, whose answer is this one and takes no socket, and isn't
    /// [`Close`](Answer::Close): its frame is to be put. Err hands all back for want of memory.
    pub fn reply(self, answer: &Answer) -> Result<Incoming<E>, Arrival<E>>
        requires judged { IsAnswered answer.now self }
        requires some { IsSome (replies.first_reply answer.now) }
        ensures ok { IfOk result (λ i. IfSome (replies.first_reply answer.now) (λ c. i ≡ after_replying c self)) }
        ensures err { IfErr result (λ back. back ≡ self) }
    {
        let mut of = self.of;
        let Some(reply) = reply_to(answer) else {
            unreachable!()
        };
        match of.put_reply(answer, &reply) {
            Ok(()) => Ok(of),
            Err(_) => Err(Arrival { of }),
        }
    }

    /// Refuses an ident that isn't judged, for these features: its frame is to be put, and the half waits
    /// for the end. Err hands all back for want of memory.
    pub fn refuse(self, bits: u64) -> Result<Incoming<E>, Arrival<E>>
        requires unjudged { self.is_judged ≡ false }
        requires ident { IfSome self.ask (λ ask. is_ident ask ≡ true) }
        ensures ok { IfOk result (λ i. i ≡ after_refusing (replies.refusal bits) bits self) }
        ensures err { IfErr result (λ back. back ≡ self) }
    {
        let mut of = self.of;
        match of.put_refusal(bits) {
            Ok(()) => Ok(of),
            Err(_) => Err(Arrival { of }),
        }
    }

    /// The same socket, asked as it is.
    pub fn into_incoming(self) -> Incoming<E>
        ensures { result ≡ self }
    {
        self.of
    }

    /// Hands on the socket to the record that takes it by this answer, which is noted. The bytes unread are
    /// the end of what was got, behind what the half has used. The half owes the reply to the ask, has replied
    /// to those before, and has put all that it wrote. Takes no memory.
    pub fn take(self, answer: Answer) -> Takeover<E>
        requires unjudged { self.is_judged ≡ false }
        requires room { 0 < self.room }
        requires takes { takes answer ≡ true }
        ensures end { E.seen result.end ≡ self.end }
        ensures unclosed { self.end.log.closed ≡ false }
        ensures trail { trail_now result.trail ≡ with_judged (items_of self.ask answer) self.trail }
        ensures unread { result.decoder.rest ≡ unread_of (with_judged (items_of self.ask answer) self.trail) self.end.log }
        ensures ungranted { result.decoder.granted ≡ false }
        ensures end_of_got { IsEndOf result.decoder.rest self.end.log.got }
        ensures whole { IsWholeTrail (with_judged (items_of self.ask answer) self.trail) self.end }
        ensures taken { IsTakenTrail (with_judged (items_of self.ask answer) self.trail) self.end.log }
    {
        let mut of = self.of;
        of.note(answer);
        of.take(&answer)
    }

    /// Closes the end, and notes it. Takes no memory.
    pub fn close(self) -> Loose<E>
        ensures { result ≡ closed_of self }
    {
        self.of.close()
    }

    /// Leaves the half as it is. Takes no memory.
    pub fn leave(self) -> Loose<E>
        ensures { result ≡ left_of self }
    {
        self.of.leave()
    }
}
