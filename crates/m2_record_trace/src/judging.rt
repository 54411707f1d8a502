//! How a side judges the asks of its peer.

ghost use Rattle.std.specs.Prelude.{◌≡◌, true, false, IfSome};
ghost use Rattle.std.specs.Bool.{OnTrue};
ghost use Rattle.m2_handshake.specs.declared.ident.IdentCheck.TheVariants as checks;
ghost use Rattle.m2_trail.specs.Asks.{AgreesWith, is_ident};
ghost use Rattle.m2_trail.specs.Incoming.{IsAnswered};
ghost use Rattle.m2_journal.specs.Lawful.{judged_on};
ghost use Rattle.m2_record.specs.TakenTrails.{judgements_in};
ghost use Rattle.m2_record_trace.specs.Judging.{IfMissing, IsKnown};
ghost use Rattle.m2_record_trace.specs.SideNow.{OnlyJudges};

use crate::connecting::has_end;
use crate::side::Side;
use m2_fabric::{SimEnd, SocketId};
use m2_handshake::IdentCheck;
use m2_journal::{EntryList, JudgedItem};
use m2_record::{Judged, behind_judged};
use m2_session::Answer;
use m2_shared::Draw;
use m2_trail::{Arrival, Incoming, Loose, reply_to};

/// What is left of a half.
pub(crate) enum HalfLeft {
    /// It goes on.
    Open(Incoming<SimEnd>),
    /// Its socket is closed.
    Loose(Loose<SimEnd>),
    /// The record has taken it.
    Taken,
}

impl Side {
    /// Judges an ask, and replies where the socket isn't taken. What isn't meant for this side is closed, and so is what can't be
    /// judged.
    pub(crate) fn judge(&mut self, arrival: Arrival<SimEnd>, now: u64) -> HalfLeft
        ensures { OnlyJudges self.old self.new }
    {
        if arrival.is_judged() {
            return HalfLeft::Loose(arrival.close());
        }
        match self.check(&arrival) {
            IdentCheck::Fine => {}
            IdentCheck::Missing(bits) => return refused(arrival, bits),
            IdentCheck::Fault(_) => return HalfLeft::Loose(arrival.close()),
        }
        if !self.may_judge(&arrival) {
            return HalfLeft::Loose(arrival.close());
        }
        arrival.is_arrival();
        let Draw::Number(number) = self.numbers.draw(&mut self.number_pass) else {
            return HalfLeft::Loose(arrival.close());
        };
        match self
            .record
            .judge(arrival, number, &self.throttles, &mut self.passes, now)
        {
            Judged::Taken(_) => HalfLeft::Taken,
            Judged::Back { answer, arrival } => replied(arrival, &answer),
            Judged::NoMemory(arrival) => HalfLeft::Open(arrival.into_incoming()),
        }
    }

    /// What is found in an ask before it is judged.
    fn check(&self, arrival: &Arrival<SimEnd>) -> IdentCheck
        ensures agreed { result ≡ checks.Fine → IfSome arrival.now.ask (AgreesWith self.now.kept.core.facts.policy) }
        ensures missing { IfMissing result (IfSome arrival.now.ask (λ ask. is_ident ask ≡ true)) }
    {
        let session = self.record.session();
        arrival.check(
            &session.mine,
            &session.policy,
            self.record.facts().requires_,
        )
    }

    /// Whether an ask is one of this peer, isn't judged, and its socket is one of which the record has no end and has judged what
    /// its half says.
    fn may_judge(&self, arrival: &Arrival<SimEnd>) -> bool
        ensures { OnTrue result (IsKnown arrival.now self.now.kept) }
    {
        if arrival.is_judged() || arrival.peer() != self.record.session().peer {
            return false;
        }
        let trail = arrival.trail();
        let socket = arrival.id();
        if trail.entity != self.record.facts().entity || has_end(&self.record, &socket) {
            return false;
        }
        has_judged(self.record.journal(), &socket, trail.judged.as_slice())
    }
}

/// The half replies to an ask that is answered so. Without a reply its socket is closed, and so it is for want of memory.
fn replied(arrival: Arrival<SimEnd>, answer: &Answer) -> HalfLeft
    requires { IsAnswered answer.now arrival }
{
    if reply_to(answer).is_none() {
        return HalfLeft::Loose(arrival.close());
    }
    match arrival.reply(answer) {
        Ok(half) => HalfLeft::Open(half),
        Err(arrival) => HalfLeft::Loose(arrival.close()),
    }
}

/// The half refuses an ident for these features. For want of memory its socket is closed.
fn refused(arrival: Arrival<SimEnd>, bits: u64) -> HalfLeft
    requires unjudged { arrival.is_judged ≡ false }
    requires ident { IfSome arrival.ask (λ ask. is_ident ask ≡ true) }
{
    match arrival.refuse(bits) {
        Ok(half) => HalfLeft::Open(half),
        Err(arrival) => HalfLeft::Loose(arrival.close()),
    }
}

/// Whether a journal has judged just these asks on a socket, in this order. Where it says so, it has.
fn has_judged(journal: &EntryList, socket: &SocketId, judged: &[JudgedItem]) -> bool
    ensures { OnTrue result (judged.now ≡ judged_on socket.now (judgements_in journal.now.items)) }
{
    match behind_judged(journal, socket, judged) {
        Some(rest) => rest.is_empty(),
        None => false,
    }
}
