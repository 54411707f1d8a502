//! How a record judges the asks of its peer.

ghost use Rattle.std.specs.Prelude.{◌≡◌, ◌-◌, ◌<◌, ◌≤◌, ◌&&◌, ◌++◌, true, false, option_map, vec_capacity, vec_len, IfSome, OnOk};
ghost use Rattle.std.specs.Option.{is_none};
ghost use Rattle.m2_core.specs.Judging.{IsVerdict, MayBeJudged, acceptance_text, verdict_on};
ghost use Rattle.m2_session.specs.SessionLaws.{takes};
ghost use Rattle.m2_shared.specs.Gates.{ArePassesOf, Return, Stay, held, places};
ghost use Rattle.m2_trail.specs.Asks.{facts_of_ask};
ghost use Rattle.m2_trail.specs.Trails.{trail_now};
ghost use Rattle.m2_record.specs.Calls.{HasNoLess, HasRoomFor, IsSameButRoom, Owns};
ghost use Rattle.m2_record.specs.Judging.{Answers, CanAskOn, CanBeJudged, CanBeTaken, IsWholeHalf, JudgesAs, TakesAndCounts, TakesOver, given_back, half_of};

use crate::leaving::{put_closed, put_told};
use crate::record::Record;
use m2_bytes::{Blob, NoMemory};
use m2_core::Verdict;
use m2_fabric::{End, SocketId};
use m2_journal::Entry;
use m2_session::Answer;
use m2_shared::{TakePasses, Throttles};
use m2_trail::{Arrival, Takeover};

/// What judging an ask answered.
#[derive(Drop)]
pub enum Judged<E: End> {
    /// The answer takes the socket, which is the feed.
    Taken(Answer),
    /// The answer takes no socket. The arrival comes back with the answer noted, and its half is to reply.
    Back { answer: Answer, arrival: Arrival<E> },
    /// Nothing was judged.
    NoMemory(Arrival<E>),
}

impl<E: End> Record<E> {
    /// Judges the ask of an arrival, with the global number that was drawn for the answer. Whoever calls has
    /// found this record by the main address of the ask. Where the answer takes the socket, its end is the
    /// feed, the old one is closed, what was granted for it is given back, and what a reconnect has seen
    /// is counted before a byte of the answer is put. Want of memory leaves all but the room as it was.
    pub fn judge(
        &mut self,
        a: Arrival<E>,
        number: u64,
        throttles: &Throttles,
        passes: &mut TakePasses,
        now: u64,
    ) -> Judged<E>
        requires can { CanBeJudged a number self.old }
        requires passes { ArePassesOf throttles.now passes.old }
        requires owned { Owns (places throttles.now) self.old }
        ensures judges { IfSome a.ask (λ ask. JudgesAs result (verdict_on (facts_of_ask ask) number self.old.core.live) a now self.old self.new) }
        ensures owned { Owns (places throttles.now) self.new }
        ensures passes { ArePassesOf throttles.now passes.new }
        ensures word { Return (given_back result self.old.core.live.granted) throttles.now passes.old passes.new }
        ensures top { self.new.core.top ≤ number }
    {
        let mut a = a;
        match self.room_to_judge(&mut a) {
            Ok(()) => self.judge_in_room(a, number, throttles, passes, now),
            Err(_) => Judged::NoMemory(a),
        }
    }

    /// The same, where there is room for all but what a socket that is taken needs.
    #[tactic(auto, using(crate::proofs::Resumed::two_of_three))]
    fn judge_in_room(
        &mut self,
        a: Arrival<E>,
        number: u64,
        throttles: &Throttles,
        passes: &mut TakePasses,
        now: u64,
    ) -> Judged<E>
        requires can { CanBeJudged a number self.old }
        requires spare { 0 < a.room }
        requires room { HasRoomFor 3 self.old.room }
        requires passes { ArePassesOf throttles.now passes.old }
        requires owned { Owns (places throttles.now) self.old }
        ensures judges { IfSome a.ask (λ ask. JudgesAs result (verdict_on (facts_of_ask ask) number self.old.core.live) a now self.old self.new) }
        ensures owned { Owns (places throttles.now) self.new }
        ensures passes { ArePassesOf throttles.now passes.new }
        ensures word { Return (given_back result self.old.core.live.granted) throttles.now passes.old passes.new }
        ensures top { self.new.core.top ≤ number }
    {
        a.is_arrival();
        let verdict = self.core.verdict(&a.ask_facts(), number);
        if verdict.takes_socket() {
            self.take(&verdict, a, throttles, passes, now)
        } else {
            self.give_back(&verdict, a, throttles, passes, now)
        }
    }

    /// An arrival has an answer that takes no socket: it comes back with the answer noted. Two entries and parcels
    /// are reserved, and in the arrival a judged ask.
    fn give_back(
        &mut self,
        v: &Verdict,
        a: Arrival<E>,
        throttles: &Throttles,
        passes: &mut TakePasses,
        now: u64,
    ) -> Judged<E>
        requires verdict { IsVerdict v.now self.old.core }
        requires may { MayBeJudged v.now self.old.core }
        requires refuses { takes v.now.answer ≡ false }
        requires unjudged { a.is_judged ≡ false }
        requires spare { 0 < a.room }
        requires socket { CanAskOn a.end.id self.old }
        requires room { HasRoomFor 2 self.old.room }
        requires passes { ArePassesOf throttles.now passes.old }
        requires owned { Owns (places throttles.now) self.old }
        ensures judges { JudgesAs result v.now a now self.old self.new }
        ensures owned { Owns (places throttles.now) self.new }
        ensures passes { ArePassesOf throttles.now passes.new }
        ensures word { Return (given_back result self.old.core.live.granted) throttles.now passes.old passes.new }
    {
        let mut a = a;
        self.answer(v, a.id(), throttles, passes, now);
        a.note(v.answer);
        Judged::Back {
            answer: v.answer,
            arrival: a,
        }
    }

    /// Makes room for the entries and parcels of a judgement, and in the arrival for its answer.
    fn room_to_judge(&mut self, a: &mut Arrival<E>) -> Result<(), NoMemory>
        ensures only { IsSameButRoom self.old self.new }
        ensures arrival { a.new ≡ record a.old { room = a.new.room } }
        ensures ok { OnOk result (HasRoomFor 3 self.new.room × (0 < a.new.room)) }
    {
        self.reserve(3)?;
        a.reserve_judged()
    }

    /// An ask on this socket has an answer that takes no socket: the entry Judged. The session may close its own
    /// pending feed. Two entries and parcels are reserved.
    pub(crate) fn answer(
        &mut self,
        v: &Verdict,
        socket: SocketId,
        throttles: &Throttles,
        passes: &mut TakePasses,
        now: u64,
    )
        requires verdict { IsVerdict v.now self.old.core }
        requires may { MayBeJudged v.now self.old.core }
        requires refuses { takes v.now.answer ≡ false }
        requires socket { CanAskOn socket self.old }
        requires room { HasRoomFor 2 self.old.room }
        requires passes { ArePassesOf throttles.now passes.old }
        requires owned { Owns (places throttles.now) self.old }
        ensures answers { Answers v.now socket now self.old self.new }
        ensures owned { Owns (places throttles.now) self.new }
        ensures passes { ArePassesOf throttles.now passes.new }
        ensures word { Stay throttles.now passes.old passes.new }
    {
        self.journal.push_reserved(Entry::Judged {
            socket,
            ask: v.ask,
            number: v.number,
            answer: v.answer,
        });
        let old = self.core.session().phase;
        let aftermath = self.core.answered(v, throttles, passes);
        self.waits = self
            .waits
            .stepped(self.core.node(), now, old, self.core.session().phase);
        self.held = still_held(self.held, &aftermath.closed);
        put_told(
            aftermath.discarded,
            aftermath.remote_reset,
            self.place,
            &mut self.parcels,
        );
        put_closed(aftermath.closed, &mut self.journal, &mut self.spent);
    }

    /// An arrival has an answer that takes its socket: the acceptance is composed, and then nothing fails. Three
    /// entries and parcels are reserved, and in the arrival a judged ask.
    fn take(
        &mut self,
        v: &Verdict,
        a: Arrival<E>,
        throttles: &Throttles,
        passes: &mut TakePasses,
        now: u64,
    ) -> Judged<E>
        requires verdict { IsVerdict v.now self.old.core }
        requires may { MayBeJudged v.now self.old.core }
        requires takes { takes v.now.answer ≡ true }
        requires unjudged { a.is_judged ≡ false }
        requires spare { 0 < a.room }
        requires half { CanBeTaken v.now (half_of v.now.answer a) self.old }
        requires room { HasRoomFor 3 self.old.room }
        requires passes { ArePassesOf throttles.now passes.old }
        requires owned { Owns (places throttles.now) self.old }
        ensures judges { JudgesAs result v.now a now self.old self.new }
        ensures owned { Owns (places throttles.now) self.new }
        ensures passes { ArePassesOf throttles.now passes.new }
        ensures word { Return (given_back result self.old.core.live.granted) throttles.now passes.old passes.new }
    {
        match self.room_to_take() {
            Ok(()) => {}
            Err(_) => return Judged::NoMemory(a),
        }
        match self.core.acceptance(v) {
            Ok(acceptance) => {
                let half = a.take(v.answer);
                self.take_and_count(v, half, acceptance, throttles, passes, now);
                Judged::Taken(v.answer)
            }
            Err(_) => Judged::NoMemory(a),
        }
    }

    /// Makes room for a trail, and for the ends of the old feed and of the new one.
    fn room_to_take(&mut self) -> Result<(), NoMemory>
        ensures only { IsSameButRoom self.old self.new }
        ensures more { HasNoLess self.old.room self.new.room }
        ensures ok { OnOk result ((2 ≤ self.new.room.ends) × (0 < self.new.room.trails)) }
    {
        self.spent.reserve(2)?;
        self.trails.reserve(1)?;
        Ok(())
    }

    /// The socket of a half is the feed, and what the ask acknowledges is counted: behind the entry Judged and
    /// that of the old feed comes Acked, where there is something to count. Three entries and parcels are
    /// reserved, two ends and a trail.
    fn take_and_count(
        &mut self,
        v: &Verdict,
        half: Takeover<E>,
        acceptance: Blob,
        throttles: &Throttles,
        passes: &mut TakePasses,
        now: u64,
    )
        requires verdict { IsVerdict v.now self.old.core }
        requires may { MayBeJudged v.now self.old.core }
        requires takes { takes v.now.answer ≡ true }
        requires whole { IsWholeHalf (record { end = E.seen half.end; unread = half.decoder.rest; trail = trail_now half.trail }) }
        requires half { CanBeTaken v.now (record { end = E.seen half.end; unread = half.decoder.rest; trail = trail_now half.trail }) self.old }
        requires ungranted { half.decoder.granted ≡ false }
        requires text { acceptance.bytes ≡ acceptance_text self.old.core.facts v.now self.old.core.live.last }
        requires room { HasRoomFor 3 self.old.room }
        requires ends { 2 ≤ self.old.room.ends }
        requires trails { 0 < self.old.room.trails }
        requires passes { ArePassesOf throttles.now passes.old }
        requires owned { Owns (places throttles.now) self.old }
        ensures takes { TakesAndCounts v.now (record { end = E.seen half.end; unread = half.decoder.rest; trail = trail_now half.trail }) now self.old self.new }
        ensures owned { Owns (places throttles.now) self.new }
        ensures passes { ArePassesOf throttles.now passes.new }
        ensures word { Return (held self.old.core.live.granted) throttles.now passes.old passes.new }
    {
        self.take_over(v, half, acceptance, throttles, passes, now);
        self.count_resumption();
    }

    /// The socket of a half is the feed: the entry Judged, and behind it that of the old feed, which is closed.
    /// Three entries and parcels are reserved, of which one entry stays, two ends and a trail.
    fn take_over(
        &mut self,
        v: &Verdict,
        half: Takeover<E>,
        acceptance: Blob,
        throttles: &Throttles,
        passes: &mut TakePasses,
        now: u64,
    )
        requires verdict { IsVerdict v.now self.old.core }
        requires may { MayBeJudged v.now self.old.core }
        requires takes { takes v.now.answer ≡ true }
        requires whole { IsWholeHalf (record { end = E.seen half.end; unread = half.decoder.rest; trail = trail_now half.trail }) }
        requires half { CanBeTaken v.now (record { end = E.seen half.end; unread = half.decoder.rest; trail = trail_now half.trail }) self.old }
        requires ungranted { half.decoder.granted ≡ false }
        requires text { acceptance.bytes ≡ acceptance_text self.old.core.facts v.now self.old.core.live.last }
        requires room { HasRoomFor 3 self.old.room }
        requires ends { 2 ≤ self.old.room.ends }
        requires trails { 0 < self.old.room.trails }
        requires passes { ArePassesOf throttles.now passes.old }
        requires owned { Owns (places throttles.now) self.old }
        ensures takes { TakesOver v.now (record { end = E.seen half.end; unread = half.decoder.rest; trail = trail_now half.trail }) now self.old self.new }
        ensures entries { 0 < self.new.room.entries }
        ensures owned { Owns (places throttles.now) self.new }
        ensures passes { ArePassesOf throttles.now passes.new }
        ensures word { Return (held self.old.core.live.granted) throttles.now passes.old passes.new }
    {
        self.journal.push_reserved(Entry::Judged {
            socket: half.end.id(),
            ask: v.ask,
            number: v.number,
            answer: v.answer,
        });
        let old = self.core.session().phase;
        let aftermath = self
            .core
            .take_over(v, half.end, half.decoder, acceptance, throttles, passes);
        self.trails.push_reserved(half.trail);
        self.waits = self
            .waits
            .stepped(self.core.node(), now, old, self.core.session().phase);
        self.held = false;
        put_told(
            aftermath.discarded,
            aftermath.remote_reset,
            self.place,
            &mut self.parcels,
        );
        put_closed(aftermath.closed, &mut self.journal, &mut self.spent);
    }
}

/// Whether the feed is held still, where its end was closed, or none.
fn still_held<E: End>(held: bool, closed: &Option<E>) -> bool
    ensures { result ≡ (held && is_none (option_map E.seen closed.now)) }
{
    held && closed.is_none()
}
