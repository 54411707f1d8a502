//! What a record does with what was read: an answer of the opener's half, or the front of its feed.

ghost use Rattle.std.specs.Prelude.{◌≡◌, ◌+◌, ◌-◌, ◌<◌, ◌≤◌, ◌++◌, length, true, false};
ghost use Rattle.std.specs.VecDeque.{deque_capacity, deque_len};
ghost use Rattle.m2_core.specs.LiveNow.{OnFeedNow};
ghost use Rattle.m2_core.specs.Next.{IsResetHeard};
ghost use Rattle.m2_feed.specs.FeedNow.{is_framing};
ghost use Rattle.m2_handshake.specs.declared.answer.HalfStep.TheVariants as half;
ghost use Rattle.m2_shared.specs.Gates.{ArePassesOf, Places, held, places};
ghost use Rattle.m2_record.specs.declared.due.Due.TheVariants as due;
ghost use Rattle.m2_record.specs.declared.framing.Framed.TheVariants as framed;
ghost use Rattle.m2_record.specs.Calls.{HasRoomFor, Owns};
ghost use Rattle.m2_record.specs.Due.{due_step, has_frame};
ghost use Rattle.m2_record.specs.Framing.{Frames, Greets, Heeds, IsDone, IsResetIf, Obeys, entries_next, framed_next, is_faulted, is_signed, moment_next, parcels_next, reset_in, WordsFramed};

use crate::leaving::{put_closed, put_told};
use crate::record::Record;
use m2_core::{CoreAccepted, CoreFront, CoreNext};
use m2_dispatch::{Letter, Parcel};
use m2_fabric::End;
use m2_feed::WireFault;
use m2_handshake::HalfStep;
use m2_journal::{Entry, EntryList};
use m2_shared::{Stage, TakePasses, Throttles};
use std::collections::VecDeque;

/// What was done with what was read.
#[derive(Clone, Copy, Debug, PartialEq, Eq)]
pub enum Framed {
    /// The opener's half has answered so, of which no entry is made. For a fault the feed was closed.
    Half(HalfStep),
    /// A text was passed of which no entry is made.
    Passed,
    /// Each stage has granted for the MESSAGE that is on its way.
    Granted,
    /// The peer's acknowledgement up to this number was counted.
    Acked { number: u64 },
    /// The message with this number was accepted, and its letter is ready.
    Accepted { number: u64 },
    /// A reset with this mark was obeyed.
    Obeyed { full: bool },
    /// What is there may not come, or can't be read: the feed was closed for this cause.
    Faulted(WireFault),
    /// So much is out at this stage that a MESSAGE has to wait. What the stages before it have granted is held.
    Full { stage: Stage, held: u64 },
    /// Another thread took or gave at this stage at that moment; one may try again. What the stages before it
    /// have granted is held.
    Again { stage: Stage, seen: u64, now: u64 },
    /// Nothing was done.
    NoMemory,
}

impl<E: End> Record<E> {
    /// Takes the step Frame, which is due: one answer of the opener's half, or what stands at the front of
    /// the feed. One entry at most is made, or two where a feed is closed behind another entry. Two entries
    /// and parcels are reserved. An answer of Full or Again leaves all but the room and what is granted as it was,
    /// and NoMemory all but the room.
    pub fn frame(&mut self, throttles: &Throttles, passes: &mut TakePasses, now: u64) -> Framed
        requires due { due_step now self.old ≡ due.Frame }
        requires room { HasRoomFor 2 self.old.room }
        requires passes { ArePassesOf throttles.now passes.old }
        requires owned { Owns (places throttles.now) self.old }
        ensures frames { Frames (record { throttles = throttles.now; before = passes.old; behind = passes.new }) result now self.old self.new }
        ensures owned { Owns (places throttles.now) self.new }
        ensures top { self.new.core.top ≡ self.old.core.top }
        ensures passes { ArePassesOf throttles.now passes.new }
        ensures word { WordsFramed result (record { throttles = throttles.now; before = passes.old; behind = passes.new }) (held self.old.core.live.granted) (held self.new.core.live.granted) }
    {
        let _ = &self.core;
        if self.is_signed() {
            self.take_front(throttles, passes, now)
        } else {
            Framed::Half(self.greet(throttles, passes, now))
        }
    }

    /// Whether both sides have signed on the feed.
    fn is_signed(&self) -> bool
        ensures { result ≡ is_signed self.now }
    {
        match self.core.feed() {
            Some(feed) => feed.is_signed(),
            None => false,
        }
    }

    /// One answer of the opener's half. For a fault that it finds the feed is closed.
    fn greet(&mut self, throttles: &Throttles, passes: &mut TakePasses, now: u64) -> HalfStep
        requires unsigned { OnFeedNow self.old.core.live.feed (λ v. is_framing v.reading ≡ false) }
        requires room { HasRoomFor 2 self.old.room }
        requires passes { ArePassesOf throttles.now passes.old }
        requires owned { Owns (places throttles.now) self.old }
        ensures greets { Greets result now self.old self.new }
        ensures owned { Owns (places throttles.now) self.new }
        ensures top { self.new.core.top ≡ self.old.core.top }
        ensures passes { ArePassesOf throttles.now passes.new }
        ensures word { WordsFramed (framed.Half result) (record { throttles = throttles.now; before = passes.old; behind = passes.new }) (held self.old.core.live.granted) (held self.new.core.live.granted) }
    {
        match self.shake() {
            HalfStep::Fault(fault) => {
                self.break_feed(throttles, passes, now);
                HalfStep::Fault(fault)
            }
            HalfStep::NotYet => HalfStep::NotYet,
            HalfStep::Wrote => HalfStep::Wrote,
            HalfStep::Authed => HalfStep::Authed,
            HalfStep::NoMemory => HalfStep::NoMemory,
        }
    }

    /// Does what stands at the front of the feed, on which both sides have signed: it isn't at rest.
    fn take_front(&mut self, throttles: &Throttles, passes: &mut TakePasses, now: u64) -> Framed
        requires signed { OnFeedNow self.old.core.live.feed (λ v. is_framing v.reading ≡ true) }
        requires frame { has_frame self.old ≡ true }
        requires room { HasRoomFor 2 self.old.room }
        requires passes { ArePassesOf throttles.now passes.old }
        requires owned { Owns (places throttles.now) self.old }
        ensures frames { Frames (record { throttles = throttles.now; before = passes.old; behind = passes.new }) result now self.old self.new }
        ensures owned { Owns (places throttles.now) self.new }
        ensures top { self.new.core.top ≡ self.old.core.top }
        ensures passes { ArePassesOf throttles.now passes.new }
        ensures word { WordsFramed result (record { throttles = throttles.now; before = passes.old; behind = passes.new }) (held self.old.core.live.granted) (held self.new.core.live.granted) }
    {
        let framed = self.heed_front(throttles, passes, now);
        match reset_in(&framed) {
            Some(full) => {
                self.obey(full);
                framed
            }
            None => framed,
        }
    }

    /// The same, but for a reset, of which nothing is done.
    fn heed_front(&mut self, throttles: &Throttles, passes: &mut TakePasses, now: u64) -> Framed
        requires signed { OnFeedNow self.old.core.live.feed (λ v. is_framing v.reading ≡ true) }
        requires frame { has_frame self.old ≡ true }
        requires room { HasRoomFor 2 self.old.room }
        requires passes { ArePassesOf throttles.now passes.old }
        requires owned { Owns (places throttles.now) self.old }
        ensures heeds { Heeds (record { throttles = throttles.now; before = passes.old; behind = passes.new }) result now self.old self.new }
        ensures reset { IsResetIf result self.new }
        ensures owned { Owns (places throttles.now) self.new }
        ensures top { self.new.core.top ≡ self.old.core.top }
        ensures passes { ArePassesOf throttles.now passes.new }
        ensures word { WordsFramed result (record { throttles = throttles.now; before = passes.old; behind = passes.new }) (held self.old.core.live.granted) (held self.new.core.live.granted) }
    {
        let old = self.core.session().phase;
        let CoreFront { next, aftermath } = self.core.next(throttles, passes);
        let framed = note_next(
            next,
            self.place,
            now,
            &mut self.journal,
            &mut self.parcels,
            &mut self.last,
        );
        if !is_faulted(&framed) {
            return framed;
        }
        self.waits = self
            .waits
            .stepped(self.core.node(), now, old, self.core.session().phase);
        self.held = false;
        put_told(
            aftermath.discarded,
            aftermath.remote_reset,
            self.place,
            &mut self.parcels,
        );
        put_closed(aftermath.closed, &mut self.journal, &mut self.spent);
        framed
    }

    /// Obeys the reset that is heard. What a full one throws away is told to the dispatcher.
    fn obey(&mut self, full: bool)
        requires next { IsResetHeard full self.old.core }
        requires room { HasRoomFor 2 self.old.room }
        ensures obeys { Obeys full self.old self.new }
        ensures owned { (places : Places) → Owns places self.old → Owns places self.new }
        ensures top { self.new.core.top ≡ self.old.core.top }
    {
        let aftermath = self.core.obey(full);
        self.journal.push_reserved(Entry::Obeyed { full });
        put_told(
            aftermath.discarded,
            aftermath.remote_reset,
            self.place,
            &mut self.parcels,
        );
    }
}

/// What the core did with the front has its entry, where it has one that closes nothing; and a message is a
/// letter, ready behind what is.
fn note_next(
    next: CoreNext,
    place: u32,
    now: u64,
    journal: &mut EntryList,
    parcels: &mut VecDeque<Parcel>,
    last: &mut u64,
) -> Framed
    requires some { IsDone next }
    requires entries { 0 < journal.old.room }
    requires parcels { deque_len parcels.old < deque_capacity parcels.old }
    ensures answer { result ≡ framed_next next }
    ensures journal { journal.new.items ≡ journal.old.items ++ entries_next next }
    ensures room { journal.old.room ≤ journal.new.room + length (entries_next next) }
    ensures parcels { parcels.new.items ≡ parcels.old.items ++ parcels_next place next }
    ensures capacity { deque_capacity parcels.new ≡ deque_capacity parcels.old }
    ensures len { deque_len parcels.new ≡ deque_len parcels.old + length (parcels_next place next) }
    ensures last { last.new ≡ moment_next next now last.old }
{
    match next {
        CoreNext::Rests => unreachable!(),
        CoreNext::Passed => Framed::Passed,
        CoreNext::Granted => Framed::Granted,
        CoreNext::Acked { number } => {
            journal.push_reserved(Entry::Acked { number });
            Framed::Acked { number }
        }
        CoreNext::Accepted(accepted) => {
            let CoreAccepted {
                number,
                life,
                key,
                message,
                grants,
            } = accepted;
            journal.push_reserved(Entry::Accepted { number, key });
            parcels.push_back_reserved(Parcel::Letter(Letter {
                peer: place,
                key,
                number,
                life,
                message,
                grants,
            }));
            *last = now;
            Framed::Accepted { number }
        }
        CoreNext::Resets { full } => Framed::Obeyed { full },
        CoreNext::Full { stage, held } => Framed::Full { stage, held },
        CoreNext::Again { stage, seen, now } => Framed::Again { stage, seen, now },
        CoreNext::Fault(cause) => Framed::Faulted(cause),
        CoreNext::NoMemory => Framed::NoMemory,
    }
}

/// Whether the feed is closed for it.
fn is_faulted(framed: &Framed) -> bool
    ensures { result ≡ is_faulted framed.now }
{
    matches!(framed, Framed::Faulted(_))
}

/// The mark of a reset that is to be obeyed.
fn reset_in(framed: &Framed) -> Option<bool>
    ensures { result ≡ reset_in framed.now }
{
    match framed {
        Framed::Obeyed { full } => Some(*full),
        _ => None,
    }
}
