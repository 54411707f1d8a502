//! How a record's feed moves bytes.

ghost use Rattle.std.specs.Prelude.{◌≡◌, ◌-◌, ◌<◌, ◌++◌, false};
ghost use Rattle.m2_feed.specs.Calls.{is_empty};
ghost use Rattle.m2_shared.specs.Gates.{ArePassesOf, Return, held, places};
ghost use Rattle.m2_core.specs.LiveNow.{OnFeedNow};
ghost use Rattle.m2_record.specs.Calls.{Breaks, FeedIsBroken, HasRoomFor, HasRoomToClose, IsBrokenFor, IsCounted, KeepsRoomFor, Owns, Writes, WritesFeedOnce, entries_put, fault_put, held_after, moment_after, returned_for, room_put};

use crate::leaving::{put_closed, put_told};
use crate::record::Record;
use m2_fabric::{End, SocketId};
use m2_feed::FeedWrite;
use m2_journal::{Entry, EntryList};
use m2_shared::{TakePasses, Throttles};

impl<E: End> Record<E> {
    /// Writes once to the feed's end what is composed there. Where bytes are put, they have their entry.
    pub fn write(&mut self, now: u64) -> FeedWrite
        requires feed { OnFeedNow self.old.core.live.feed (λ v. is_empty v.composed ≡ false) }
        requires room { 0 < self.old.room.entries }
        ensures writes { WritesFeedOnce result now self.old self.new }
        ensures broken { IsBrokenFor (fault_put result) self.new }
        ensures room { KeepsRoomFor (fault_put result) self.old.room self.new.room }
    {
        let Some(feed) = self.core.feed() else {
            unreachable!()
        };
        let socket = feed.id();
        let answer = self.core.write();
        note_put(answer, socket, now, &mut self.journal, &mut self.last);
        self.held = held_after(answer, self.held);
        answer
    }
    /// Writes once to the feed's end what is composed there, and closes the feed where that has failed. Two
    /// entries and parcels are reserved.
    pub fn write_or_close(
        &mut self,
        throttles: &Throttles,
        passes: &mut TakePasses,
        now: u64,
    ) -> FeedWrite
        requires feed { OnFeedNow self.old.core.live.feed (λ v. is_empty v.composed ≡ false) }
        requires room { HasRoomFor 2 self.old.room }
        requires passes { ArePassesOf throttles.now passes.old }
        requires owned { Owns (places throttles.now) self.old }
        ensures writes { Writes result now self.old self.new }
        ensures owned { Owns (places throttles.now) self.new }
        ensures passes { ArePassesOf throttles.now passes.new }
        ensures word { Return (returned_for (fault_put result) self.old) throttles.now passes.old passes.new }
    {
        let answer = self.write(now);
        match answer {
            FeedWrite::Failed => {
                self.break_feed(throttles, passes, now);
                answer
            }
            _ => answer,
        }
    }

    /// Closes the feed: its end has failed or ended, or the bytes that were got on it are a fault. What is
    /// owed then is ready for the dispatcher, what was granted for the feed is given back, and where
    /// the phase becomes Wait, a wait begins. One entry and two parcels are reserved.
    pub fn break_feed(&mut self, throttles: &Throttles, passes: &mut TakePasses, now: u64)
        requires broken { FeedIsBroken self.old }
        requires room { HasRoomToClose self.old.room }
        requires passes { ArePassesOf throttles.now passes.old }
        requires owned { Owns (places throttles.now) self.old }
        ensures breaks { Breaks now self.old self.new }
        ensures owned { Owns (places throttles.now) self.new }
        ensures passes { ArePassesOf throttles.now passes.new }
        ensures word { Return (held self.old.core.live.granted) throttles.now passes.old passes.new }
    {
        let old = self.core.session().phase;
        let aftermath = self.core.fault(throttles, passes);
        self.waits = self
            .waits
            .stepped(self.core.node(), now, old, self.core.session().phase);
        self.held = false;
        put_told(
            aftermath.discarded,
            aftermath.remote_reset,
            self.place,
            &mut self.parcels,
        );
        put_closed(aftermath.closed, &mut self.journal, &mut self.spent);
    }
}

/// Whether the feed is held after a write that answered so.
fn held_after(answer: FeedWrite, held: bool) -> bool
    ensures { result ≡ held_after answer held }
{
    match answer {
        FeedWrite::Put {
            count: _,
            acknowledged: _,
        } => false,
        FeedWrite::NotYet => true,
        _ => held,
    }
}

/// Bytes that were put have their entry, and this moment is the last productive one.
fn note_put(answer: FeedWrite, socket: SocketId, now: u64, journal: &mut EntryList, last: &mut u64)
    requires count { IsCounted answer }
    requires room { 0 < journal.old.room }
    ensures journal { journal.new.items ≡ journal.old.items ++ entries_put answer socket }
    ensures room { journal.new.room ≡ room_put answer journal.old.room }
    ensures last { last.new ≡ moment_after answer now last.old }
{
    match answer {
        FeedWrite::Put {
            count,
            acknowledged: _,
        } => {
            journal.push_reserved(Entry::Wrote {
                socket,
                count: count as u32,
            });
            *last = now;
        }
        _ => {}
    }
}
