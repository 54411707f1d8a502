//! How a record's feed is read.

ghost use Rattle.std.specs.Prelude.{◌≡◌, ◌-◌, ◌+◌, ◌<◌, ◌≤◌, ◌++◌, true};
ghost use Rattle.std.specs.Option.{is_some};
ghost use Rattle.m2_shared.specs.Gates.{ArePassesOf, Places, Return, places};
ghost use Rattle.m2_core.specs.LiveHearing.{raised_by};
ghost use Rattle.m2_record.specs.Calls.{FitsClosing, HasRoomFor, IsBrokenFor, Owns, returned_for};
ghost use Rattle.m2_record.specs.Reading.{CountsAnswer, FitsAnswer, IsReadCounted, Reads, ReadsFeedOnce, answer_heard, answer_read, entries_read, fault_heard, fault_read, held_read, moment_read, waits_read};

use crate::leaving::put_closed;
use crate::record::Record;
use crate::stepped::Stepped;
use m2_core::{Aftermath, CoreRead, Waits};
use m2_fabric::{End, EndRead, SocketId};
use m2_feed::{AnswerFault, Heard, WireFault};
use m2_journal::{Entry, EntryList, NodeFacts};
use m2_session::Phase;
use m2_shared::{NumberPass, Numbers, TakePasses, Throttles};

/// What a read of the feed gave.
#[derive(Clone, Copy, Debug, PartialEq, Eq)]
pub struct RecordRead {
    /// What the end answered.
    pub answer: EndRead,
    /// Where bytes came before Ready: what the frame at the front says to the ask.
    pub heard: Option<Heard>,
}

impl<E: End> Record<E> {
    /// Reads the feed's end once. Two entries and parcels are reserved. Where bytes come they have their
    /// entry, and an answer to the ask that they complete is taken with them: a WAIT closes the feed, a number
    /// in a SESSION_RETRY_GLOBAL raises the counter, and what a SESSION_RECONNECT_OK acknowledges is counted,
    /// by the entry Acked behind Read where there is something to count. The feed is closed besides where the
    /// end has ended or failed, and where features are missing. An answer of NoMemory leaves all but the room
    /// as it was, and one of NotYet all but that too and whether the feed is held.
    pub fn read(
        &mut self,
        numbers: &Numbers,
        number_pass: &mut NumberPass,
        throttles: &Throttles,
        passes: &mut TakePasses,
        now: u64,
    ) -> RecordRead
        requires fed { is_some self.old.core.live.feed ≡ true }
        requires room { HasRoomFor 2 self.old.room }
        requires numbers { number_pass.old.place ≡ numbers.now.place }
        requires takes { ArePassesOf throttles.now passes.old }
        requires owned { Owns (places throttles.now) self.old }
        ensures reads { Reads result now self.old self.new }
        ensures raised { number_pass.new ≡ raised_by result.heard number_pass.old }
        ensures owned { Owns (places throttles.now) self.new }
        ensures takes { ArePassesOf throttles.now passes.new }
        ensures word { Return (returned_for (fault_read result) self.old) throttles.now passes.old passes.new }
    {
        let read = self.read_once(numbers, number_pass, now);
        match read.fault() {
            Some(_) => {
                self.break_feed(throttles, passes, now);
                read
            }
            None => {
                self.count_answer(read.heard);
                read
            }
        }
    }

    /// The same, where nothing is closed for a fault yet and nothing is counted.
    fn read_once(&mut self, numbers: &Numbers, pass: &mut NumberPass, now: u64) -> RecordRead
        requires fed { is_some self.old.core.live.feed ≡ true }
        requires room { HasRoomFor 2 self.old.room }
        requires pass { pass.old.place ≡ numbers.now.place }
        ensures reads { ReadsFeedOnce result now self.old self.new }
        ensures broken { IsBrokenFor (fault_read result) self.new }
        ensures room { FitsClosing (fault_read result) self.new.room }
        ensures fits { FitsAnswer result.heard self.new.room.entries }
        ensures raised { pass.new ≡ raised_by result.heard pass.old }
        ensures owned { (places : Places) → Owns places self.old → Owns places self.new }
    {
        let Some(feed) = self.core.feed() else {
            unreachable!()
        };
        let socket = feed.id();
        let old = self.core.session().phase;
        let CoreRead {
            answer,
            heard,
            aftermath,
        } = self.core.read(numbers, pass);
        let Aftermath {
            closed,
            discarded: _,
            remote_reset: _,
        } = aftermath;
        note_read(answer, socket, now, &mut self.journal, &mut self.last);
        self.waits = waits_read(
            answer,
            self.core.node(),
            now,
            old,
            self.core.session().phase,
            self.waits,
        );
        self.held = held_read(answer, closed.is_some(), self.held);
        put_closed(closed, &mut self.journal, &mut self.spent);
        RecordRead { answer, heard }
    }

    /// Counts what the answer acknowledges that was taken, where it resumes the session. One entry is reserved.
    fn count_answer(&mut self, heard: Option<Heard>)
        requires room { FitsAnswer heard self.old.room.entries }
        ensures counts { CountsAnswer heard self.old self.new }
        ensures owned { (places : Places) → Owns places self.old → Owns places self.new }
    {
        if let Some(Heard::ReconnectOk { seen: _ }) = heard {
            self.count_resumption();
        }
    }
}

impl RecordRead {
    /// A fault for which the feed is closed then.
    pub(crate) fn fault(&self) -> Option<WireFault>
        ensures { result ≡ fault_read self.now }
    {
        match self.answer {
            EndRead::Got(_) => fault_heard(&self.heard),
            EndRead::Ended => Some(WireFault::Ended),
            EndRead::Failed => Some(WireFault::Failed),
            EndRead::NotYet => None,
            EndRead::NoMemory => None,
        }
    }
}

/// A refusal for which the feed is closed by the step that reads it.
fn fault_heard(heard: &Option<Heard>) -> Option<WireFault>
    ensures { result ≡ fault_heard heard.now }
{
    match heard {
        Some(Heard::Refused(AnswerFault::MissingFeatures { bits })) => {
            Some(WireFault::MissingFeatures { bits: *bits })
        }
        _ => None,
    }
}

/// The waits after a read, beside which the session may have stepped from one phase to another.
fn waits_read(
    answer: EndRead,
    node: &NodeFacts,
    now: u64,
    old: Phase,
    new: Phase,
    waits: Waits,
) -> Waits
    ensures { result ≡ waits_read answer node.now now old new waits }
{
    match answer {
        EndRead::Got(_) => waits.stepped(node, now, old, new),
        _ => waits,
    }
}

/// Whether the feed is held after a read, by which it may have been closed.
fn held_read(answer: EndRead, closed: bool, held: bool) -> bool
    ensures { result ≡ held_read answer closed held }
{
    match answer {
        EndRead::NotYet => false,
        _ => held && !closed,
    }
}

/// Bytes that were read have their entry, and this moment is the last productive one.
fn note_read(answer: EndRead, socket: SocketId, now: u64, journal: &mut EntryList, last: &mut u64)
    requires count { IsReadCounted answer }
    requires room { 0 < journal.old.room }
    ensures journal { journal.new.items ≡ journal.old.items ++ entries_read answer socket }
    ensures room { journal.old.room ≤ journal.new.room + 1 }
    ensures last { last.new ≡ moment_read answer now last.old }
{
    match answer {
        EndRead::Got(count) => {
            journal.push_reserved(Entry::Read {
                socket,
                count: count as u32,
            });
            *last = now;
        }
        _ => {}
    }
}

/// What a step answers by what it read.
pub(crate) fn answer_read(read: RecordRead) -> Stepped
    ensures { result ≡ answer_read read }
{
    if let Some(cause) = read.fault() {
        return Stepped::Faulted(cause);
    }
    match read.answer {
        EndRead::Got(_) => answer_heard(read.heard),
        EndRead::NoMemory => Stepped::NoMemory,
        _ => Stepped::Dry,
    }
}

/// The same where bytes came and no fault was found.
fn answer_heard(heard: Option<Heard>) -> Stepped
    ensures { result ≡ answer_heard heard }
{
    match heard {
        Some(Heard::Wait) => Stepped::Faulted(WireFault::Waited),
        _ => Stepped::Moved,
    }
}
