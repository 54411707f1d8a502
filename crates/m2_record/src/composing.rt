//! What a record composes.

ghost use Rattle.std.specs.Prelude.{◌≡◌, ◌<◌, ◌≤◌, ◌++◌, IfSome, IsSome, Some, false};
ghost use Rattle.m2_core.specs.LiveNow.{OnFeedNow};
ghost use Rattle.m2_core.specs.Calls.{is_exhausted};
ghost use Rattle.m2_core.specs.Asking.{LeavesPass};
ghost use Rattle.m2_core.specs.ToCompose.{to_compose};
ghost use Rattle.m2_core.specs.declared.to_compose.CoreText.TheVariants as text;
ghost use Rattle.m2_feed.specs.FeedNow.{is_framing};
ghost use Rattle.m2_record.specs.Calls.{Acknowledges, AnswersKeepalive, Asks, ComposesAs, DrawsAs, IsFaultOf, NumbersNext, Shakes, asked_entries, composed_ask, composed_if, numbered_entries};
ghost use Rattle.m2_record.specs.declared.due.Due.TheVariants as due;
ghost use Rattle.m2_record.specs.Due.{due_step, has_frame};

use crate::record::Record;
use m2_bytes::NoMemory;
use m2_core::{CoreAsk, CoreText};
use m2_fabric::End;
use m2_handshake::HalfStep;
use m2_journal::{Entry, EntryList};
use m2_shared::{NumberPass, Numbers};

/// What composing answered.
#[derive(Clone, Copy, Debug, PartialEq, Eq)]
pub enum Composed {
    /// The ask of this side, a CLIENT_IDENT (`ident`) or a SESSION_RECONNECT, with the global number that
    /// was drawn for it.
    Asked { ident: bool, number: u64 },
    /// The next message, with its number.
    Numbered { number: u64 },
    /// The answer to a keepalive.
    Answered,
    /// An acknowledgement.
    Acknowledged,
    /// No global number is left for an ask.
    Spent,
    /// Another thread drew a global number at that moment. One may try again.
    Again { seen: u64, now: u64 },
    NoMemory,
}

impl<E: End> Record<E> {
    /// Composes the text that is due, for which one entry is reserved. The numbers that the pass draws are
    /// above all that this record has used. An answer of Spent, Again or NoMemory leaves all but the room as
    /// it was.
    pub fn compose(&mut self, numbers: &Numbers, pass: &mut NumberPass, now: u64) -> Composed
        requires due { due_step now self.old ≡ due.Compose }
        requires room { 0 < self.old.room.entries }
        requires pass { pass.old.place ≡ numbers.now.place }
        requires top { self.old.core.top ≤ pass.old.least }
        ensures composes { IfSome (to_compose self.old.core) (λ t. ComposesAs t result self.old self.new) }
        ensures some { IsSome (to_compose self.old.core) }
        ensures pass { DrawsAs result numbers.now.place pass.old pass.new }
        ensures place { pass.new.place ≡ pass.old.place }
    {
        match self.core.to_compose() {
            Some(CoreText::Ask) => asked(self.ask(numbers, pass)),
            Some(CoreText::KeepaliveAnswer) => done(self.answer_keepalive(), Composed::Answered),
            Some(CoreText::Message) => match self.number() {
                Ok(number) => Composed::Numbered { number },
                Err(_) => Composed::NoMemory,
            },
            Some(CoreText::Acknowledgement) => done(self.acknowledge(), Composed::Acknowledged),
            None => unreachable!(),
        }
    }

    /// Composes the next message, with its number. One entry is reserved. Err is want of memory, and leaves
    /// all but the room as it was.
    #[tactic(auto, using(crate::proofs::Texts::next_sendable, crate::proofs::Dues::message_ready, crate::proofs::Dues::message_number, crate::proofs::Dues::can_write))]
    pub(crate) fn number(&mut self) -> Result<u64, NoMemory>
        requires due { to_compose self.old.core ≡ Some text.Message }
        requires fits { is_exhausted self.old.core ≡ false }
        requires room { 0 < self.old.room.entries }
        ensures { NumbersNext result self.old self.new }
    {
        let answer = self.core.number();
        note_numbered(answer, &mut self.journal);
        answer
    }

    /// Composes an acknowledgement. Err is want of memory, and leaves all but the room as it was.
    #[tactic(auto, using(crate::proofs::Dues::acknowledgement_due, crate::proofs::Dues::can_write))]
    pub(crate) fn acknowledge(&mut self) -> Result<(), NoMemory>
        requires due { to_compose self.old.core ≡ Some text.Acknowledgement }
        ensures { Acknowledges result self.old self.new }
    {
        self.core.acknowledge()
    }

    /// Composes the answer to the first keepalive that isn't answered. Err is want of memory, and leaves all
    /// but the room as it was.
    #[tactic(auto, using(crate::proofs::Dues::stamp_due))]
    pub(crate) fn answer_keepalive(&mut self) -> Result<(), NoMemory>
        requires due { to_compose self.old.core ≡ Some text.KeepaliveAnswer }
        ensures { AnswersKeepalive result self.old self.new }
    {
        self.core.answer_keepalive()
    }

    /// Draws a global number and composes the ask of this side. One entry is reserved. An answer other than
    /// Asked leaves all but the room as it was.

    pub(crate) fn ask(&mut self, numbers: &Numbers, pass: &mut NumberPass) -> CoreAsk
        requires due { to_compose self.old.core ≡ Some text.Ask }
        requires quiet { has_frame self.old ≡ false }
        requires fits { is_exhausted self.old.core ≡ false }
        requires room { 0 < self.old.room.entries }
        requires pass { pass.old.place ≡ numbers.now.place }
        requires top { self.old.core.top ≤ pass.old.least }
        ensures asks { Asks result self.old self.new }
        ensures pass { LeavesPass result numbers.now.place pass.old pass.new }
        ensures place { pass.new.place ≡ pass.old.place }
    {
        let answer = self.core.ask(numbers, pass);
        note_asked(answer, &mut self.journal);
        answer
    }

    /// One answer of the opener's half, which makes no entry; what it writes is composed. A fault that it
    /// finds is one of the feed.
    pub(crate) fn shake(&mut self) -> HalfStep
        requires { OnFeedNow self.old.core.live.feed (λ v. is_framing v.reading ≡ false) }
        ensures shakes { Shakes result self.old self.new }
        ensures fault { IsFaultOf result self.new }
        ensures room { self.new.room ≡ self.old.room }
    {
        self.core.shake()
    }
}

/// A message that was numbered has its entry.
fn note_numbered(answer: Result<u64, NoMemory>, journal: &mut EntryList)
    requires { 0 < journal.old.room }
    ensures { journal.new.items ≡ journal.old.items ++ numbered_entries answer }
{
    match answer {
        Ok(number) => journal.push_reserved(Entry::Numbered { number }),
        Err(_) => {}
    }
}

/// An ask that was composed has its entry.
fn note_asked(answer: CoreAsk, journal: &mut EntryList)
    requires { 0 < journal.old.room }
    ensures { journal.new.items ≡ journal.old.items ++ asked_entries answer }
{
    match answer {
        CoreAsk::Asked { ident, number } => journal.push_reserved(Entry::Asked { ident, number }),
        _ => {}
    }
}

/// What an ask answered.
fn asked(answer: CoreAsk) -> Composed
    ensures { result ≡ composed_ask answer }
{
    match answer {
        CoreAsk::Asked { ident, number } => Composed::Asked { ident, number },
        CoreAsk::Spent => Composed::Spent,
        CoreAsk::Again { seen, now } => Composed::Again { seen, now },
        CoreAsk::NoMemory => Composed::NoMemory,
    }
}

/// This, or want of memory.
fn done(answer: Result<(), NoMemory>, composed: Composed) -> Composed
    ensures { result ≡ composed_if answer composed }
{
    match answer {
        Ok(()) => composed,
        Err(_) => Composed::NoMemory,
    }
}
