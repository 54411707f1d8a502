//! The outgoing queue of one record.

ghost use Rattle.std.specs.Prelude.{◌≡◌, ◌+◌, ◌-◌, ◌^◌, ◌<◌, ◌≤◌, ◌↔◌, max, Some, IsTrue, IsOk, IsSome, IfSome, OnOk, OnErr, OnSome, length, slice_get, MatchResult};
ghost use Rattle.std.specs.Option.{option_copied, option_map};
ghost use Rattle.m2_message.specs.Message.{content_of};
ghost use Rattle.m2_queues.specs.Due.{number_due, content_due};
ghost use Rattle.m2_queues.specs.OutQueues.{new_queue, after_post, next_number, after_next, after_sent, after_acked, after_requeue, after_discard, after_renumber, message_at, waits, unsent, last_number, IsNumbered};

use crate::due::Due;
use crate::kept_line::KeptLine;
use m2_bytes::NoMemory;
use m2_message::Message;
use std::alloc::Global;
use std::marker::Model;
use thiserror::Error;

/// An acknowledgement of a number that was never written. Nothing has changed.
#[derive(Clone, Copy, Debug, PartialEq, Eq, Error)]
#[error("number {got} was acknowledged, and {written} is the last that was written")]
pub struct BadAck {
    pub written: u64,
    pub got: u64,
}

/// The messages of a record that are to be sent, or sent and not yet acknowledged.
///
/// Those that have a number are kept in its order: `base + 1`, `base + 2`, and so on. A cursor
/// stands at the one to be sent next. The others wait: a greater priority gets its number first, and
/// inside a priority the message that was posted first. Contracts see what the messages say, and
/// `spare`.
///
/// Making room: [`reserve`](OutQueues::reserve). In: [`post`](OutQueues::post). A look:
/// [`peek`](OutQueues::peek). Out: [`next`](OutQueues::next), [`at`](OutQueues::at), [`sent`](OutQueues::sent),
/// [`acked`](OutQueues::acked). After a fault: [`requeue`](OutQueues::requeue); of the session:
/// [`discard`](OutQueues::discard), [`renumber`](OutQueues::renumber). Only `reserve` and `post`
/// take memory.
///
/// A message keeps its place in memory when it gets its number, as long as those that wait are of one priority. Where
/// priorities are mixed, those of another one than the first that waited pass through a heap, and a kept message goes
/// to a second list once at most, many of them in one call of [`next`](OutQueues::next). That list has room for all.
#[derive(Drop)]
pub struct OutQueues {
    keeps: bool,
    base: u64,
    written: u64,
    cursor: usize,
    messages: KeptLine,
}

impl Model for OutQueues {
    ghost use Rattle.m2_queues.specs.OutQueues.{Outgoing};

    ghost Value = { Outgoing };

    ghost use Rattle.m2_queues.specs.OutQueuesFields.{outgoing_of, IsQueue};

    ghost view = { outgoing_of };

    ghost invariant = { IsQueue };
}

impl OutQueues {
    /// An empty queue. `keeps` is whether a sent message is kept until it is acknowledged: false for
    /// a lossy policy. Takes no memory.
    pub fn new(alloc: Global, keeps: bool) -> OutQueues
        ensures { result ≡ record { queue = new_queue keeps; spare = 0 } }
    {
        OutQueues {
            keeps,
            base: 0,
            written: 0,
            cursor: 0,
            messages: KeptLine::empty(alloc),
        }
    }

    /// Makes `spare` at least `n`: so many posts succeed whatever memory there is.
    pub fn reserve(&mut self, n: u32) -> Result<(), NoMemory>
        ensures ok { OnOk result (self.new ≡ record self.old { spare = max self.old.spare n }) }
        ensures err { OnErr result (self.new ≡ self.old) }
        ensures succeeds { n ≤ self.old.spare → IsOk result }
    {
        self.messages.reserve(n)
    }

    /// How many posts succeed whatever memory there is.
    pub fn spare(&self) -> u32
        ensures { result ≡ self.now.spare }
    {
        self.messages.room()
    }

    /// Puts a message behind all that wait with its priority or a greater one. Where `spare` is
    /// above 0 it succeeds and lowers `spare` by one. Err hands the message back for want of memory.
    pub fn post(&mut self, message: Message) -> Result<(), Message>
        ensures ok { OnOk result (self.new ≡ record { queue = after_post self.old.queue (content_of message); spare = self.old.spare - 1 }) }
        ensures err { MatchResult result (λ _. Unit {0}) (λ back. (back ≡ message) × (self.new ≡ self.old)) }
        ensures succeeds { 0 < self.old.spare → IsOk result }
    {
        if self.spare() == 0 && self.reserve(1).is_err() {
            return Err(message);
        }
        self.place(message);
        Ok(())
    }

    /// Puts a message into the room that is there for it.
    fn place(&mut self, message: Message)
        requires { 0 < self.old.spare }
        ensures { self.new ≡ record { queue = after_post self.old.queue (content_of message); spare = self.old.spare - 1 } }
    {
        let rank = u64::from(message.header.priority);
        self.messages.push_reserved(rank, message);
    }

    /// A look at what is to be sent now, which changes nothing: the number that
    /// [`next`](OutQueues::next) would answer, and the message that [`at`](OutQueues::at) would lend
    /// for it then. None exactly where nothing is left to send.
    pub fn peek(&self) -> Option<Due<'_>>
        requires { last_number self.now.queue < 2 ^ 64 - 1 }
        ensures number { option_map number_due result ≡ next_number self.now.queue }
        ensures message { IfSome result (λ due. message_at (after_next self.now.queue) due.number ≡ Some (content_due due)) }
    {
        let message = self.first_unsent()?;
        Some(Due {
            number: self.base + self.cursor as u64 + 1,
            message,
        })
    }

    /// The message at the cursor, or where the cursor is at the end of what is kept the first that
    /// waits.
    fn first_unsent(&self) -> Option<&Message>
        ensures { option_map content_of (option_copied result) ≡ slice_get (unsent self.now.queue) 0 }
    {
        if self.cursor < self.messages.kept() {
            self.at_cursor()
        } else {
            self.messages.first()
        }
    }

    /// The kept message at the cursor.
    fn at_cursor(&self) -> Option<&Message>
        ensures { option_map content_of (option_copied result) ≡ slice_get self.now.queue.kept self.now.queue.cursor }
    {
        self.messages.at(self.cursor)
    }

    /// The number to be sent now. Where the cursor is at the end of what is kept, the first message
    /// that waits gets the next number and is kept. None exactly where nothing is left to send.
    pub fn next(&mut self) -> Option<u64>
        requires { last_number self.old.queue < 2 ^ 64 - 1 }
        ensures number { result ≡ next_number self.old.queue }
        ensures queue { self.new ≡ record self.old { queue = after_next self.old.queue } }
        ensures there { IfSome result (λ number. IsSome (message_at self.new.queue number)) }
        ensures unsent { OnSome result (self.new.queue.cursor < length self.new.queue.kept) }
    {
        if self.cursor >= self.messages.kept() && !self.messages.keep_first() {
            return None;
        }
        Some(self.base + self.cursor as u64 + 1)
    }

    /// The kept message with this number; None exactly where no kept one has it.
    pub fn at(&self, number: u64) -> Option<&Message>
        ensures { option_map content_of (option_copied result) ≡ message_at self.now.queue number }
    {
        if number <= self.base {
            return None;
        }
        self.messages.at((number - self.base - 1) as usize)
    }

    /// The message at the cursor was written: the cursor moves past it, and `written` becomes at
    /// least its number. Where messages aren't kept it goes.
    pub fn sent(&mut self)
        requires { self.old.queue.cursor < length self.old.queue.kept }
        ensures { self.new ≡ record self.old { queue = after_sent self.old.queue } }
    {
        self.written = self.written.max(self.base + self.cursor as u64 + 1);
        if self.keeps {
            self.cursor += 1;
        } else {
            self.messages.let_go(1);
            self.base += 1;
        }
    }

    /// The other side has taken all up to this number: they go, and the cursor stays where it was,
    /// or at the first that is left. A number at or below `base` changes nothing. BadAck comes
    /// exactly where the number is above `written`; nothing changes then.
    pub fn acked(&mut self, number: u64) -> Result<(), BadAck>
        ensures ok { OnOk result ((number ≤ self.old.queue.written) × (self.new ≡ record self.old { queue = after_acked self.old.queue number })) }
        ensures refused { MatchResult result (λ _. Unit {0})
            (λ bad. (self.old.queue.written < number) × (bad ≡ record { written = self.old.queue.written; got = number }) × (self.new ≡ self.old)) }
    {
        if self.written < number {
            return Err(BadAck {
                written: self.written,
                got: number,
            });
        }
        let gone = number.saturating_sub(self.base) as usize;
        self.messages.let_go(gone);
        self.cursor = self.cursor.saturating_sub(gone);
        self.base = self.base.max(number);
        Ok(())
    }

    /// All that is kept is to be sent again: the cursor goes back to the first kept message.
    pub fn requeue(&mut self)
        ensures { self.new ≡ record self.old { queue = after_requeue self.old.queue } }
    {
        self.cursor = 0;
    }

    /// Everything goes, and numbers begin again at 1.
    pub fn discard(&mut self)
        ensures { self.new ≡ record self.old { queue = after_discard self.old.queue } }
    {
        self.renumber();
        self.messages.clear();
    }

    /// Numbers begin again at 1 with the first kept message, and all that is kept is to be sent
    /// again.
    pub fn renumber(&mut self)
        ensures { self.new ≡ record self.old { queue = after_renumber self.old.queue } }
    {
        self.requeue();
        self.base = 0;
        self.written = 0;
    }

    /// Whether a message is kept or waits.
    pub fn waits(&self) -> bool
        ensures value { result ≡ waits self.now.queue }
        ensures waits { IsTrue result ↔ (0 < length self.now.queue.kept + length self.now.queue.waiting) }
    {
        self.messages.kept() != 0 || self.messages.waiting() != 0
    }

    /// How many wait that have no number yet.
    pub fn waiting(&self) -> usize
        ensures { result ≡ length self.now.queue.waiting }
    {
        self.messages.waiting()
    }

    /// The number before that of the first kept message.
    pub fn base(&self) -> u64
        ensures { result ≡ self.now.queue.base }
    {
        self.base
    }

    /// The greatest number sent since the numbers were last set back.
    pub fn written(&self) -> u64
        ensures { result ≡ self.now.queue.written }
    {
        self.written
    }

    /// The greatest number given since the numbers were last set back.
    pub fn last(&self) -> u64
        ensures number { result ≡ last_number self.now.queue }
        ensures numbers { IsNumbered self.now.queue }
    {
        self.base + self.messages.kept() as u64
    }
}
