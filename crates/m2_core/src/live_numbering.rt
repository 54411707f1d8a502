//! The next message.

ghost use Rattle.std.specs.Prelude.{◌≡◌, ◌≤◌};
ghost use Rattle.m2_control.specs.declared.fields.TheConstants.{GREATEST_NUMBER};
ghost use Rattle.m2_queues.specs.OutQueues.{last_number};
ghost use Rattle.m2_core.specs.LiveNow.{OnFeedNow};
ghost use Rattle.m2_core.specs.OnFeed.{CanWrite};
ghost use Rattle.m2_core.specs.LiveNumbering.{HasNumber, IsNextSendable, NumbersOn};

use crate::live::Live;
use m2_bytes::NoMemory;
use m2_fabric::End;
use m2_feed::Feed;
use m2_queues::OutQueues;

impl<E: End> Live<E> {
    /// Composes the next message, a copy of it, with its number and the last accepted one, and answers its
    /// number. Err for want of memory changes nothing but the feed's room.
    pub fn number(&mut self) -> Result<u64, NoMemory>
        requires next { HasNumber self.old.out.queue }
        requires last { last_number self.old.out.queue ≤ GREATEST_NUMBER }
        requires sendable { IsNextSendable self.old.out.queue }
        requires feed { OnFeedNow self.old.feed CanWrite }
        ensures numbers { NumbersOn result self.old.last self.old.out self.new.out self.old.feed self.new.feed }
        ensures only { self.new ≡ record self.old { out = self.new.out; feed = self.new.feed } }
    {
        let last = self.last;
        number_on(&mut self.out, &mut self.feed, last)
    }
}

/// Composes the next message of the queue on the feed.
#[tactic(auto, using(crate::proofs::LiveNumbered::same_number))]
fn number_on<E: End>(
    out: &mut OutQueues,
    feed: &mut Option<Feed<E>>,
    last: u64,
) -> Result<u64, NoMemory>
    requires next { HasNumber out.old.queue }
    requires numbers { last_number out.old.queue ≤ GREATEST_NUMBER }
    requires sendable { IsNextSendable out.old.queue }
    requires feed { OnFeedNow feed.old CanWrite }
    ensures { NumbersOn result last out.old out.new feed.old feed.new }
{
    let Some(feed) = feed else { unreachable!() };
    let Some(due) = out.peek() else {
        unreachable!()
    };
    let number = due.number;
    feed.compose_message(due.message, number, last)?;
    let Some(_) = out.next() else { unreachable!() };
    out.sent();
    Ok(number)
}
