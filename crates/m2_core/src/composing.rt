//! Texts that no entry names.

ghost use Rattle.std.specs.Prelude.{◌≡◌, true};
ghost use Rattle.m2_core.specs.LiveNow.{OnFeedNow, is_ready};
ghost use Rattle.m2_core.specs.OnFeed.{CanWrite, HasStamp};
ghost use Rattle.m2_core.specs.Composing.{HasAcknowledged, HasAnswered, OwesOne};

use crate::feed_laws::feed_laws;
use crate::side::Core;
use crate::{acknowledge_on, answer_on};
use m2_bytes::NoMemory;
use m2_fabric::End;

impl<E: End> Core<E> {
    /// Composes an acknowledgement up to the last accepted number, where one is owed. No entry names it.
    /// Err for want of memory changes nothing but the room.
    #[tactic(auto, using(crate::proofs::Unnamed::keeps_acknowledging, crate::proofs::Unnamed::acknowledged))]
    pub fn acknowledge(&mut self) -> Result<(), NoMemory>
        requires owes { OwesOne self.old }
        requires feed { OnFeedNow self.old.live.feed CanWrite }
        ensures acknowledged { HasAcknowledged result self.old self.new }
    {
        feed_laws();
        let last = self.live.last;
        acknowledge_on(&mut self.live.feed, last)
    }

    /// Composes the answer to the first keepalive that isn't answered. No entry names it. Err for want of
    /// memory changes nothing but the room.
    #[tactic(auto, using(crate::proofs::Unnamed::keeps_answering, crate::proofs::Unnamed::answered))]
    pub fn answer_keepalive(&mut self) -> Result<(), NoMemory>
        requires ready { is_ready self.old.live ≡ true }
        requires feed { OnFeedNow self.old.live.feed HasStamp }
        ensures answered { HasAnswered result self.old self.new }
    {
        feed_laws();
        answer_on(&mut self.live.feed)
    }
}
