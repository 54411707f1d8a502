//! The next message.

ghost use Rattle.std.specs.Prelude.{◌≡◌, true};
ghost use Rattle.m2_core.specs.LiveNow.{OnFeedNow, is_ready};
ghost use Rattle.m2_core.specs.OnFeed.{CanWrite};
ghost use Rattle.m2_core.specs.LiveNumbering.{HasNumber, IsNextSendable};
ghost use Rattle.m2_core.specs.Numbering.{HasNumbered};

use crate::feed_laws::feed_laws;
use crate::side::Core;
use m2_bytes::NoMemory;
use m2_fabric::End;

impl<E: End> Core<E> {
    /// Composes the next message, a copy of it, with its number and the last accepted one: the entry
    /// Numbered, and its number. Err for want of memory changes nothing but the feed's room.
    #[tactic(auto, using(crate::proofs::Numbered::keeps_live, crate::proofs::Numbered::has_numbered_live))]
    pub fn number(&mut self) -> Result<u64, NoMemory>
        requires ready { is_ready self.old.live ≡ true }
        requires feed { OnFeedNow self.old.live.feed CanWrite }
        requires next { HasNumber self.old.live.out.queue }
        requires sendable { IsNextSendable self.old.live.out.queue }
        ensures numbered { HasNumbered result self.old self.new }
    {
        feed_laws();
        self.live.number()
    }
}
