//! What the feed's end is told of the other side.

ghost use Rattle.std.specs.Prelude.{◌≡◌, OnErr, OnOk};
ghost use Rattle.m2_core.specs.OnFeed.{feed_after_news};
ghost use Rattle.m2_core.specs.LiveCalls.{live_with};
ghost use Rattle.m2_core.specs.Agrees.{Stays};

use crate::feed_laws::feed_laws;
use crate::hear_on;
use crate::side::Core;
use m2_bytes::NoMemory;
use m2_fabric::{End, News};

impl<E: End> Core<E> {
    /// Tells the feed's end, where there is one and it is in memory, of the other side. Nothing else
    /// changes. Err for want of memory changes nothing.
    #[tactic(auto, using(crate::proofs::Heard::keeps, crate::proofs::Heard::stays))]
    pub fn hear(&mut self, bytes: &[u8], news: News) -> Result<(), NoMemory>
        ensures ok { OnOk result (self.new ≡ record self.old { live = live_with (feed_after_news news bytes.now self.old.live.feed) self.old.live }) }
        ensures err { OnErr result (self.new ≡ self.old) }
        ensures stays { Stays self.old self.new }
    {
        feed_laws();
        hear_on(&mut self.live.feed, bytes, news)
    }
}
