//! The opener's handshake.

ghost use Rattle.std.specs.Prelude.{◌≡◌, false};
ghost use Rattle.m2_feed.specs.FeedNow.{is_framing};
ghost use Rattle.m2_core.specs.LiveNow.{OnFeedNow};
ghost use Rattle.m2_core.specs.Shaken.{HasShaken};

use crate::feed_laws::feed_laws;
use crate::greet_on;
use crate::side::Core;
use m2_fabric::End;
use m2_handshake::HalfStep;

impl<E: End> Core<E> {
    /// One answer of the opener's half, which makes no entry; what it writes is composed. A fault that it
    /// finds is one of the replay too.
    #[tactic(auto, using(crate::proofs::Greeted::keeps, crate::proofs::Greeted::has_shaken))]
    pub fn shake(&mut self) -> HalfStep
        requires { OnFeedNow self.old.live.feed (λ v. is_framing v.reading ≡ false) }
        ensures shaken { HasShaken result self.old self.new }
    {
        feed_laws();
        greet_on(&mut self.live.feed)
    }
}
