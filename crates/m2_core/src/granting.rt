//! What is granted for a MESSAGE.

ghost use Rattle.std.specs.Prelude.{◌≡◌, ◌≤◌, true};
ghost use Rattle.m2_feed.specs.Calls.{Owes};
ghost use Rattle.m2_shared.specs.declared.limits.TheConstants.{MOST_TAKEN};
ghost use Rattle.m2_shared.specs.Gates.{AreHeld, ArePassesOf, Keep, held, places};
ghost use Rattle.m2_core.specs.LiveNow.{OnFeedNow, is_ready};
ghost use Rattle.m2_core.specs.Granting.{HasAsked};

use crate::feed_laws::feed_laws;
use crate::side::Core;
use m2_fabric::End;
use m2_shared::{More, TakePasses, Throttles};

impl<E: End> Core<E> {
    /// Asks for what is missing for the MESSAGE at the front, by the size that it asks for. It makes no entry. What was
    /// granted is held, whatever the answer is; where it is Whole, the feed is told.
    #[tactic(auto, using(crate::proofs::Granted::keeps, crate::proofs::Granted::has_asked))]
    pub fn grant(&mut self, n: u64, throttles: &Throttles, passes: &mut TakePasses) -> More
        requires ready { is_ready self.old.live ≡ true }
        requires owes { OnFeedNow self.old.live.feed (λ v. Owes v.reading n) }
        requires most { n ≤ MOST_TAKEN }
        requires passes { ArePassesOf throttles.now passes.old }
        requires owned { AreHeld (places throttles.now) self.old.live.granted }
        ensures granted { HasAsked result (record { throttles = throttles.now; before = passes.old; behind = passes.new }) n self.old self.new }
        ensures passes { ArePassesOf throttles.now passes.new }
        ensures owned { AreHeld (places throttles.now) self.new.live.granted }
        ensures word { Keep (held self.old.live.granted) (held self.new.live.granted) throttles.now passes.old passes.new }
    {
        feed_laws();
        self.live.ask_stages(n, throttles, passes)
    }
}
