//! What is asked of the stages for the MESSAGE at the front.

ghost use Rattle.m2_feed.specs.Calls.{Owes};
ghost use Rattle.m2_shared.specs.declared.limits.TheConstants.{MOST_TAKEN};
ghost use Rattle.m2_shared.specs.Gates.{AreHeld, ArePassesOf, Keep, held, places};
ghost use Rattle.std.specs.Prelude.{◌≤◌};
ghost use Rattle.m2_core.specs.LiveNow.{OnFeedNow};
ghost use Rattle.m2_core.specs.Granting.{AsksMissing};

use crate::live::Live;
use crate::on_feed::grant_on;
use m2_fabric::End;
use m2_shared::{More, TakePasses, Throttles};

impl<E: End> Live<E> {
    /// Asks for what is missing for the MESSAGE at the front, which asks for this size. What was granted is held, whatever the
    /// answer is; where it is Whole, the feed is told.
    pub fn ask_stages(&mut self, n: u64, throttles: &Throttles, passes: &mut TakePasses) -> More
        requires owes { OnFeedNow self.old.feed (λ v. Owes v.reading n) }
        requires most { n ≤ MOST_TAKEN }
        requires passes { ArePassesOf throttles.now passes.old }
        requires owned { AreHeld (places throttles.now) self.old.granted }
        ensures asks { AsksMissing result (record { throttles = throttles.now; before = passes.old; behind = passes.new }) n self.old self.new }
        ensures passes { ArePassesOf throttles.now passes.new }
        ensures owned { AreHeld (places throttles.now) self.new.granted }
        ensures word { Keep (held self.old.granted) (held self.new.granted) throttles.now passes.old passes.new }
    {
        match self.granted.more(throttles, passes, n) {
            More::Whole => {
                grant_on(&mut self.feed);
                More::Whole
            }
            More::Full { stage, held } => More::Full { stage, held },
            More::Again { stage, seen, now } => More::Again { stage, seen, now },
        }
    }
}
