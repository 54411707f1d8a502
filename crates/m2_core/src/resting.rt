//! What stands at the front of a feed where no whole frame does.

ghost use Rattle.std.specs.Prelude.{◌≡◌, true};
ghost use Rattle.m2_feed.specs.FeedNow.{is_framing};
ghost use Rattle.m2_shared.specs.Gates.{AreHeld, ArePassesOf, held, places};
ghost use Rattle.m2_core.specs.LiveNow.{OnFeedNow};
ghost use Rattle.m2_core.specs.OnFeed.{HasNoFrame};
ghost use Rattle.m2_core.specs.Next.{LeavesRest, RestSays, WordsRest};

use crate::front_laws::front_laws;
use crate::next_on;
use crate::side::Core;
use m2_fabric::End;
use m2_frame::{FrameFault, Got};
use m2_shared::{TakePasses, Throttles};

/// What stands at the front where no whole frame does.
#[derive(Clone, Copy, Debug, PartialEq, Eq)]
pub(crate) enum CoreRest {
    /// The start of a frame, or nothing.
    Rests,
    /// A MESSAGE that asks for so many bytes, which aren't granted.
    Asks(u64),
    /// A message stood there that the peer gave up. It was passed.
    Passed,
    /// No frame begins so.
    Fault(FrameFault),
}

impl<E: End> Core<E> {
    /// One answer of the decoder, where no whole frame stands at the front. A message that the peer gave up
    /// is passed, and what was held for it given back; else nothing changes.
    #[tactic(auto, using(crate::proofs::Rested::no_frame, crate::proofs::Rested::no_memory, crate::proofs::Rested::rests, crate::proofs::Rested::asks, crate::proofs::Rested::faults, crate::proofs::Rested::passes, crate::proofs::Rested::keeps_resting, crate::proofs::Rested::keeps_asking, crate::proofs::Rested::keeps_faulting, crate::proofs::Rested::keeps_passing))]
    pub(crate) fn rest(&mut self, throttles: &Throttles, passes: &mut TakePasses) -> CoreRest
        requires signed { OnFeedNow self.old.live.feed (λ v. is_framing v.reading ≡ true) }
        requires none { HasNoFrame self.old.live.feed }
        requires passes { ArePassesOf throttles.now passes.old }
        requires owned { AreHeld (places throttles.now) self.old.live.granted }
        ensures rest { OnFeedNow self.old.live.feed (λ v. RestSays result v.reading self.old self.new) }
        ensures passes { ArePassesOf throttles.now passes.new }
        ensures kept { LeavesRest result passes.old passes.new }
        ensures word { WordsRest result (record { throttles = throttles.now; before = passes.old; behind = passes.new }) (held self.old.live.granted) }
    {
        front_laws();
        match next_on(&mut self.live.feed) {
            Got::NotYet => CoreRest::Rests,
            Got::Size(n) => CoreRest::Asks(n),
            Got::Fault(f) => CoreRest::Fault(f),
            Got::Aborted { tag: _ } => {
                self.live.granted.take().back(throttles, passes);
                CoreRest::Passed
            }
            Got::Frame(_) => unreachable!(),
            Got::NoMemory => unreachable!(),
        }
    }
}
