//! Texts at the front that are passed without an entry.

ghost use Rattle.std.specs.Prelude.{◌≡◌, ◌-◌, IsErr, IsOk};
ghost use Rattle.m2_feed.specs.declared.frame_heard.FrameHeard.TheVariants as heard;
ghost use Rattle.m2_shared.specs.Gates.{AreHeld, ArePassesOf, Return, held, places};
ghost use Rattle.m2_core.specs.Front.{HearsOn};
ghost use Rattle.m2_core.specs.Passing.{HasNoted, HasPassed};

use crate::front_laws::front_laws;
use crate::side::Core;
use m2_bytes::NoMemory;
use m2_control::Keepalive;
use m2_fabric::End;
use m2_shared::{TakePasses, Throttles};

impl<E: End> Core<E> {
    /// Passes the frame at the front, which says nothing that is noted, and gives back what was held for it.
    /// It makes no entry and takes no memory.
    #[tactic(auto, using(crate::proofs::Passed::frame_there, crate::proofs::Passed::keeps_to, crate::proofs::Passed::passed_to))]
    pub fn pass_frame(&mut self, throttles: &Throttles, passes: &mut TakePasses)
        requires heard { HearsOn self.old heard.Nothing }
        requires passes { ArePassesOf throttles.now passes.old }
        requires owned { AreHeld (places throttles.now) self.old.live.granted }
        ensures passed { HasPassed self.old self.new }
        ensures passes { ArePassesOf throttles.now passes.new }
        ensures word { Return (held self.old.live.granted) throttles.now passes.old passes.new }
    {
        front_laws();
        self.live.pass_front(throttles, passes);
    }

    /// Passes the keepalive at the front, and notes that it is to be answered with its stamp. It makes no
    /// entry. Err for want of memory changes nothing.
    #[tactic(auto, using(crate::proofs::Passed::frame_there, crate::proofs::Passed::keeps_noting_to, crate::proofs::Passed::noted_to))]
    pub fn pass_keepalive(
        &mut self,
        stamp: Keepalive,
        throttles: &Throttles,
        passes: &mut TakePasses,
    ) -> Result<(), NoMemory>
        requires heard { HearsOn self.old (heard.Stamp stamp) }
        requires passes { ArePassesOf throttles.now passes.old }
        requires owned { AreHeld (places throttles.now) self.old.live.granted }
        ensures noted { HasNoted result stamp self.old self.new }
        ensures passes { ArePassesOf throttles.now passes.new }
        ensures word { IsOk result → Return (held self.old.live.granted) throttles.now passes.old passes.new }
        ensures kept { IsErr result → passes.new ≡ passes.old }
    {
        front_laws();
        self.live.note_front(stamp, throttles, passes)
    }
}
