//! Frames at the front that are passed, with what was held for them.

ghost use Rattle.std.specs.Prelude.{◌≡◌, ◌-◌, IsErr, IsOk};
ghost use Rattle.m2_feed.specs.Calls.{HasFrame};
ghost use Rattle.m2_shared.specs.Gates.{AreHeld, ArePassesOf, Return, held, places};
ghost use Rattle.m2_core.specs.LiveNow.{OnFeedNow};
ghost use Rattle.m2_core.specs.LiveCalls.{LiveNotes, LivePasses};

use crate::live::Live;
use crate::on_feed::{note_on, pass_on};
use m2_bytes::NoMemory;
use m2_control::Keepalive;
use m2_fabric::End;
use m2_shared::{TakePasses, Throttles};

impl<E: End> Live<E> {
    /// Passes the frame at the front, and gives back what was held for it. Takes no memory.
    pub fn pass_front(&mut self, throttles: &Throttles, passes: &mut TakePasses)
        requires front { OnFeedNow self.old.feed (λ v. HasFrame v.reading) }
        requires passes { ArePassesOf throttles.now passes.old }
        requires owned { AreHeld (places throttles.now) self.old.granted }
        ensures passes { LivePasses self.old self.new }
        ensures belong { ArePassesOf throttles.now passes.new }
        ensures word { Return (held self.old.granted) throttles.now passes.old passes.new }
    {
        pass_on(&mut self.feed);
        self.granted.take().back(throttles, passes);
    }

    /// The same of a keepalive, whose stamp is noted. Err for want of memory changes nothing.
    pub fn note_front(
        &mut self,
        stamp: Keepalive,
        throttles: &Throttles,
        passes: &mut TakePasses,
    ) -> Result<(), NoMemory>
        requires front { OnFeedNow self.old.feed (λ v. HasFrame v.reading) }
        requires passes { ArePassesOf throttles.now passes.old }
        requires owned { AreHeld (places throttles.now) self.old.granted }
        ensures notes { LiveNotes result stamp self.old self.new }
        ensures passes { ArePassesOf throttles.now passes.new }
        ensures word { IsOk result → Return (held self.old.granted) throttles.now passes.old passes.new }
        ensures kept { IsErr result → passes.new ≡ passes.old }
    {
        match note_on(&mut self.feed, stamp) {
            Ok(()) => {
                self.granted.take().back(throttles, passes);
                Ok(())
            }
            Err(NoMemory) => Err(NoMemory),
        }
    }
}
