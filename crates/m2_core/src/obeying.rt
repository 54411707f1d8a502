//! A reset that is obeyed.

ghost use Rattle.std.specs.Prelude.{◌≡◌, Some, option_map};
ghost use Rattle.m2_feed.specs.declared.heard.Heard.TheVariants as heard;
ghost use Rattle.m2_session.specs.declared.event.Event.TheVariants as event;
ghost use Rattle.m2_session.specs.Steps.{step_of};
ghost use Rattle.m2_core.specs.Effects.{IsAftermath};
ghost use Rattle.m2_core.specs.Hearing.{HasObeyed, hearing};

use crate::Aftermath;
use crate::reading::laws_of_hearing;
use crate::side::Core;
use m2_fabric::End;

impl<E: End> Core<E> {
    /// Obeys the SESSION_RESET that is heard at the front, with this mark: the entry Obeyed. Its frame is
    /// passed; numbers begin again; and where it is full the cookies go, and what waits and what was accepted
    /// is thrown away, of which the aftermath tells. The same socket is asked on again. Takes no memory.
    pub fn obey(&mut self, full: bool) -> Aftermath<E>
        requires next { hearing self.old.facts self.old.live ≡ Some (heard.Reset full) }
        ensures obeyed { HasObeyed full self.old self.new }
        ensures aftermath { IsAftermath (step_of self.old.live.session (event.GotReset full)).effects self.old.live.feed (option_map E.seen result.closed) result.discarded result.remote_reset }
    {
        laws_of_hearing();
        self.live.obey(full)
    }
}
