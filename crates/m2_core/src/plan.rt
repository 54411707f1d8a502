//! What a plan asks for.

ghost use Rattle.std.specs.Prelude.{◌≡◌, ◌-◌, ℕ, Bool, Option, Some, true, false, option_map, OnErr, OnOk};
ghost use Rattle.m2_journal.specs.Items as item;
ghost use Rattle.m2_journal.specs.Plan.{Planned, to_post};
ghost use Rattle.m2_message.specs.Message.{content_of};
ghost use Rattle.m2_session.specs.declared.event.Event.TheVariants as event;
ghost use Rattle.m2_session.specs.Steps.{step_of};
ghost use Rattle.m2_shared.specs.Gates.{AreHeld, ArePassesOf, Return, held, places};
ghost use Rattle.m2_core.specs.Effects.{IsAftermath};
ghost use Rattle.m2_core.specs.LiveCalls.{after_posted};
ghost use Rattle.m2_core.specs.Agrees.{LeadsOn, MayCome};
ghost use Rattle.m2_core.specs.Calls.{after_dial, after_down, is_exhausted};

use crate::Aftermath;
use crate::feed_laws::feed_laws;
use crate::side::Core;
use m2_bytes::NoMemory;
use m2_fabric::End;
use m2_message::Message;
use m2_session::{Event, Phase};
use m2_shared::{TakePasses, Throttles};

impl<E: End> Core<E> {
    /// Queues a copy of a message: the entry Post. Err for want of memory changes nothing.
    #[tactic(auto, using(crate::proofs::Agreeing::posted))]
    pub fn post(&mut self, message: &Message) -> Result<(), NoMemory>
        ensures ok { OnOk result (self.new ≡ record self.old { live = after_posted (content_of message.now) self.old.live }) }
        ensures err { OnErr result (self.new ≡ self.old) }
        ensures leads { OnOk result ((place : ℕ) → LeadsOn (item.post place (Some (to_post (content_of message.now)))) self.old self.new) }
    {
        feed_laws();
        let copy = message.copy()?;
        match self.live.out.post(copy) {
            Ok(()) => Ok(()),
            Err(_) => Err(NoMemory),
        }
    }

    /// A dial is wanted, where there is no session or nothing to write: the entry Dial.
    pub fn dial(&mut self)
        ensures value { self.new ≡ after_dial self.old }
        ensures leads { (planned : Option Planned) → LeadsOn (item.dial planned) self.old self.new }
    {
        self.dials = self.dials
            || matches!(self.live.session.phase, Phase::Absent | Phase::Standby);
    }

    /// Gives the session up: the entry Down. What is owed then is told by the aftermath. By the plan it
    /// may come at any time, and else where a number is used up.
    pub fn down(&mut self, throttles: &Throttles, passes: &mut TakePasses) -> Aftermath<E>
        requires passes { ArePassesOf throttles.now passes.old }
        requires owned { AreHeld (places throttles.now) self.old.live.granted }
        ensures value { self.new ≡ after_down self.old }
        ensures leads { (planned : Bool) (step : Option Planned) → LeadsOn (item.down planned step) self.old self.new }
        ensures may { is_exhausted self.old ≡ true → (step : Option Planned) → MayCome (item.down false step) self.old }
        ensures aftermath { IsAftermath (step_of self.old.live.session event.MarkedDown).effects self.old.live.feed (option_map E.seen result.closed) result.discarded result.remote_reset }
        ensures passes { ArePassesOf throttles.now passes.new }
        ensures word { Return (held self.old.live.granted) throttles.now passes.old passes.new }
    {
        let aftermath = self.live.tell(Event::MarkedDown, throttles, passes);
        self.dials = false;
        aftermath
    }
}
