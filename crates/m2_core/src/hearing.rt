//! What a side that has asked hears at the front of its feed.

ghost use Rattle.std.specs.Prelude.{◌≡◌, ◌-◌, ◌<◌, ◌^◌, None, Some, IfSome, IsTrue, option_map, if◌then◌else◌};
ghost use Rattle.m2_feed.specs.Calls.{HasFrame};
ghost use Rattle.m2_feed.specs.Heard.{IsBounded, event_of};
ghost use Rattle.m2_session.specs.declared.event.Event.TheVariants as event;
ghost use Rattle.m2_session.specs.Steps as table;
ghost use Rattle.m2_session.specs.Steps.{HasFollower, step_of};
ghost use Rattle.m2_core.specs.LiveNow.{HoldsNothing, OnFeedNow, is_ready};
ghost use Rattle.m2_core.specs.Effects.{IsAftermath};
ghost use Rattle.m2_core.specs.LiveHearing.{ObeysReset, TakesAnswer, heard_on, raised_by};

use crate::aftermath::Aftermath;
use crate::live::Live;
use crate::on_feed::pass_on;
use m2_addr::Addr;
use m2_fabric::End;
use m2_feed::{Heard, heard_at_front};
use m2_policy::Policy;
use m2_session::{Event, Phase};
use m2_shared::{NumberPass, Numbers};

impl<E: End> Live<E> {
    /// What the frame at the front says to a side that isn't Ready.
    pub fn hearing(&self, peer: &Addr, policy: &Policy) -> Option<Heard>
        ensures value { result ≡ (if is_ready self.now then None else heard_on peer.now policy.now self.now.session.phase self.now.feed) }
        ensures bounded { IfSome result IsBounded }
    {
        if self.session.phase == Phase::Ready {
            return None;
        }
        match &self.feed {
            Some(feed) => heard_at_front(feed, self.session.phase, peer, policy),
            None => None,
        }
    }

    /// Takes an answer, of which the session is told so: passes its frame, and notes up to where a
    /// resumption acknowledges. Takes no memory.
    #[tactic(auto, using(crate::proofs::Closed::closed_same))]
    pub fn take_answer(&mut self, heard: Heard, event: Event) -> Aftermath<E>
        requires told { event_of heard ≡ Some event }
        requires lawful { IsTrue (table.is_lawful self.old.session event) }
        requires connect { self.old.session.connect < 2 ^ 64 - 1 }
        requires follower { HasFollower event }
        requires front { OnFeedNow self.old.feed (λ v. HasFrame v.reading) }
        requires ungranted { HoldsNothing self.old.granted }
        ensures takes { TakesAnswer heard self.old self.new }
        ensures aftermath { IsAftermath (step_of self.old.session event).effects self.old.feed (option_map E.seen result.closed) result.discarded result.remote_reset }
    {
        pass_on(&mut self.feed);
        if let Heard::ReconnectOk { seen } = heard {
            self.resumed = seen;
        }
        self.heed(event)
    }

    /// Passes the reset at the front, with this mark, and tells the session of it. Takes no memory.
    #[tactic(auto, using(crate::proofs::Closed::closed_same))]
    pub fn obey(&mut self, full: bool) -> Aftermath<E>
        requires lawful { IsTrue (table.is_lawful self.old.session (event.GotReset full)) }
        requires connect { self.old.session.connect < 2 ^ 64 - 1 }
        requires front { OnFeedNow self.old.feed (λ v. HasFrame v.reading) }
        requires ungranted { HoldsNothing self.old.granted }
        ensures obeys { ObeysReset full self.old self.new }
        ensures aftermath { IsAftermath (step_of self.old.session (event.GotReset full)).effects self.old.feed (option_map E.seen result.closed) result.discarded result.remote_reset }
    {
        pass_on(&mut self.feed);
        self.heed(Event::GotReset { full })
    }
}

/// Raises the counter to the global number that a peer tells.
pub fn raise(heard: Option<Heard>, numbers: &Numbers, pass: &mut NumberPass)
    requires pass { pass.old.place ≡ numbers.now.place }
    requires bounded { IfSome heard IsBounded }
    ensures { pass.new ≡ raised_by heard pass.old }
{
    if let Some(Heard::RetryGlobal { number }) = heard {
        numbers.raise(pass, number);
    }
}
