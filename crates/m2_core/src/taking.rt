//! What there is to tell, and a socket that is taken.

ghost use Rattle.std.specs.Prelude.{◌≡◌, ◌-◌, ◌<◌, ◌^◌, true, false, option_map, IfSome, IsTrue};
ghost use Rattle.m2_session.specs.Steps as table;
ghost use Rattle.m2_session.specs.Steps.{HasFollower};
ghost use Rattle.m2_shared.specs.Gates.{AreHeld, ArePassesOf, Return, held, places};
ghost use Rattle.m2_core.specs.Effects.{IsAftermath, effects_of};
ghost use Rattle.m2_core.specs.LiveCalls.{resumed_by_ask, tells_if, with_taken};

use crate::aftermath::Aftermath;
use crate::live::Live;
use m2_fabric::End;
use m2_feed::Feed;
use m2_session::{AskFacts, Event};
use m2_shared::{TakePasses, Throttles};

impl<E: End> Live<E> {
    /// Tells the session what there is to tell, and does what it owes then.
    pub fn tell_if(
        &mut self,
        told: Option<Event>,
        throttles: &Throttles,
        passes: &mut TakePasses,
    ) -> Aftermath<E>
        requires lawful { IfSome told (λ e. IsTrue (table.is_lawful self.old.session e)) }
        requires connect { self.old.session.connect < 2 ^ 64 - 1 }
        requires follower { IfSome told HasFollower }
        requires passes { ArePassesOf throttles.now passes.old }
        requires owned { AreHeld (places throttles.now) self.old.granted }
        ensures live { self.new ≡ tells_if told self.old }
        ensures aftermath { IsAftermath (effects_of told self.old.session) self.old.feed (option_map E.seen result.closed) result.discarded result.remote_reset }
        ensures passes { ArePassesOf throttles.now passes.new }
        ensures word { (effects_of told self.old.session).close ≡ true → Return (held self.old.granted) throttles.now passes.old passes.new }
        ensures kept { (effects_of told self.old.session).close ≡ false → passes.new ≡ passes.old }
    {
        match told {
            Some(event) => self.tell(event, throttles, passes),
            None => Aftermath {
                closed: None,
                discarded: false,
                remote_reset: false,
            },
        }
    }

    /// The same, and this is the feed then, on which a resumption acknowledges up to that number.
    pub fn take(
        &mut self,
        told: Option<Event>,
        feed: Feed<E>,
        resumed: u64,
        throttles: &Throttles,
        passes: &mut TakePasses,
    ) -> Aftermath<E>
        requires lawful { IfSome told (λ e. IsTrue (table.is_lawful self.old.session e)) }
        requires connect { self.old.session.connect < 2 ^ 64 - 1 }
        requires follower { IfSome told HasFollower }
        requires passes { ArePassesOf throttles.now passes.old }
        requires owned { AreHeld (places throttles.now) self.old.granted }
        ensures live { self.new ≡ with_taken told feed resumed self.old }
        ensures aftermath { IsAftermath (effects_of told self.old.session) self.old.feed (option_map E.seen result.closed) result.discarded result.remote_reset }
        ensures passes { ArePassesOf throttles.now passes.new }
        ensures word { (effects_of told self.old.session).close ≡ true → Return (held self.old.granted) throttles.now passes.old passes.new }
    {
        let aftermath = self.tell_if(told, throttles, passes);
        self.feed = Some(feed);
        self.resumed = resumed;
        aftermath
    }
}

/// Up to where a resumption acknowledges, 0 where the ask is none.
pub fn resumed_by_ask(ask: &AskFacts) -> u64
    ensures { result ≡ resumed_by_ask ask.now }
{
    if ask.ident { 0 } else { ask.seen }
}
