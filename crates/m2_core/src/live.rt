//! What a session's step can change.

ghost use Rattle.std.specs.Prelude.{◌≡◌, ◌-◌, ◌<◌, ◌≤◌, ◌^◌, None, true, false, IsTrue, option_map};
ghost use Rattle.m2_queues.specs.OutQueues.{IsNumbered};
ghost use Rattle.m2_session.specs.Steps as table;
ghost use Rattle.m2_session.specs.Steps.{HasFollower, step_of};
ghost use Rattle.m2_shared.specs.Gates.{AreHeld, ArePassesOf, Return, held, places};
ghost use Rattle.m2_core.specs.LiveNow.{HoldsNothing, is_waiting};
ghost use Rattle.m2_core.specs.Effects.{IsAftermath, moved, moved_last, moved_life, tells};
ghost use Rattle.m2_core.specs.LiveCalls.{after_counted};

use crate::aftermath::Aftermath;
use crate::on_feed::close_on;
use m2_fabric::End;
use m2_feed::Feed;
use m2_queues::OutQueues;
use m2_session::{Effects, Event, Session, step};
use m2_shared::{PeerGrants, TakePasses, Throttles};
use std::marker::Model;

/// What a session's step can change: the session, the outgoing queue, the last accepted number, the name of
/// the life, and the feed with what was granted for it. It can't be dropped, since a grant can't: it ends by
/// [`end`](Live::end). Whoever holds it keeps its parts in step with each other.
///
/// Of a step: [`tell`](Live::tell), [`heed`](Live::heed), [`tell_if`](Live::tell_if), [`take`](Live::take).
/// Of the front of the feed: [`ask_stages`](Live::ask_stages), [`pass_front`](Live::pass_front),
/// [`note_front`](Live::note_front), [`accept_front`](Live::accept_front), [`hearing`](Live::hearing),
/// [`take_answer`](Live::take_answer), [`obey`](Live::obey). Of what is composed: [`reserve_ask`](Live::reserve_ask),
/// [`compose_ask`](Live::compose_ask), [`number`](Live::number). Of the queue: [`count`](Live::count),
/// [`waits`](Live::waits).
///
/// A call that takes throttles has the condition that the passes and what is granted were made from them.
pub struct Live<E: End> {
    /// What is remembered of the peer.
    pub session: Session,
    /// What is kept and what waits to be sent.
    pub out: OutQueues,
    /// The last accepted number.
    pub last: u64,
    /// The name of the life: the server cookie that was kept where numbers were last set back, 0 where none
    /// was.
    pub life: u64,
    /// Up to where a resumption on the feed acknowledges, 0 where none does. What of it was written is counted
    /// by the step that takes the resumption, so only a claim of more is left to be met.
    pub resumed: u64,
    /// The one open socket.
    pub feed: Option<Feed<E>>,
    /// What the stages have granted so far for the MESSAGE that isn't finished.
    pub granted: PeerGrants,
}

impl<E: End> Model for Live<E> {
    ghost use Rattle.m2_core.specs.LiveNow.{LiveNow};

    ghost Value = { LiveNow };

    ghost view = { λ l. record {
      session = l.session;
      out = l.out;
      last = l.last;
      life = l.life;
      resumed = l.resumed;
      feed = l.feed;
      granted = l.granted;
    } };
}

/// What effects do to the queue, to the last accepted number, and to the name of the life, where the session
/// keeps this server cookie.
fn move_numbers(effects: &Effects, cookie: u64, out: &mut OutQueues, last: &mut u64, life: &mut u64)
    ensures queue { out.new ≡ moved effects.now out.old }
    ensures last { last.new ≡ moved_last effects.now last.old }
    ensures life { life.new ≡ moved_life effects.now cookie life.old }
{
    if effects.requeue {
        out.requeue();
    }
    if effects.set_back {
        out.renumber();
        *last = 0;
        *life = cookie;
    }
    if effects.discard {
        out.discard();
    }
}

impl<E: End> Live<E> {
    /// Whether a message is kept or waits to be written.
    pub fn waits(&self) -> bool
        ensures { result ≡ is_waiting self.now }
    {
        self.out.waits()
    }

    /// Tells the session of an event, and does what it owes then. What was granted for a feed that is
    /// closed is given back.
    pub fn tell(
        &mut self,
        event: Event,
        throttles: &Throttles,
        passes: &mut TakePasses,
    ) -> Aftermath<E>
        requires lawful { IsTrue (table.is_lawful self.old.session event) }
        requires connect { self.old.session.connect < 2 ^ 64 - 1 }
        requires follower { HasFollower event }
        requires passes { ArePassesOf throttles.now passes.old }
        requires owned { AreHeld (places throttles.now) self.old.granted }
        ensures live { self.new ≡ tells event self.old }
        ensures aftermath { IsAftermath (step_of self.old.session event).effects self.old.feed (option_map E.seen result.closed) result.discarded result.remote_reset }
        ensures passes { ArePassesOf throttles.now passes.new }
        ensures word { (step_of self.old.session event).effects.close ≡ true → Return (held self.old.granted) throttles.now passes.old passes.new }
        ensures kept { (step_of self.old.session event).effects.close ≡ false → passes.new ≡ passes.old }
    {
        let (session, effects) = step(self.session, event);
        self.session = session;
        move_numbers(
            &effects,
            session.server_cookie,
            &mut self.out,
            &mut self.last,
            &mut self.life,
        );
        let mut closed = None;
        if effects.close {
            self.granted.take().back(throttles, passes);
            self.resumed = 0;
            closed = close_on(&mut self.feed);
        }
        Aftermath {
            closed,
            discarded: effects.discard,
            remote_reset: effects.remote_reset,
        }
    }

    /// Tells the session of an event where nothing is granted, and does what it owes then.
    pub fn heed(&mut self, event: Event) -> Aftermath<E>
        requires lawful { IsTrue (table.is_lawful self.old.session event) }
        requires connect { self.old.session.connect < 2 ^ 64 - 1 }
        requires follower { HasFollower event }
        requires ungranted { HoldsNothing self.old.granted }
        ensures live { self.new ≡ tells event self.old }
        ensures aftermath { IsAftermath (step_of self.old.session event).effects self.old.feed (option_map E.seen result.closed) result.discarded result.remote_reset }
    {
        let (session, effects) = step(self.session, event);
        self.session = session;
        move_numbers(
            &effects,
            session.server_cookie,
            &mut self.out,
            &mut self.last,
            &mut self.life,
        );
        let mut closed = None;
        if effects.close {
            self.resumed = 0;
            closed = close_on(&mut self.feed);
        }
        Aftermath {
            closed,
            discarded: effects.discard,
            remote_reset: effects.remote_reset,
        }
    }

    /// The messages up to this number go.
    pub fn count(&mut self, number: u64)
        requires { number ≤ self.old.out.queue.written }
        ensures live { self.new ≡ after_counted number self.old }
        ensures numbers { IsNumbered self.old.out.queue }
    {
        let _last = self.out.last();
        match self.out.acked(number) {
            Ok(()) => {}
            Err(_) => unreachable!(),
        }
    }

    /// Gives back what is held, and gives the feed.
    pub fn end(self, throttles: &Throttles, passes: &mut TakePasses) -> Option<Feed<E>>
        requires passes { ArePassesOf throttles.now passes.old }
        requires owned { AreHeld (places throttles.now) self.granted }
        ensures feed { result ≡ self.feed }
        ensures passes { ArePassesOf throttles.now passes.new }
        ensures word { Return (held self.granted) throttles.now passes.old passes.new }
    {
        let Live {
            session: _,
            out: _,
            last: _,
            life: _,
            resumed: _,
            feed,
            granted,
        } = self;
        granted.back(throttles, passes);
        feed
    }
}
