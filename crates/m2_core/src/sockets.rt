//! The feed comes and goes.

ghost use Rattle.std.specs.Prelude.{◌≡◌, ◌-◌, ◌≤◌, Bool, true, false, option_map, IfSome, IsSome};
ghost use Rattle.std.specs.Option.{is_some};
ghost use Rattle.m2_control.specs.declared.fields.TheConstants.{GREATEST_NUMBER};
ghost use Rattle.m2_feed.specs.Calls.{is_empty};
ghost use Rattle.m2_journal.specs.Items as item;
ghost use Rattle.m2_journal.specs.Lawful.{dial_connect};
ghost use Rattle.m2_session.specs.declared.event.Event.TheVariants as event;
ghost use Rattle.m2_session.specs.Steps.{step_of};
ghost use Rattle.m2_shared.specs.Gates.{AreHeld, ArePassesOf, Return, held, places};
ghost use Rattle.m2_core.specs.LiveNow.{OnFeedNow, is_waiting};
ghost use Rattle.m2_core.specs.Effects.{IsAftermath};
ghost use Rattle.m2_core.specs.LiveCalls.{after_fault};
ghost use Rattle.m2_core.specs.Agrees.{LeadsOn};
ghost use Rattle.m2_core.specs.Calls.{IsOpening, after_opened};
ghost use Rattle.m2_core.specs.CoreNow.{may_dial};
ghost use Rattle.m2_core.specs.Moves.{HasWritten, owes_after};

use crate::feed_laws::feed_laws;
use crate::side::Core;
use crate::{Aftermath, write_on};
use m2_fabric::End;
use m2_feed::{Feed, FeedWrite};
use m2_session::{Event, step};
use m2_shared::{TakePasses, Throttles};

impl<E: End> Core<E> {
    /// A socket that was opened to the peer is the feed: the entry Opened. A dial is due, and the connect
    /// number that it takes is not above the greatest. Takes no memory.
    pub fn opened(&mut self, end: E)
        requires due { may_dial self.old ≡ true }
        requires fits { dial_connect self.old.live.session ≤ GREATEST_NUMBER }
        requires open { (E.seen end).log.closed ≡ false }
        ensures value { IfSome self.new.live.feed (λ v. IsOpening self.old.facts (E.seen end) v × (self.new ≡ after_opened v self.old)) }
        ensures feed { IsSome self.new.live.feed }
        ensures leads { LeadsOn (item.opened (E.seen end).id) self.old self.new }
    {
        let feed = Feed::opened(
            self.alloc,
            end,
            self.node.rules.auth,
            self.node.entity,
            self.peer,
        );
        let (session, _) = step(self.live.session, Event::Dialled);
        self.live.session = session;
        self.live.feed = Some(feed);
        self.dials = false;
    }

    /// The feed is closed for a fault: the entry Closed. Its cause is the caller's: that the end itself has
    /// failed or ended, or that the bytes on it are broken.
    #[tactic(auto, using(crate::proofs::Sound::faulted_to, crate::proofs::Faulting::faulted_to))]
    pub fn fault(&mut self, throttles: &Throttles, passes: &mut TakePasses) -> Aftermath<E>
        requires fed { is_some self.old.live.feed ≡ true }
        requires passes { ArePassesOf throttles.now passes.old }
        requires owned { AreHeld (places throttles.now) self.old.live.granted }
        ensures value { self.new ≡ record self.old { live = after_fault self.old.live } }
        ensures leads { OnFeedNow self.old.live.feed (λ v. (broken : Bool) → LeadsOn (item.closed v.end.id broken) self.old self.new) }
        ensures aftermath { IsAftermath (step_of self.old.live.session (event.Faulted (is_waiting self.old.live))).effects self.old.live.feed (option_map E.seen result.closed) result.discarded result.remote_reset }
        ensures passes { ArePassesOf throttles.now passes.new }
        ensures word { Return (held self.old.live.granted) throttles.now passes.old passes.new }
    {
        let waits = self.live.waits();
        self.live.tell(Event::Faulted { waits }, throttles, passes)
    }

    /// Writes to the feed's end once what is composed there: where bytes are put, the entry Wrote.
    #[tactic(auto, using(crate::proofs::Writing::keeps, crate::proofs::Writing::has_written))]
    pub fn write(&mut self) -> FeedWrite
        requires { OnFeedNow self.old.live.feed (λ v. is_empty v.composed ≡ false) }
        ensures writes { HasWritten result self.old self.new }
    {
        feed_laws();
        let answer = write_on(&mut self.live.feed);
        self.owes = owes_after(answer, self.owes);
        answer
    }
}

/// Whether an acknowledgement is owed after a write.
fn owes_after(answer: FeedWrite, owes: bool) -> bool
    ensures { result ≡ owes_after answer owes }
{
    match answer {
        FeedWrite::Put {
            count: _,
            acknowledged,
        } => owes && !acknowledged,
        _ => owes,
    }
}
