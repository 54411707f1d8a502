//! What an answer to an ask of the peer leaves of this side.

ghost use Rattle.std.specs.Prelude.{◌≡◌, ℕ, List, ◌-◌, ◌<◌, ◌≤◌, true, false, length, option_map, IfSome, IsSome};
ghost use Rattle.m2_fabric.specs.declared.socket.SocketId.{SocketId};
ghost use Rattle.m2_session.specs.SessionLaws.{takes};
ghost use Rattle.m2_shared.specs.Gates.{AreHeld, ArePassesOf, Return, Stay, held, places};
ghost use Rattle.m2_core.specs.Effects.{IsAftermath, closed_of, effects_of};
ghost use Rattle.m2_core.specs.LiveCalls.{resumed_by_ask};
ghost use Rattle.m2_core.specs.Judging.{IsVerdict, acceptance_text, told_of};
ghost use Rattle.m2_core.specs.TakingOver.{MakesJudgement, IsTakenFeed, after_answering, after_taking};

use crate::feed_laws::feed_laws;
use crate::side::Core;
use crate::verdict::Verdict;
use crate::{Aftermath, resumed_by_ask};
use m2_bytes::Blob;
use m2_fabric::End;
use m2_feed::Feed;
use m2_frame::Decoder;
use m2_shared::{TakePasses, Throttles};

impl<E: End> Core<E> {
    /// The answer takes no socket: the entry Judged. Of the effects there are at most those of a pending
    /// socket that is closed. Its reply is the half's.
    pub fn answered(
        &mut self,
        v: &Verdict,
        throttles: &Throttles,
        passes: &mut TakePasses,
    ) -> Aftermath<E>
        requires verdict { IsVerdict v.now self.old }
        requires refuses { takes v.now.answer ≡ false }
        requires passes { ArePassesOf throttles.now passes.old }
        requires owned { AreHeld (places throttles.now) self.old.live.granted }
        ensures value { self.new ≡ after_answering v.now self.old }
        ensures judged { (socket : SocketId) (unread : List ℕ) → MakesJudgement v.now socket unread self.old self.new }
        ensures aftermath { IsAftermath (effects_of (told_of self.old.facts v.now) self.old.live.session) self.old.live.feed (option_map E.seen result.closed) result.discarded result.remote_reset }
        ensures passes { ArePassesOf throttles.now passes.new }
        ensures word { Stay throttles.now passes.old passes.new }
    {
        feed_laws();
        let told = self.told_of(v);
        let aftermath = self.live.tell_if(told, throttles, passes);
        self.top = v.number;
        aftermath
    }

    /// The answer takes the socket: the entry Judged. The old feed's end comes back, closed; the end of the
    /// socket is the feed, with the bytes that its half had left unread in the decoder, and the text of the
    /// acceptance is to be written. Takes no memory.
    pub fn take_over(
        &mut self,
        v: &Verdict,
        end: E,
        decoder: Decoder,
        acceptance: Blob,
        throttles: &Throttles,
        passes: &mut TakePasses,
    ) -> Aftermath<E>
        requires verdict { IsVerdict v.now self.old }
        requires takes { takes v.now.answer ≡ true }
        requires open { (E.seen end).log.closed ≡ false }
        requires read { length decoder.rest ≤ length (E.seen end).log.got }
        requires ungranted { decoder.granted ≡ false }
        requires text { acceptance.bytes ≡ acceptance_text self.old.facts v.now self.old.live.last }
        requires passes { ArePassesOf throttles.now passes.old }
        requires owned { AreHeld (places throttles.now) self.old.live.granted }
        ensures value { IfSome self.new.live.feed (λ d. IsTakenFeed v.now (E.seen end) decoder.rest self.old d × (self.new ≡ after_taking v.now d self.old)) }
        ensures feed { IsSome self.new.live.feed }
        ensures judged { MakesJudgement v.now (E.seen end).id decoder.rest self.old self.new }
        ensures closed { option_map E.seen result.closed ≡ closed_of self.old.live.feed }
        ensures aftermath { IsAftermath (effects_of (told_of self.old.facts v.now) self.old.live.session) self.old.live.feed (option_map E.seen result.closed) result.discarded result.remote_reset }
        ensures passes { ArePassesOf throttles.now passes.new }
        ensures word { Return (held self.old.live.granted) throttles.now passes.old passes.new }
    {
        m2_feed::a_feed_begins_beside_its_replay();
        let told = self.told_of(v);
        let feed = Feed::taken_over(self.alloc, end, decoder, acceptance);
        let aftermath = self
            .live
            .take(told, feed, resumed_by_ask(&v.ask), throttles, passes);
        self.dials = false;
        self.top = v.number;
        aftermath
    }
}
