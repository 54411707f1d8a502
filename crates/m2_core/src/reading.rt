//! What is read, and what is heard there.

ghost use Rattle.std.specs.Prelude.{◌≡◌, false, true, None, Some, IfSome, option_map};
ghost use Rattle.std.specs.Option.{is_some};
ghost use Rattle.m2_feed.specs.Heard.{IsBounded};
ghost use Rattle.m2_feed.specs.AnswerLaws as hearing_laws;
ghost use Rattle.m2_feed.specs.FeedLaws as feed_laws;
ghost use Rattle.m2_core.specs.Effects.{closed_if};
ghost use Rattle.m2_core.specs.OnFeed.{ReadsFeed};
ghost use Rattle.m2_core.specs.LiveCalls.{live_with};
ghost use Rattle.m2_core.specs.LiveHearing.{raised_by};
ghost use Rattle.m2_core.specs.Hearing.{HasRead, Heeds, IsFaultHeard, effects_heard, hearing};

use crate::side::Core;
use crate::{Aftermath, raise, read_on};
use m2_fabric::{End, EndRead};
use m2_feed::Heard;
use m2_shared::{NumberPass, Numbers};

/// What a read answered.
#[derive(Drop)]
pub struct CoreRead<E: End> {
    /// What the end answered.
    pub answer: EndRead,
    /// Where bytes came before Ready: what the frame at the front says to the ask. An answer is taken with
    /// the bytes; a reset, which is obeyed apart, and a refusal, which is a fault, stay there.
    pub heard: Option<Heard>,
    /// What the answer leaves for the record. It throws nothing away.
    pub aftermath: Aftermath<E>,
}

impl<E: End> Core<E> {
    /// What the frame at the front of the feed says to a side that isn't Ready, and so to its ask. A refusal
    /// is a fault of the feed. Takes no memory.
    #[tactic(auto, using(crate::proofs::Taken::is_fault))]
    pub fn hearing(&self) -> Option<Heard>
        ensures value { result ≡ hearing self.now.facts self.now.live }
        ensures bounded { IfSome result IsBounded }
        ensures fault { IsFaultHeard result self.now }
    {
        laws_of_hearing();
        self.live.hearing(&self.peer, &self.policy)
    }

    /// Reads the feed's end once. Where bytes come it is the entry Read, and an answer to the ask that they
    /// complete is taken as part of it: its frame is passed, and the session is told. A number in a
    /// SESSION_RETRY_GLOBAL raises the counter, so that the next ask has a greater one. Each other answer of
    /// the end makes no entry. Nothing fails once bytes have moved.
    #[tactic(auto, using(crate::proofs::Listening::has_read, crate::proofs::Taken::is_fault_then))]
    pub fn read(&mut self, numbers: &Numbers, pass: &mut NumberPass) -> CoreRead<E>
        requires fed { is_some self.old.live.feed ≡ true }
        requires pass { pass.old.place ≡ numbers.now.place }
        ensures read { HasRead (record { answer = result.answer; heard = result.heard; closed = option_map E.seen result.aftermath.closed }) self.old self.new }
        ensures fault { IsFaultHeard result.heard self.new }
        ensures discarded { result.aftermath.discarded ≡ false }
        ensures remote_reset { result.aftermath.remote_reset ≡ false }
        ensures raised { pass.new ≡ raised_by result.heard pass.old }
    {
        laws_of_hearing();
        let _ = &self.alloc;
        let answer = self.read_end();
        let EndRead::Got(_) = answer else {
            return CoreRead {
                answer,
                heard: None,
                aftermath: Aftermath::nothing(),
            };
        };
        let heard = self.hearing();
        raise(heard, numbers, pass);
        let aftermath = self.heed_front(heard);
        CoreRead {
            answer,
            heard,
            aftermath,
        }
    }

    /// Reads the feed's end once.
    #[tactic(auto, using(crate::proofs::HeardBytes::keeps))]
    fn read_end(&mut self) -> EndRead
        requires fed { is_some self.old.live.feed ≡ true }
        ensures reads { ReadsFeed result self.old.live.feed self.new.live.feed }
        ensures only { self.new ≡ record self.old { live = live_with self.new.live.feed self.old.live } }
    {
        read_on(&mut self.live.feed)
    }

    /// Takes what was heard at the front, where the session is told of it.
    #[tactic(auto, using(crate::proofs::Taken::may_tell, crate::proofs::Taken::has_follower, crate::proofs::Taken::nothing_granted, crate::proofs::Taken::takes_it, crate::proofs::Taken::leaves_it, crate::proofs::Taken::keeps, crate::proofs::Taken::thrown_away))]
    fn heed_front(&mut self, heard: Option<Heard>) -> Aftermath<E>
        requires heard { heard ≡ hearing self.old.facts self.old.live }
        requires bounded { IfSome heard IsBounded }
        ensures heeds { Heeds heard self.old.live self.new.live }
        ensures only { self.new ≡ record self.old { live = self.new.live } }
        ensures closed { option_map E.seen result.closed ≡ closed_if (effects_heard heard self.old.live.session).close self.old.live.feed }
        ensures discarded { result.discarded ≡ false }
        ensures remote_reset { result.remote_reset ≡ false }
    {
        laws_of_hearing();
        let Some(h) = heard else {
            return Aftermath::nothing();
        };
        match h.event() {
            Some(event) => self.live.take_answer(h, event),
            None => Aftermath::nothing(),
        }
    }
}

/// What is known of frames that are heard, and of their feeds beside the replay.
pub(crate) fn laws_of_hearing()
    ensures stays { feed_laws.StaysBeside }
    ensures hears { feed_laws.HearsBeside }
    ensures takes { feed_laws.TakesBeside }
    ensures changes { feed_laws.ChangesBeside }
    ensures finds { feed_laws.FindsFaults }
    ensures told { feed_laws.HearsTold }
    ensures frames { hearing_laws.FramesAreHeard }
    ensures fronts { hearing_laws.FrontsAreHeard }
{
    m2_feed::reading_stays_beside_the_replay();
    m2_feed::what_is_taken_is_next();
    m2_feed::another_state_stays_beside_the_feed();
    m2_feed::faults_are_faults_of_the_replay();
    m2_feed::what_is_acknowledged_was_told();
    m2_feed::frames_are_heard_as_in_the_replay();
    m2_feed::fronts_are_heard_as_in_the_replay();
}
