//! What a core does with the front of its feed.

ghost use Rattle.std.specs.Prelude.{◌≡◌, IfSome, IsNone, None, true, false, option_map};
ghost use Rattle.std.specs.Option.{is_some};
ghost use Rattle.m2_feed.specs.Calls.{Owes};
ghost use Rattle.m2_feed.specs.FeedNow.{is_framing};
ghost use Rattle.m2_feed.specs.declared.frame_heard.FrameHeard.TheVariants as heard;
ghost use Rattle.m2_shared.specs.Gates.{AreHeld, ArePassesOf, held, places};
ghost use Rattle.m2_core.specs.LiveNow.{OnFeedNow, is_ready};
ghost use Rattle.m2_core.specs.Effects.{IsAftermath};
ghost use Rattle.m2_core.specs.OnFeed.{HasNoFrame};
ghost use Rattle.m2_core.specs.Agrees.{IsBroken};
ghost use Rattle.m2_core.specs.Front.{HearsOn, front_of, heard_by, hearer_of, resumption_at, resumption_of, tells};
ghost use Rattle.m2_core.specs.Next.{CanHeed, IsNext, MayObeyIfReset, WordsNext, effects_next, granted_next, size_front};

use crate::accepting::CoreAccepted;
use crate::front_laws::front_laws;
use crate::resting::CoreRest;
use crate::side::Core;
use crate::{Aftermath, front_on};
use m2_bytes::NoMemory;
use m2_fabric::End;
use m2_feed::{FrameHeard, Hearer, WireFault};
use m2_frame::Tag;
use m2_session::Phase;
use m2_shared::{More, Stage, TakePasses, Throttles};

/// What was done with the front of the feed. It may hold a grant, so it can't be dropped.
pub enum CoreNext {
    /// No whole text is there, and nothing was done.
    Rests,
    /// A text was passed of which no entry is made.
    Passed,
    /// Each stage has granted for the MESSAGE that is on its way.
    Granted,
    /// The peer's acknowledgement up to this number was counted: the entry Acked. What acknowledges stays
    /// at the front.
    Acked { number: u64 },
    /// The message at the front was accepted: the entry Accepted.
    Accepted(CoreAccepted),
    /// A reset with this mark is next, which is to be obeyed. Nothing was done.
    Resets { full: bool },
    /// So much is out at this stage that a MESSAGE has to wait. What the stages before it have granted is held.
    Full { stage: Stage, held: u64 },
    /// Another thread took or gave at this stage at that moment; one may try again. What the stages before it
    /// have granted is held.
    Again { stage: Stage, seen: u64, now: u64 },
    /// What is there may not come, or can't be read: the feed was closed for this cause, the entry Closed.
    Fault(WireFault),
    /// Nothing was done.
    NoMemory,
}

/// What was done with the front of the feed, and what that leaves for the record: something after a fault
/// alone.
pub struct CoreFront<E: End> {
    pub next: CoreNext,
    pub aftermath: Aftermath<E>,
}

/// What was done, where it leaves nothing for the record.
fn quiet<E: End>(next: CoreNext) -> CoreFront<E>
    ensures next { result.next ≡ next }
    ensures aftermath { (option_map E.seen result.aftermath.closed ≡ None) × (result.aftermath.discarded ≡ false) × (result.aftermath.remote_reset ≡ false) }
{
    CoreFront {
        next,
        aftermath: Aftermath {
            closed: None,
            discarded: false,
            remote_reset: false,
        },
    }
}

impl<E: End> Core<E> {
    /// Looks at the front of the feed, on which both sides have signed, and does what it says: one entry at
    /// most. What acknowledges is counted first, and stays at the front; a message whose number isn't above
    /// the last is passed, and one that skips a number is a fault.
    #[tactic(auto, using(crate::proofs::Nexts::resumed_can, crate::proofs::Nexts::next_resumed, crate::proofs::Nexts::next_front, crate::proofs::Nexts::reset_on, crate::proofs::Helds::owned_on))]
    pub fn next(&mut self, throttles: &Throttles, passes: &mut TakePasses) -> CoreFront<E>
        requires signed { OnFeedNow self.old.live.feed (λ v. is_framing v.reading ≡ true) }
        requires passes { ArePassesOf throttles.now passes.old }
        requires owned { AreHeld (places throttles.now) self.old.live.granted }
        ensures next { OnFeedNow self.old.live.feed (λ v. IsNext (record { throttles = throttles.now; before = passes.old; behind = passes.new }) result.next (heard_by self.old v.reading) self.old self.new) }
        ensures aftermath { IsAftermath (effects_next result.next self.old.live) self.old.live.feed (option_map E.seen result.aftermath.closed) result.aftermath.discarded result.aftermath.remote_reset }
        ensures resets { MayObeyIfReset result.next self.new }
        ensures owned { AreHeld (places throttles.now) self.new.live.granted }
        ensures passes { ArePassesOf throttles.now passes.new }
        ensures word { WordsNext result.next (record { throttles = throttles.now; before = passes.old; behind = passes.new }) (held self.old.live.granted) (held self.new.live.granted) }
    {
        match self.resumption() {
            Some(heard) => self.heed(heard, throttles, passes),
            None => self.next_text(throttles, passes),
        }
    }

    /// The same of the text at the front.
    #[tactic(auto, using(crate::proofs::Heeded::hears_can, crate::proofs::Nexts::next_heard))]
    fn next_text(&mut self, throttles: &Throttles, passes: &mut TakePasses) -> CoreFront<E>
        requires signed { OnFeedNow self.old.live.feed (λ v. is_framing v.reading ≡ true) }
        requires passes { ArePassesOf throttles.now passes.old }
        requires owned { AreHeld (places throttles.now) self.old.live.granted }
        ensures next { OnFeedNow self.old.live.feed (λ v. IsNext (record { throttles = throttles.now; before = passes.old; behind = passes.new }) result.next (front_of (hearer_of self.old) v.reading) self.old self.new) }
        ensures aftermath { IsAftermath (effects_next result.next self.old.live) self.old.live.feed (option_map E.seen result.aftermath.closed) result.aftermath.discarded result.aftermath.remote_reset }
        ensures passes { ArePassesOf throttles.now passes.new }
        ensures word { WordsNext result.next (record { throttles = throttles.now; before = passes.old; behind = passes.new }) (held self.old.live.granted) (held self.new.live.granted) }
    {
        front_laws();
        match self.hear_front() {
            Some(heard) => self.heed(heard, throttles, passes),
            None => self.next_rest(throttles, passes),
        }
    }

    /// Who hears.
    fn hearer(&self) -> Hearer
        ensures { result ≡ hearer_of self.now }
    {
        let (acknowledged, written) = (self.live.out.base(), self.live.out.written());
        Hearer {
            phase: self.live.session.phase,
            peer: self.peer,
            policy: self.policy,
            last: self.live.last,
            written,
            acknowledged,
        }
    }

    /// What the whole frame at the front says, where there is one.
    fn hear_front(&self) -> Option<FrameHeard>
        requires signed { OnFeedNow self.now.live.feed (λ v. is_framing v.reading ≡ true) }
        ensures some { IfSome result (HearsOn self.now) }
        ensures none { IsNone result → HasNoFrame self.now.live.feed }
    {
        let hearer = self.hearer();
        front_on(&self.live.feed, &hearer)
    }

    /// What a resumption on the feed says, before any text there: that it acknowledges more than was written.
    fn resumption(&self) -> Option<FrameHeard>
        ensures { result ≡ resumption_at self.now }
    {
        if self.live.session.phase == Phase::Ready {
            return resumption_of(&self.hearer(), self.live.resumed);
        }
        None
    }

    /// Whether a resumption on the feed acknowledges more than was written, which is a fault before any text
    /// there.
    pub fn has_resumption(&self) -> bool
        ensures { result ≡ is_some (resumption_at self.now) }
    {
        self.resumption().is_some()
    }

    /// Does what was heard.
    #[tactic(auto, using(crate::proofs::Nexts::is_fed))]
    fn heed(
        &mut self,
        heard: FrameHeard,
        throttles: &Throttles,
        passes: &mut TakePasses,
    ) -> CoreFront<E>
        requires can { CanHeed heard self.old }
        requires signed { OnFeedNow self.old.live.feed (λ v. is_framing v.reading ≡ true) }
        requires passes { ArePassesOf throttles.now passes.old }
        requires owned { AreHeld (places throttles.now) self.old.live.granted }
        ensures next { IsNext (record { throttles = throttles.now; before = passes.old; behind = passes.new }) result.next (tells heard) self.old self.new }
        ensures aftermath { IsAftermath (effects_next result.next self.old.live) self.old.live.feed (option_map E.seen result.aftermath.closed) result.aftermath.discarded result.aftermath.remote_reset }
        ensures passes { ArePassesOf throttles.now passes.new }
        ensures word { WordsNext result.next (record { throttles = throttles.now; before = passes.old; behind = passes.new }) (held self.old.live.granted) (held self.new.live.granted) }
    {
        match heard {
            FrameHeard::Nothing => {
                self.pass_frame(throttles, passes);
                quiet(CoreNext::Passed)
            }
            FrameHeard::Stamp(stamp) => match self.pass_keepalive(stamp, throttles, passes) {
                Ok(()) => quiet(CoreNext::Passed),
                Err(NoMemory) => quiet(CoreNext::NoMemory),
            },
            FrameHeard::Acknowledges { number } => {
                self.acked(number);
                quiet(CoreNext::Acked { number })
            }
            FrameHeard::Brings { number } => match self.accept(number) {
                Ok(accepted) => quiet(CoreNext::Accepted(accepted)),
                Err(NoMemory) => quiet(CoreNext::NoMemory),
            },
            FrameHeard::Resets { full } => quiet(CoreNext::Resets { full }),
            FrameHeard::Fault(cause) => self.close_for(cause, throttles, passes),
        }
    }

    /// Closes the feed for what stands at its front: the entry Closed.
    #[tactic(auto, using(crate::proofs::Nexts::closes))]
    fn close_for(
        &mut self,
        cause: WireFault,
        throttles: &Throttles,
        passes: &mut TakePasses,
    ) -> CoreFront<E>
        requires broken { IsBroken self.old }
        requires fed { is_some self.old.live.feed ≡ true }
        requires passes { ArePassesOf throttles.now passes.old }
        requires owned { AreHeld (places throttles.now) self.old.live.granted }
        ensures next { IsNext (record { throttles = throttles.now; before = passes.old; behind = passes.new }) result.next (tells (heard.Fault cause)) self.old self.new }
        ensures aftermath { IsAftermath (effects_next result.next self.old.live) self.old.live.feed (option_map E.seen result.aftermath.closed) result.aftermath.discarded result.aftermath.remote_reset }
        ensures passes { ArePassesOf throttles.now passes.new }
        ensures word { WordsNext result.next (record { throttles = throttles.now; before = passes.old; behind = passes.new }) (held self.old.live.granted) (held self.new.live.granted) }
    {
        let aftermath = self.fault(throttles, passes);
        CoreFront {
            next: CoreNext::Fault(cause),
            aftermath,
        }
    }

    /// The same where no whole frame stands at the front.
    #[tactic(auto, using(crate::proofs::Nexts::rest_breaks, crate::proofs::Nexts::rest_owes, crate::proofs::Nexts::next_rests, crate::proofs::Nexts::next_passed, crate::proofs::Nexts::next_faulted, crate::proofs::Nexts::next_sized, crate::proofs::Helds::word_faulted, crate::proofs::Helds::word_sized))]
    fn next_rest(&mut self, throttles: &Throttles, passes: &mut TakePasses) -> CoreFront<E>
        requires signed { OnFeedNow self.old.live.feed (λ v. is_framing v.reading ≡ true) }
        requires none { HasNoFrame self.old.live.feed }
        requires passes { ArePassesOf throttles.now passes.old }
        requires owned { AreHeld (places throttles.now) self.old.live.granted }
        ensures next { OnFeedNow self.old.live.feed (λ v. IsNext (record { throttles = throttles.now; before = passes.old; behind = passes.new }) result.next (front_of (hearer_of self.old) v.reading) self.old self.new) }
        ensures aftermath { IsAftermath (effects_next result.next self.old.live) self.old.live.feed (option_map E.seen result.aftermath.closed) result.aftermath.discarded result.aftermath.remote_reset }
        ensures passes { ArePassesOf throttles.now passes.new }
        ensures word { WordsNext result.next (record { throttles = throttles.now; before = passes.old; behind = passes.new }) (held self.old.live.granted) (held self.new.live.granted) }
    {
        front_laws();
        match self.rest(throttles, passes) {
            CoreRest::Rests => quiet(CoreNext::Rests),
            CoreRest::Passed => quiet(CoreNext::Passed),
            CoreRest::Fault(f) => self.close_for(WireFault::Frame(f), throttles, passes),
            CoreRest::Asks(n) => self.next_size(n, throttles, passes),
        }
    }

    /// The same where a MESSAGE asks for its size.
    #[tactic(auto, using(crate::proofs::Nexts::is_bounded, crate::proofs::Heeded::early_breaks, crate::proofs::Nexts::size_fed, crate::proofs::Nexts::next_granted, crate::proofs::Nexts::next_early, crate::proofs::Helds::word_granted))]
    fn next_size(&mut self, n: u64, throttles: &Throttles, passes: &mut TakePasses) -> CoreFront<E>
        requires owes { OnFeedNow self.old.live.feed (λ v. Owes v.reading n) }
        requires passes { ArePassesOf throttles.now passes.old }
        requires owned { AreHeld (places throttles.now) self.old.live.granted }
        ensures next { IsNext (record { throttles = throttles.now; before = passes.old; behind = passes.new }) result.next (size_front (is_ready self.old.live) n) self.old self.new }
        ensures aftermath { IsAftermath (effects_next result.next self.old.live) self.old.live.feed (option_map E.seen result.aftermath.closed) result.aftermath.discarded result.aftermath.remote_reset }
        ensures passes { ArePassesOf throttles.now passes.new }
        ensures word { WordsNext result.next (record { throttles = throttles.now; before = passes.old; behind = passes.new }) (held self.old.live.granted) (held self.new.live.granted) }
    {
        front_laws();
        if self.live.session.phase != Phase::Ready {
            let cause = WireFault::Unexpected {
                tag: Tag::Message.number(),
            };
            return self.close_for(cause, throttles, passes);
        }
        let answer = self.grant(n, throttles, passes);
        quiet(granted_next(answer))
    }
}

/// The answer of the stages.
fn granted_next(answer: More) -> CoreNext
    ensures { result ≡ granted_next answer }
{
    match answer {
        More::Whole => CoreNext::Granted,
        More::Full { stage, held } => CoreNext::Full { stage, held },
        More::Again { stage, seen, now } => CoreNext::Again { stage, seen, now },
    }
}

/// What a resumption says that acknowledges up to this number, behind the step that took it.
fn resumption_of(hearer: &Hearer, resumed: u64) -> Option<FrameHeard>
    ensures { result ≡ resumption_of hearer.now resumed }
{
    if resumed > hearer.written {
        return Some(FrameHeard::Fault(WireFault::BadAck {
            written: hearer.written,
            got: resumed,
        }));
    }
    None
}
