//! That a side hears what the replay of its journal hears. Each function has an empty body: its contract is
//! the law.

ghost use Rattle.m2_feed.specs.AnswerLaws as laws;

/// A frame says what the replay takes it for: an answer is the same event, a reset is one that may be obeyed,
/// and what is refused is refused.
pub fn frames_are_heard_as_in_the_replay()
    ensures { laws.FramesAreHeard }
{}

/// The answer that the replay takes when bytes are read is the one at the feed's front.
#[tactic(auto, using(crate::proofs::AnswerFronts::are_heard))]
pub fn fronts_are_heard_as_in_the_replay()
    ensures { laws.FrontsAreHeard }
{}
