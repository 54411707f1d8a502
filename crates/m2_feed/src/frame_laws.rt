//! What a reader expects of what is heard beside the replay of journals. Each function has an empty body: its
//! contract is the law.

ghost use Rattle.m2_feed.specs.FrameLaws as laws;

/// What a text says to a side is what the replay of its journal says of it: what is passed there, what it
/// acknowledges, which message is next, when a reset is to be obeyed; and it is a fault exactly where it is
/// one of the replay.
#[tactic(auto, using(crate::proofs::Heeding::heeds))]
pub fn what_is_heard_is_what_the_replay_says()
    ensures { laws.IsHeardAsReplayed }
{}

/// What brings a message is a MESSAGE with a whole header.
pub fn what_brings_a_message_is_one()
    ensures { laws.BringsMessages }
{}

/// A whole MESSAGE at the front asks for the size of its parts, an aborted text can only be that of a
/// MESSAGE, and no other text asks for a size. No size is above what one grant holds.
#[tactic(auto, using(crate::proofs::FrameSizes::asks))]
pub fn a_message_asks_for_its_size()
    ensures { laws.AsksForItsSize }
{}
