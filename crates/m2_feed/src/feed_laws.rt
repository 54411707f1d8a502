//! What a reader expects of a feed beside the replay of its journal. Each function has an empty body: its
//! contract is the law.

ghost use Rattle.m2_feed.specs.FeedLaws as laws;

/// A feed begins beside the replay's: where a socket is opened, and where one of the peer is taken.
#[tactic(auto, using(crate::proofs::Beside::opens, crate::proofs::Beside::takes_over))]
pub fn a_feed_begins_beside_its_replay()
    ensures opens { laws.OpensBeside }
    ensures takes_over { laws.TakesOverBeside }
{}

/// What is read is heard, what a half answers was answered in the replay, and what is passed over leaves
/// the replay as it is.
pub fn reading_stays_beside_the_replay()
    ensures stays { laws.StaysBeside }
    ensures hears { laws.HearsBeside }
    ensures greets { laws.GreetsBeside }
    ensures passes { laws.PassesBeside }
{}

/// What stands at the front is what the replay says is next, and is taken there as in the replay.
#[tactic(auto, using(crate::proofs::Beside::takes_on))]
pub fn what_is_taken_is_next()
    ensures { laws.TakesBeside }
{}

/// A state that changes without its feed.
#[tactic(auto, using(crate::proofs::Beside::changes))]
pub fn another_state_stays_beside_the_feed()
    ensures { laws.ChangesBeside }
{}

/// What is composed is what the replay may put.
#[tactic(auto, using(crate::proofs::Beside::composes_on))]
pub fn what_is_composed_may_be_put()
    ensures { laws.ComposesBeside }
{}

/// Any first bytes of what is composed are lawful, and the feed stays beside the replay as they are put.
pub fn what_is_put_is_lawful()
    ensures { laws.PutsKeep }
{}

/// What the code finds wrong is a fault of the replay, so that the feed may be closed.
pub fn faults_are_faults_of_the_replay()
    ensures { laws.FindsFaults }
{}

/// What the text at the front acknowledges is among what the replay was told.
pub fn what_is_acknowledged_was_told()
    ensures { laws.HearsTold }
{}

/// The payload of an ask is as long whichever numbers stand in it, so that its room can be made before they
/// are drawn; and no frame's text is empty.
pub fn an_asks_text_is_known()
    ensures { laws.TextsAreKnown }
{}
