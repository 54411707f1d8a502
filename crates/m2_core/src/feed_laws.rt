//! What is known of feeds beside their replay, in one place.

ghost use Rattle.m2_feed.specs.FeedLaws as laws;

/// The laws of feeds that the calls of a core rest on. It does nothing.
pub(crate) fn feed_laws()
    ensures stays { laws.StaysBeside }
    ensures greets { laws.GreetsBeside }
    ensures changes { laws.ChangesBeside }
    ensures composes { laws.ComposesBeside }
    ensures puts { laws.PutsKeep }
    ensures finds { laws.FindsFaults }
{
    m2_feed::reading_stays_beside_the_replay();
    m2_feed::another_state_stays_beside_the_feed();
    m2_feed::what_is_composed_may_be_put();
    m2_feed::what_is_put_is_lawful();
    m2_feed::faults_are_faults_of_the_replay();
}
