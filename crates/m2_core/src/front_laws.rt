//! What is known of the front of a feed beside its replay, in one place.

ghost use Rattle.m2_feed.specs.FeedLaws as laws;
ghost use Rattle.m2_feed.specs.FrameLaws as heard;

/// The laws of fronts that the calls of a core rest on. It does nothing.
pub(crate) fn front_laws()
    ensures passes { laws.PassesBeside }
    ensures takes { laws.TakesBeside }
    ensures changes { laws.ChangesBeside }
    ensures finds { laws.FindsFaults }
    ensures told { laws.HearsTold }
    ensures heard { heard.IsHeardAsReplayed }
    ensures brings { heard.BringsMessages }
    ensures sizes { heard.AsksForItsSize }
{
    m2_feed::reading_stays_beside_the_replay();
    m2_feed::what_is_taken_is_next();
    m2_feed::another_state_stays_beside_the_feed();
    m2_feed::faults_are_faults_of_the_replay();
    m2_feed::what_is_acknowledged_was_told();
    m2_feed::what_is_heard_is_what_the_replay_says();
    m2_feed::what_brings_a_message_is_one();
    m2_feed::a_message_asks_for_its_size();
}
