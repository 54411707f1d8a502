//! What a record lends.

ghost use Rattle.std.specs.Prelude.{◌≡◌, map};
ghost use Rattle.m2_shared.specs.Gates.{dispatch, held};
ghost use Rattle.m2_record.specs.Due.{on_feed};
ghost use Rattle.m2_record.specs.IsRecord.{IsRecord};
ghost use Rattle.m2_record.specs.RecordNow.{IsSessionOf, composed_on, feed_end};
ghost use Rattle.m2_trail.specs.Trails.{trail_now};
ghost use Rattle.std.specs.Option.{option_map, option_to_list};

use crate::record::Record;
use m2_core::OutQueues;
use m2_fabric::End;
use m2_feed::Feed;
use m2_journal::{EntryList, NodeFacts, PlanList, replays_are_sound};
use m2_session::Session;
use m2_trail::TrailList;

/// What a record lends, all at once. Each part is as its reader of the same name says.
///
/// Maker: [`parts`](Record::parts).
#[derive(Drop)]
pub struct RecordParts<'a, E: End> {
    /// What the node tells its records.
    pub facts: &'a NodeFacts,
    /// The peer's place among the nodes, from 0.
    pub place: u32,
    pub session: &'a Session,
    pub plan: &'a PlanList,
    pub journal: &'a EntryList,
    pub trails: &'a TrailList,
    /// The feed's end, while there is a feed.
    pub feed: Option<&'a E>,
    /// The ends that were the feed, in order.
    pub spent: &'a [E],
    /// The bytes that are composed and not written.
    pub composed: &'a [u8],
    pub dry: bool,
    pub blocked: bool,
    pub held: bool,
    /// A moment in milliseconds, as `last`.
    pub next_dial: u64,
    pub missed: u64,
    pub last: u64,
}

impl<E: End> Record<E> {
    /// What a record is, for contracts alone: the replay of its journal, with a trail for each socket that it
    /// took.
    pub fn is_record(&self)
        ensures { IsRecord self.now }
    {
        let _ = &self.place;
    }

    /// What the node tells its records.
    pub fn facts(&self) -> &NodeFacts
        ensures { result.now ≡ self.now.core.facts.node }
    {
        self.core.node()
    }

    /// The peer's place among the nodes, from 0.
    pub fn place(&self) -> u32
        ensures { result ≡ self.now.place }
    {
        self.place
    }

    /// What is remembered of the peer. The addresses and the policy in it are those with which the record
    /// was made.
    pub fn session(&self) -> &Session
        ensures session { result.now ≡ self.now.core.live.session }
        ensures facts { IsSessionOf self.now.core.facts result.now }
    {
        self.is_record();
        replays_are_sound();
        self.core.session()
    }

    /// What is to be done.
    pub fn plan(&self) -> &PlanList
        ensures { result.now.items ≡ self.now.plan }
    {
        &self.plan
    }

    /// What was done.
    pub fn journal(&self) -> &EntryList
        ensures { result.now.items ≡ self.now.journal }
    {
        &self.journal
    }

    /// What the halves did that were taken, until then, in order.
    pub fn trails(&self) -> &TrailList
        ensures { map trail_now result.now.items ≡ self.now.trails }
    {
        &self.trails
    }

    /// The feed's end, while there is a feed.
    pub fn feed(&self) -> Option<&E>
        ensures { option_to_list (option_map (λ e. E.seen e.now) result) ≡ feed_end self.now.core.live.feed }
    {
        match self.core.feed() {
            Some(feed) => Some(feed.end()),
            None => None,
        }
    }

    /// The ends that were the feed, in order.
    pub fn spent(&self) -> &[E]
        ensures { map E.seen result.now ≡ self.now.spent }
    {
        self.spent.as_slice()
    }

    /// The bytes that are composed on the feed and not written. None where there is no feed.
    pub fn composed(&self) -> &[u8]
        ensures { result.now ≡ composed_on self.now.core.live.feed }
    {
        match self.core.feed() {
            Some(feed) => feed.composed(),
            None => &[],
        }
    }

    /// The messages that are to be sent, or sent and not yet acknowledged.
    pub fn out(&self) -> &OutQueues
        ensures { result.now ≡ self.now.core.live.out }
    {
        self.core.out()
    }

    /// The number of the last accepted message since numbers were last set back, 0 before the first.
    pub fn accepted(&self) -> u64
        ensures { result ≡ self.now.core.live.last }
    {
        self.core.accepted()
    }

    /// How many bytes the throttle of the dispatch has granted for the message that is being read.
    pub fn granted(&self) -> u64
        ensures { result ≡ held self.now.core.live.granted dispatch }
    {
        self.core.granted()
    }

    /// Whether a dial was asked for that wasn't made yet.
    pub fn wants_dial(&self) -> bool
        ensures { result ≡ self.now.core.dials }
    {
        self.core.wants_dial()
    }

    /// The moment before which no connect is due.
    pub fn next_dial(&self) -> u64
        ensures { result ≡ self.now.waits.next_dial }
    {
        self.waits.next_dial
    }

    /// Whether the feed's last read answered that nothing is there yet. False where there is no feed.
    pub fn dry(&self) -> bool
        ensures { result ≡ on_feed (λ v. v.end.log.dry) self.now.core.live.feed }
    {
        match self.core.feed() {
            Some(feed) => is_dry(feed),
            None => false,
        }
    }

    /// Whether the feed's last write answered that it can't yet. False where there is no feed.
    pub fn blocked(&self) -> bool
        ensures { result ≡ on_feed (λ v. v.end.log.blocked) self.now.core.live.feed }
    {
        match self.core.feed() {
            Some(feed) => is_blocked(feed),
            None => false,
        }
    }

    /// Whether the feed's last write answered that it can't yet, and no step has found since that nothing
    /// is to be done but that.
    pub fn held(&self) -> bool
        ensures { result ≡ self.now.held }
    {
        self.held
    }

    /// How many connects failed.
    pub fn missed(&self) -> u64
        ensures { result ≡ self.now.missed }
    {
        self.missed
    }

    /// The moment of the last productive entry: a Post, Read, Wrote or Accepted. 0 before the first.
    pub fn last(&self) -> u64
        ensures { result ≡ self.now.last }
    {
        self.last
    }

    /// All of this at once. What is lent is a record's: the replay of its journal.
    pub fn parts(&self) -> RecordParts<'_, E>
        ensures facts { result.facts.now ≡ self.now.core.facts.node }
        ensures place { result.place ≡ self.now.place }
        ensures session { result.session.now ≡ self.now.core.live.session }
        ensures plan { result.plan.now.items ≡ self.now.plan }
        ensures journal { result.journal.now.items ≡ self.now.journal }
        ensures trails { map trail_now result.trails.now.items ≡ self.now.trails }
        ensures feed { option_to_list (option_map (λ e. E.seen e.now) result.feed) ≡ feed_end self.now.core.live.feed }
        ensures spent { map E.seen result.spent.now ≡ self.now.spent }
        ensures composed { result.composed.now ≡ composed_on self.now.core.live.feed }
        ensures dry { result.dry ≡ on_feed (λ v. v.end.log.dry) self.now.core.live.feed }
        ensures blocked { result.blocked ≡ on_feed (λ v. v.end.log.blocked) self.now.core.live.feed }
        ensures held { result.held ≡ self.now.held }
        ensures next_dial { result.next_dial ≡ self.now.waits.next_dial }
        ensures missed { result.missed ≡ self.now.missed }
        ensures last { result.last ≡ self.now.last }
        ensures is_record { IsRecord self.now }
    {
        RecordParts {
            facts: self.facts(),
            place: self.place,
            session: self.session(),
            plan: &self.plan,
            journal: &self.journal,
            trails: &self.trails,
            feed: self.feed(),
            spent: self.spent(),
            composed: self.composed(),
            dry: self.dry(),
            blocked: self.blocked(),
            held: self.held,
            next_dial: self.waits.next_dial,
            missed: self.missed,
            last: self.last,
        }
    }
}

/// Whether the last read of a feed's end answered that nothing is there yet.
fn is_dry<E: End>(feed: &Feed<E>) -> bool
    ensures { result ≡ feed.now.end.log.dry }
{
    feed.end().log().dry
}

/// Whether the last write of a feed's end answered that it can't yet.
fn is_blocked<E: End>(feed: &Feed<E>) -> bool
    ensures { result ≡ feed.now.end.log.blocked }
{
    feed.end().log().blocked
}
