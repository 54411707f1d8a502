//! How a record ends.

ghost use Rattle.std.specs.Prelude.{◌≡◌, ◌-◌, ◌++◌, [], vec_capacity, vec_len};
ghost use Rattle.std.specs.List.{AllByRecursion};
ghost use Rattle.std.specs.VecDeque.{deque_len};
ghost use Rattle.std.specs.Prelude.{map};
ghost use Rattle.m2_dispatch.specs.Parcel.{IsOwned};
ghost use Rattle.m2_shared.specs.Gates.{ArePassesOf, Return, places};
ghost use Rattle.m2_record.specs.Calls.{Owns, all_granted, all_held, granted_in};
ghost use Rattle.m2_record.specs.IsRecord.{FeedHasRoom};
ghost use Rattle.m2_record.specs.RecordNow.{feed_end};

use crate::record::Record;
use m2_bytes::Items;
use m2_dispatch::{Letter, Parcel};
use m2_fabric::End;
use m2_feed::Feed;
use m2_shared::{TakePasses, Throttles};
use std::collections::VecDeque;

impl<E: End> Record<E> {
    /// Gives back all that was granted, and gives the ends that were the feed, and then the feed's as it
    /// is. Takes no memory.
    pub fn ends(self, throttles: &Throttles, passes: &mut TakePasses) -> Items<E>
        requires passes { ArePassesOf throttles.now passes.old }
        requires owned { Owns (places throttles.now) self }
        ensures ends { map E.seen result.items ≡ self.spent ++ feed_end self.core.live.feed }
        ensures passes { ArePassesOf throttles.now passes.new }
        ensures word { Return (all_held self) throttles.now passes.old passes.new }
    {
        let Record {
            place: _,
            plan: _,
            steps: _,
            journal: _,
            trails: _,
            core,
            mut spent,
            parcels,
            handed: _,
            waits: _,
            held: _,
            missed: _,
            last: _,
        } = self;
        let feed = core.end(throttles, passes);
        give_all(parcels, throttles, passes);
        put_left(feed, &mut spent);
        Items::from_vec(spent)
    }
}

/// The feed's end, where there is a feed, goes to those that were the feed, as it is.
fn put_left<E: End>(feed: Option<Feed<E>>, spent: &mut Vec<E>)
    requires { FeedHasRoom (vec_capacity spent.old - vec_len spent.old) feed }
    ensures { map E.seen spent.new.items ≡ map E.seen spent.old.items ++ feed_end feed }
{
    if let Some(feed) = feed {
        spent.push_reserved(feed.into_end());
    }
}

/// Gives back what was granted for the letters of all these parcels.
fn give_all(parcels: VecDeque<Parcel>, throttles: &Throttles, passes: &mut TakePasses)
    requires passes { ArePassesOf throttles.now passes.old }
    requires owned { AllByRecursion (IsOwned (places throttles.now)) parcels.items }
    ensures passes { ArePassesOf throttles.now passes.new }
    ensures word { Return (all_granted parcels.items) throttles.now passes.old passes.new }
{
    let mut parcels = parcels;
    'giving: while let Some(parcel) = parcels.pop_front() {
        give_one(parcel, throttles, passes);
    }
    parcels.destroy_empty();
}

/// Gives back what was granted for a parcel's letter.
fn give_one(parcel: Parcel, throttles: &Throttles, passes: &mut TakePasses)
    requires passes { ArePassesOf throttles.now passes.old }
    requires owned { IsOwned (places throttles.now) parcel }
    ensures passes { ArePassesOf throttles.now passes.new }
    ensures word { Return (granted_in parcel) throttles.now passes.old passes.new }
{
    match parcel {
        Parcel::Letter(letter) => {
            let Letter {
                peer: _,
                key: _,
                number: _,
                life: _,
                message: _,
                grants,
            } = letter;
            grants.back(throttles, passes);
        }
        Parcel::Discard { peer: _ } => {}
        Parcel::RemoteReset { peer: _ } => {}
    }
}
