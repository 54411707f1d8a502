//! What a session's step leaves for a record.

ghost use Rattle.std.specs.Prelude.{◌≡◌, ◌-◌, ◌<◌, ◌≤◌, ◌+◌, ◌++◌, map, option_map, vec_capacity, vec_len};
ghost use Rattle.std.specs.Option.{option_to_list};
ghost use Rattle.std.specs.VecDeque.{deque_len, deque_capacity};
ghost use Rattle.m2_record.specs.Calls.{FitsClosed, KeepsEnds, closed_entries, told_parcels};

use m2_dispatch::Parcel;
use m2_fabric::End;
use m2_journal::{Entry, EntryList};
use std::collections::VecDeque;

/// The end of a feed that was left, where there is one, goes to those that were the feed, and its socket
/// gets its entry.
pub(crate) fn put_closed<E: End>(closed: Option<E>, journal: &mut EntryList, spent: &mut Vec<E>)
    requires entries { 0 < journal.old.room }
    requires ends { FitsClosed (option_map E.seen closed) (vec_capacity spent.old - vec_len spent.old) }
    ensures journal { journal.new.items ≡ journal.old.items ++ closed_entries (option_map E.seen closed) }
    ensures entries { KeepsEnds (option_map E.seen closed) journal.old.room journal.new.room }
    ensures spent { map E.seen spent.new.items ≡ map E.seen spent.old.items ++ option_to_list (option_map E.seen closed) }
    ensures ends { KeepsEnds (option_map E.seen closed) (vec_capacity spent.old - vec_len spent.old) (vec_capacity spent.new - vec_len spent.new) }
{
    if let Some(end) = closed {
        journal.push_reserved(Entry::Closed { socket: end.id() });
        spent.push_reserved(end);
    }
}

/// What is handed to the dispatcher goes behind what is ready.
pub(crate) fn put_told(
    discarded: bool,
    remote_reset: bool,
    place: u32,
    parcels: &mut VecDeque<Parcel>,
)
    requires { deque_len parcels.old + 2 ≤ deque_capacity parcels.old }
    ensures items { parcels.new.items ≡ parcels.old.items ++ told_parcels place discarded remote_reset }
    ensures capacity { deque_capacity parcels.new ≡ deque_capacity parcels.old }
    ensures len { deque_len parcels.new ≤ deque_len parcels.old + 2 }
{
    if discarded {
        parcels.push_back_reserved(Parcel::Discard { peer: place });
    }
    if remote_reset {
        parcels.push_back_reserved(Parcel::RemoteReset { peer: place });
    }
}
