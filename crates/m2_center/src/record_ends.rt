//! The ends of a center's records: what they are told of the other side, and what they did.

ghost use Rattle.std.specs.Prelude.{◌≡◌, map, OnOk, OnErr};
ghost use Rattle.std.specs.List.{list_any, flat_map};
ghost use Rattle.std.specs.Option.{option_map};
ghost use Rattle.m2_fabric.specs.End.{SeenEnd};
ghost use Rattle.m2_fabric.specs.Log.{log_of};
ghost use Rattle.m2_record.specs.Sources.{end_at};
ghost use Rattle.m2_fabric.specs.Sockets.{same_socket};
ghost use Rattle.m2_record.specs.RecordNow.{ends_of, feed_end};
ghost use Rattle.m2_center.specs.RecordEnds.{has_end, records_hear};

use m2_bytes::NoMemory;
use m2_fabric::{End, EndLog, News, SocketId};
use m2_record::Record;

/// Whether one of these records has an end of the socket.
pub(crate) fn any_has_end<E: End>(records: &[Record<E>], id: &SocketId) -> bool
    ensures { result ≡ list_any (has_end id.now) records.now }
{
    for side in records {
        if has_end(side, id) {
            return true;
        }
    }
    false
}

/// Tells the end of that socket of the first record that has one.
pub(crate) fn records_hear<E: End>(
    records: &mut [Record<E>],
    id: &SocketId,
    bytes: &[u8],
    news: News,
) -> Result<(), NoMemory>
    ensures ok { OnOk result (records.new ≡ records_hear id.now news bytes.now records.old) }
    ensures err { OnErr result (records.new ≡ records.old) }
{
    match records.split_first_mut() {
        None => Ok(()),
        Some((first, rest)) => {
            if has_end(first, id) {
                first.hear(id, bytes, news)
            } else {
                records_hear(rest, id, bytes, news)
            }
        }
    }
}

/// What the end of that socket did of the first record that has one; none where none has.
pub(crate) fn record_log<'a, E: End>(records: &'a [Record<E>], id: &SocketId) -> Option<&'a EndLog>
    ensures { option_map (λ log. log_of log.now) result ≡ option_map (λ (e : SeenEnd). e.log) (end_at (flat_map ends_of records.now) id.now) }
{
    match records.split_first() {
        None => None,
        Some((first, rest)) => match log_of_record(first, id) {
            Some(log) => Some(log),
            None => record_log(rest, id),
        },
    }
}

/// Whether the record has an end of the socket.
fn has_end<E: End>(side: &Record<E>, id: &SocketId) -> bool
    ensures { result ≡ has_end id.now side.now }
{
    is_feed(side, id) || any_is(side.spent(), id)
}

/// Whether the feed's end is of the socket.
fn is_feed<E: End>(side: &Record<E>, id: &SocketId) -> bool
    ensures { result ≡ list_any (λ (e : SeenEnd). same_socket id.now e.id) (feed_end side.now.core.live.feed) }
{
    match side.feed() {
        Some(end) => id.is_same(&end.id()),
        None => false,
    }
}

/// Whether one of these ends is of the socket.
fn any_is<E: End>(ends: &[E], id: &SocketId) -> bool
    ensures { result ≡ list_any (λ (e : SeenEnd). same_socket id.now e.id) (map E.seen ends.now) }
{
    for end in ends {
        if id.is_same(&end.id()) {
            return true;
        }
    }
    false
}

/// What the record's end of that socket did; none where it has none.
fn log_of_record<'a, E: End>(side: &'a Record<E>, id: &SocketId) -> Option<&'a EndLog>
    ensures { option_map (λ log. log_of log.now) result ≡ option_map (λ (e : SeenEnd). e.log) (end_at (ends_of side.now) id.now) }
{
    if let Some(end) = side.feed() {
        if id.is_same(&end.id()) {
            return Some(end.log());
        }
    }
    first_log(side.spent(), id)
}

/// What the first end of that socket did; none where there is none.
fn first_log<'a, E: End>(ends: &'a [E], id: &SocketId) -> Option<&'a EndLog>
    ensures { option_map (λ log. log_of log.now) result ≡ option_map (λ (e : SeenEnd). e.log) (end_at (map E.seen ends.now) id.now) }
{
    match ends.split_first() {
        None => None,
        Some((first, rest)) => {
            if id.is_same(&first.id()) {
                Some(first.log())
            } else {
                first_log(rest, id)
            }
        }
    }
}
