//! What a record's ends are told of the other side.

ghost use Rattle.std.specs.Prelude.{◌≡◌, ◌-◌, map, OnErr, OnOk, vec_capacity, vec_len};
ghost use Rattle.m2_fabric.specs.End as end;
ghost use Rattle.m2_fabric.specs.Port.{one_hears};
ghost use Rattle.m2_record.specs.Calls.{after_news, is_feed};

use crate::record::Record;
use m2_bytes::NoMemory;
use m2_fabric::{End, News, SocketId};

impl<E: End> Record<E> {
    /// Tells the end of that socket, where the record has it and it is in memory, of the other side. What
    /// the end knows of the other side changes, and nothing else. Err for want of memory changes nothing.
    pub fn hear(&mut self, id: &SocketId, bytes: &[u8], news: News) -> Result<(), NoMemory>
        ensures ok { OnOk result (self.new ≡ after_news id.now news bytes.now self.old) }
        ensures err { OnErr result (self.new ≡ self.old) }
    {
        if self.is_feed(id) {
            self.core.hear(bytes, news)
        } else {
            first_hears(&mut self.spent, id, bytes, news)
        }
    }

    /// Whether the socket is the feed.
    fn is_feed(&self, id: &SocketId) -> bool
        ensures { result ≡ is_feed id.now self.now }
    {
        match self.core.feed() {
            Some(feed) => id.is_same(&feed.id()),
            None => false,
        }
    }
}

/// Tells the first end of that socket, if there is one.
fn one_hears<E: End>(
    ends: &mut [E],
    id: &SocketId,
    bytes: &[u8],
    news: News,
) -> Result<(), NoMemory>
    ensures ok { OnOk result (map E.seen ends.new ≡ one_hears id.now (end.after_news news bytes.now) (map E.seen ends.old)) }
    ensures err { OnErr result (map E.seen ends.new ≡ map E.seen ends.old) }
{
    match ends.split_first_mut() {
        None => Ok(()),
        Some((first, rest)) => {
            if id.is_same(&first.id()) {
                first.hear(bytes, news)
            } else {
                one_hears(rest, id, bytes, news)
            }
        }
    }
}

/// The same in a vector.
fn first_hears<E: End>(
    ends: &mut Vec<E>,
    id: &SocketId,
    bytes: &[u8],
    news: News,
) -> Result<(), NoMemory>
    ensures ok { OnOk result (map E.seen ends.new.items ≡ one_hears id.now (end.after_news news bytes.now) (map E.seen ends.old.items)) }
    ensures err { OnErr result (map E.seen ends.new.items ≡ map E.seen ends.old.items) }
    ensures room { vec_capacity ends.new - vec_len ends.new ≡ vec_capacity ends.old - vec_len ends.old }
{
    one_hears(ends.as_mut_slice(), id, bytes, news)
}
