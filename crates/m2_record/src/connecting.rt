//! How a record comes to a socket that it opens.

ghost use Rattle.std.specs.Prelude.{◌≡◌, ◌-◌, ◌<◌, ◌≤◌, IsOk, OnOk, vec_capacity, vec_len};
ghost use Rattle.m2_record.specs.Calls.{ComesBack, ConnectIsDue, Connects, FitsSocket, IsNewSocket, IsUntouched, after_missing};

use crate::record::Record;
use m2_bytes::NoMemory;
use m2_fabric::End;
use m2_journal::{Entry, EntryList};

impl<E: End> Record<E> {
    /// A socket that was opened to the peer is the feed. A connect was due, and the end has done nothing.
    /// Err is want of memory: the end comes back, and all but the room is as before. It doesn't come where
    /// room was made by [`reserve_socket`](Record::reserve_socket).
    pub fn connected(&mut self, end: E, now: u64) -> Result<(), E>
        requires due { ConnectIsDue now self.old }
        requires end { IsUntouched (E.seen end).log }
        requires socket { IsNewSocket self.old (E.seen end).id }
        ensures ok { OnOk result (Connects (E.seen end) self.old self.new) }
        ensures err { ComesBack result end self.old self.new }
        ensures succeeds { FitsSocket self.old.room → IsOk result }
    {
        match room_for_socket(&mut self.journal, &mut self.spent) {
            Ok(()) => {}
            Err(_) => return Err(end),
        }
        let socket = end.id();
        self.core.opened(end);
        self.journal.push_reserved(Entry::Opened { socket });
        Ok(())
    }
    /// A connect that was due failed: the next one is due after the wait.
    pub fn not_connected(&mut self, now: u64)
        requires { ConnectIsDue now self.old }
        ensures { self.new ≡ after_missing now self.old }
    {
        self.missed = self.missed.saturating_add(1);
        self.waits = self.waits.begun(self.core.node(), now);
    }
}

/// Makes room for the entry of a socket, and for its end among those that were the feed.
pub(crate) fn room_for_socket<E: End>(
    journal: &mut EntryList,
    spent: &mut Vec<E>,
) -> Result<(), NoMemory>
    ensures entries { journal.new.items ≡ journal.old.items }
    ensures ends { spent.new.items ≡ spent.old.items }
    ensures more { vec_capacity spent.old - vec_len spent.old ≤ vec_capacity spent.new - vec_len spent.new }
    ensures more_entries { journal.old.room ≤ journal.new.room }
    ensures ok { OnOk result ((0 < journal.new.room) × (0 < vec_capacity spent.new - vec_len spent.new)) }
    ensures succeeds { 0 < journal.old.room → 0 < vec_capacity spent.old - vec_len spent.old → IsOk result }
{
    journal.reserve(1)?;
    spent.reserve(1)?;
    Ok(())
}
