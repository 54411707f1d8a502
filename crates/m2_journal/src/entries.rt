//! A journal in little memory.

ghost use Rattle.std.specs.Prelude.{◌≡◌, ◌+◌, ◌-◌, ◌^◌, ◌<◌, ◌≤◌, List, [], ◌∷◌, ◌++◌, drop, length, slice_get, take, IsOk, OnOk, OnErr, Some, vec_len, vec_capacity};
ghost use Rattle.std.specs.Iterator.{YieldsFirst, item_count};
ghost use Rattle.m2_journal.specs.EntriesFields.{asks_in, entry_of};

use crate::entry::Entry;
use m2_bytes::NoMemory;
use m2_fabric::SocketId;
use m2_policy::Key;
use m2_session::{Answer, AskFacts};
use std::alloc::Global;
use std::marker::Model;

/// What an entry says of an ask that was judged.
#[derive(Clone, Copy, Debug)]
pub(crate) struct JudgedAsk {
    socket: SocketId,
    ask: AskFacts,
    number: u64,
    answer: Answer,
}

/// An [`Entry`] without the ask that it judges, if it judges one: that is most of an entry, and few have one.
#[derive(Clone, Copy, Debug)]
pub(crate) enum ShortEntry {
    Post { place: u32 },
    Dial,
    Opened { socket: SocketId },
    Read { socket: SocketId, count: u32 },
    Wrote { socket: SocketId, count: u32 },
    Closed { socket: SocketId },
    /// The ask at this place among those that were judged.
    Judged { place: usize },
    Asked { ident: bool, number: u64 },
    Numbered { number: u64 },
    Accepted { number: u64, key: Key },
    Acked { number: u64 },
    Obeyed { full: bool },
    Down { planned: bool },
}

impl ShortEntry {
    /// An entry, whose ask, if it judges one, is to stand at this place.
    fn of(entry: Entry, place: usize) -> ShortEntry
        ensures { (asks : List JudgedAsk) → length asks ≡ place → entry_of (asks ++ asks_in entry) result ≡ Some entry }
    {
        match entry {
            Entry::Post { place } => ShortEntry::Post { place },
            Entry::Dial => ShortEntry::Dial,
            Entry::Opened { socket } => ShortEntry::Opened { socket },
            Entry::Read { socket, count } => ShortEntry::Read { socket, count },
            Entry::Wrote { socket, count } => ShortEntry::Wrote { socket, count },
            Entry::Closed { socket } => ShortEntry::Closed { socket },
            Entry::Judged {
                socket: _,
                ask: _,
                number: _,
                answer: _,
            } => ShortEntry::Judged { place },
            Entry::Asked { ident, number } => ShortEntry::Asked { ident, number },
            Entry::Numbered { number } => ShortEntry::Numbered { number },
            Entry::Accepted { number, key } => ShortEntry::Accepted { number, key },
            Entry::Acked { number } => ShortEntry::Acked { number },
            Entry::Obeyed { full } => ShortEntry::Obeyed { full },
            Entry::Down { planned } => ShortEntry::Down { planned },
        }
    }

    /// The entry that it stands for, of a list with these asks; None where it judges one that isn't there.
    fn entry(&self, asks: &[JudgedAsk]) -> Option<Entry>
        ensures { result ≡ entry_of asks.now self.now }
    {
        Some(match *self {
            ShortEntry::Post { place } => Entry::Post { place },
            ShortEntry::Dial => Entry::Dial,
            ShortEntry::Opened { socket } => Entry::Opened { socket },
            ShortEntry::Read { socket, count } => Entry::Read { socket, count },
            ShortEntry::Wrote { socket, count } => Entry::Wrote { socket, count },
            ShortEntry::Closed { socket } => Entry::Closed { socket },
            ShortEntry::Judged { place } => {
                let Some(judged) = asks.get(place) else {
                    return None;
                };
                Entry::Judged {
                    socket: judged.socket,
                    ask: judged.ask,
                    number: judged.number,
                    answer: judged.answer,
                }
            }
            ShortEntry::Asked { ident, number } => Entry::Asked { ident, number },
            ShortEntry::Numbered { number } => Entry::Numbered { number },
            ShortEntry::Accepted { number, key } => Entry::Accepted { number, key },
            ShortEntry::Acked { number } => Entry::Acked { number },
            ShortEntry::Obeyed { full } => Entry::Obeyed { full },
            ShortEntry::Down { planned } => Entry::Down { planned },
        })
    }
}

/// A journal, in little memory: the asks that were judged, of which there are few, stand in a list of their own. Contracts
/// see the entries in order, and the room: how many more fit before memory is taken.
///
/// Maker: [`empty`](EntryList::empty). Writers: [`reserve`](EntryList::reserve),
/// [`push_reserved`](EntryList::push_reserved). Readers: [`len`](EntryList::len), [`get`](EntryList::get) and
/// [`iter`](EntryList::iter), which give copies of the entries.
#[derive(Debug, Drop)]
pub struct EntryList {
    entries: Vec<ShortEntry>,
    asks: Vec<JudgedAsk>,
    room: usize,
}

impl Model for EntryList {
    ghost use Rattle.m2_bytes.specs.Items.{Holding};
    ghost use Rattle.m2_journal.specs.declared.entry.Entry.{Entry};
    ghost use Rattle.m2_journal.specs.EntriesFields.{entries_now, AreEntries};

    ghost Value = { Holding Entry };

    ghost view = { entries_now };

    ghost invariant = { AreEntries };
}

impl EntryList {
    /// No entries. Takes no memory.
    pub fn empty(alloc: Global) -> EntryList
        ensures { result ≡ record { items = []; room = 0 } }
    {
        EntryList {
            entries: Vec::new(alloc),
            asks: Vec::new(alloc),
            room: 0,
        }
    }

    /// Makes room for `more` entries, whatever they are, so that pushing them can't fail. On Err nothing has changed.
    pub fn reserve(&mut self, more: usize) -> Result<(), NoMemory>
        ensures items { self.new.items ≡ self.old.items }
        ensures room { OnOk result (more ≤ self.new.room) }
        ensures grows { self.old.room ≤ self.new.room }
        ensures err { OnErr result (self.new ≡ self.old) }
        ensures succeeds { more ≤ self.old.room → IsOk result }
    {
        if more <= self.room {
            return Ok(());
        }
        self.entries.reserve(more)?;
        self.asks.reserve(more)?;
        self.room = more;
        Ok(())
    }

    /// Adds an entry at the end, in the room that is there. Takes no memory.
    pub fn push_reserved(&mut self, entry: Entry)
        requires { 0 < self.old.room }
        ensures { self.new ≡ record { items = self.old.items ++ entry ∷ []; room = self.old.room - 1 } }
    {
        let short = ShortEntry::of(entry, self.asks.as_slice().len());
        add_ask(&mut self.asks, entry);
        self.entries.push_reserved(short);
        self.room -= 1;
    }

    /// How many there are, which is less than 2^63.
    pub fn len(&self) -> usize
        ensures count { result ≡ length self.now.items }
        ensures few { result < 2 ^ 63 }
    {
        self.entries.as_slice().len()
    }

    /// The entry at a place, from 0; None exactly where there is none.
    pub fn get(&self, place: usize) -> Option<Entry>
        ensures { result ≡ slice_get self.now.items place }
    {
        let entries = self.entries.as_slice();
        if place >= entries.len() {
            return None;
        }
        entries[place].entry(self.asks.as_slice())
    }

    /// The entries, of which none has come yet. There are less than 2^63.
    pub fn iter(&self) -> Entries<'_>
        ensures items { result ≡ self.now.items }
        ensures few { length self.now.items < 2 ^ 63 }
    {
        Entries {
            left: self.entries.as_slice(),
            asks: self.asks.as_slice(),
        }
    }
}

/// The ask that an entry judges, if it judges one, goes last among these, in the room that is there.
fn add_ask(asks: &mut Vec<JudgedAsk>, entry: Entry)
    requires { vec_len asks.old < vec_capacity asks.old }
    ensures items { asks.new.items ≡ asks.old.items ++ asks_in entry }
    ensures len { vec_len asks.new ≤ vec_len asks.old + 1 }
    ensures capacity { vec_capacity asks.new ≡ vec_capacity asks.old }
{
    if let Entry::Judged {
        socket,
        ask,
        number,
        answer,
    } = entry
    {
        asks.push_reserved(JudgedAsk {
            socket,
            ask,
            number,
            answer,
        });
    }
}

/// Entries of a list that are still to come, or a part of them. Contracts see them in order.
///
/// Parts: [`front`](Entries::front), [`behind`](Entries::behind).
#[derive(Drop)]
pub struct Entries<'a> {
    left: &'a [ShortEntry],
    asks: &'a [JudgedAsk],
}

impl<'a> Model for Entries<'a> {
    ghost use Rattle.std.specs.Prelude.{List};
    ghost use Rattle.m2_journal.specs.declared.entry.Entry.{Entry};
    ghost use Rattle.m2_journal.specs.EntriesFields.{entries_left, AreLeft};

    ghost Value = { List Entry };

    ghost view = { entries_left };

    ghost invariant = { AreLeft };
}

impl<'a> Entries<'a> {
    /// The first so many of them.
    pub fn front(self, count: usize) -> Entries<'a>
        ensures { result ≡ take count self.entry }
    {
        let (left, _) = self.left.split_at(count.min(self.left.len()));
        Entries {
            left,
            asks: self.asks,
        }
    }

    /// Those behind the first so many.
    pub fn behind(self, count: usize) -> Entries<'a>
        ensures { result ≡ drop count self.entry }
    {
        let (_, left) = self.left.split_at(count.min(self.left.len()));
        Entries {
            left,
            asks: self.asks,
        }
    }
}

impl<'a> Iterator for Entries<'a> {
    type Item = Entry;

    ghost next_gives = { YieldsFirst (λ entries. entries) };

    ghost remaining = { item_count (λ entries. entries) };

    /// The next entry; None exactly where none is left.
    fn next(&mut self) -> Option<Entry> {
        let Some((short, left)) = self.left.split_first() else {
            return None;
        };
        self.left = left;
        short.entry(self.asks)
    }
}
