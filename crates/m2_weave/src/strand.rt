//! Strands: journals, and what halves did before a side took their sockets.

ghost use Rattle.std.specs.Prelude.{◌≡◌, ◌<◌, ◌∷◌, length};
ghost use Rattle.m2_weave.specs.Strands.{strand_now};

use m2_fabric::SocketId;
use m2_journal::{Entry, EntryList};
use std::marker::Model;

/// An item of a strand.
#[derive(Clone, Copy, Debug)]
pub enum StrandItem {
    /// An entry of a journal or of a half.
    Noted(Entry),
    /// A half handed on an ask on this socket, to be judged.
    Handed(SocketId),
}

/// Items that came one after the other: a journal, or what a half did on a socket of the peer. It lends the
/// entries, and copies none.
#[derive(Clone, Copy, Debug)]
pub enum Strand<'a> {
    /// A journal.
    Journal {
        entries: &'a EntryList,
    },
    /// What a half did on this socket: its entries, and after how many of them each of its asks was handed
    /// on to be judged.
    Half {
        socket: SocketId,
        entries: &'a EntryList,
        judged_after: &'a [usize],
    },
}

impl<'a> Strand<'a> {
    /// Whether it is a half's.
    pub(crate) fn is_half(&self) -> bool
        ensures { result ≡ (strand_now self.now).of_half }
    {
        match self {
            Strand::Journal { entries: _ } => false,
            Strand::Half {
                socket: _,
                entries: _,
                judged_after: _,
            } => true,
        }
    }

    /// How many items it has.
    #[tactic(auto, using(crate::proofs::Items::half_count))]
    pub(crate) fn len(&self) -> usize
        ensures { result ≡ length (strand_now self.now).items }
    {
        match self {
            Strand::Journal { entries } => entries.len(),
            Strand::Half {
                socket: _,
                entries,
                judged_after,
            } => entries.len() + judged_after.len(),
        }
    }

    /// Its items, of which none has come yet.
    pub(crate) fn items(&self) -> ItemsLeft<'a>
        ensures { result ≡ (strand_now self.now).items }
    {
        match *self {
            Strand::Journal { entries } => ItemsLeft {
                socket: NO_SOCKET,
                place: 0,
                entries,
                judged_after: &[],
            },
            Strand::Half {
                socket,
                entries,
                judged_after,
            } => ItemsLeft {
                socket,
                place: 0,
                entries,
                judged_after,
            },
        }
    }
}

/// What stands in place of a half's socket where no ask is handed on.
const NO_SOCKET: SocketId = SocketId {
    from_ip: 0,
    from_port: 0,
    to_ip: 0,
    to_port: 0,
    turn: 0,
};

/// The items of a strand that are still to come. Contracts see the list.
#[derive(Drop)]
pub(crate) struct ItemsLeft<'a> {
    /// Where the asks are handed on.
    socket: SocketId,
    /// How many entries have come.
    place: usize,
    /// All entries.
    entries: &'a EntryList,
    /// After how many entries each ask is handed on that is still to be.
    judged_after: &'a [usize],
}

impl<'a> Model for ItemsLeft<'a> {
    ghost use Rattle.std.specs.Prelude.{List, drop};
    ghost use Rattle.m2_weave.specs.declared.strand.StrandItem.{StrandItem};
    ghost use Rattle.m2_weave.specs.Strands.{half_items};

    ghost Value = { List StrandItem };

    ghost view = { λ l. half_items l.socket l.place (drop l.place l.entries.now.items) l.judged_after.now };
}

impl<'a> ItemsLeft<'a> {
    /// The next item.
    pub(crate) fn next(&mut self) -> StrandItem
        requires some { 0 < length self.old }
        ensures { self.old ≡ result ∷ self.new }
    {
        let count = self.entries.len();
        if let Some((n, asks)) = self.judged_after.split_first() {
            if *n <= self.place || self.place >= count {
                self.judged_after = asks;
                return StrandItem::Handed(self.socket);
            }
        }
        match self.entries.get(self.place) {
            Some(entry) => {
                self.place += 1;
                StrandItem::Noted(entry)
            }
            None => unreachable!(),
        }
    }
}
