//! A strand's items made into counted entries.

ghost use Rattle.std.specs.Prelude.{◌≡◌, ◌<◌, ◌^◌, true, length, map, IfOk};
ghost use Rattle.std.specs.List.{list_any};
ghost use Rattle.m2_fabric.specs.Sockets.{is_among, same_socket};
ghost use Rattle.m2_journal.specs.declared.entry.Entry.TheVariants as entries;
ghost use Rattle.m2_weave.specs.declared.strand.StrandItem.TheVariants as items;
ghost use Rattle.m2_weave.specs.Counting.{IsNamed};
ghost use Rattle.m2_weave.specs.Rule.{strand_at};
ghost use Rattle.m2_weave.specs.Strands.{strand_now};
ghost use Rattle.m2_weave.specs.Table.{names_of, woven_of};
ghost use Rattle.m2_weave.specs.Tally.{AreFor, CountsAre, IsClear, IsCounted, IsForgotten, IsHandedCounted, IsJudgedCounted, IsReadCounted, from_of, is_on, item_by};

use crate::stopping::plus;
use crate::strand::{Strand, StrandItem};
use crate::table::{SocketTable, named_place, place_in, raise};
use crate::tally::{read_by_halves, read_need, set_opened, unset, writes, zeros};
use crate::{CountedEntry, Need};
use m2_bytes::NoMemory;
use m2_fabric::SocketId;
use m2_journal::Entry;
use std::alloc::Global;

/// What is counted of one strand after the other, of each socket of a table.
#[derive(Debug, Drop)]
pub(crate) struct Counts {
    /// Whether the strand is a half's.
    pub(crate) of_half: bool,
    /// How many bytes halves have read there in all.
    pub(crate) halves: Vec<u64>,
    /// Whether the strand's side opened it.
    pub(crate) opened: Vec<bool>,
    /// How many bytes the strand has read there so far.
    pub(crate) reads: Vec<u64>,
    /// How many asks of it the strand has handed on so far, and how many it has judged.
    pub(crate) handed: Vec<u64>,
    pub(crate) judged: Vec<u64>,
}

impl Counts {
    /// Of no strand yet.
    pub(crate) fn none(
        alloc: Global,
        strands: &[Strand<'_>],
        sockets: &SocketTable<'_>,
    ) -> Result<Counts, NoMemory>
        ensures { IfOk result (IsClear sockets.now (map strand_now strands.now)) }
    {
        let halves = read_by_halves(alloc, sockets, strands)?;
        let opened = unset(alloc, sockets.len())?;
        let reads = zeros(alloc, sockets.len())?;
        let handed = zeros(alloc, sockets.len())?;
        let judged = zeros(alloc, sockets.len())?;
        Ok(Counts {
            of_half: false,
            halves,
            opened,
            reads,
            handed,
            judged,
        })
    }

    /// Before the first item of a strand.
    pub(crate) fn open(&mut self, strands: &[Strand<'_>], sockets: &SocketTable<'_>, k: usize)
        requires strand { k < length strands.now }
        requires clear { IsClear sockets.now (map strand_now strands.now) self.old }
        ensures { CountsAre sockets.now (woven_of strands.now sockets.now) (strand_at (woven_of strands.now sockets.now) k) 0 self.new }
    {
        self.of_half = strands[k].is_half();
        set_opened(&mut self.opened, sockets, &strands[k]);
    }

    /// Behind the last item of a strand: what was counted of it is forgotten.
    pub(crate) fn clear(&mut self, strands: &[Strand<'_>], sockets: &SocketTable<'_>, k: usize)
        requires strand { k < length strands.now }
        requires counts { CountsAre sockets.now (woven_of strands.now sockets.now) (strand_at (woven_of strands.now sockets.now) k)
            (length (strand_at (woven_of strands.now sockets.now) k).items) self.old }
        ensures { IsClear sockets.now (map strand_now strands.now) self.new }
    {
        let mut left = strands[k].items();
        for n in 0..strands[k].len() {
            self.forget(sockets, left.next());
        }
    }

    /// Forgets what was counted of the socket that an item names.
    fn forget(&mut self, sockets: &SocketTable<'_>, item: StrandItem)
        requires sizes { AreFor sockets.now self.old }
        ensures { IsForgotten sockets.now (λ k. is_on k item) self.old self.new }
    {
        match item {
            StrandItem::Noted(Entry::Read { socket, count: _ }) => {
                self.forget_socket(sockets, &socket)
            }
            StrandItem::Noted(
                Entry::Judged {
                    socket,
                    ask: _,
                    number: _,
                    answer: _,
                },
            ) => self.forget_socket(sockets, &socket),
            StrandItem::Noted(Entry::Opened { socket }) => self.forget_socket(sockets, &socket),
            StrandItem::Handed(socket) => self.forget_socket(sockets, &socket),
            StrandItem::Noted(
                Entry::Post { place: _ }
                | Entry::Dial
                | Entry::Wrote {
                    socket: _,
                    count: _,
                }
                | Entry::Closed { socket: _ }
                | Entry::Asked {
                    ident: _,
                    number: _,
                }
                | Entry::Numbered { number: _ }
                | Entry::Accepted { number: _, key: _ }
                | Entry::Acked { number: _ }
                | Entry::Obeyed { full: _ }
                | Entry::Down { planned: _ },
            ) => {}
        }
    }

    /// Forgets what was counted of a socket.
    fn forget_socket(&mut self, sockets: &SocketTable<'_>, socket: &SocketId)
        requires sizes { AreFor sockets.now self.old }
        ensures { IsForgotten sockets.now (λ k. same_socket k socket.now) self.old self.new }
    {
        let place = place_in(sockets, socket);
        if place < sockets.len() {
            self.opened[place] = false;
            self.reads[place] = 0;
            self.handed[place] = 0;
            self.judged[place] = 0;
        }
    }

    /// The place of the next byte that the strand reads on a socket, by the socket's place in the table.
    fn from(&self, place: usize) -> Result<u64, NoMemory>
        requires halves { place < length self.now.halves.items }
        requires opened { place < length self.now.opened.items }
        requires reads { place < length self.now.reads.items }
        ensures { IfOk result (λ n. n ≡ from_of self.now place) }
    {
        let begun = if self.of_half || self.opened[place] {
            0
        } else {
            self.halves[place]
        };
        plus(begun, self.reads[place])
    }

    /// Counts an item, and gives it as an entry of a merge.
    pub(crate) fn count(
        &mut self,
        sockets: &SocketTable<'_>,
        item: StrandItem,
    ) -> Result<CountedEntry, NoMemory>
        requires sizes { AreFor sockets.now self.old }
        requires named { IsNamed (names_of sockets.now) item }
        requires few { length sockets.now < 2 ^ 60 }
        ensures { IfOk result (IsCounted sockets.now item self.old self.new) }
    {
        match item {
            StrandItem::Noted(Entry::Read { socket, count }) => {
                self.count_read(sockets, &socket, count)
            }
            StrandItem::Noted(Entry::Wrote { socket, count }) => {
                Ok(self.count_write(sockets, &socket, count))
            }
            StrandItem::Noted(
                Entry::Judged {
                    socket,
                    ask: _,
                    number: _,
                    answer: _,
                },
            ) => self.count_judged(sockets, &socket),
            StrandItem::Handed(socket) => self.count_handed(sockets, &socket),
            StrandItem::Noted(
                Entry::Post { place: _ }
                | Entry::Dial
                | Entry::Opened { socket: _ }
                | Entry::Closed { socket: _ }
                | Entry::Asked {
                    ident: _,
                    number: _,
                }
                | Entry::Numbered { number: _ }
                | Entry::Accepted { number: _, key: _ }
                | Entry::Acked { number: _ }
                | Entry::Obeyed { full: _ }
                | Entry::Down { planned: _ },
            ) => Ok(CountedEntry {
                need: Need::Nothing,
                counter: 0,
                amount: 0,
            }),
        }
    }

    fn count_read(
        &mut self,
        sockets: &SocketTable<'_>,
        socket: &SocketId,
        count: u32,
    ) -> Result<CountedEntry, NoMemory>
        requires sizes { AreFor sockets.now self.old }
        requires named { is_among socket.now (names_of sockets.now) ≡ true }
        requires few { length sockets.now < 2 ^ 60 }
        ensures { IfOk result (λ e. IsReadCounted sockets.now socket.now count self.old self.new e) }
    {
        let place = named_place(sockets, socket);
        let from = self.from(place)?;
        let need = read_need(sockets, socket, self.opened[place], from, count);
        raise(&mut self.reads, sockets, socket, u64::from(count))?;
        Ok(CountedEntry {
            need,
            counter: 0,
            amount: 0,
        })
    }

    fn count_write(&self, sockets: &SocketTable<'_>, socket: &SocketId, count: u32) -> CountedEntry
        requires sizes { AreFor sockets.now self.now }
        requires named { is_among socket.now (names_of sockets.now) ≡ true }
        requires few { length sockets.now < 2 ^ 60 }
        ensures { result ≡ item_by sockets.now self.now (items.Noted (entries.Wrote socket.now count)) }
    {
        let place = named_place(sockets, socket);
        CountedEntry {
            need: Need::AtLeast {
                counter: 4 * place + 3,
                least: self.handed[place],
            },
            counter: writes(place, self.opened[place]),
            amount: u64::from(count),
        }
    }

    fn count_judged(
        &mut self,
        sockets: &SocketTable<'_>,
        socket: &SocketId,
    ) -> Result<CountedEntry, NoMemory>
        requires sizes { AreFor sockets.now self.old }
        requires named { is_among socket.now (names_of sockets.now) ≡ true }
        requires few { length sockets.now < 2 ^ 60 }
        ensures { IfOk result (λ e. IsJudgedCounted sockets.now socket.now self.old self.new e) }
    {
        let place = named_place(sockets, socket);
        let judged = self.judged[place];
        if judged == u64::MAX {
            return Err(NoMemory);
        }
        raise(&mut self.judged, sockets, socket, 1)?;
        Ok(CountedEntry {
            need: Need::AtLeast {
                counter: 4 * place + 2,
                least: judged + 1,
            },
            counter: 4 * place + 3,
            amount: 1,
        })
    }

    fn count_handed(
        &mut self,
        sockets: &SocketTable<'_>,
        socket: &SocketId,
    ) -> Result<CountedEntry, NoMemory>
        requires sizes { AreFor sockets.now self.old }
        requires named { is_among socket.now (names_of sockets.now) ≡ true }
        requires few { length sockets.now < 2 ^ 60 }
        ensures { IfOk result (λ e. IsHandedCounted sockets.now socket.now self.old self.new e) }
    {
        let place = named_place(sockets, socket);
        raise(&mut self.handed, sockets, socket, 1)?;
        Ok(CountedEntry {
            need: Need::Nothing,
            counter: 4 * place + 2,
            amount: 1,
        })
    }
}
