//! The sockets that journals speak of, each found at once.

ghost use Rattle.std.specs.Prelude.{◌≡◌, ◌+◌, ◌||◌, ◌++◌, length, replicate, slice_index, IfOk, OnOk};
ghost use Rattle.m2_history.specs.Sockets.{JournalsNow, known_in, known_of, opened_in, opened_of};
ghost use Rattle.m2_history.specs.Woven.{judged_times, knows};
ghost use Rattle.m2_weave.specs.declared.strand.StrandItem.TheVariants.{Noted};
ghost use Rattle.m2_weave.specs.Counting.{place_in};
ghost use Rattle.m2_weave.specs.Strands.{journal_of, judged_by, total};
ghost use Rattle.m2_weave.specs.Table.{KeepsNumbers};

use m2_bytes::NoMemory;
use m2_fabric::SocketId;
use m2_journal::{Entry, EntryList};
use m2_weave::SocketNames;
use std::alloc::Global;
use std::marker::Model;

/// Appends the socket of an entry that opens one.
fn add_opened(names: &mut Vec<SocketId>, e: &Entry) -> Result<(), NoMemory>
    ensures { OnOk result (names.new.items ≡ names.old.items ++ opened_of e.now) }
{
    if let Entry::Opened { socket } = e {
        names.push(*socket)?;
    }
    Ok(())
}

/// The sockets that a journal has opened.
pub(crate) fn opened_in(alloc: Global, journal: &EntryList) -> Result<SocketNames, NoMemory>
    ensures { IfOk result (λ names. names ≡ opened_in journal.now.items) }
{
    let mut names = Vec::new(alloc);
    for e in journal.iter() {
        add_opened(&mut names, &e)?;
    }
    SocketNames::of(alloc, names)
}

/// Appends the socket of an entry that opens one, or judges an ask on it.
fn add_known(names: &mut Vec<SocketId>, e: &Entry) -> Result<(), NoMemory>
    ensures { OnOk result (names.new.items ≡ names.old.items ++ known_of e.now) }
{
    let socket = match e {
        Entry::Opened { socket } => socket,
        Entry::Judged {
            socket,
            ask: _,
            number: _,
            answer: _,
        } => socket,
        Entry::Post { place: _ }
        | Entry::Dial
        | Entry::Read {
            socket: _,
            count: _,
        }
        | Entry::Wrote {
            socket: _,
            count: _,
        }
        | Entry::Closed { socket: _ }
        | Entry::Asked {
            ident: _,
            number: _,
        }
        | Entry::Numbered { number: _ }
        | Entry::Accepted { number: _, key: _ }
        | Entry::Acked { number: _ }
        | Entry::Obeyed { full: _ }
        | Entry::Down { planned: _ } => return Ok(()),
    };
    names.push(*socket)?;
    Ok(())
}

/// Appends those of a journal.
fn add_all_known(names: &mut Vec<SocketId>, journal: &EntryList) -> Result<(), NoMemory>
    ensures { OnOk result (names.new.items ≡ names.old.items ++ known_in journal.now.items) }
{
    for e in journal.iter() {
        add_known(names, &e)?;
    }
    Ok(())
}

/// Counts an entry that judges an ask, at its socket.
fn count_judged(names: &SocketNames, judged: &mut Vec<u64>, e: &Entry) -> Result<(), NoMemory>
    requires count { length judged.old.items ≡ length names.now }
    ensures count { length judged.new.items ≡ length names.now }
    ensures counted { OnOk result (KeepsNumbers names.now
        (λ k. slice_index judged.old.items (place_in names.now k) + judged_by k (Noted e.now)) judged.new.items) }
{
    if let Entry::Judged {
        socket,
        ask: _,
        number: _,
        answer: _,
    } = e
    {
        return names.raise(judged, socket, 1);
    }
    Ok(())
}

/// Counts all entries of a journal that judge asks.
fn count_all_judged(
    names: &SocketNames,
    judged: &mut Vec<u64>,
    journal: &EntryList,
) -> Result<(), NoMemory>
    requires count { length judged.old.items ≡ length names.now }
    ensures count { length judged.new.items ≡ length names.now }
    ensures counted { OnOk result (KeepsNumbers names.now
        (λ k. slice_index judged.old.items (place_in names.now k) + total (judged_by k) (journal_of journal.now.items).items) judged.new.items) }
{
    for e in journal.iter() {
        count_judged(names, judged, &e)?;
    }
    Ok(())
}

/// So many zeros.
fn zeros(alloc: Global, n: usize) -> Result<Vec<u64>, NoMemory>
    ensures { IfOk result (λ v. v.items ≡ replicate n 0) }
{
    Ok(Vec::from_elem(alloc, 0, n)?)
}

/// The sockets that two journals have opened or judged asks on, and how many asks on each. Contracts see the
/// journals.
#[derive(Drop)]
pub(crate) struct KnownSockets<'a> {
    a: &'a EntryList,
    b: &'a EntryList,
    names: SocketNames,
    judged: Vec<u64>,
}

impl<'a> Model for KnownSockets<'a> {
    ghost use Rattle.m2_history.specs.Sockets.{AreKnown, JournalsNow};

    ghost Value = { JournalsNow };

    ghost view = { λ s. record { a = s.a.now.items; b = s.b.now.items } };

    ghost invariant = { λ s. AreKnown s.names s.judged.items (record { a = s.a.now.items; b = s.b.now.items }) };
}

impl<'a> KnownSockets<'a> {
    /// Those of these two journals.
    pub(crate) fn of(
        alloc: Global,
        a: &'a EntryList,
        b: &'a EntryList,
    ) -> Result<KnownSockets<'a>, NoMemory>
        ensures { IfOk result (λ s. s ≡ record { a = a.now.items; b = b.now.items }) }
    {
        let mut all = Vec::new(alloc);
        add_all_known(&mut all, a)?;
        add_all_known(&mut all, b)?;
        let names = SocketNames::of(alloc, all)?;
        let mut judged = zeros(alloc, names.len())?;
        count_all_judged(&names, &mut judged, a)?;
        count_all_judged(&names, &mut judged, b)?;
        Ok(KnownSockets {
            a,
            b,
            names,
            judged,
        })
    }

    /// Whether a socket is one of them.
    pub(crate) fn has(&self, k: &SocketId) -> bool
        ensures { result ≡ (knows self.now.a k.now || knows self.now.b k.now) }
    {
        self.names.has(k)
    }

    /// How many asks on a socket were judged.
    pub(crate) fn judged(&self, k: &SocketId) -> u64
        ensures { result ≡ judged_times self.now.a self.now.b k.now }
    {
        let place = self.names.place(k);
        if place < self.judged.len() {
            self.judged[place]
        } else {
            0
        }
    }
}
