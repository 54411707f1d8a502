//! Numbers that are counted of each socket of a table.

ghost use Rattle.std.specs.Prelude.{◌≡◌, ◌+◌, ◌*◌, ◌<◌, ◌^◌, ◌||◌, true, false, length, if◌then◌else◌, drop, map, take, replicate, slice_get, slice_index, slice_index_or, IfOk, OnOk, Decides};
ghost use Rattle.m2_fabric.specs.Sockets.{is_among, same_socket};
ghost use Rattle.m2_weave.specs.Counting.{bytes_need, place_in, side_number};
ghost use Rattle.m2_weave.specs.Strands.{has_opened, opens, read_by, read_by_halves, strand_now, total};
ghost use Rattle.m2_weave.specs.Table.{KeepsNumbers, KeepsOpened, got_at, names_of};
ghost use Rattle.m2_weave.specs.Tally.{bytes_alone};

use crate::Need;
use crate::strand::{Strand, StrandItem};
use crate::table::{SocketTable, got_at, named_place, piece, place_in, put_at, raise};
use m2_bytes::NoMemory;
use m2_fabric::SocketId;
use m2_journal::Entry;
use std::alloc::Global;

/// Adds what an item has read.
fn add_read(
    numbers: &mut Vec<u64>,
    sockets: &SocketTable<'_>,
    item: StrandItem,
) -> Result<(), NoMemory>
    requires count { length numbers.old.items ≡ length sockets.now }
    ensures count { length numbers.new.items ≡ length sockets.now }
    ensures added { OnOk result (KeepsNumbers (names_of sockets.now)
        (λ k. slice_index numbers.old.items (place_in (names_of sockets.now) k) + read_by k item) numbers.new.items) }
{
    if let StrandItem::Noted(Entry::Read { socket, count }) = item {
        return raise(numbers, sockets, &socket, u64::from(count));
    }
    Ok(())
}

/// Adds what a strand has read.
fn add_reads(
    numbers: &mut Vec<u64>,
    sockets: &SocketTable<'_>,
    s: &Strand<'_>,
) -> Result<(), NoMemory>
    requires count { length numbers.old.items ≡ length sockets.now }
    ensures count { length numbers.new.items ≡ length sockets.now }
    ensures added { OnOk result (KeepsNumbers (names_of sockets.now)
        (λ k. slice_index numbers.old.items (place_in (names_of sockets.now) k) + total (read_by k) (strand_now s.now).items) numbers.new.items) }
{
    let mut left = s.items();
    for n in 0..s.len() {
        add_read(numbers, sockets, left.next())?;
    }
    Ok(())
}

/// Adds what a strand has read, if it is a half's.
fn add_half(
    numbers: &mut Vec<u64>,
    sockets: &SocketTable<'_>,
    s: &Strand<'_>,
) -> Result<(), NoMemory>
    requires count { length numbers.old.items ≡ length sockets.now }
    ensures count { length numbers.new.items ≡ length sockets.now }
    ensures added { OnOk result (KeepsNumbers (names_of sockets.now)
        (λ k. slice_index numbers.old.items (place_in (names_of sockets.now) k)
        + (if (strand_now s.now).of_half then total (read_by k) (strand_now s.now).items else 0)) numbers.new.items) }
{
    if s.is_half() {
        return add_reads(numbers, sockets, s);
    }
    Ok(())
}

/// What halves have read on each socket of the table.
pub(crate) fn read_by_halves(
    alloc: Global,
    sockets: &SocketTable<'_>,
    strands: &[Strand<'_>],
) -> Result<Vec<u64>, NoMemory>
    ensures count { IfOk result (λ v. length v.items ≡ length sockets.now) }
    ensures numbers { IfOk result (λ v. KeepsNumbers (names_of sockets.now) (read_by_halves (map strand_now strands.now)) v.items) }
{
    let mut numbers = zeros(alloc, sockets.len())?;
    for s in strands {
        add_half(&mut numbers, sockets, s)?;
    }
    Ok(numbers)
}

/// So many zeros.
pub(crate) fn zeros(alloc: Global, n: usize) -> Result<Vec<u64>, NoMemory>
    ensures { IfOk result (λ v. v.items ≡ replicate n 0) }
{
    Ok(Vec::from_elem(alloc, 0, n)?)
}

/// Sets the flags of the sockets of the table that a strand has opened, where none is set before.
pub(crate) fn set_opened(flags: &mut Vec<bool>, sockets: &SocketTable<'_>, s: &Strand<'_>)
    requires count { length flags.old.items ≡ length sockets.now }
    requires clear { KeepsOpened (names_of sockets.now) (λ _. false) flags.old.items }
    ensures count { length flags.new.items ≡ length sockets.now }
    ensures flags { KeepsOpened (names_of sockets.now) (has_opened (strand_now s.now)) flags.new.items }
{
    let mut left = s.items();
    for n in 0..s.len() {
        set_by(flags, sockets, left.next());
    }
}

/// Sets the flag of the socket that an item has opened, if it opens one.
fn set_by(flags: &mut Vec<bool>, sockets: &SocketTable<'_>, item: StrandItem)
    requires count { length flags.old.items ≡ length sockets.now }
    ensures count { length flags.new.items ≡ length sockets.now }
    ensures set { KeepsOpened (names_of sockets.now)
        (λ k. opens k item || slice_index_or flags.old.items (place_in (names_of sockets.now) k) false) flags.new.items }
{
    if let StrandItem::Noted(Entry::Opened { socket }) = item {
        set(flags, sockets, &socket);
    }
}

/// So many flags that aren't set.
pub(crate) fn unset(alloc: Global, n: usize) -> Result<Vec<bool>, NoMemory>
    ensures { IfOk result (λ v. v.items ≡ replicate n false) }
{
    Ok(Vec::from_elem(alloc, false, n)?)
}

/// Sets the flag of a socket, if it is in the table.
fn set(flags: &mut Vec<bool>, sockets: &SocketTable<'_>, socket: &SocketId)
    requires count { length flags.old.items ≡ length sockets.now }
    ensures count { length flags.new.items ≡ length sockets.now }
    ensures set { KeepsOpened (names_of sockets.now)
        (λ k. same_socket k socket.now || slice_index_or flags.old.items (place_in (names_of sockets.now) k) false) flags.new.items }
{
    let place = place_in(sockets, socket);
    if place < sockets.len() {
        flags[place] = true;
    }
}

/// Whether the two have the same bytes.
fn is_same(a: &[u8], b: &[u8]) -> bool
    ensures { Decides result (a.now ≡ b.now) }
{
    a == b
}

/// What a read waits for: so many bytes at an end, from a place on.
pub(crate) fn read_need(
    sockets: &SocketTable<'_>,
    socket: &SocketId,
    opener: bool,
    from: u64,
    count: u32,
) -> Need
    requires named { is_among socket.now (names_of sockets.now) ≡ true }
    requires few { length sockets.now < 2 ^ 60 }
    ensures { result ≡ bytes_need (names_of sockets.now) (bytes_alone sockets.now) (record { socket = socket.now; opener = opener }) from
        (take count (drop from (got_at (slice_get sockets.now (place_in (names_of sockets.now) socket.now)) opener))) }
{
    let place = named_place(sockets, socket);
    let bytes = piece(
        got_at(sockets, place, opener),
        from as usize,
        count as usize,
    );
    let there = piece(put_at(sockets, place, !opener), from as usize, bytes.len());
    let same = is_same(bytes, there);
    if same {
        if bytes.is_empty() {
            return Need::Nothing;
        }
        let counter = writes(place, !opener);
        let least = from + bytes.len() as u64;
        return Need::AtLeast { counter, least };
    }
    Need::Never
}

/// The number of the counter of what an end writes.
pub(crate) fn writes(place: usize, opener: bool) -> usize
    requires { place < 2 ^ 60 }
    ensures { result ≡ 4 * place + side_number opener }
{
    4 * place + usize::from(opener)
}
