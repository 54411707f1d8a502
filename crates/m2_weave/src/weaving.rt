//! The weaving of strands.

ghost use Rattle.std.specs.Prelude.{◌≡◌, ◌<◌, ◌^◌, length, map, IfOk, OnOk, Decides};
ghost use Rattle.std.specs.List.{AllByRecursion};
ghost use Rattle.m2_weave.specs.Counted.{entries_of};
ghost use Rattle.m2_weave.specs.Merging.{even};
ghost use Rattle.m2_weave.specs.Order.{IsGreedy, reached};
ghost use Rattle.m2_weave.specs.Counting.{AreNamed, IsNamed, counted, counted_items};
ghost use Rattle.m2_weave.specs.Rule.{by_bytes, strand_at};
ghost use Rattle.m2_weave.specs.Stops.{sizes};
ghost use Rattle.m2_weave.specs.Strands.{strand_now};
ghost use Rattle.m2_weave.specs.Table.{lengths_of, names_of, woven_of};
ghost use Rattle.m2_weave.specs.Tally.{CountsAre, IsClear};

use crate::counts::Counts;
use crate::strand::{Strand, StrandItem};
use crate::table::SocketTable;
use crate::{CountedStrand, merge};
use m2_bytes::{Items, NoMemory};
use m2_journal::Entry;
use std::alloc::Global;

/// What a weaving found: the strands of the items, in the order in which they come; how many items of each
/// strand that is; and whether it is all of them.
#[derive(Debug, Drop)]
pub struct WovenOrder {
    pub order: Items<usize>,
    pub at: Items<usize>,
    pub whole: bool,
}

/// The items of a strand as entries of a merge.
fn count_items(
    alloc: Global,
    strands: &[Strand<'_>],
    sockets: &SocketTable<'_>,
    counts: &mut Counts,
    k: usize,
) -> Result<CountedStrand, NoMemory>
    requires strand { k < length strands.now }
    requires few { length sockets.now < 2 ^ 60 }
    requires named { AreNamed (names_of sockets.now) (woven_of strands.now sockets.now) }
    requires counts { CountsAre sockets.now (woven_of strands.now sockets.now) (strand_at (woven_of strands.now sockets.now) k) 0 counts.old }
    ensures items { IfOk result (λ c. c.entries.items ≡ counted_items (names_of sockets.now) (woven_of strands.now sockets.now)
        (strand_at (woven_of strands.now sockets.now) k) 0 (strand_at (woven_of strands.now sockets.now) k).items) }
    ensures counts { OnOk result (CountsAre sockets.now (woven_of strands.now sockets.now) (strand_at (woven_of strands.now sockets.now) k)
        (length (strand_at (woven_of strands.now sockets.now) k).items) counts.new) }
{
    let mut left = strands[k].items();
    let mut entries = Items::empty(alloc);
    for n in 0..strands[k].len() {
        let e = counts.count(sockets, left.next())?;
        match entries.push(e) {
            Ok(()) => {}
            Err(_) => return Err(NoMemory),
        }
    }
    Ok(CountedStrand { entries })
}

/// A strand by counters, between others.
fn count_strand(
    alloc: Global,
    strands: &[Strand<'_>],
    sockets: &SocketTable<'_>,
    counts: &mut Counts,
    k: usize,
) -> Result<CountedStrand, NoMemory>
    requires strand { k < length strands.now }
    requires few { length sockets.now < 2 ^ 60 }
    requires named { AreNamed (names_of sockets.now) (woven_of strands.now sockets.now) }
    requires clear { IsClear sockets.now (map strand_now strands.now) counts.old }
    ensures items { IfOk result (λ c. c.entries.items ≡ counted_items (names_of sockets.now) (woven_of strands.now sockets.now)
        (strand_at (woven_of strands.now sockets.now) k) 0 (strand_at (woven_of strands.now sockets.now) k).items) }
    ensures clear { OnOk result (IsClear sockets.now (map strand_now strands.now) counts.new) }
{
    counts.open(strands, sockets, k);
    let strand = count_items(alloc, strands, sockets, counts, k)?;
    counts.clear(strands, sockets, k);
    Ok(strand)
}

/// All strands by counters.
fn count_all(
    alloc: Global,
    strands: &[Strand<'_>],
    sockets: &SocketTable<'_>,
) -> Result<Vec<CountedStrand>, NoMemory>
    requires few { length sockets.now < 2 ^ 60 }
    requires named { AreNamed (names_of sockets.now) (woven_of strands.now sockets.now) }
    ensures { IfOk result (λ v. entries_of v.items ≡ counted (names_of sockets.now) (woven_of strands.now sockets.now)) }
{
    let mut counts = Counts::none(alloc, strands, sockets)?;
    let mut all = Vec::with_capacity(alloc, strands.len())?;
    for k in 0..strands.len() {
        let strand = count_strand(alloc, strands, sockets, &mut counts, k)?;
        all.push(strand)?;
    }
    Ok(all)
}

/// Whether so many items are all items of the strands.
fn is_all(strands: &[Strand<'_>], at: &[usize]) -> bool
    requires { length at.now ≡ length strands.now }
    ensures { Decides result (at.now ≡ lengths_of strands.now) }
{
    for k in 0..at.len() {
        if at[k] != strands[k].len() {
            return false;
        }
    }
    true
}

/// Whether the socket of an item is in the table, where it matters.
fn is_named(sockets: &SocketTable<'_>, item: StrandItem) -> bool
    ensures { Decides result (IsNamed (names_of sockets.now) item) }
{
    let socket = match item {
        StrandItem::Noted(Entry::Read { socket, count: _ })
        | StrandItem::Noted(Entry::Wrote { socket, count: _ })
        | StrandItem::Handed(socket) => socket,
        StrandItem::Noted(
            Entry::Judged {
                socket,
                ask: _,
                number: _,
                answer: _,
            },
        ) => socket,
        StrandItem::Noted(
            Entry::Post { place: _ }
            | Entry::Dial
            | Entry::Opened { socket: _ }
            | Entry::Closed { socket: _ }
            | Entry::Asked {
                ident: _,
                number: _,
            }
            | Entry::Numbered { number: _ }
            | Entry::Accepted { number: _, key: _ }
            | Entry::Acked { number: _ }
            | Entry::Obeyed { full: _ }
            | Entry::Down { planned: _ },
        ) => return true,
    };
    sockets.has(&socket)
}

/// Whether the sockets of all items of a strand are in the table.
fn all_named(sockets: &SocketTable<'_>, s: &Strand<'_>) -> bool
    ensures { Decides result (AllByRecursion (IsNamed (names_of sockets.now)) (strand_now s.now).items) }
{
    let mut left = s.items();
    for n in 0..s.len() {
        if !is_named(sockets, left.next()) {
            return false;
        }
    }
    true
}

/// Whether the sockets of all strands are in the table, as [`weave`] wants it: those on which an entry
/// reads, writes or judges, or on which an ask was handed on.
pub fn are_named(strands: &[Strand<'_>], sockets: &SocketTable<'_>) -> bool
    ensures { Decides result (AreNamed (names_of sockets.now) (woven_of strands.now sockets.now)) }
{
    for s in strands {
        if !all_named(sockets, s) {
            return false;
        }
    }
    true
}

/// Weaves strands whose sockets are all in the table: whatever may come is taken, until nothing may. So all
/// items come exactly where there is an order of all of them by this rule; else the order goes as far as any
/// order goes. It takes time in proportion to the bytes, the items, the strands and the sockets of the table.
/// Counts above 2^64 - 1 are answered as for want of memory.
pub fn weave(
    alloc: Global,
    strands: &[Strand<'_>],
    sockets: &SocketTable<'_>,
) -> Result<WovenOrder, NoMemory>
    requires named { AreNamed (names_of sockets.now) (woven_of strands.now sockets.now) }
    ensures greedy { IfOk result (λ w. IsGreedy even (by_bytes (woven_of strands.now sockets.now)) (sizes (woven_of strands.now sockets.now)) w.order.items) }
    ensures at { IfOk result (λ w. w.at.items ≡ reached (sizes (woven_of strands.now sockets.now)) w.order.items) }
    ensures whole { IfOk result (λ w. Decides w.whole (w.at.items ≡ sizes (woven_of strands.now sockets.now))) }
{
    if sockets.len() >= 1 << 60 {
        return Err(NoMemory);
    }
    let counted = count_all(alloc, strands, sockets)?;
    let merged = merge(alloc, &counted, 4 * sockets.len() + 4)?;
    let whole = is_all(strands, merged.at.as_slice());
    Ok(WovenOrder {
        order: merged.order,
        at: merged.at,
        whole,
    })
}
