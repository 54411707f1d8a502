//! Two sides woven.

ghost use Rattle.std.specs.Prelude.{◌≡◌, ◌++◌, map, replicate, take, IfOk, OnOk};
ghost use Rattle.m2_history.specs.Ends.{end_now};
ghost use Rattle.m2_history.specs.Woven.{ComesOf, IsHistoryOrFull, Weaves, ends_of, loose_end, loose_ends, loose_strand, loose_strands, strands_of};
ghost use Rattle.m2_weave.specs.Strands.{strand_now};

use crate::history::{History, PartsFault, steps_of};
use crate::parts::{EndPart, Parts, add_half_end};
use crate::rows::rows_of;
use crate::sockets::KnownSockets;
use crate::strands::{add_half, add_strands};
use m2_bytes::NoMemory;
use m2_fabric::End;
use m2_trail::{Loose, LooseList};
use m2_weave::{SocketBytes, SocketTable, Strand, a_stop_is_no_order, are_named, first_stop};
use std::alloc::Global;

/// Appends the strand of a half that neither side took, where it is one of the link: of its asks those that
/// the two journals have judged.
fn add_loose_strand<'a, E: End>(
    strands: &mut Vec<Strand<'a>>,
    known: &KnownSockets<'_>,
    half: &'a Loose<E>,
) -> Result<(), NoMemory>
    ensures { OnOk result (map strand_now strands.new.items ≡ map strand_now strands.old.items ++ loose_strand known.now.a known.now.b half.now) }
{
    if known.has(&half.id()) {
        let trail = half.trail();
        let asks = first(trail.judged_after.as_slice(), known.judged(&trail.socket));
        add_half(strands, trail, asks)
    } else {
        Ok(())
    }
}

/// The first so many, or all where there are fewer.
fn first(numbers: &[usize], most: u64) -> &[usize]
    ensures { result.now ≡ take most numbers.now }
{
    let (first, _) = numbers.split_at(numbers.len().min(most as usize));
    first
}

/// Appends those of all such halves.
fn add_loose_strands<'a, E: End>(
    strands: &mut Vec<Strand<'a>>,
    known: &KnownSockets<'_>,
    loose: &'a [Loose<E>],
) -> Result<(), NoMemory>
    ensures { OnOk result (map strand_now strands.new.items ≡ map strand_now strands.old.items ++ loose_strands known.now.a known.now.b loose.now) }
{
    for half in loose {
        add_loose_strand(strands, known, half)?;
    }
    Ok(())
}

/// Appends the end of a half that neither side took, where it is one of the link.
fn add_loose_end<'a, E: End>(
    ends: &mut Vec<EndPart<'a>>,
    known: &KnownSockets<'_>,
    half: &'a Loose<E>,
) -> Result<(), NoMemory>
    ensures { OnOk result (map end_now ends.new.items ≡ map end_now ends.old.items ++ loose_end known.now.a known.now.b half.now) }
{
    if known.has(&half.id()) {
        add_half_end(ends, half)
    } else {
        Ok(())
    }
}

/// Appends those of all such halves.
fn add_loose_ends<'a, E: End>(
    ends: &mut Vec<EndPart<'a>>,
    known: &KnownSockets<'_>,
    loose: &'a [Loose<E>],
) -> Result<(), NoMemory>
    ensures { OnOk result (map end_now ends.new.items ≡ map end_now ends.old.items ++ loose_ends known.now.a known.now.b loose.now) }
{
    for half in loose {
        add_loose_end(ends, known, half)?;
    }
    Ok(())
}

/// All strands.
fn strands_of<'a, E: End>(
    alloc: Global,
    a: &Parts<'a, E>,
    b: &Parts<'a, E>,
    known: &KnownSockets<'_>,
    loose: &'a LooseList<E>,
) -> Result<Vec<Strand<'a>>, NoMemory>
    requires known { known.now ≡ record { a = a.now.journal; b = b.now.journal } }
    ensures { IfOk result (λ v. map strand_now v.items ≡ strands_of (record { a = a.now; b = b.now; loose = loose.now.items })) }
{
    let mut strands = Vec::new(alloc);
    add_strands(&mut strands, a.journal(), a.trails())?;
    add_strands(&mut strands, b.journal(), b.trails())?;
    add_loose_strands(&mut strands, known, loose.as_slice())?;
    Ok(strands)
}

/// All ends.
fn ends_of<'a, E: End>(
    alloc: Global,
    a: &Parts<'a, E>,
    b: &Parts<'a, E>,
    known: &KnownSockets<'_>,
    loose: &'a LooseList<E>,
) -> Result<Vec<EndPart<'a>>, NoMemory>
    requires known { known.now ≡ record { a = a.now.journal; b = b.now.journal } }
    ensures { IfOk result (λ v. map end_now v.items ≡ ends_of (record { a = a.now; b = b.now; loose = loose.now.items })) }
{
    let mut ends = Vec::new(alloc);
    a.add_ends(alloc, &mut ends)?;
    b.add_ends(alloc, &mut ends)?;
    add_loose_ends(&mut ends, known, loose.as_slice())?;
    Ok(ends)
}

/// What comes of weaving strands with the bytes of these sockets.
fn weave_rows(
    alloc: Global,
    strands: &[Strand<'_>],
    rows: &[SocketBytes<'_>],
) -> Result<History, PartsFault>
    ensures { ComesOf result (map strand_now strands.now) rows.now }
{
    let Ok(table) = SocketTable::of(alloc, rows) else {
        return Err(PartsFault::NoMemory);
    };
    if !are_named(strands, &table) {
        return Err(PartsFault::NoEnd);
    }
    let Ok(found) = m2_weave::weave(alloc, strands, &table) else {
        return Err(PartsFault::NoMemory);
    };
    if found.whole {
        return history_of(alloc, strands.len(), found.order.as_slice());
    }
    a_stop_is_no_order();
    match first_stop(strands, &table, found.at.as_slice()) {
        Ok(Some(unfit)) => Err(PartsFault::Unfit(unfit)),
        Ok(None) => Err(PartsFault::Waits),
        Err(_) => Err(PartsFault::NoMemory),
    }
}

/// An order of so many strands, by its steps.
fn history_of(alloc: Global, strands: usize, order: &[usize]) -> Result<History, PartsFault>
    ensures { IsHistoryOrFull result (replicate strands 0) order.now }
{
    match steps_of(alloc, strands, order) {
        Ok(steps) => Ok(History { steps }),
        Err(_) => Err(PartsFault::NoMemory),
    }
}

/// What two sides lend and the halves that neither took, as strands and ends.
fn gather<'a, E: End>(
    alloc: Global,
    a: &Parts<'a, E>,
    b: &Parts<'a, E>,
    loose: &'a LooseList<E>,
) -> Result<(Vec<Strand<'a>>, Vec<EndPart<'a>>), NoMemory>
    ensures strands { IfOk result (λ v. map strand_now v.0.items ≡ strands_of (record { a = a.now; b = b.now; loose = loose.now.items })) }
    ensures ends { IfOk result (λ v. map end_now v.1.items ≡ ends_of (record { a = a.now; b = b.now; loose = loose.now.items })) }
{
    let known = KnownSockets::of(alloc, a.journal(), b.journal())?;
    let strands = strands_of(alloc, a, b, &known, loose)?;
    let ends = ends_of(alloc, a, b, &known, loose)?;
    Ok((strands, ends))
}

/// Weaves what two sides lend with the halves that neither took, whatever they are: the order of all their
/// entries, exactly where there is one in which bytes are read after they were written, asks are judged
/// after they were handed on, and halves write behind the judgements of their asks so far. Of the halves
/// those are woven whose socket either side has opened, or on which it has judged an ask, and of their asks
/// those that either side has judged. It takes time in proportion to the bytes and the entries.
pub fn weave_parts<E: End>(
    alloc: Global,
    a: &Parts<'_, E>,
    b: &Parts<'_, E>,
    loose: &LooseList<E>,
) -> Result<History, PartsFault>
    ensures { Weaves result (record { a = a.now; b = b.now; loose = loose.now.items }) }
{
    let Ok((strands, ends)) = gather(alloc, a, b, loose) else {
        return Err(PartsFault::NoMemory);
    };
    let Ok(rows) = rows_of(alloc, &ends) else {
        return Err(PartsFault::NoMemory);
    };
    weave_rows(alloc, &strands, &rows)
}
