//! Two records woven.

ghost use Rattle.std.specs.List.{AllByRecursion};
ghost use Rattle.m2_history.specs.Link.{AreOfLink, IsWholeHalf, WeavesRecords, both_of};

use crate::history::{History, PartsFault, WeaveFault};
use crate::history_laws::{records_are_kept, strands_are_tidy};
use crate::side::Side;
use crate::weaving::weave_parts;
use m2_fabric::End;
use m2_trail::{Loose, LooseList};
use m2_weave::tidy_stops_are_reads;
use std::alloc::Global;

/// Each half that no record took has a trail that tells all that its end did: it is what its type keeps.
fn all_whole<E: End>(loose: &[Loose<E>])
    ensures { AllByRecursion IsWholeHalf loose.now }
{
    for half in loose {
        let _ = half.trail();
    }
}

/// Weaves the two sides of a link, with the halves that neither took: gives the order of all their entries
/// exactly where there is one in which bytes are read after they were written, asks are judged after they
/// were handed on, and halves write behind the judgements of their asks so far. Where there is none it names
/// the byte at which the first strand stands as far as any order goes: the other end hasn't written it there
/// by then, or has written another. The half of each ask that a side has judged is one that it took or one of
/// these, and a half of these on whose socket a side has judged asks has judged just those. It takes time in
/// proportion to the bytes and the entries.
pub fn weave_sides<E: End>(
    alloc: Global,
    a: &Side<'_, E>,
    b: &Side<'_, E>,
    loose: &LooseList<E>,
) -> Result<History, WeaveFault>
    requires link { AreOfLink (both_of a.now.record.now b.now.record.now loose.now.items) }
    ensures { WeavesRecords result (both_of a.now.record.now b.now.record.now loose.now.items) }
{
    a.record.is_record();
    b.record.is_record();
    all_whole(loose.as_slice());
    records_are_kept();
    strands_are_tidy();
    tidy_stops_are_reads();
    match weave_parts(alloc, &a.parts(), &b.parts(), loose) {
        Ok(history) => Ok(history),
        Err(PartsFault::NoMemory) => Err(WeaveFault::NoMemory),
        Err(PartsFault::Unfit(unfit)) => Err(WeaveFault::Unfit(unfit)),
        Err(PartsFault::Waits) => unreachable!(),
        Err(PartsFault::NoEnd) => unreachable!(),
    }
}
