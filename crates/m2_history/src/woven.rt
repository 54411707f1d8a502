//! Two records woven, and what that says of a link, lossless or lossy.

ghost use Rattle.std.specs.Prelude.{IfOk};
ghost use Rattle.m2_history.specs.Counted.{logs_of};
ghost use Rattle.m2_history.specs.Link.{AreOfLink, WeavesRecords, both_of};
ghost use Rattle.m2_history.specs.WovenLaws.{IsDeliveredIn, IsUnreset, link_of};
ghost use Rattle.m2_history.specs.Lossy.{IsInOrderIn};
ghost use Rattle.m2_history.specs.Marked.{IsToAMarkIn};

use crate::woven_laws::{
    records_are_sides, woven_comes_in_order, woven_is_a_run_to_a_mark, woven_is_delivered,
    woven_is_never_reset,
};
use crate::{History, Side, WeaveFault};
use m2_fabric::End;
use m2_trail::LooseList;
use std::alloc::Global;

/// Weaves the two sides of a link, with the halves that neither took, as [`crate::weave_sides`] does. Between
/// two lossless nodes that mark nothing down, nothing was reset in the history that it gives: no message was
/// thrown away, and no number set back behind an acceptance. And where the dispatchers' logs are logs of what
/// both records handed on, of each key what either side's dispatchers were called with is the first of what the
/// other side posted, in order, each once. Between two lossless nodes that may mark their sides down, nothing was
/// reset before the first mark-down, and so it is with what was dispatched by then of what both records had handed
/// on. Of a lossy link, with mark-downs or without, what either side's dispatchers were called with is of each key
/// some of what the other side posted, in order, each once.
pub fn weave<E: End>(
    alloc: Global,
    a: &Side<'_, E>,
    b: &Side<'_, E>,
    loose: &LooseList<E>,
) -> Result<History, WeaveFault>
    requires link { AreOfLink (both_of a.now.record.now b.now.record.now loose.now.items) }
    ensures weaves { WeavesRecords result (both_of a.now.record.now b.now.record.now loose.now.items) }
    ensures never_reset { IfOk result (IsUnreset (link_of a.now.record.now b.now.record.now loose.now.items)) }
    ensures delivered { IfOk result (IsDeliveredIn (link_of a.now.record.now b.now.record.now loose.now.items)
        (logs_of a.now.fast.now.items a.now.log.now.items) (logs_of b.now.fast.now.items b.now.log.now.items)) }
    ensures to_a_mark { IfOk result (IsToAMarkIn (link_of a.now.record.now b.now.record.now loose.now.items)
        (logs_of a.now.fast.now.items a.now.log.now.items) (logs_of b.now.fast.now.items b.now.log.now.items)) }
    ensures lossy { IfOk result (IsInOrderIn (link_of a.now.record.now b.now.record.now loose.now.items)
        (logs_of a.now.fast.now.items a.now.log.now.items) (logs_of b.now.fast.now.items b.now.log.now.items)) }
{
    a.record.is_record();
    b.record.is_record();
    records_are_sides();
    woven_is_never_reset();
    woven_is_delivered();
    woven_is_a_run_to_a_mark();
    woven_comes_in_order();
    crate::weave_sides(alloc, a, b, loose)
}
