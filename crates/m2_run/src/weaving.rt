//! The links of nodes that have ended, woven.

ghost use Rattle.std.specs.Prelude.{◌≡◌, IfSome, IsSome};
ghost use Rattle.std.specs.Option.{option_map};
ghost use Rattle.m2_run.specs.Weaving.{WeavesAll, WeavesLink, side_towards, towards};

use crate::ending::{Ended, EndedCenter, ThreadEnd};
use m2_fabric::{End, Port};
use m2_node::{Record, Side, WeaveFault, are_of_link, weave};
use m2_scenario::Link;
use m2_trail::LooseList;
use std::alloc::Global;

/// Weaves each of these links, in order, with the halves that no record took, of all nodes. Err: one has no history, and
/// the links before it have one.
pub(crate) fn weave_all<P: Port>(
    alloc: Global,
    links: &[Link],
    ends: &[Ended<'_, P>],
    loose: &LooseList<ThreadEnd<P::End>>,
) -> Result<(), WeaveFault>
    ensures { WeavesAll result ends.now loose.now.items links.now }
{
    'links: for link in links {
        match weave_link(alloc, link, ends, loose) {
            Ok(()) => {}
            Err(fault) => return Err(fault),
        }
    }
    Ok(())
}

/// Weaves one.
fn weave_link<P: Port>(
    alloc: Global,
    link: &Link,
    ends: &[Ended<'_, P>],
    loose: &LooseList<ThreadEnd<P::End>>,
) -> Result<(), WeaveFault>
    ensures { WeavesLink result ends.now loose.now.items link.now }
{
    let (Some(near), Some(far)) = (ends.get(link.a as usize), ends.get(link.b as usize)) else {
        return Err(WeaveFault::NoMemory);
    };
    let mine = side_towards(near.centers.as_slice(), link.b);
    let theirs = side_towards(far.centers.as_slice(), link.a);
    let (Some(a), Some(b)) = (mine, theirs) else {
        return Err(WeaveFault::NoMemory);
    };
    if !are_of_link(&a, &b, loose) {
        return Err(WeaveFault::NoMemory);
    }
    match weave(alloc, &a, &b, loose) {
        Ok(_history) => Ok(()),
        Err(fault) => Err(fault),
    }
}

/// The first record of these centers that is towards this node, with what its center's dispatchers were called with.
fn side_towards<'a, P: Port>(
    centers: &'a [EndedCenter<'_, P>],
    peer: u32,
) -> Option<Side<'a, ThreadEnd<P::End>>>
    ensures side { IfSome result (λ s. IfSome (side_towards peer centers.now) (λ t. (s.record.now ≡ t.record_) × (s.fast.now.items ≡ t.center.fast) × (s.log.now.items ≡ t.center.queued))) }
    ensures there { IfSome result (λ _. IsSome (side_towards peer centers.now)) }
{
    'centers: for center in centers {
        if let Some(record) = towards(center.records.as_slice(), peer) {
            return Some(Side {
                record,
                fast: &center.fast,
                log: &center.queued,
            });
        }
    }
    None
}

/// The first record that is towards this node.
fn towards<E: End>(records: &[Record<E>], peer: u32) -> Option<&Record<E>>
    ensures { option_map (λ r. r.now) result ≡ towards peer records.now }
{
    'records: for k in 0..records.len() {
        let side = &records[k];
        if side.place() == peer {
            return Some(side);
        }
    }
    None
}
