//! Who sees what a run leaves.

ghost use Rattle.std.specs.Prelude.{◌≡◌, IfOk, OnErr, OnOk, map};
ghost use Rattle.std.specs.List.{AllByRecursion};
ghost use Rattle.m2_node.specs.m2_links_go_on.Left.{IsSeen};
ghost use Rattle.m2_node.specs.m2_links_go_on.m2_history.Link.{IsWholeHalf};
ghost use Rattle.m2_run.specs.Opened.{ended_of, loose_in};
ghost use Rattle.m2_run.specs.Rests.{Shown};

use crate::ending::{AllEnded, Ended, Opened, ThreadEnd, join_halves, throw_away_ends};
use m2_bytes::NoMemory;
use m2_fabric::{End, Port};
use m2_trail::Loose;
use std::alloc::Global;

/// Sees the nodes of a run over such ports when they have ended, before their links are woven and their ports and ends go back to
/// the fabric.
///
/// Every observer tells contracts what a look makes of it, so that a run can say that it looked once, and at what.
pub trait Observer<P: Port> {
    /// Holds of what an observer was shown, of the observer before it, and behind it.
    ghost saw: { Shown → Self → Self → Type 0 };

    /// Sees these nodes, in order, and the halves that no record took, those of the last node first. Err is want of memory; the
    /// observer is as it was, and the run ends with that.
    fn see(
        &mut self,
        ends: &[Ended<'_, P>],
        loose: &[Loose<ThreadEnd<P::End>>],
    ) -> Result<(), NoMemory>
        ensures ok { OnOk result (saw (record { ends = ends.now; loose = loose.now }) self.old self.new) }
        ensures err { OnErr result (self.new ≡ self.old) };
}

/// Nobody looks.
#[derive(Clone, Copy, Debug)]
pub struct Unobserved;

impl<P: Port> Observer<P> for Unobserved {
    ghost saw = { λ shown old new. new ≡ old };

    fn see(
        &mut self,
        _ends: &[Ended<'_, P>],
        _loose: &[Loose<ThreadEnd<P::End>>],
    ) -> Result<(), NoMemory> {
        Ok(())
    }
}

/// Puts the halves of all nodes into one list, and shows all to the observer. Err is want of memory; the observer is as it was,
/// and what is left of the nodes is thrown away then.
pub(crate) fn join_seen<'s, P: Port, V: Observer<P>>(
    alloc: Global,
    all: Vec<Opened<'s, P>>,
    observer: &mut V,
) -> Result<AllEnded<'s, P>, NoMemory>
    ensures ends { IfOk result (λ r. r.ends.items ≡ map ended_of all.entry.items) }
    ensures loose { IfOk result (λ r. r.loose.items ≡ loose_in all.entry.items) }
    ensures types { IfOk result (λ r. AllByRecursion IsWholeHalf r.loose.items × AllByRecursion IsSeen r.loose.items) }
    ensures shown { IfOk result (λ r. V.saw (record { ends = r.ends.items; loose = r.loose.items }) observer.old observer.new) }
    ensures stays { OnErr result (observer.new ≡ observer.old) }
{
    let joined = join_halves(alloc, all)?;
    match observer.see(joined.ends.as_slice(), joined.loose.as_slice()) {
        Ok(()) => Ok(joined),
        Err(NoMemory) => {
            let AllEnded { ends, loose: _ } = joined;
            throw_away_ends(ends);
            Err(NoMemory)
        }
    }
}
