//! The end of a center.

ghost use Rattle.std.specs.Prelude.{◌≡◌};
ghost use Rattle.m2_center.specs.Finishing.{AllOwn, IsGranted, rest_of};
ghost use Rattle.m2_shared.specs.Gates.{ArePassesOf, pass_places, places};

use crate::center::{Center, NodeShared, Passes};
use crate::making::Unmade;
use m2_bytes::Items;
use m2_dispatch::Dispatch;
use m2_fabric::{End, Port};
use m2_record::Record;
use m2_shared::{TakePasses, Throttles};
use m2_trail::LooseList;
use m2_turn::{Outbox, leave_all};
use std::marker::Model;

/// What is left of a center. It can't be dropped, since records can't.
pub struct CenterRest<P: Port, D> {
    pub port: P,
    /// Its records, in the order of the links.
    pub records: Vec<Record<P::End>>,
    /// The sockets of peers that no record took: those that were closed, and then the others as they are, in the
    /// order of acceptance.
    pub loose: LooseList<P::End>,
    /// The dispatcher of fast kinds, the mail, and a letter that the dispatcher couldn't take yet.
    pub out: Outbox<D>,
    pub queued: Dispatch<D>,
    pub passes: Passes,
}

/// What is left of a center that was cleared.
#[derive(Drop)]
pub struct Cleared<D> {
    /// The dispatcher of fast kinds, and the one behind the queue.
    pub fast: D,
    pub queued: D,
    /// How many bytes the throttle of the dispatch had granted that weren't given back.
    pub out: u64,
}

impl<P: Port, D> Model for CenterRest<P, D> {
    ghost use Rattle.m2_center.specs.Finishing.{RestNow};

    ghost Value = { RestNow D };

    ghost view = { λ r. record {
      port = P.seen r.port;
      records = r.records.items;
      loose = r.loose.items;
      out = r.out;
      queued = r.queued;
      bytes = r.passes.throttles;
      numbers = r.passes.numbers;
    } };
}

impl<P: Port, D> Center<P, D> {
    /// Ends the center. The halves that no record took are left as they are. Takes no memory.
    pub fn finished(self) -> CenterRest<P, D>
        ensures rest { result ≡ rest_of self }
        ensures granted { IsGranted (pass_places self.bytes) result }
    {
        let Center {
            alloc: _,
            entity: _,
            port,
            records,
            roster: _,
            mut halves,
            mut loose,
            out,
            queued,
            passes,
            piece: _,
        } = self;
        leave_all(&mut halves, &mut loose);
        CenterRest {
            port,
            records,
            loose: Items::from_vec(loose),
            out,
            queued,
            passes,
        }
    }
}

impl<P: Port, D> CenterRest<P, D> {
    /// Gives back all that was granted, throws away what wasn't dispatched, and gives the dispatchers. No other
    /// thread has passes to what its node shares.
    pub fn clear(self, shared: NodeShared) -> Cleared<D>
        requires pass { pass_places self.bytes ≡ places shared.throttles }
        requires granted { IsGranted (pass_places self.bytes) self }
        ensures fast { result.fast ≡ self.out.fast }
        ensures queued { result.queued ≡ self.queued.inner }
    {
        let CenterRest {
            port: _,
            records,
            loose: _,
            out,
            queued,
            passes,
        } = self;
        let NodeShared {
            numbers: _,
            throttles,
        } = shared;
        let Passes {
            numbers: _,
            throttles: mut own,
        } = passes;
        end_all(records, &throttles, &mut own);
        let fast = out.clear(&throttles, &mut own);
        let queued = queued.finish(&throttles, &mut own);
        Cleared {
            fast,
            queued,
            out: throttles.close(own),
        }
    }
}

impl<P: Port, D> Unmade<P, D> {
    /// The same of what no center was made of.
    pub fn clear(self, shared: NodeShared) -> Cleared<D>
        requires pass { pass_places self.passes.throttles ≡ places shared.throttles }
        requires granted { AllOwn (places shared.throttles) self.records.items }
        ensures fast { result.fast ≡ self.fast }
        ensures queued { result.queued ≡ self.queued }
    {
        let Unmade {
            entity: _,
            port: _,
            records,
            fast,
            queued,
            passes,
        } = self;
        let NodeShared {
            numbers: _,
            throttles,
        } = shared;
        let Passes {
            numbers: _,
            throttles: mut own,
        } = passes;
        end_all(records, &throttles, &mut own);
        Cleared {
            fast,
            queued,
            out: throttles.close(own),
        }
    }
}

/// Ends these records, which give back what they hold.
fn end_all<E: End>(mut records: Vec<Record<E>>, throttles: &Throttles, passes: &mut TakePasses)
    requires passes { ArePassesOf throttles.now passes.old }
    requires owned { AllOwn (places throttles.now) records.items }
    ensures { ArePassesOf throttles.now passes.new }
{
    'ends: while let Some(side) = records.pop() {
        let _ends = side.ends(throttles, passes);
    }
    records.destroy_empty();
}
