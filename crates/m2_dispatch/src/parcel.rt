//! What a side of a session hands to a dispatch.

ghost use Rattle.m2_shared.specs.Gates.{places};
ghost use Rattle.m2_dispatch.specs.Parcel.{IsOwned};

use crate::letter::Letter;
use m2_shared::{Ids, Item};

/// What a side of a session hands to a [`Dispatch`](crate::Dispatch), in the order of its events. It may
/// hold a letter, so it can't be dropped. `peer` is the place among the nodes, from 0, of the other side.
pub enum Parcel {
    /// A message was accepted.
    Letter(Letter),
    /// What was accepted of the peer and not dispatched yet is to be thrown away.
    Discard { peer: u32 },
    /// The peer has reset the session.
    RemoteReset { peer: u32 },
}

/// A parcel belongs to the throttles that granted for its letter; one without a letter belongs to each.
impl Item for Parcel {
    type Owner = Ids;

    ghost belongs = { λ owner parcel. IsOwned (places owner.of) parcel };
}
