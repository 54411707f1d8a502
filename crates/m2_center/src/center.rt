//! A center: an event thread of a node.

ghost use Rattle.std.specs.Prelude.{◌≡◌, ◌≤◌, length};
ghost use Rattle.m2_turn.specs.declared.pending.TheConstants.{MOST_HALVES};

use m2_dispatch::Dispatch;
use m2_fabric::Port;
use m2_record::Record;
use m2_shared::{NumberPass, Numbers, TakePasses, Throttles};
use m2_trail::Loose;
use m2_turn::{Outbox, Pendings, Roster};
use std::alloc::Global;
use std::marker::Model;

/// What the threads of a node share: the counter of global numbers, and the throttles of what is on its way
/// to its dispatchers. It can't be dropped, since a throttle can't.
pub struct NodeShared {
    pub numbers: Numbers,
    pub throttles: Throttles,
}

/// A thread's passes to what its node shares.
pub struct Passes {
    pub numbers: NumberPass,
    pub throttles: TakePasses,
}

/// An event thread of a node: a port, the records that are at home here, the sockets of peers that no record
/// took, and where the parcels of the records go.
///
/// Maker: [`new`](Center::new). Looks: [`port`](Center::port), [`records`](Center::records), [`parts`](Center::parts),
/// [`halves`](Center::halves), [`fast`](Center::fast), [`queued`](Center::queued),
/// [`is_holding`](Center::is_holding), [`granted`](Center::granted), [`idle`](Center::idle),
/// [`made`](Center::made), [`refused`](Center::refused), [`log`](Center::log). Calls: [`turn`](Center::turn),
/// or [`turn_on`](Center::turn_on) where another thread dispatches, [`poll`](Center::poll) to wait for the next one, and [`plan`](Center::plan) for what a record is to do; of whoever
/// passes on what flows in memory, [`incoming`](Center::incoming) and [`hear`](Center::hear). The end:
/// [`finished`](Center::finished). It can't be dropped, since records can't.
pub struct Center<P: Port, D> {
    pub(crate) alloc: Global,
    pub(crate) entity: u8,
    pub(crate) port: P,
    pub(crate) records: Vec<Record<P::End>>,
    pub(crate) roster: Roster,
    pub(crate) halves: Pendings<P::End>,
    pub(crate) loose: Vec<Loose<P::End>>,
    pub(crate) out: Outbox<D>,
    pub(crate) queued: Dispatch<D>,
    pub(crate) passes: Passes,
    /// What halves read into.
    pub(crate) piece: Vec<u8>,
}

impl<P: Port, D> Model for Center<P, D> {
    ghost use Rattle.std.specs.Prelude.{◌≡◌, ◌<◌, ◌≤◌, ◌-◌, length, map, vec_capacity, vec_len};
    ghost use Rattle.m2_center.specs.Center.{CenterNow, IsCenter};
    ghost use Rattle.m2_turn.specs.Sessions.{peer_of};
    ghost use Rattle.m2_trail.specs.declared.incoming.TheConstants.{MOST_READ};

    ghost Value = { CenterNow D };

    ghost view = { λ c. record {
      entity = c.entity;
      port = P.seen c.port;
      halves = record { pending = c.halves; loose = c.loose.items };
      records = c.records.items;
      out = c.out;
      queued = c.queued;
      bytes = c.passes.throttles;
      numbers = c.passes.numbers;
    } };

    ghost invariant = { λ c. IsCenter (record {
      entity = c.entity;
      port = P.seen c.port;
      halves = record { pending = c.halves; loose = c.loose.items };
      records = c.records.items;
      out = c.out;
      queued = c.queued;
      bytes = c.passes.throttles;
      numbers = c.passes.numbers;
    }) × (c.roster ≡ map peer_of c.records.items) × (length c.halves ≤ vec_capacity c.loose - vec_len c.loose)
        × (length c.piece.items ≡ MOST_READ) };
}

impl<P: Port, D> Center<P, D> {
    /// Its port.
    pub fn port(&self) -> &P
        ensures { P.seen result.now ≡ self.now.port }
    {
        &self.port
    }

    /// Its records, in the order of the links.
    pub fn records(&self) -> &[Record<P::End>]
        ensures { result.now ≡ self.now.records }
    {
        self.records.as_slice()
    }

    /// How many halves it has that are in their turns: sockets of peers that no record took. At most
    /// [`MOST_HALVES`](m2_turn::MOST_HALVES).
    pub fn halves(&self) -> u32
        ensures halves { result ≡ length self.now.halves.pending }
        ensures few { result ≤ MOST_HALVES }
    {
        self.halves.len() as u32
    }

    /// The dispatcher of fast kinds.
    pub fn fast(&self) -> &D
        ensures { result.now ≡ self.now.out.fast }
    {
        self.out.fast()
    }

    /// The queue before the other dispatcher.
    pub fn queued(&self) -> &Dispatch<D>
        ensures { result.now ≡ self.now.queued }
    {
        &self.queued
    }
}
