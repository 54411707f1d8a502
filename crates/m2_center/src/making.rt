//! How a center begins.

ghost use Rattle.std.specs.Prelude.{◌≡◌, ◌<◌, ◌≤◌, [], ◌++◌, IfErr, IfOk, OnOk, length, map};
ghost use Rattle.std.specs.List.{IsDistinct};
ghost use Rattle.m2_center.specs.Center.{IsCenter};
ghost use Rattle.m2_center.specs.Making.{CanBegin, unmade_now, new_center};
ghost use Rattle.m2_turn.specs.Sessions.{peer_of};
ghost use Rattle.m2_turn.specs.m2_handshake.Asks.{same_addr};
ghost use Rattle.m2_trail.specs.declared.incoming.TheConstants.{MOST_READ};

use crate::center::{Center, Passes};
use m2_bytes::NoMemory;
use m2_dispatch::Dispatch;
use m2_fabric::{End, Port};
use m2_record::Record;
use m2_trail::MOST_READ;
use m2_turn::{Outbox, Pendings, Roster};
use std::alloc::Global;

/// What a center is made of. It can't be dropped, since records can't.
pub struct Unmade<P: Port, D> {
    /// The kind of the node, as HELLO names it.
    pub entity: u8,
    pub port: P,
    /// The records that are at home here, in the order of the links.
    pub records: Vec<Record<P::End>>,
    /// The dispatcher of fast kinds, and the one behind the queue.
    pub fast: D,
    pub queued: D,
    pub passes: Passes,
}

/// What a center takes memory for at its start.
#[derive(Drop)]
struct Furnished<E: End> {
    roster: Roster,
    halves: Pendings<E>,
    piece: Vec<u8>,
}

impl<P: Port, D> Center<P, D> {
    /// A center that has accepted and dispatched nothing. Err hands everything back, for want of memory.
    pub fn new(alloc: Global, of: Unmade<P, D>) -> Result<Center<P, D>, Unmade<P, D>>
        requires begin { CanBegin of.entity (P.seen of.port) of.records.items of.passes.throttles of.passes.numbers }
        ensures ok { IfOk result (λ c. c ≡ new_center of.entity (P.seen of.port) of.records.items of.fast of.queued of.passes.throttles of.passes.numbers) }
        ensures err { IfErr result (λ back. unmade_now back.entity (P.seen back.port) back.records.items back.fast back.queued back.passes.throttles back.passes.numbers
            ≡ unmade_now of.entity (P.seen of.port) of.records.items of.fast of.queued of.passes.throttles of.passes.numbers) }
    {
        match furnish(alloc, of.records.as_slice()) {
            Err(NoMemory) => Err(of),
            Ok(with) => begin(alloc, of, with),
        }
    }
}

/// Takes the memory that a center with these records needs at its start.
fn furnish<E: End>(alloc: Global, records: &[Record<E>]) -> Result<Furnished<E>, NoMemory>
    requires { IsDistinct same_addr (map peer_of records.now) }
    ensures roster { IfOk result (λ f. f.roster ≡ map peer_of records.now) }
    ensures none { IfOk result (λ f. f.halves ≡ []) }
    ensures piece { IfOk result (λ f. length f.piece.items ≡ MOST_READ) }
{
    Ok(Furnished {
        roster: roster_of(alloc, records)?,
        halves: Pendings::new(alloc)?,
        piece: Vec::from_elem(alloc, 0, MOST_READ)?,
    })
}

/// The roster of these records, whose peers differ.
fn roster_of<E: End>(alloc: Global, records: &[Record<E>]) -> Result<Roster, NoMemory>
    requires { IsDistinct same_addr (map peer_of records.now) }
    ensures { IfOk result (λ r. r ≡ map peer_of records.now) }
{
    let mut roster = Roster::new(alloc);
    'peers: for side in records {
        side.is_record();
        roster.add(side.session().peer)?;
    }
    Ok(roster)
}

/// A center with what it needs at its start.
fn begin<P: Port, D>(
    alloc: Global,
    of: Unmade<P, D>,
    with: Furnished<P::End>,
) -> Result<Center<P, D>, Unmade<P, D>>
    requires begin { CanBegin of.entity (P.seen of.port) of.records.items of.passes.throttles of.passes.numbers }
    requires roster { with.roster ≡ map peer_of of.records.items }
    requires none { with.halves ≡ [] }
    requires piece { length with.piece.items ≡ MOST_READ }
    ensures ok { IfOk result (λ c. c ≡ new_center of.entity (P.seen of.port) of.records.items of.fast of.queued of.passes.throttles of.passes.numbers) }
    ensures err { IfErr result (λ back. unmade_now back.entity (P.seen back.port) back.records.items back.fast back.queued back.passes.throttles back.passes.numbers
        ≡ unmade_now of.entity (P.seen of.port) of.records.items of.fast of.queued of.passes.throttles of.passes.numbers) }
{
    let Unmade {
        entity,
        port,
        records,
        fast,
        queued,
        passes,
    } = of;
    let Furnished {
        roster,
        halves,
        piece,
    } = with;
    match Outbox::new(alloc, fast) {
        Err(fast) => Err(Unmade {
            entity,
            port,
            records,
            fast,
            queued,
            passes,
        }),
        Ok(out) => Ok(Center {
            alloc,
            entity,
            port,
            records,
            roster,
            halves,
            loose: Vec::new(alloc),
            out,
            queued: Dispatch::new(alloc, queued),
            passes,
            piece,
        }),
    }
}
