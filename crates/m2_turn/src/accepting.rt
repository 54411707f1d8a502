//! Sockets of peers that wait at a center's port.

ghost use Rattle.std.specs.Prelude.{◌≡◌, ◌-◌, ◌<◌, ◌≤◌, List, length, vec_capacity, vec_len};
ghost use Rattle.std.specs.List.{AllByRecursion};
ghost use Rattle.m2_record.specs.IsRecord.{IsRecord};
ghost use Rattle.m2_record.specs.RecordNow.{RecordNow};
ghost use Rattle.m2_turn.specs.Accepting.{AcceptsAll, AcceptsOnce, accepting, joined, sessions_at};
ghost use Rattle.m2_turn.specs.Halves.{halves_of};
ghost use Rattle.m2_turn.specs.Sessions.{AreConsistent, Supply};

use crate::pending::{MOST_HALVES, Pending, Pendings};
use m2_fabric::{End, Port, Taken};
use m2_journal::EntryList;
use m2_trail::{Incoming, Loose};
use std::alloc::Global;

/// How many sockets a center accepts in a turn at most.
pub const MOST_ACCEPTS: u32 = 4096;

/// What ended the accepts of a turn.
#[derive(Clone, Copy, Debug, PartialEq, Eq)]
pub enum Accepted {
    /// The last one found no socket, or failed.
    All,
    /// It has made all its accepts of this turn, and more sockets may wait.
    Busy,
    /// Memory ran out. It may go on.
    NoMemory,
}

/// Accepts the sockets that wait at the port, one after another, and at most [`MOST_ACCEPTS`]. Each is a
/// half from then on, the last one; where there are as many halves as there may be, its end is closed at
/// once. The room is made before a socket is accepted, so none is lost for want of memory.
pub fn accept_all<P: Port>(
    alloc: Global,
    port: &mut P,
    halves: &mut Pendings<P::End>,
    loose: &mut Vec<Loose<P::End>>,
    entity: u8,
) -> Accepted
    requires room { length halves.old ≤ vec_capacity loose.old - vec_len loose.old }
    ensures accepts { AcceptsAll entity result (accepting (P.seen port.old) halves.old loose.old.items) (accepting (P.seen port.new) halves.new loose.new.items) }
    ensures room { length halves.new ≤ vec_capacity loose.new - vec_len loose.new }
    ensures consistent { (supply : Supply) (records : List RecordNow) → AllByRecursion IsRecord records
        → AreConsistent supply entity (sessions_at records (accepting (P.seen port.old) halves.old loose.old.items))
        → AreConsistent supply entity (sessions_at records (accepting (P.seen port.new) halves.new loose.new.items)) }
{
    'accepts: for _ in 0..MOST_ACCEPTS {
        if let Some(end) = accept_once(alloc, port, halves, loose, entity) {
            return end;
        }
    }
    Accepted::Busy
}

/// Accepts one socket. None: there was one.
fn accept_once<P: Port>(
    alloc: Global,
    port: &mut P,
    halves: &mut Pendings<P::End>,
    loose: &mut Vec<Loose<P::End>>,
    entity: u8,
) -> Option<Accepted>
    requires room { length halves.old ≤ vec_capacity loose.old - vec_len loose.old }
    ensures accepts { AcceptsOnce entity result (accepting (P.seen port.old) halves.old loose.old.items) (accepting (P.seen port.new) halves.new loose.new.items) }
    ensures room { length halves.new ≤ vec_capacity loose.new - vec_len loose.new }
{
    let mut entries = EntryList::empty(alloc);
    if loose.reserve(halves.len() + 1).is_err() || entries.reserve(1).is_err() {
        return Some(Accepted::NoMemory);
    }
    match port.accept() {
        Taken::Made(end) => {
            join(Incoming::begin(alloc, end, entity, entries), halves, loose);
            None
        }
        Taken::NotYet | Taken::Failed => Some(Accepted::All),
        Taken::NoMemory => Some(Accepted::NoMemory),
    }
}

/// A half goes last among those that there are, or is closed where they are full.
fn join<E: End>(half: Incoming<E>, halves: &mut Pendings<E>, loose: &mut Vec<Loose<E>>)
    requires room { length halves.old < vec_capacity loose.old - vec_len loose.old }
    ensures joins { halves_of halves.new loose.new.items ≡ joined half (halves_of halves.old loose.old.items) }
    ensures room { length halves.new ≤ vec_capacity loose.new - vec_len loose.new }
{
    if halves.len() < MOST_HALVES {
        halves.push(Pending { half, asker: None });
    } else {
        loose.push_reserved(half.close());
    }
}
