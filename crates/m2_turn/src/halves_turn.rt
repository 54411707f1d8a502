//! The halves in a center's turn.

ghost use Rattle.std.specs.Prelude.{◌≡◌, ℕ, ◌-◌, ◌<◌, ◌≤◌, List, ◌++◌, drop, length, map, take, vec_capacity, vec_len};
ghost use Rattle.m2_fabric.specs.declared.socket.SocketId.{SocketId};
ghost use Rattle.m2_record.specs.Stepping.{IsSameWork};
ghost use Rattle.m2_turn.specs.HalfTurn.{homes};
ghost use Rattle.m2_turn.specs.HalvesTurn.{TurnsHalves, TurnsOldest, callers, memory_in, over_by, sessions_of, stays_by};
ghost use Rattle.m2_turn.specs.RecordTurn.{means_of};
ghost use Rattle.m2_turn.specs.Sessions.{AreConsistent, peer_of, supply_of};
ghost use Rattle.m2_shared.specs.Gates.{ArePassesOf};

use crate::half_turn::{HalfTurned, turn_half};
use crate::pending::{MOST_HALVES, Pendings};
use crate::roster::Roster;
use m2_fabric::End;
use m2_record::{Record, Work};
use m2_trail::{Loose, MOST_READ};

/// What ended the turns of the halves.
#[derive(Clone, Copy, Debug, PartialEq, Eq)]
pub enum HalvesTurn {
    /// Each has taken its turn.
    Done,
    /// Memory ran out in the turn of one. Those behind it didn't take theirs.
    NoMemory,
}

/// Each half that is there takes its turn once, the oldest first. Those that stay keep their order; those
/// that are over go last into `loose`, which has the room. It reads into the piece, at most so many bytes at
/// a time.
pub fn turn_halves<E: End>(
    halves: &mut Pendings<E>,
    loose: &mut Vec<Loose<E>>,
    roster: &Roster,
    records: &mut [Record<E>],
    work: &mut Work<'_>,
    piece: &mut [u8],
    now: u64,
) -> HalvesTurn
    requires roster { roster.now ≡ map peer_of records.old }
    requires consistent { (made : List SocketId) × ((entity : ℕ) × AreConsistent (supply_of work.old) entity (sessions_of made (callers halves.old loose.old.items (homes records.old work.old)))) }
    requires room { length halves.old ≤ vec_capacity loose.old - vec_len loose.old }
    requires numbers { work.old.number_pass.now.place ≡ work.old.numbers.now.place }
    requires takes { ArePassesOf work.old.throttles.now work.old.passes.now }
    requires piece { length piece.old ≡ MOST_READ }
    ensures turns { TurnsHalves E result (means_of now work.old) (callers halves.old loose.old.items (homes records.old work.old)) (callers halves.new loose.new.items (homes records.new work.new)) }
    ensures consistent { (made : List SocketId) (entity : ℕ) → AreConsistent (supply_of work.old) entity (sessions_of made (callers halves.old loose.old.items (homes records.old work.old))) → AreConsistent (supply_of work.new) entity (sessions_of made (callers halves.new loose.new.items (homes records.new work.new))) }
    ensures peers { map peer_of records.new ≡ map peer_of records.old }
    ensures room { length halves.new ≤ vec_capacity loose.new - vec_len loose.new }
    ensures number_place { work.new.number_pass.now.place ≡ work.old.number_pass.now.place }
    ensures takes { ArePassesOf work.new.throttles.now work.new.passes.now }
    ensures same { IsSameWork work.old work.new }
    ensures number_pass { work.new.number_pass.ghost_name ≡ work.old.number_pass.ghost_name }
    ensures passes { work.new.passes.ghost_name ≡ work.old.passes.ghost_name }
{
    let count = halves.len();
    'turns: for turned in 0..count {
        match turn_oldest(halves, loose, roster, records, work, piece, now) {
            HalvesTurn::Done => {}
            HalvesTurn::NoMemory => {
                turn_round(halves, count - turned - 1);
                return HalvesTurn::NoMemory;
            }
        }
    }
    HalvesTurn::Done
}

/// The oldest half takes its turn. Where it stays it is the last, and where it is over it is the last of
/// those.
fn turn_oldest<E: End>(
    halves: &mut Pendings<E>,
    loose: &mut Vec<Loose<E>>,
    roster: &Roster,
    records: &mut [Record<E>],
    work: &mut Work<'_>,
    piece: &mut [u8],
    now: u64,
) -> HalvesTurn
    requires roster { roster.now ≡ map peer_of records.old }
    requires consistent { (made : List SocketId) × ((entity : ℕ) × AreConsistent (supply_of work.old) entity (sessions_of made (callers halves.old loose.old.items (homes records.old work.old)))) }
    requires any { 0 < length halves.old }
    requires few { length halves.old ≤ MOST_HALVES }
    requires room { length halves.old ≤ vec_capacity loose.old - vec_len loose.old }
    requires numbers { work.old.number_pass.now.place ≡ work.old.numbers.now.place }
    requires takes { ArePassesOf work.old.throttles.now work.old.passes.now }
    requires piece { length piece.old ≡ MOST_READ }
    ensures turns { TurnsOldest E result (means_of now work.old) (callers halves.old loose.old.items (homes records.old work.old)) (callers halves.new loose.new.items (homes records.new work.new)) }
    ensures consistent { (made : List SocketId) (entity : ℕ) → AreConsistent (supply_of work.old) entity (sessions_of made (callers halves.old loose.old.items (homes records.old work.old))) → AreConsistent (supply_of work.new) entity (sessions_of made (callers halves.new loose.new.items (homes records.new work.new))) }
    ensures peers { map peer_of records.new ≡ map peer_of records.old }
    ensures room { length halves.new ≤ vec_capacity loose.new - vec_len loose.new }
    ensures number_place { work.new.number_pass.now.place ≡ work.old.number_pass.now.place }
    ensures takes { ArePassesOf work.new.throttles.now work.new.passes.now }
    ensures same { IsSameWork work.old work.new }
    ensures number_pass { work.new.number_pass.ghost_name ≡ work.old.number_pass.ghost_name }
    ensures passes { work.new.passes.ghost_name ≡ work.old.passes.ghost_name }
{
    let Some(oldest) = halves.pop() else {
        unreachable!()
    };
    let turned = turn_half(oldest, roster, records, work, piece, now);
    put_turned(turned, halves, loose)
}

/// A half goes where its turn leads it.
fn put_turned<E: End>(
    turned: HalfTurned<E>,
    halves: &mut Pendings<E>,
    loose: &mut Vec<Loose<E>>,
) -> HalvesTurn
    requires few { length halves.old < MOST_HALVES }
    requires room { length halves.old < vec_capacity loose.old - vec_len loose.old }
    ensures answers { result ≡ memory_in turned }
    ensures halves { halves.new ≡ halves.old ++ stays_by turned }
    ensures loose { loose.new.items ≡ loose.old.items ++ over_by turned }
    ensures room { length halves.new ≤ vec_capacity loose.new - vec_len loose.new }
{
    match turned {
        HalfTurned::Open(p) => halves.push(p),
        HalfTurned::Taken => {}
        HalfTurned::Over(l) => loose.push_reserved(l),
        HalfTurned::NoMemory(p) => {
            halves.push(p);
            return HalvesTurn::NoMemory;
        }
    }
    HalvesTurn::Done
}

/// The first so many halves go behind the others, in their order.
fn turn_round<E: End>(halves: &mut Pendings<E>, count: usize)
    requires within { count ≤ length halves.old }
    requires few { length halves.old ≤ MOST_HALVES }
    ensures { halves.new ≡ drop count halves.old ++ take count halves.old }
{
    'round: for _ in 0..count {
        if let Some(p) = halves.pop() {
            halves.push(p);
        }
    }
}
