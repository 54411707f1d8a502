//! Halves at the end of a center.

ghost use Rattle.std.specs.Prelude.{◌≡◌, ℕ, ◌-◌, ◌≤◌, List, length, vec_capacity, vec_len};
ghost use Rattle.m2_fabric.specs.declared.socket.SocketId.{SocketId};
ghost use Rattle.m2_record.specs.RecordNow.{RecordNow};
ghost use Rattle.m2_turn.specs.Halves.{after_leaving, halves_of, sessions_with};
ghost use Rattle.m2_turn.specs.Sessions.{AreConsistent, Supply};

use crate::pending::Pendings;
use m2_fabric::End;
use m2_trail::Loose;

/// Leaves all halves as they are, in order, behind those that are over. Takes no memory.
pub fn leave_all<E: End>(halves: &mut Pendings<E>, loose: &mut Vec<Loose<E>>)
    requires room { length halves.old ≤ vec_capacity loose.old - vec_len loose.old }
    ensures leaves { halves_of halves.new loose.new.items ≡ after_leaving (halves_of halves.old loose.old.items) }
    ensures consistent { (supply : Supply) (entity : ℕ) (made : List SocketId) (records : List RecordNow)
        → AreConsistent supply entity (sessions_with made records (halves_of halves.old loose.old.items))
        → AreConsistent supply entity (sessions_with made records (halves_of halves.new loose.new.items)) }
{
    'leaving: while let Some(pending) = halves.pop() {
        loose.push_reserved(pending.half.leave());
    }
}
