//! The newest of the sockets between two nodes.

ghost use Rattle.std.specs.Prelude.{◌≡◌, ◌↔◌, ◌<◌, IsTrue};
ghost use Rattle.m2_fabric.specs.Newest.{are_alike, newest_of, newest_turn, with_turn};

use crate::SocketId;

/// Of some sockets, the greatest turn of those with the same four numbers as the first one, and that of the others. Two
/// nodes have two kinds of sockets, so a socket that comes newly is newer than all of its kind, and isn't looked for.
#[derive(Clone, Copy, Debug, PartialEq, Eq)]
pub(crate) struct Newest {
    first: SocketId,
    alike: u32,
    others: u32,
}

/// Whether two sockets have the same four numbers.
pub(crate) fn are_alike(a: &SocketId, b: &SocketId) -> bool
    ensures { result ≡ are_alike a.now b.now }
{
    a.from_ip == b.from_ip
        && a.from_port == b.from_port
        && a.to_ip == b.to_ip
        && a.to_port == b.to_port
}

impl Newest {
    /// Of one socket.
    pub(crate) fn of(id: &SocketId) -> Newest
        ensures { result ≡ newest_of id.now }
    {
        Newest {
            first: *id,
            alike: id.turn,
            others: 0,
        }
    }

    /// Whether a socket is newer than all of its kind.
    pub(crate) fn is_before(&self, id: &SocketId) -> bool
        ensures { IsTrue result ↔ (newest_turn self.now id.now < id.now.turn) }
    {
        let most = if are_alike(&self.first, id) {
            self.alike
        } else {
            self.others
        };
        most < id.turn
    }

    /// Of one socket more.
    pub(crate) fn raised(&self, id: &SocketId) -> Newest
        ensures { result ≡ with_turn id.now self.now }
    {
        if are_alike(&self.first, id) {
            Newest {
                alike: self.alike.max(id.turn),
                ..*self
            }
        } else {
            Newest {
                others: self.others.max(id.turn),
                ..*self
            }
        }
    }
}
