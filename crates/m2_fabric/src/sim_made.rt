//! The sockets that a port in memory made.

ghost use Rattle.std.specs.Prelude.{◌≡◌, ◌<◌, ◌++◌, ◌∷◌, [], OnOk, vec_capacity, vec_len};
ghost use Rattle.m2_fabric.specs.Newest.{after_raise, noted};
ghost use Rattle.m2_fabric.specs.Port.{greatest, turn_on};
ghost use Rattle.m2_fabric.specs.Sockets.{is_among};

use crate::newest::are_alike;
use crate::{SocketId, SocketIdList, is_among};
use m2_bytes::{Items, NoMemory};
use std::alloc::Global;
use std::marker::Model;

/// The sockets that a port in memory made, in order. Contracts see them, and for how many more there is room.
///
/// Beside them stands the newest of each four numbers, so that neither the next turn nor a socket that is newer is
/// looked for among all.
#[derive(Debug, Drop)]
pub(crate) struct SimMade {
    made: SocketIdList,
    newest: Vec<SocketId>,
}

impl Model for SimMade {
    ghost use Rattle.std.specs.Prelude.{◌-◌, min, vec_capacity, vec_len};
    ghost use Rattle.m2_fabric.specs.Newest.{AreNewest, SeenMade};

    ghost Value = { SeenMade };

    ghost view = { λ m. record { sockets = m.made.items; room = min m.made.room (vec_capacity m.newest - vec_len m.newest) } };

    ghost invariant = { λ m. AreNewest m.newest.items m.made.items };
}

/// The turn of a socket of that path, and 0 of another.
pub(crate) fn turn_on(path: &SocketId, socket: &SocketId) -> u32
    ensures { result ≡ turn_on path.now socket.now }
{
    let first = SocketId { turn: 0, ..*socket };
    if path.is_same(&first) { socket.turn } else { 0 }
}

/// The greatest turn on a path among sockets.
fn greatest_of(path: &SocketId, sockets: &[SocketId]) -> u32
    ensures { result ≡ greatest path.now sockets.now }
{
    sockets
        .iter()
        .fold(0, |most, socket| most.max(turn_on(path, socket)))
}

/// Has a socket stand in the place of the one with the same four numbers, if there is one. Whether there is.
fn raise(newest: &mut [SocketId], id: &SocketId) -> bool
    ensures { after_raise result id.now newest.old newest.new }
{
    match newest.split_first_mut() {
        None => false,
        Some((first, rest)) => {
            if are_alike(first, id) {
                first.turn = first.turn.max(id.turn);
                return true;
            }
            raise(rest, id)
        }
    }
}

/// Has a socket stand among the newest.
fn note(newest: &mut Vec<SocketId>, id: SocketId)
    requires { vec_len newest.old < vec_capacity newest.old }
    ensures { newest.new.items ≡ noted id newest.old.items }
{
    if !raise(newest.as_mut_slice(), &id) {
        newest.push_reserved(id);
    }
}

impl SimMade {
    /// None so far. Takes no memory.
    pub(crate) fn empty(alloc: Global) -> SimMade
        ensures { result.sockets ≡ [] }
    {
        SimMade {
            made: Items::empty(alloc),
            newest: Vec::new(alloc),
        }
    }

    /// The sockets in order.
    pub(crate) fn list(&self) -> &SocketIdList
        ensures { result.now.items ≡ self.now.sockets }
    {
        &self.made
    }

    /// The greatest turn on a path.
    pub(crate) fn greatest(&self, path: &SocketId) -> u32
        ensures { result ≡ greatest path.now self.now.sockets }
    {
        greatest_of(path, self.newest.as_slice())
    }

    /// Whether a socket is among them.
    #[tactic(auto, using(crate::proofs::Turns::above_is_new))]
    pub(crate) fn has(&self, id: &SocketId) -> bool
        ensures { result ≡ is_among id.now self.now.sockets }
    {
        let path = SocketId { turn: 0, ..*id };
        if self.greatest(&path) < id.turn {
            return false;
        }
        is_among(id, self.made.as_slice())
    }

    /// Makes room for one more. On Err they are unchanged.
    pub(crate) fn reserve(&mut self) -> Result<(), NoMemory>
        ensures same { self.new.sockets ≡ self.old.sockets }
        ensures room { OnOk result (0 < self.new.room) }
    {
        self.made.reserve(1)?;
        self.newest.reserve(1)?;
        Ok(())
    }

    /// Puts a socket last, in the room that is there.
    #[tactic(auto, using(crate::proofs::Turns::newest_more))]
    pub(crate) fn push(&mut self, id: SocketId)
        requires { 0 < self.old.room }
        ensures { self.new.sockets ≡ self.old.sockets ++ id ∷ [] }
    {
        self.made.push_reserved(id);
        note(&mut self.newest, id);
    }
}
