//! The sockets that a port made, and their turns.

ghost use Rattle.std.specs.Prelude.{◌≡◌, ◌<◌, ◌++◌, ◌∷◌, [], OnOk, IfSome};
ghost use Rattle.m2_fabric.specs.Sockets.{IsNewTo};
ghost use Rattle.m2_ports.specs.Made.{four_of, next_socket};

use m2_bytes::{Items, NoMemory};
use m2_fabric::{SocketId, SocketIdList};
use std::alloc::Global;
use std::collections::HashMap;
use std::marker::Model;

/// What the sockets of one count have in common: the opener's ip and port, and the acceptor's.
pub type FourNumbers = (u32, u16, u32, u16);

/// The sockets that a port made, in order, and how many there are of the same four numbers. Contracts see
/// the sockets, and for how many more there is room.
#[derive(Drop)]
pub struct MadeSockets {
    made: SocketIdList,
    counts: HashMap<FourNumbers, u32>,
}

impl Model for MadeSockets {
    ghost use Rattle.std.specs.Prelude.{min};
    ghost use Rattle.std.specs.HashMap.{spare};
    ghost use Rattle.m2_ports.specs.Made.{AreCounted, Made};

    ghost Value = { Made };

    ghost view = { λ m. record { sockets = m.made.items; room = min m.made.room (spare m.counts) } };

    ghost invariant = { λ m. AreCounted m.made.items m.counts.entries };
}

/// The four numbers of a socket.
fn four_of(id: &SocketId) -> FourNumbers
    ensures { result ≡ four_of id.now }
{
    (id.from_ip, id.from_port, id.to_ip, id.to_port)
}

impl MadeSockets {
    /// None so far. Takes no memory.
    pub fn empty(alloc: Global) -> MadeSockets
        ensures { result.sockets ≡ [] }
    {
        MadeSockets {
            made: Items::empty(alloc),
            counts: HashMap::new(alloc),
        }
    }

    /// The sockets in order.
    pub fn list(&self) -> &SocketIdList
        ensures { result.now.items ≡ self.now.sockets }
    {
        &self.made
    }

    /// Makes room for one more.
    pub fn reserve(&mut self) -> Result<(), NoMemory>
        ensures same { self.new.sockets ≡ self.old.sockets }
        ensures room { OnOk result (0 < self.new.room) }
    {
        self.made.reserve(1)?;
        self.counts.reserve(1)?;
        Ok(())
    }

    /// The next socket of these four numbers: its turn is one above the count of those before. None where
    /// it would pass 32 bits.
    pub fn next(&self, four: FourNumbers) -> Option<SocketId>
        ensures { IfSome result (λ id. id ≡ next_socket four self.now.sockets) }
    {
        let count = self.counts.get(&four).copied().unwrap_or(0);
        let Some(turn) = count.checked_add(1) else {
            return None;
        };
        Some(SocketId {
            from_ip: four.0,
            from_port: four.1,
            to_ip: four.2,
            to_port: four.3,
            turn,
        })
    }

    /// Puts a socket last that is the next one of its four numbers. None of those before is the same.
    pub fn enter(&mut self, id: SocketId)
        requires room { 0 < self.old.room }
        requires next { id ≡ next_socket (four_of id) self.old.sockets }
        ensures first { IsNewTo self.old.sockets id }
        ensures last { self.new.sockets ≡ self.old.sockets ++ id ∷ [] }
    {
        match self.counts.insert(four_of(&id), id.turn) {
            Ok(_) => {}
            Err(_) => unreachable!(),
        }
        self.made.push_reserved(id);
    }
}
