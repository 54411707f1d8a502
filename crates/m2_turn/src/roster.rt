//! Which record an address leads to.

ghost use Rattle.std.specs.Prelude.{◌≡◌, [], ◌∷◌, ◌++◌, false, position, OnOk, OnErr};
ghost use Rattle.std.specs.List.{list_any};
ghost use Rattle.m2_handshake.specs.Asks.{same_addr};

use indexmap::IndexSet;
use m2_addr::Addr;
use m2_bytes::NoMemory;
use std::alloc::Global;
use std::marker::Model;

/// The addresses of the peers of a center's records, each once, in the order of the records: by it the record
/// of an address is found without a look at the others. Contracts see the list.
///
/// Maker: [`new`](Roster::new). In: [`add`](Roster::add). Look: [`find`](Roster::find).
#[derive(Drop)]
pub struct Roster {
    peers: IndexSet<Addr>,
}

impl Model for Roster {
    ghost use Rattle.std.specs.Prelude.{List};
    ghost use Rattle.m2_addr.specs.declared.addr.Addr.{Addr};

    ghost Value = { List Addr };

    ghost view = { λ r. r.peers.keys };
}

impl Roster {
    /// No address. Takes no memory.
    pub fn new(alloc: Global) -> Roster
        ensures { result ≡ [] }
    {
        Roster {
            peers: IndexSet::new(alloc),
        }
    }

    /// An address that isn't there goes last. Err is want of memory, and leaves all as it was.
    pub fn add(&mut self, peer: Addr) -> Result<(), NoMemory>
        requires { list_any (same_addr peer) self.old ≡ false }
        ensures ok { OnOk result (self.new ≡ self.old ++ peer ∷ []) }
        ensures err { OnErr result (self.new ≡ self.old) }
    {
        match self.peers.insert(peer) {
            Ok(_) => Ok(()),
            Err(_) => Err(NoMemory),
        }
    }

    /// The place of an address, in the order of the adds; none exactly where it isn't there.
    pub fn find(&self, peer: &Addr) -> Option<usize>
        ensures { result ≡ position (same_addr peer.now) self.now }
    {
        self.peers.get_index_of(peer)
    }
}
