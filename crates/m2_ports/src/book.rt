//! What a port keeps of itself.

ghost use Rattle.std.specs.Prelude.{◌≡◌, ◌<◌, true, IfSome, MatchOption, OnOk};
ghost use Rattle.m2_ports.specs.Made.{four_of, next_socket};
ghost use Rattle.m2_ports.specs.Port.{MakesNext, after_fault, after_miss, after_refusal, unused_port};

use crate::made::{FourNumbers, MadeSockets};
use m2_addr::Addr;
use m2_bytes::NoMemory;
use m2_edge::Count;
use m2_fabric::{SocketId, SocketIdList};
use std::alloc::Global;
use std::marker::Model;

/// What a port keeps of itself: the address at which its node listens and whether it accepts there, the
/// sockets that it made, and what its calls answered. Contracts see what the port tells, which is nothing
/// of what waits, and for how many more sockets there is room.
///
/// Makers: [`new`](PortBook::new). Readers: [`at`](PortBook::at), [`accepts`](PortBook::accepts),
/// [`made`](PortBook::made), [`missed`](PortBook::missed), [`refused`](PortBook::refused),
/// [`quiet`](PortBook::quiet), [`next`](PortBook::next). A socket is made by
/// [`reserve`](PortBook::reserve) and then [`open`](PortBook::open) or [`enter`](PortBook::enter). What
/// failed is counted by [`miss`](PortBook::miss), [`refuse`](PortBook::refuse) and
/// [`fault`](PortBook::fault).
#[derive(Drop)]
pub struct PortBook {
    at: Addr,
    accepts: bool,
    made: MadeSockets,
    missed: Count,
    refused: Count,
    quiet: bool,
    faults: Count,
}

impl Model for PortBook {
    ghost use Rattle.std.specs.Prelude.{None, []};
    ghost use Rattle.m2_ports.specs.Port.{Book};

    ghost Value = { Book };

    ghost view = { λ p. record {
      shows = record {
        at = p.at;
        accepts = p.accepts;
        made = p.made.sockets;
        missed = p.missed;
        refused = p.refused;
        quiet = p.quiet;
        faults = p.faults;
        cuts = [];
        waiting = None;
      };
      room = p.made.room;
    } };
}

impl PortBook {
    /// Of a port of the node at an address, before its first call, that doesn't accept. Takes no memory.
    pub fn new(alloc: Global, at: Addr) -> PortBook
        ensures { result.shows ≡ unused_port at }
    {
        PortBook {
            at,
            accepts: false,
            made: MadeSockets::empty(alloc),
            missed: Count::new(),
            refused: Count::new(),
            quiet: false,
            faults: Count::new(),
        }
    }

    /// The address at which the node listens.
    pub fn at(&self) -> Addr
        ensures { result ≡ self.now.shows.at }
    {
        self.at
    }

    /// Whether the port accepts.
    pub fn accepts(&self) -> bool
        ensures { result ≡ self.now.shows.accepts }
    {
        self.accepts
    }

    /// The sockets that it made, in order.
    pub fn made(&self) -> &SocketIdList
        ensures { result.now.items ≡ self.now.shows.made }
    {
        self.made.list()
    }

    /// How many connects failed.
    pub fn missed(&self) -> u64
        ensures { result ≡ self.now.shows.missed }
    {
        self.missed.get()
    }

    /// How many accepts failed.
    pub fn refused(&self) -> u64
        ensures { result ≡ self.now.shows.refused }
    {
        self.refused.get()
    }

    /// Whether the last accept found no socket, or failed.
    pub fn quiet(&self) -> bool
        ensures { result ≡ self.now.shows.quiet }
    {
        self.quiet
    }

    /// The port accepts from now on.
    pub fn set_accepting(&mut self)
        ensures { self.new.shows ≡ record self.old.shows { accepts = true } }
    {
        self.accepts = true;
    }

    /// Notes whether the last accept found no socket. Room stays.
    pub fn set_quiet(&mut self, quiet: bool)
        ensures { self.new ≡ record self.old { shows = record self.old.shows { quiet = quiet } } }
    {
        self.quiet = quiet;
    }

    /// Makes room for one more socket.
    pub fn reserve(&mut self) -> Result<(), NoMemory>
        ensures same { self.new.shows ≡ self.old.shows }
        ensures room { OnOk result (0 < self.new.room) }
    {
        self.made.reserve()
    }

    /// The next socket of these four numbers. None where its turn would pass 32 bits.
    pub fn next(&self, four: FourNumbers) -> Option<SocketId>
        ensures { IfSome result (λ id. id ≡ next_socket four self.now.shows.made) }
    {
        self.made.next(four)
    }

    /// Puts a socket last that is the next one of its four numbers.
    pub fn enter(&mut self, id: SocketId)
        requires room { 0 < self.old.room }
        requires next { id ≡ next_socket (four_of id) self.old.shows.made }
        ensures { MakesNext id self.old.shows self.new.shows }
    {
        self.made.enter(id);
    }

    /// Makes the next socket of these four numbers, and puts it last. None where its turn would pass 32
    /// bits; all is as before then.
    pub fn open(&mut self, four: FourNumbers) -> Option<SocketId>
        requires { 0 < self.old.room }
        ensures next { IfSome result (λ id. id ≡ next_socket four self.old.shows.made) }
        ensures made { MatchOption result (self.new.shows ≡ self.old.shows)
            (λ id. MakesNext id self.old.shows self.new.shows) }
    {
        let id = self.next(four)?;
        self.enter(id);
        Some(id)
    }

    /// Counts a connect that failed.
    pub fn miss(&mut self)
        ensures { self.new.shows ≡ after_miss self.old.shows }
    {
        self.missed.add();
        self.faults.add();
    }

    /// Counts an accept that failed.
    pub fn refuse(&mut self)
        ensures { self.new.shows ≡ after_refusal self.old.shows }
    {
        self.refused.add();
        self.quiet = true;
        self.faults.add();
    }

    /// Counts a poll that failed.
    pub fn fault(&mut self)
        ensures { self.new.shows ≡ after_fault self.old.shows }
    {
        self.faults.add();
    }
}
