//! A port in memory.

ghost use Rattle.std.specs.Prelude.{◌≡◌, ◌==◌, ◌++◌, ◌∷◌, [], fold, max, IfSome, MatchOption, IsOk, OnOk, OnErr};
ghost use Rattle.std.specs.List.{list_any};
ghost use Rattle.m2_fabric.specs.End.{after_news};
ghost use Rattle.m2_fabric.specs.Port.{Accepts, Connects, connect_map, fresh_port, greatest, ids, one_hears, path, socket_after, taken_map, turn_on};
ghost use Rattle.m2_fabric.specs.Sockets.{same_socket};

use crate::sim_end::SimEnd;
use crate::sim_made::{SimMade, turn_on};
use crate::{Connect, End, MemoryPort, News, Port, SocketId, SocketIdList, Taken, are_in_memory};
use m2_addr::Addr;
use m2_bytes::NoMemory;
use m2_edge::Failed;
use std::alloc::Global;
use std::marker::Model;

/// A port in memory, a plain value. Its sockets come from its address. Contracts see what every port
/// shows.
///
/// A connect always opens a socket, where there is memory. What comes to its address is told by
/// [`incoming`](Port::incoming), and the other side of what waits by [`hear`](Port::hear).
#[derive(Debug, Drop)]
pub struct SimPort {
    alloc: Global,
    at: Addr,
    made: SimMade,
    waiting: Vec<SimEnd>,
    quiet: bool,
}

impl Model for SimPort {
    ghost use Rattle.std.specs.Prelude.{Some, true, []};
    ghost use Rattle.m2_fabric.specs.Port.{SeenPort};
    ghost use Rattle.m2_fabric.specs.SimPort.{IsSimPort};

    ghost Value = { SeenPort };

    ghost view = { λ p. record {
      at = p.at;
      accepts = true;
      made = p.made.sockets;
      missed = 0;
      refused = 0;
      quiet = p.quiet;
      faults = 0;
      cuts = [];
      waiting = Some p.waiting.items;
    } };

    ghost invariant = { λ p. IsSimPort p.at p.made.sockets p.waiting.items };
}

impl SimPort {
    /// A port of the node at this address, before its first call. Takes no memory.
    pub fn new(alloc: Global, at: Addr) -> SimPort
        ensures { result ≡ fresh_port at }
    {
        SimPort {
            alloc,
            at,
            made: SimMade::empty(alloc),
            waiting: Vec::new(alloc),
            quiet: false,
        }
    }
}

// What the sockets from here to there have in common.
fn path(from: &Addr, to: &Addr) -> SocketId
    ensures { result ≡ path from.now to.now }
{
    SocketId {
        from_ip: from.ip,
        from_port: from.port,
        to_ip: to.ip,
        to_port: to.port,
        turn: 0,
    }
}

// The greatest turn on a path among the sockets of ends, at least the given one.
fn greatest_waiting(path: &SocketId, least: u32, ends: &[SimEnd]) -> u32
    ensures { result ≡ fold (λ most e. max most (turn_on path.now e.id)) least ends.now }
{
    ends.iter()
        .fold(least, |most, end| most.max(turn_on(path, &end.id())))
}

// The greatest turn on a path among the sockets that were made and those that wait.
#[tactic(auto, using(crate::proofs::Turns::greatest_of_both))]
fn greatest(path: &SocketId, made: &SimMade, ends: &[SimEnd]) -> u32
    ensures { result ≡ greatest path.now (made.now.sockets ++ ids ends.now) }
{
    let most = made.greatest(path);
    greatest_waiting(path, most, ends)
}

// The next socket from here to there, after those that were made and those that wait; none where its turn
// would pass 32 bits.
fn next_socket(from: &Addr, to: &Addr, made: &SimMade, ends: &[SimEnd]) -> Option<SocketId>
    ensures { IfSome result (λ id. id ≡ socket_after (made.now.sockets ++ ids ends.now) from.now to.now) }
{
    let path = path(from, to);
    let Some(turn) = greatest(&path, made, ends).checked_add(1) else {
        return None;
    };
    Some(SocketId { turn, ..path })
}

// Whether an end of that socket is among some.
fn waits(id: &SocketId, ends: &[SimEnd]) -> bool
    ensures { result ≡ list_any (λ e. same_socket id.now e.id) ends.now }
{
    ends.iter().any(|end| id.is_same(&end.id()))
}

// Tells the first end of that socket, if there is one.
fn one_hears(ends: &mut [SimEnd], id: &SocketId, bytes: &[u8], news: News) -> Result<(), NoMemory>
    ensures ok { OnOk result (ends.new ≡ one_hears id.now (after_news news bytes.now) ends.old) }
    ensures err { OnErr result (ends.new ≡ ends.old) }
{
    match ends.split_first_mut() {
        None => Ok(()),
        Some((first, rest)) => {
            if id.is_same(&first.id()) {
                first.hear(bytes, news)
            } else {
                one_hears(rest, id, bytes, news)
            }
        }
    }
}

// The same in a vector.
fn first_hears(
    ends: &mut Vec<SimEnd>,
    id: &SocketId,
    bytes: &[u8],
    news: News,
) -> Result<(), NoMemory>
    ensures ok { OnOk result (ends.new.items ≡ one_hears id.now (after_news news bytes.now) ends.old.items) }
    ensures err { OnErr result (ends.new.items ≡ ends.old.items) }
{
    one_hears(ends.as_mut_slice(), id, bytes, news)
}

// Takes out the first end, if there is one.
#[tactic(auto, using(crate::proofs::Waits::first_removed))]
fn take_first(ends: &mut Vec<SimEnd>) -> Option<SimEnd>
    ensures { MatchOption result ((ends.old.items ≡ []) × (ends.new.items ≡ [])) (λ e. ends.old.items ≡ e ∷ ends.new.items) }
{
    if ends.is_empty() {
        return None;
    }
    Some(ends.remove(0))
}

impl Port for SimPort {
    type End = SimEnd;

    ghost seen = { λ p. p };

    fn made(&self) -> &SocketIdList {
        self.made.list()
    }

    fn missed(&self) -> u64 {
        let _ = &self.quiet;
        0
    }

    fn refused(&self) -> u64 {
        let _ = &self.quiet;
        0
    }

    fn quiet(&self) -> bool {
        self.quiet
    }

    #[tactic(auto, using(crate::proofs::Waits::opened_stays, crate::proofs::Waits::opened_is_new))]
    fn connect(&mut self, to: &Addr) -> Connect<SimEnd>
        ensures { Connects (connect_map ⟦<SimEnd as End>⟧.seen result) to.now self.old self.new }
    {
        let Some(id) = next_socket(&self.at, to, &self.made, self.waiting.as_slice()) else {
            return Connect::NoMemory;
        };
        if self.made.reserve().is_err() {
            return Connect::NoMemory;
        }
        self.made.push(id);
        Connect::Made(SimEnd::new(self.alloc, id))
    }

    #[tactic(auto, using(crate::proofs::Waits::accepted_stays, crate::proofs::Waits::accepted_is_new))]
    fn accept(&mut self) -> Taken<SimEnd>
        ensures { Accepts (taken_map ⟦<SimEnd as End>⟧.seen result) self.old self.new }
    {
        if self.made.reserve().is_err() {
            return Taken::NoMemory;
        }
        let Some(end) = take_first(&mut self.waiting) else {
            self.quiet = true;
            return Taken::NotYet;
        };
        self.made.push(end.id());
        self.quiet = false;
        Taken::Made(end)
    }

    fn poll(&mut self, _most: u32) -> Result<(), Failed>
        ensures same { self.new ≡ self.old }
        ensures ok { IsOk result }
    {
        Ok(())
    }

    fn leave(&self, _end: &mut SimEnd) {
        let _ = &self.quiet;
    }

    fn join(&self, _end: &mut SimEnd) {
        let _ = &self.quiet;
    }

    fn ring(&self) {
        let _ = &self.quiet;
    }

    fn incoming(&mut self, id: SocketId) -> Result<(), NoMemory> {
        if id.goes_to(&self.at) && !self.made.has(&id) && !waits(&id, self.waiting.as_slice()) {
            self.waiting.push(SimEnd::new(self.alloc, id))?;
        }
        Ok(())
    }

    fn hear(&mut self, id: &SocketId, bytes: &[u8], news: News) -> Result<(), NoMemory> {
        first_hears(&mut self.waiting, id, bytes, news)
    }
}

impl MemoryPort for SimPort {
    fn comes_from_home(&self) {
        let _ = &self.made;
    }

    fn waits_in_memory(&self) {
        are_in_memory(self.waiting.as_slice());
    }
}
