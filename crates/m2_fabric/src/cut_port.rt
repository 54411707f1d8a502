//! A port whose ends break.

ghost use Rattle.std.specs.Prelude.{◌≡◌, ◌<◌, length, IfSome};
ghost use Rattle.m2_fabric.specs.CutPort.{AcceptsUncut, ConnectsCut, shown};
ghost use Rattle.m2_fabric.specs.Cuts.{bound_for, is_for, place_of_cut, without_cut};
ghost use Rattle.m2_fabric.specs.Port.{Accepts, Connects, connect_map, taken_map};

use crate::cut_end::CutEnd;
use crate::{Connect, Cut, CutList, End, MemoryPort, News, Port, SocketId, SocketIdList, Taken};
use m2_addr::Addr;
use m2_bytes::NoMemory;
use m2_edge::Failed;
use std::marker::Model;

/// A port that does what another port does, but that its ends break: each connect that opens a socket
/// takes the first cut for its address that isn't taken yet, and every other end has no cut. Contracts
/// see the port inside, and the cuts that aren't taken yet.
#[derive(Drop)]
pub struct CutPort<P: Port> {
    port: P,
    cuts: Vec<Cut>,
}

impl<P: Port> Model for CutPort<P> {
    ghost use Rattle.m2_fabric.specs.CutPort.{Cutting};

    ghost Value = { Cutting };

    ghost view = { λ c. record { inner = P.seen c.port; cuts = c.cuts.items } };
}

impl<P: Port> CutPort<P> {
    /// A port whose sockets get these cuts. Takes no memory.
    pub fn new(port: P, cuts: CutList) -> CutPort<P>
        ensures { result ≡ record { inner = P.seen port; cuts = cuts.items } }
    {
        CutPort {
            port,
            cuts: cuts.into_vec(),
        }
    }

    /// The port inside.
    pub fn into_port(self) -> P
        ensures { P.seen result ≡ self.inner }
    {
        self.port
    }
}

// Whether a cut is for sockets to this address.
fn is_for(to: &Addr, cut: &Cut) -> bool
    ensures { result ≡ is_for to.now cut.now }
{
    cut.to.kind == to.kind
        && cut.to.nonce == to.nonce
        && cut.to.ip == to.ip
        && cut.to.port == to.port
}

// The place of the first cut for an address.
fn place_of_cut(cuts: &[Cut], to: &Addr) -> Option<usize>
    ensures place { result ≡ place_of_cut to.now cuts.now }
    ensures within { IfSome result (λ place. place < length cuts.now) }
{
    cuts.iter().position(|cut| is_for(to, cut))
}

// Takes the first cut for an address out, if there is one, and gives its bound.
fn take_cut(cuts: &mut Vec<Cut>, to: &Addr) -> Option<u64>
    ensures bound { result ≡ bound_for to.now cuts.old.items }
    ensures left { cuts.new.items ≡ without_cut to.now cuts.old.items }
{
    match place_of_cut(cuts.as_slice(), to) {
        None => None,
        Some(place) => Some(cuts.remove(place).bytes),
    }
}

impl<P: Port> Port for CutPort<P> {
    type End = CutEnd<P::End>;

    ghost seen = { shown };

    fn made(&self) -> &SocketIdList {
        self.port.made()
    }

    fn missed(&self) -> u64 {
        self.port.missed()
    }

    fn refused(&self) -> u64 {
        self.port.refused()
    }

    fn quiet(&self) -> bool {
        self.port.quiet()
    }

    fn connect(&mut self, to: &Addr) -> Connect<CutEnd<P::End>>
        ensures connects { Connects (connect_map ⟦<CutEnd<P::End> as End>⟧.seen result) to.now (shown self.old) (shown self.new) }
        ensures exact { ConnectsCut result to.now self.old self.new }
    {
        match self.port.connect(to) {
            Connect::Made(end) => {
                let bound = take_cut(&mut self.cuts, to);
                Connect::Made(CutEnd::new(end, bound))
            }
            Connect::Failed => Connect::Failed,
            Connect::NoMemory => Connect::NoMemory,
        }
    }

    fn accept(&mut self) -> Taken<CutEnd<P::End>>
        ensures accepts { Accepts (taken_map ⟦<CutEnd<P::End> as End>⟧.seen result) (shown self.old) (shown self.new) }
        ensures exact { AcceptsUncut result }
        ensures cuts { self.new.cuts ≡ self.old.cuts }
    {
        match self.port.accept() {
            Taken::Made(end) => Taken::Made(CutEnd::new(end, None)),
            Taken::NotYet => Taken::NotYet,
            Taken::Failed => Taken::Failed,
            Taken::NoMemory => Taken::NoMemory,
        }
    }

    fn poll(&mut self, most: u32) -> Result<(), Failed> {
        self.port.poll(most)
    }

    fn leave(&self, end: &mut CutEnd<P::End>)
        ensures { ⟦<CutEnd<P::End> as End>⟧.seen end.new ≡ ⟦<CutEnd<P::End> as End>⟧.seen end.old }
    {
        self.port.leave(&mut end.end);
    }

    fn join(&self, end: &mut CutEnd<P::End>)
        ensures { ⟦<CutEnd<P::End> as End>⟧.seen end.new ≡ ⟦<CutEnd<P::End> as End>⟧.seen end.old }
    {
        self.port.join(&mut end.end);
    }

    fn ring(&self) {
        self.port.ring();
    }

    fn incoming(&mut self, id: SocketId) -> Result<(), NoMemory> {
        self.port.incoming(id)
    }

    fn hear(&mut self, id: &SocketId, bytes: &[u8], news: News) -> Result<(), NoMemory> {
        self.port.hear(id, bytes, news)
    }
}

impl<P: MemoryPort> MemoryPort for CutPort<P> {
    fn comes_from_home(&self) {
        self.port.comes_from_home();
    }

    fn waits_in_memory(&self) {
        self.port.waits_in_memory();
    }
}
