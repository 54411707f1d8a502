//! A port over sockets between threads.

ghost use Rattle.std.specs.Prelude.{◌≡◌, true};
ghost use Rattle.m2_fabric.specs.Port.{Accepts, Connects, connect_map, taken_map};
ghost use Rattle.m2_mem_fabric.specs.Port.{AcceptsNext, ConnectsNext};
ghost use Rattle.m2_ports.specs.Port.{unused_port};

use crate::bells::Bells;
use crate::end::MemEnd;
use crate::line::two_lines;
use crate::network::{Network, Opening, Taking};
use crate::plan::EndPlan;
use m2_addr::Addr;
use m2_bytes::NoMemory;
use m2_edge::Failed;
use m2_fabric::{Connect, End, News, Port, SocketId, SocketIdList, Taken};
use m2_ports::PortBook;
use std::alloc::Global;
use std::marker::Model;
use std::sync::{Arc, Mutex, Wait};

/// The network of a fabric, which all its ports share.
pub(crate) type SharedNetwork<R> = Arc<Mutex<Network<R>>, Global>;

/// A port over sockets between threads. Contracts see what every port shows, and nothing of what waits.
///
/// The first port of a node that listens accepts; another port's accept answers that nothing waits. A
/// connect fails where it is planned, and where nobody listens; an accept and a poll where it is planned.
/// A socket comes from the ip of its opener's node, and a port number that the fabric gives.
///
/// A poll sleeps at a bell that rings when a socket comes to its node, when bytes come to an end of it that
/// had none waiting, and when the other side of such an end is closed. A bell that rang since the last poll
/// ends the next one at once. It never looks again and again.
#[derive(Drop)]
pub struct MemPort<R: Wait + Copy> {
    rt: R,
    alloc: Global,
    network: SharedNetwork<R>,
    node: u32,
    /// Of the node's ports, from 0.
    place: u32,
    bells: Arc<Bells, Global>,
    /// What it accepts from, if it accepts.
    listener: Option<u32>,
    book: PortBook,
}

impl<R: Wait + Copy> Model for MemPort<R> {
    ghost use Rattle.std.specs.Prelude.{◌≡◌, None};
    ghost use Rattle.m2_fabric.specs.Port.{SeenPort};

    ghost Value = { SeenPort };

    ghost view = { λ p. p.book.shows };

    ghost invariant = { λ p. p.book.shows.waiting ≡ None };
}

impl<R: Wait + Copy> MemPort<R> {
    /// The port of a node at a place, from 0, before its first call, that doesn't accept.
    pub(crate) fn new(
        rt: R,
        alloc: Global,
        network: SharedNetwork<R>,
        node: u32,
        place: u32,
        at: Addr,
        bells: Arc<Bells, Global>,
    ) -> MemPort<R>
        ensures { result ≡ unused_port at }
    {
        MemPort {
            rt,
            alloc,
            network,
            node,
            place,
            bells,
            listener: None,
            book: PortBook::new(alloc, at),
        }
    }

    /// Accepts from a listener from now on.
    pub(crate) fn accept_from(&mut self, listener: u32)
        ensures { self.new ≡ record self.old { accepts = true } }
    {
        self.listener = Some(listener);
        self.book.set_accepting();
    }

    /// What it accepts from, if it accepts.
    pub(crate) fn listener(&self) -> Option<u32> {
        self.listener
    }
}

impl<R: Wait + Copy> Port for MemPort<R> {
    type End = MemEnd<R>;

    ghost seen = { λ p. p };

    fn made(&self) -> &SocketIdList {
        self.book.made()
    }

    fn missed(&self) -> u64 {
        self.book.missed()
    }

    fn refused(&self) -> u64 {
        self.book.refused()
    }

    fn quiet(&self) -> bool {
        self.book.quiet()
    }

    fn connect(&mut self, to: &Addr) -> Connect<MemEnd<R>>
        ensures connects { Connects (connect_map ⟦<MemEnd<R> as End>⟧.seen result) to.now self.old self.new }
        ensures exact { ConnectsNext result self.old }
    {
        if self.book.reserve().is_err() {
            return Connect::NoMemory;
        }
        let Ok((line, other)) = two_lines(self.rt, self.alloc, &self.bells) else {
            return Connect::NoMemory;
        };
        let mut network = self.network.lock(&self.rt);
        match network.connect(&mut self.book, self.node, to, other) {
            Opening::Opened(id, plan) => Connect::Made(MemEnd::new(self.alloc, id, line, plan)),
            Opening::Refused => {
                self.book.miss();
                Connect::Failed
            }
            Opening::NoMemory => Connect::NoMemory,
        }
    }

    fn accept(&mut self) -> Taken<MemEnd<R>>
        ensures accepts { Accepts (taken_map ⟦<MemEnd<R> as End>⟧.seen result) self.old self.new }
        ensures exact { AcceptsNext result self.old }
    {
        if self.book.reserve().is_err() {
            return Taken::NoMemory;
        }
        let Ok(bells) = Arc::try_clone(&self.bells) else {
            return Taken::NoMemory;
        };
        let mut network = self.network.lock(&self.rt);
        match network.accept(&mut self.book, self.listener) {
            Taking::Taken(id, line) => {
                line.set_bells(bells);
                self.book.set_quiet(false);
                let plan = EndPlan::none(self.alloc);
                Taken::Made(MemEnd::new(self.alloc, id, line, plan))
            }
            Taking::Nobody => {
                self.book.set_quiet(true);
                Taken::NotYet
            }
            Taking::Refused => {
                self.book.refuse();
                Taken::Failed
            }
        }
    }

    fn poll(&mut self, most: u32) -> Result<(), Failed> {
        if self.network.lock(&self.rt).plan.polls.count() {
            self.book.fault();
            return Err(Failed);
        }
        self.bells.sleep(&self.rt, self.place, most);
        Ok(())
    }

    fn leave(&self, _end: &mut MemEnd<R>) {
        let _ = &self.node;
    }

    fn join(&self, _end: &mut MemEnd<R>) {
        let _ = &self.node;
    }

    fn ring(&self) {
        self.bells.ring();
    }

    fn incoming(&mut self, _id: SocketId) -> Result<(), NoMemory> {
        let _ = &self.node;
        Ok(())
    }

    fn hear(&mut self, _id: &SocketId, _bytes: &[u8], _news: News) -> Result<(), NoMemory> {
        let _ = &self.node;
        Ok(())
    }
}
