//! The port of a node of a run.

ghost use Rattle.std.specs.Prelude.{◌≡◌, [], None, Some};
ghost use Rattle.m2_fabric.specs.Port.{Accepts, Connects, connect_map, taken_map};
ghost use Rattle.m2_node.specs.Ports.{seen_port};

use crate::end::{EndKind, RunEnd};
use m2_addr::Addr;
use m2_bytes::NoMemory;
use m2_edge::Failed;
use m2_fabric::{Connect, CutPort, End, News, Port, SocketId, SocketIdList, Taken};
use std::alloc::Global;
use std::marker::Model;

/// A port of the fabric, whose sockets break where lines cut them; or that of a node that is off, which makes nothing.
/// Contracts see its address and the port.
#[derive(Drop)]
pub struct RunPort<P: Port> {
    at: Addr,
    port: Option<CutPort<P>>,
    /// What one of a node that is off has made: nothing.
    none: SocketIdList,
}

impl<P: Port> Model for RunPort<P> {
    ghost use Rattle.std.specs.Prelude.{◌≡◌, []};
    ghost use Rattle.m2_node.specs.Ports.{PortNow};

    ghost Value = { PortNow };

    ghost view = { λ p. record { at = p.at; port = p.port } };

    ghost invariant = { λ p. p.none.items ≡ [] };
}

impl<P: Port> RunPort<P> {
    /// A port of the fabric, of a node at this address.
    pub(crate) fn on(alloc: Global, at: Addr, port: CutPort<P>) -> RunPort<P>
        ensures { result ≡ record { at = at; port = Some port } }
    {
        RunPort {
            at,
            port: Some(port),
            none: SocketIdList::empty(alloc),
        }
    }

    /// That of a node that is off.
    pub(crate) fn off(alloc: Global, at: Addr) -> RunPort<P>
        ensures { result ≡ record { at = at; port = None } }
    {
        RunPort {
            at,
            port: None,
            none: SocketIdList::empty(alloc),
        }
    }

    /// The fabric's port, if it is one.
    pub fn into_port(self) -> Option<CutPort<P>>
        ensures { result ≡ self.port }
    {
        self.port
    }
}

impl<P: Port> Port for RunPort<P> {
    type End = RunEnd<P::End>;

    ghost seen = { seen_port };

    fn made(&self) -> &SocketIdList {
        match &self.port {
            Some(port) => port.made(),
            None => &self.none,
        }
    }

    fn missed(&self) -> u64 {
        match &self.port {
            Some(port) => port.missed(),
            None => 0,
        }
    }

    fn refused(&self) -> u64 {
        match &self.port {
            Some(port) => port.refused(),
            None => 0,
        }
    }

    fn quiet(&self) -> bool {
        match &self.port {
            Some(port) => port.quiet(),
            None => false,
        }
    }

    fn connect(&mut self, to: &Addr) -> Connect<RunEnd<P::End>>
        ensures { Connects (connect_map ⟦<RunEnd<P::End> as End>⟧.seen result) to.now (seen_port self.old) (seen_port self.new) }
    {
        match &mut self.port {
            Some(port) => match port.connect(to) {
                Connect::Made(end) => Connect::Made(RunEnd::cut(end)),
                Connect::Failed => Connect::Failed,
                Connect::NoMemory => Connect::NoMemory,
            },
            None => Connect::NoMemory,
        }
    }

    fn accept(&mut self) -> Taken<RunEnd<P::End>>
        ensures { Accepts (taken_map ⟦<RunEnd<P::End> as End>⟧.seen result) (seen_port self.old) (seen_port self.new) }
    {
        match &mut self.port {
            Some(port) => match port.accept() {
                Taken::Made(end) => Taken::Made(RunEnd::cut(end)),
                Taken::NotYet => Taken::NotYet,
                Taken::Failed => Taken::Failed,
                Taken::NoMemory => Taken::NoMemory,
            },
            None => Taken::NoMemory,
        }
    }

    fn poll(&mut self, most: u32) -> Result<(), Failed> {
        match &mut self.port {
            Some(port) => port.poll(most),
            None => Ok(()),
        }
    }

    fn leave(&self, end: &mut RunEnd<P::End>)
        ensures { ⟦<RunEnd<P::End> as End>⟧.seen end.new ≡ ⟦<RunEnd<P::End> as End>⟧.seen end.old }
    {
        if let (Some(port), EndKind::Cut(end)) = (&self.port, &mut end.kind) {
            port.leave(end);
        }
    }

    fn join(&self, end: &mut RunEnd<P::End>)
        ensures { ⟦<RunEnd<P::End> as End>⟧.seen end.new ≡ ⟦<RunEnd<P::End> as End>⟧.seen end.old }
    {
        if let (Some(port), EndKind::Cut(end)) = (&self.port, &mut end.kind) {
            port.join(end);
        }
    }

    fn ring(&self) {
        if let Some(port) = &self.port {
            port.ring();
        }
    }

    fn incoming(&mut self, id: SocketId) -> Result<(), NoMemory> {
        match &mut self.port {
            Some(port) => port.incoming(id),
            None => Ok(()),
        }
    }

    fn hear(&mut self, id: &SocketId, bytes: &[u8], news: News) -> Result<(), NoMemory> {
        match &mut self.port {
            Some(port) => port.hear(id, bytes, news),
            None => Ok(()),
        }
    }
}
