//! A port over sockets of the system.

ghost use Rattle.std.specs.Prelude.{◌≡◌, ◌<◌, true, IfOk, MatchOption};
ghost use Rattle.m2_fabric.specs.Port.{Accepts, Connects, connect_map, taken_map};
ghost use Rattle.m2_mio.specs.Port.{AcceptsNext, ConnectsNext, EntersNext};
ghost use Rattle.m2_ports.specs.Port.{unused_port};

use crate::address::ip_and_port;
use crate::end::MioEnd;
use crate::stream::open;
use crate::watch::Watch;
use m2_addr::Addr;
use m2_bytes::NoMemory;
use m2_edge::Failed;
use m2_fabric::{Connect, End, News, Port, SocketId, SocketIdList, Taken};
use m2_ports::PortBook;
use mio::Waker;
use mio::net::{TcpListener, TcpStream};
use std::alloc::Global;
use std::io::{Error, ErrorKind};
use std::marker::Model;
use std::net::Net;
use std::sync::Arc;

/// A port over sockets of the system. Contracts see what every port shows, and nothing of what waits.
///
/// The first port of a node that listens accepts; another port's accept answers that nothing waits. A
/// connect waits for the other side's answer, but no longer than [`CONNECT_WAIT`](crate::CONNECT_WAIT):
/// where there is none by then, a socket is made whose calls answer NotYet, and Failed once it is refused.
/// A port for which the system refused the means of waiting fails at every connect, accept and poll.
///
/// An accept for which there is no descriptor fails, and what waits goes on waiting: the next poll waits no longer than a
/// hundredth of a second, so that it is tried again.
#[derive(Drop)]
pub struct MioPort<R: Copy> {
    rt: R,
    alloc: Global,
    book: PortBook,
    /// None where the system refused it.
    means: Option<Means>,
    listener: Option<TcpListener>,
    /// The last accept wanted a descriptor.
    wanting: bool,
    /// Of each of the node's ports, what ends its waits. None while there is only this one.
    bells: Option<Bells>,
}

/// What ends the waits of a node's ports, one each, in order; None where the system refused it.
pub(crate) type Bells = Arc<Vec<Option<Waker>>, Global>;

/// The system's number for a process that has no more descriptors.
const NO_DESCRIPTOR: i32 = 24;

/// The system's number for having none itself.
const NO_DESCRIPTOR_AT_ALL: i32 = 23;

/// How long a poll waits at most where an accept wanted a descriptor, in milliseconds: the system doesn't tell
/// again of what waits.
const WANTING_WAIT: u32 = 10;

/// What a port waits with: for all of its sockets, and for one that is being opened.
#[derive(Drop)]
struct Means {
    all: Watch,
    dials: Watch,
}

impl<R: Copy> Model for MioPort<R> {
    ghost use Rattle.std.specs.Prelude.{◌≡◌, None};
    ghost use Rattle.m2_fabric.specs.Port.{SeenPort};

    ghost Value = { SeenPort };

    ghost view = { λ p. p.book.shows };

    ghost invariant = { λ p. p.book.shows.waiting ≡ None };
}

/// The means of one port. None where the system refuses them.
fn new_means(net: &impl Net, alloc: Global) -> Result<Option<Means>, NoMemory> {
    match (Watch::new(net, alloc)?, Watch::new(net, alloc)?) {
        (Some(all), Some(dials)) => Ok(Some(Means { all, dials })),
        _ => Ok(None),
    }
}

/// What an accept of the system gave.
#[derive(Drop)]
enum Accepted {
    /// A stream, and the ip and port that it comes from.
    Stream(TcpStream, (u32, u16)),
    Nothing,
    /// There is no descriptor for what waits.
    Wanting,
    Failed,
}

/// Whether an accept wanted a descriptor.
fn wants_descriptor(e: &Error) -> bool {
    match e.raw_os_error() {
        Some(code) => code == NO_DESCRIPTOR || code == NO_DESCRIPTOR_AT_ALL,
        None => false,
    }
}

/// Puts a stream among the sockets that are waited for, and has the system send small pieces at once.
/// Whether the system waits for it.
fn attend(means: &Means, stream: &mut TcpStream) -> bool {
    let _ = stream.set_nodelay(true);
    means.all.add(stream)
}

/// Accepts once, and puts what comes among the sockets that are waited for.
fn accept_once(means: &Option<Means>, listener: &Option<TcpListener>) -> Accepted {
    let (Some(means), Some(listener)) = (means, listener) else {
        return Accepted::Nothing;
    };
    let (mut stream, peer) = match listener.accept() {
        Ok(accepted) => accepted,
        Err(e) if e.kind() == ErrorKind::WouldBlock => return Accepted::Nothing,
        Err(e) if wants_descriptor(&e) => return Accepted::Wanting,
        Err(_) => return Accepted::Failed,
    };
    match ip_and_port(&peer) {
        Some(from) if attend(means, &mut stream) => Accepted::Stream(stream, from),
        _ => Accepted::Failed,
    }
}

/// Opens a stream, and puts it among the sockets that are waited for. None where the system refuses it.
fn connect_once(
    net: &impl Net,
    means: &mut Option<Means>,
    to: &Addr,
) -> Option<(TcpStream, (u32, u16))> {
    let Some(means) = means else {
        return None;
    };
    let Some((mut stream, from)) = open(net, &mut means.dials, to) else {
        return None;
    };
    if attend(means, &mut stream) {
        Some((stream, from))
    } else {
        None
    }
}

/// The end of a stream that came from an ip and a port to an address, as the next socket of these four
/// numbers. None where its turn would pass 32 bits; the stream is closed then.
fn enter(
    book: &mut PortBook,
    alloc: Global,
    stream: TcpStream,
    from: (u32, u16),
    to: &Addr,
) -> Option<MioEnd>
    requires { 0 < book.old.room }
    ensures { MatchOption result (book.new.shows ≡ book.old.shows)
        (λ e. EntersNext e (from.0, from.1, to.now.ip, to.now.port) book.old.shows book.new.shows) }
{
    let id = book.open((from.0, from.1, to.ip, to.port))?;
    Some(MioEnd::new(alloc, id, stream))
}

impl<R: Net + Copy> MioPort<R> {
    /// A port of the node at an address, before its first call, that doesn't accept.
    pub(crate) fn new(rt: R, alloc: Global, at: Addr) -> Result<MioPort<R>, NoMemory>
        ensures { IfOk result (λ p. p ≡ unused_port at) }
    {
        let means = new_means(&rt, alloc)?;
        Ok(MioPort {
            rt,
            alloc,
            book: PortBook::new(alloc, at),
            means,
            listener: None,
            wanting: false,
            bells: None,
        })
    }

    /// Accepts from a listener from now on. Where the system can't wait for it the port fails from now on.
    pub(crate) fn accept_from(&mut self, mut listener: TcpListener)
        ensures { self.new ≡ record self.old { accepts = true } }
    {
        let watched = match &self.means {
            Some(means) => means.all.add(&mut listener),
            None => false,
        };
        if !watched {
            self.means = None;
        }
        self.listener = Some(listener);
        self.book.set_accepting();
    }

    /// What ends its waits. None where the system refuses it.
    pub(crate) fn waker(&self) -> Option<Waker> {
        match &self.means {
            Some(means) => means.all.waker(),
            None => None,
        }
    }

    /// Can ring these from now on.
    pub(crate) fn hang(&mut self, bells: Bells)
        ensures { self.new ≡ self.old }
    {
        self.bells = Some(bells);
    }

    /// Ends the port's use: gives its listener back, and its means of waiting to the system. What it tells
    /// stays.
    pub(crate) fn retire(&mut self) -> Option<TcpListener>
        ensures { self.new ≡ self.old }
    {
        self.means = None;
        self.listener.take()
    }
}

impl<R: Net + Copy> Port for MioPort<R> {
    type End = MioEnd;

    ghost seen = { λ p. p };

    fn made(&self) -> &SocketIdList {
        self.book.made()
    }

    fn missed(&self) -> u64 {
        self.book.missed()
    }

    fn refused(&self) -> u64 {
        self.book.refused()
    }

    fn quiet(&self) -> bool {
        self.book.quiet()
    }

    fn connect(&mut self, to: &Addr) -> Connect<MioEnd>
        ensures connects { Connects (connect_map ⟦<MioEnd as End>⟧.seen result) to.now self.old self.new }
        ensures exact { ConnectsNext result self.old }
    {
        if self.book.reserve().is_err() {
            return Connect::NoMemory;
        }
        let Some((stream, from)) = connect_once(&self.rt, &mut self.means, to) else {
            self.book.miss();
            return Connect::Failed;
        };
        match enter(&mut self.book, self.alloc, stream, from, to) {
            Some(end) => Connect::Made(end),
            None => {
                self.book.miss();
                Connect::Failed
            }
        }
    }

    fn accept(&mut self) -> Taken<MioEnd>
        ensures accepts { Accepts (taken_map ⟦<MioEnd as End>⟧.seen result) self.old self.new }
        ensures exact { AcceptsNext result self.old }
    {
        if self.book.reserve().is_err() {
            return Taken::NoMemory;
        }
        if self.means.is_none() {
            self.book.refuse();
            return Taken::Failed;
        }
        if !self.book.accepts() {
            self.book.set_quiet(true);
            return Taken::NotYet;
        }
        let at = self.book.at();
        self.wanting = false;
        match accept_once(&self.means, &self.listener) {
            Accepted::Stream(stream, from) => {
                match enter(&mut self.book, self.alloc, stream, from, &at) {
                    Some(end) => {
                        self.book.set_quiet(false);
                        Taken::Made(end)
                    }
                    None => {
                        self.book.refuse();
                        Taken::Failed
                    }
                }
            }
            Accepted::Nothing => {
                self.book.set_quiet(true);
                Taken::NotYet
            }
            Accepted::Wanting => {
                self.wanting = true;
                self.book.refuse();
                Taken::Failed
            }
            Accepted::Failed => {
                self.book.refuse();
                Taken::Failed
            }
        }
    }

    fn poll(&mut self, most: u32) -> Result<(), Failed> {
        let most = if self.wanting {
            most.min(WANTING_WAIT)
        } else {
            most
        };
        let waited = match &mut self.means {
            Some(means) => means.all.wait(most),
            None => false,
        };
        if waited {
            return Ok(());
        }
        self.book.fault();
        Err(Failed)
    }

    fn leave(&self, end: &mut MioEnd)
        ensures { ⟦<MioEnd as End>⟧.seen end.new ≡ ⟦<MioEnd as End>⟧.seen end.old }
    {
        if let Some(means) = &self.means {
            end.leave(&means.all);
        }
    }

    fn join(&self, end: &mut MioEnd)
        ensures { ⟦<MioEnd as End>⟧.seen end.new ≡ ⟦<MioEnd as End>⟧.seen end.old }
    {
        if let Some(means) = &self.means {
            end.join(&means.all);
        }
    }

    fn ring(&self) {
        if let Some(bells) = &self.bells {
            ring_all(bells.as_slice());
        }
    }

    fn incoming(&mut self, _id: SocketId) -> Result<(), NoMemory> {
        let _ = &self.alloc;
        Ok(())
    }

    fn hear(&mut self, _id: &SocketId, _bytes: &[u8], _news: News) -> Result<(), NoMemory> {
        let _ = &self.alloc;
        Ok(())
    }
}

/// Ends the waits of all these.
fn ring_all(bells: &[Option<Waker>]) {
    'bells: for bell in bells {
        if let Some(waker) = bell {
            let _ = waker.wake();
        }
    }
}
