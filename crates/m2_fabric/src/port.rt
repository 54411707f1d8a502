//! What opens and accepts sockets for one event thread.

ghost use Rattle.std.specs.Prelude.{◌≡◌, OnOk, OnErr};
ghost use Rattle.m2_edge.specs.Faults.{HasCause};
ghost use Rattle.m2_fabric.specs.Port.{Accepts, Connects, SeenPort, connect_map, taken_map, with_incoming, with_news, with_poll};

use crate::end::{End, News};
use crate::socket::{SocketId, SocketIdList};
use m2_addr::Addr;
use m2_bytes::{Items, NoMemory};
use m2_edge::Failed;

/// What a connect answered.
#[derive(Debug, Drop)]
pub enum Connect<E> {
    /// A new socket is opened, and this is its opener's end.
    Made(E),
    /// It couldn't be opened; the port's count of faults rose.
    Failed,
    NoMemory,
}

/// What an accept answered.
#[derive(Debug, Drop)]
pub enum Taken<E> {
    /// A socket that waited, and this is its acceptor's end.
    Made(E),
    /// No socket waits.
    NotYet,
    /// It couldn't be accepted; the port's count of faults rose.
    Failed,
    NoMemory,
}

/// Ends in order.
pub type EndList<E> = Items<E>;

/// Ports in order.
pub type PortList<P> = Items<P>;

/// After how many bytes a socket that is opened to an address breaks.
#[derive(Clone, Copy, Debug, PartialEq, Eq)]
pub struct Cut {
    pub to: Addr,
    /// Bytes, read and written together.
    pub bytes: u64,
}

/// Cuts in order.
pub type CutList = Items<Cut>;

/// What opens and accepts sockets for one event thread. It tells which sockets it made, and how often a
/// connect and an accept failed.
///
/// Readers: [`made`](Port::made), [`missed`](Port::missed), [`refused`](Port::refused),
/// [`quiet`](Port::quiet). Calls of the event thread: [`connect`](Port::connect),
/// [`accept`](Port::accept), [`poll`](Port::poll); of several of one node, [`leave`](Port::leave), [`join`](Port::join) and
/// [`ring`](Port::ring). [`incoming`](Port::incoming) and
/// [`hear`](Port::hear) are for the driver of ports in memory and do nothing at other ports.
pub trait Port: Drop {
    type End: End;

    /// What contracts see.
    ghost seen: { Self → SeenPort };

    /// The sockets that it made, in order: each that a connect opened or an accept took, once.
    fn made(&self) -> &SocketIdList
        ensures { result.now.items ≡ (seen self.now).made };

    /// How many connects failed.
    fn missed(&self) -> u64
        ensures { result ≡ (seen self.now).missed };

    /// How many accepts failed.
    fn refused(&self) -> u64
        ensures { result ≡ (seen self.now).refused };

    /// Whether the last accept found no socket, or failed.
    fn quiet(&self) -> bool
        ensures { result ≡ (seen self.now).quiet };

    /// Opens a socket to the ip and port of an address.
    fn connect(&mut self, to: &Addr) -> Connect<Self::End>
        ensures { Connects (connect_map Self.End.seen result) to.now (seen self.old) (seen self.new) };

    /// Accepts the socket that waits longest.
    fn accept(&mut self) -> Taken<Self::End>
        ensures { Accepts (taken_map Self.End.seen result) (seen self.old) (seen self.new) };

    /// Waits at most so many milliseconds for something to do, or not at all.
    fn poll(&mut self, most: u32) -> Result<(), Failed>
        ensures causes { HasCause result (seen self.old).faults (seen self.new).faults }
        ensures stays { seen self.new ≡ with_poll (seen self.new).faults (seen self.old) };

    /// Waits no more for what comes at an end: another event thread of the node goes on with it, and has its own port
    /// [`join`](Port::join) it.
    fn leave(&self, end: &mut Self::End)
        ensures { Self.End.seen end.new ≡ Self.End.seen end.old };

    /// Waits from now on for what comes at an end that another port of the node made.
    fn join(&self, end: &mut Self::End)
        ensures { Self.End.seen end.new ≡ Self.End.seen end.old };

    /// Ends the waits of the node's other ports.
    fn ring(&self);

    /// Puts a socket last among those that wait for [`accept`](Port::accept) at a port in memory, unless
    /// the port made it, it waits already, or it doesn't go to the port's own address. Another port
    /// answers Ok and does nothing.
    fn incoming(&mut self, id: SocketId) -> Result<(), NoMemory>
        ensures ok { OnOk result (seen self.new ≡ with_incoming id (seen self.old)) }
        ensures err { OnErr result (seen self.new ≡ seen self.old) };

    /// Tells the end of that socket that waits for [`accept`](Port::accept) of the other side, if it
    /// waits.
    fn hear(&mut self, id: &SocketId, bytes: &[u8], news: News) -> Result<(), NoMemory>
        ensures ok { OnOk result (seen self.new ≡ with_news id.now news bytes.now (seen self.old)) }
        ensures err { OnErr result (seen self.new ≡ seen self.old) };
}
