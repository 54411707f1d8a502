//! Sockets by their names.

ghost use Rattle.std.specs.Prelude.{◌≡◌};
ghost use Rattle.m2_fabric.specs.Sockets.{goes_to, is_among, same_socket};

use m2_addr::Addr;
use m2_bytes::Items;

/// A socket: its opener's ip and port, its acceptor's, and its turn, which counts the sockets of the
/// same four numbers from 1, at the opener and at the acceptor alike.
#[derive(Clone, Copy, Debug, PartialEq, Eq)]
pub struct SocketId {
    pub from_ip: u32,
    pub from_port: u16,
    pub to_ip: u32,
    pub to_port: u16,
    pub turn: u32,
}

/// Sockets in order.
pub type SocketIdList = Items<SocketId>;

impl SocketId {
    /// Whether the two names are those of one socket.
    pub fn is_same(&self, other: &SocketId) -> bool
        ensures { result ≡ same_socket self.now other.now }
    {
        self.from_ip == other.from_ip
            && self.from_port == other.from_port
            && self.to_ip == other.to_ip
            && self.to_port == other.to_port
            && self.turn == other.turn
    }

    /// Whether the socket goes to the ip and port of this address.
    pub fn goes_to(&self, at: &Addr) -> bool
        ensures { result ≡ goes_to at.now self.now }
    {
        self.to_ip == at.ip && self.to_port == at.port
    }
}

/// Whether a socket is one of these.
pub fn is_among(socket: &SocketId, sockets: &[SocketId]) -> bool
    ensures { result ≡ is_among socket.now sockets.now }
{
    sockets.iter().any(|other| socket.is_same(other))
}
