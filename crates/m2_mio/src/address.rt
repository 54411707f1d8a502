//! Addresses of entities as the system's, and back.

ghost use Rattle.std.specs.Prelude.{◌≡◌};
ghost use Rattle.std.specs.Net.Socket.{socket_port};
ghost use Rattle.m2_mio.specs.Address.{ip_and_port};

use m2_addr::Addr;
use std::net::{Ipv4Addr, SocketAddr, SocketAddrV4};

/// The system's address of this ip and port.
pub(crate) fn system_addr(at: &Addr) -> SocketAddr
    ensures { ip_and_port result ≡ Some (at.now.ip, at.now.port) }
{
    SocketAddr::V4(SocketAddrV4::new(Ipv4Addr::from_bits(at.ip), at.port))
}

/// The ip and port of the system's address; none exactly where it isn't an IPv4 address.
pub(crate) fn ip_and_port(addr: &SocketAddr) -> Option<(u32, u16)>
    ensures { result ≡ ip_and_port addr.now }
{
    match addr {
        SocketAddr::V4(v4) => Some((v4.ip().to_bits(), v4.port())),
        SocketAddr::V6(_) => None,
    }
}
