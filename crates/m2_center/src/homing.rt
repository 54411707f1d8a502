//! Which event thread of a node a peer belongs to.

ghost use Rattle.std.specs.Prelude.{◌≡◌, ◌<◌};
ghost use Rattle.m2_center.specs.Home.{home_of};

use m2_addr::Addr;

/// At which of a node's event threads, counted from 0, the record towards this peer is at home: the port and the nonce
/// of its address together, modulo how many there are.
pub fn home(peer: &Addr, centers: u32) -> u32
    requires { 0 < centers }
    ensures { result ≡ home_of peer.now centers }
{
    ((u64::from(peer.port) + u64::from(peer.nonce)) % u64::from(centers)) as u32
}
