//! Which of two connects that cross is kept.

ghost use Rattle.std.specs.Prelude.{◌≡◌};
ghost use Rattle.m2_policy.specs.Race as race;

use m2_addr::{Addr, AddrOrder};

/// Whether the peer's connect is kept where both have connected: the peer has the lower address in
/// this node's order, or this node is a server and doesn't connect itself. Ceph compares addresses
/// too; the order is a rule of the node ([`Rules`](crate::Rules)).
pub fn wins(order: AddrOrder, peer: &Addr, mine: &Addr, server: bool) -> bool
    ensures { result ≡ race.wins order peer.now mine.now server }
{
    peer.is_below_in(order, mine) || server
}
