//! Who hears a frame.

use m2_addr::Addr;
use m2_policy::Policy;
use m2_session::Phase;

/// The side that reads a feed, as far as it decides what a frame says to it.
#[derive(Clone, Copy, Debug)]
pub struct Hearer {
    /// Where its session stands.
    pub phase: Phase,
    /// The address of the peer, and the policy towards it.
    pub peer: Addr,
    pub policy: Policy,
    /// The number of the last message that it accepted.
    pub last: u64,
    /// The greatest number that it has written.
    pub written: u64,
    /// Up to where the peer has acknowledged.
    pub acknowledged: u64,
}
