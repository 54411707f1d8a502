//! The policies of a link's ends.

ghost use Rattle.std.specs.Prelude.{◌≡◌, IsTrue, ◌↔◌};
ghost use Rattle.m2_policy.specs.Policy as policies;
ghost use Rattle.m2_policy.specs.Policy.{allows};

/// How a node treats its sessions with one other node (Ceph's `Messenger::Policy`).
#[derive(Clone, Copy, Debug, PartialEq, Eq)]
pub struct Policy {
    /// A broken socket ends the session, and what wasn't delivered is dropped.
    pub lossy: bool,
    /// The node never connects; it waits for the other to do so.
    pub server: bool,
    /// A broken socket with nothing to write waits for something to write, or for the other.
    pub standby: bool,
    /// A session that the other has forgotten is reset in full.
    pub resetcheck: bool,
}

/// A client that forgets a session with its socket.
pub fn lossy_client() -> Policy
    ensures { result ≡ policies.lossy_client }
{
    Policy {
        lossy: true,
        server: false,
        standby: false,
        resetcheck: false,
    }
}

/// A client that keeps its session over broken sockets.
pub fn lossless_client() -> Policy
    ensures { result ≡ policies.lossless_client }
{
    Policy {
        lossy: false,
        server: false,
        standby: false,
        resetcheck: true,
    }
}

/// One of two equals that keep their session and may both connect, as OSDs do.
pub fn lossless_peer() -> Policy
    ensures { result ≡ policies.lossless_peer }
{
    Policy {
        lossy: false,
        server: false,
        standby: true,
        resetcheck: false,
    }
}

/// A server that forgets a session with its socket.
pub fn stateless_server() -> Policy
    ensures { result ≡ policies.stateless_server }
{
    Policy {
        lossy: true,
        server: true,
        standby: false,
        resetcheck: false,
    }
}

/// A server that keeps its session until the client comes back.
pub fn stateful_server() -> Policy
    ensures { result ≡ policies.stateful_server }
{
    Policy {
        lossy: false,
        server: true,
        standby: true,
        resetcheck: true,
    }
}

/// Whether the two ends of one link may have these policies: two lossless peers, a lossless
/// client and a stateful server, or a lossy client and a stateless server, either way round
/// (this project's profile).
pub fn is_allowed(a: &Policy, b: &Policy) -> bool
    ensures { result ≡ allows a.now b.now }
{
    is_pair(a, b) || is_pair(b, a)
}

// One of the three pairs, in the order in which they are named.
fn is_pair(a: &Policy, b: &Policy) -> bool
    ensures { result ≡ policies.is_pair a.now b.now }
{
    (*a == lossless_peer() && *b == lossless_peer())
        || (*a == lossless_client() && *b == stateful_server())
        || (*a == lossy_client() && *b == stateless_server())
}
