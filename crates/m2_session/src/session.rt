//! What one side of a link remembers.

use m2_addr::Addr;
use m2_policy::{Policy, Rules};

/// Where a session stands.
#[derive(Clone, Copy, Debug, PartialEq, Eq)]
pub enum Phase {
    /// No session.
    Absent,
    /// A socket is open, and nothing was asked on it.
    Connecting,
    /// A CLIENT_IDENT was sent, and its answer is awaited.
    IdentSent,
    /// A SESSION_RECONNECT was sent, and its answer is awaited.
    ReconnectSent,
    /// Messages flow.
    Ready,
    /// No socket, and nothing to write.
    Standby,
    /// No socket; a connect comes at the end of a wait.
    Wait,
}

/// One side of a session, and how it treats the other. A cookie of 0 is none.
#[derive(Clone, Copy, Debug, PartialEq, Eq)]
pub struct Session {
    /// This node's address, and the other's.
    pub mine: Addr,
    pub peer: Addr,
    /// This node's policy towards the other.
    pub policy: Policy,
    /// This node's own rules.
    pub rules: Rules,
    pub phase: Phase,
    /// The name of the session that its client chose, and the one that its server chose.
    pub client_cookie: u64,
    pub server_cookie: u64,
    /// The greatest global number that the peer is known to have drawn for this session.
    pub peer_global: u64,
    /// How often the session was connected again since it was established.
    pub connect: u64,
    /// The socket was lost in Ready, and no connect was made since.
    pub lost_ready: bool,
}
