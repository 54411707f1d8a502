//! The answers to an ask.

/// What a session answers to a CLIENT_IDENT or a SESSION_RECONNECT on a socket that the peer has
/// opened. The accepts and [`Resume`](Answer::Resume) take the socket.
#[derive(Clone, Copy, Debug, PartialEq, Eq)]
pub enum Answer {
    /// A new session.
    Accept,
    /// A new session in place of a lossy one.
    AcceptOver,
    /// A new session: the client has lost the old one. Full throws away what the old one kept.
    AcceptReset { full: bool },
    /// The client that this session has, which missed the answer to its ident.
    AcceptAgain,
    /// A new session in place of one that was never established on both sides.
    AcceptReplace,
    /// Both have connected, and the peer's connect is kept.
    AcceptRace,
    /// The socket is closed without a word: the ask is an old one, or can't be true.
    Close,
    /// WAIT: both have connected, and this node's connect is kept.
    Wait,
    /// SESSION_RESET: there is no such session here.
    Reset { full: bool },
    /// SESSION_RESET without the full mark: this side never saw the session established. Its own
    /// pending socket is closed.
    ResetPending,
    /// SESSION_RETRY_GLOBAL: the ask has an old global number.
    RetryGlobal { number: u64 },
    /// SESSION_RETRY: the ask has an old connect number.
    Retry { number: u64 },
    /// SESSION_RECONNECT_OK: the session goes on.
    Resume,
}
