//! What happens to a session, and what it owes then.

/// What happens to a session.
#[derive(Clone, Copy, Debug, PartialEq, Eq)]
pub enum Event {
    /// A socket to the peer was opened.
    Dialled,
    /// A CLIENT_IDENT was built; `cookie` is the client cookie that it carries where none was kept.
    AskedIdent {
        cookie: u64,
    },
    /// A SESSION_RECONNECT was built.
    AskedReconnect,
    GotServerIdent {
        cookie: u64,
        global: u64,
    },
    GotReconnectOk,
    GotReset {
        full: bool,
    },
    GotRetry {
        number: u64,
    },
    GotRetryGlobal {
        number: u64,
    },
    GotWait,
    /// A CLIENT_IDENT was accepted; `full` is that of the answer.
    TookIdent {
        full: bool,
        client: u64,
        server: u64,
        global: u64,
    },
    /// A SESSION_RECONNECT was resumed.
    TookReconnect {
        global: u64,
        connect: u64,
    },
    /// A SESSION_RECONNECT was answered by ResetPending.
    Pending,
    /// The feed ended, failed or broke the protocol; `waits` says that a message is kept or waits
    /// to be written.
    Faulted {
        waits: bool,
    },
    /// The node gives the session up.
    MarkedDown,
}

/// What a caller owes after a step, in this order.
#[derive(Clone, Copy, Debug, PartialEq, Eq)]
pub struct Effects {
    /// Close the feed, where there is one.
    pub close: bool,
    /// Write what was written and isn't acknowledged again.
    pub requeue: bool,
    /// Set the last accepted number to 0, and number the messages to write from 1.
    pub set_back: bool,
    /// Throw away what is kept and waits, and what was accepted and isn't dispatched.
    pub discard: bool,
    /// Tell the dispatcher that the peer has reset the session.
    pub remote_reset: bool,
}

impl Effects {
    /// Nothing is owed.
    pub const NONE: Effects = Effects {
        close: false,
        requeue: false,
        set_back: false,
        discard: false,
        remote_reset: false,
    };
}
