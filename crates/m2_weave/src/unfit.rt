//! A byte that was read and isn't the one that was written.

use m2_fabric::SocketId;

/// What is wrong with a byte that was read.
#[derive(Clone, Copy, Debug, PartialEq, Eq)]
pub enum Why {
    /// The other end hasn't written a byte at this place by then.
    Beyond { got: u8 },
    /// The other end has written another byte there.
    Differs { got: u8, put: u8 },
}

/// A byte that was read at an end of a socket, and isn't one that the other end has written there by then.
#[derive(Clone, Copy, Debug, PartialEq, Eq)]
pub struct Unfit {
    pub socket: SocketId,
    /// Whether the opener's end read it; else the acceptor's.
    pub opener: bool,
    /// How many bytes were read there before it.
    pub place: u64,
    pub why: Why,
}
