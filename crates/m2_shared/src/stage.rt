//! The stages in which a message is granted.

/// What a message that comes is granted for, in the order in which it is asked for: as one message more of
/// the peers of its sender's type, by its bytes from these peers, and by its bytes from all peers, until it
/// is dispatched.
#[derive(Clone, Copy, Debug, Drop, PartialEq, Eq)]
pub enum Stage {
    /// One message of peers of a type.
    Messages,
    /// Its bytes, of peers of a type.
    Bytes,
    /// Its bytes, of all peers.
    Dispatch,
}
