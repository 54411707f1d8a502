//! Calls that can be made to fail.

/// A kind of call that can be made to fail. Of a listen, a connect, an accept and a poll all calls are
/// counted, at whatever node; of a read and a write those at the opener's end of the first socket that this
/// node opens.
#[derive(Clone, Copy, Debug, PartialEq, Eq)]
pub enum MemCall {
    Listen,
    Connect,
    Accept,
    Poll,
    Read { node: u32 },
    Write { node: u32 },
}
