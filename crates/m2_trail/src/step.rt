//! What an answer of an incoming socket's half was.

use m2_handshake::HalfFault;

/// The answer of [`Incoming::step`](crate::Incoming::step).
#[derive(Clone, Copy, Debug, PartialEq, Eq)]
pub enum IncomingStep {
    /// The half has written a text, which is to be put.
    Wrote,
    /// Both sides have signed.
    Signed,
    /// Nothing is to be done before more bytes come.
    Rests,
    /// The half was asked, and owes the reply.
    Asked,
    /// The socket is to be closed without a word. Each later answer is the same.
    Fault(HalfFault),
    /// Memory ran out. A later call goes on from there.
    NoMemory,
}
