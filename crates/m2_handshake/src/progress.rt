//! What one move of the handshake did.

/// What one move of the handshake did.
#[derive(Clone, Copy, Debug, PartialEq, Eq)]
pub enum Progress {
    /// Something was read, and nothing is to be answered yet.
    On,
    /// Bytes were appended.
    Wrote,
    /// Both sides have signed.
    Signed,
}
