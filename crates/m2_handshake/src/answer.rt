//! What a half answers.

use crate::fault::HalfFault;

/// The answer of [`Half::next`](crate::Half::next).
#[derive(Clone, Copy, Debug, PartialEq, Eq)]
pub enum HalfStep {
    /// What was fed gives no further step and no fault.
    NotYet,
    /// Bytes were appended.
    Wrote,
    /// Both sides have signed. Each later answer is the same.
    Authed,
    /// The socket is to be closed without a word. Each later answer is the same.
    Fault(HalfFault),
    /// Memory ran out. Nothing was written, and a later call goes on from there.
    NoMemory,
}
