//! What is found at the front of a stream.

use crate::fault::FrameFault;
use crate::preamble::Preamble;

/// How far the text at the front is judged: as far as it is there, and nothing is owed. No part is
/// judged twice.
#[derive(Clone, Copy, Debug, PartialEq, Eq)]
pub enum Finding {
    /// The preamble isn't whole.
    Nothing,
    /// The preamble is right, and the size that it asks for isn't granted.
    Asking(Preamble),
    /// Nothing is owed, and the first segment isn't whole.
    Sized(Preamble),
    /// The first segment is right, and what follows isn't whole.
    Sealed(Preamble),
    /// The text of a frame is whole and right.
    Whole(Preamble),
    /// The text is whole and right, and its sender gave the frame up.
    Aborted(Preamble),
    /// The first part that is wrong has this cause.
    Faulty(FrameFault),
}
