//! What a decoder answers.

use crate::fault::FrameFault;
use crate::frame::Frame;

/// The answer of [`Decoder::next`](crate::Decoder::next).
#[derive(Debug, Drop)]
pub enum Got {
    /// The next frame, whole and with right checksums.
    Frame(Frame),
    /// The next frame was aborted by its sender, and is dropped whole.
    Aborted { tag: u8 },
    /// The preamble of a MESSAGE is there. It asks for so many bytes of front, middle and data, and
    /// for nothing more to be answered until they are granted.
    Size(u64),
    /// What is there is the start of a frame, or nothing.
    NotYet,
    /// What is there is no frame, and begins none. Each later answer is the same.
    Fault(FrameFault),
    /// Memory ran out; nothing has changed.
    NoMemory,
}
