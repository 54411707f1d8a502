//! Why bytes are no frame.

use thiserror::Error;

/// What is wrong with a frame: the first cause in this order.
///
/// The causes up to `TooLong` are those of a preamble, judged as soon as its 32 bytes are there. The
/// checksum of the first segment is judged as soon as it is there, all else when the frame is whole.
#[derive(Clone, Copy, Debug, PartialEq, Eq, Error)]
pub enum FrameFault {
    /// The preamble's checksum differs.
    #[error("the preamble's checksum differs")]
    BadPreambleCrc,
    /// The number of segments is 0 or above 4.
    #[error("no such number of segments")]
    BadCount,
    /// There are several segments, and the last one is empty.
    #[error("the last segment is empty")]
    LastEmpty,
    /// The flag of compressed frames is set; this project's profile has none.
    #[error("the frame is compressed")]
    Compressed,
    /// There is no such tag.
    #[error("no such tag")]
    BadTag,
    /// The tag isn't MESSAGE, and there are several segments.
    #[error("several segments in a control frame")]
    BadSegments,
    /// A segment is above this project's bound: [`MESSAGE_LIMIT`](crate::MESSAGE_LIMIT) in a MESSAGE,
    /// [`CONTROL_LIMIT`](crate::CONTROL_LIMIT) in any other frame.
    #[error("a segment is too long")]
    TooLong,
    /// The checksum of a segment, counted from 0, differs. It is the first such segment.
    #[error("the checksum of segment {segment} differs")]
    BadSegmentCrc { segment: u8 },
    /// The late status says neither complete nor aborted.
    #[error("no such late status")]
    BadLate,
}
