//! Why a feed is closed.

use m2_control::ControlFault;
use m2_frame::FrameFault;
use m2_handshake::HalfFault;
use m2_message::MessageFault;
use thiserror::Error;

/// Why a feed is closed by the side that reads it.
#[derive(Clone, Copy, Debug, PartialEq, Eq, Error)]
pub enum WireFault {
    /// The end has ended.
    #[error("the socket has ended")]
    Ended,
    /// The end is broken.
    #[error("the socket is broken")]
    Failed,
    /// What stands next is no frame.
    #[error("{0}")]
    Frame(FrameFault),
    /// The payload of a frame can't be read. It is never want of memory.
    #[error("{0}")]
    Control(ControlFault),
    /// The header of a message can't be read.
    #[error("{0}")]
    Message(MessageFault),
    /// The handshake has failed, or the ident of the peer doesn't agree.
    #[error("{0}")]
    Half(HalfFault),
    /// A frame of this tag may not come now.
    #[error("a frame of tag {tag} may not come now")]
    Unexpected { tag: u8 },
    /// A message's number is above the one after the last.
    #[error("message {got} came behind message {last}")]
    Gap { last: u64, got: u64 },
    /// More is acknowledged than was written.
    #[error("{got} is acknowledged, and {written} is written")]
    BadAck { written: u64, got: u64 },
    /// The peer misses these features, a bit each.
    #[error("the features {bits} are missing")]
    MissingFeatures { bits: u64 },
    /// The peer has said that this side is to wait.
    #[error("the peer lets this side wait")]
    Waited,
}
