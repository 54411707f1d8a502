//! Why a frame carries no message.

use m2_bytes::Short;
use thiserror::Error;

/// What is wrong with a MESSAGE frame.
#[derive(Clone, Copy, Debug, PartialEq, Eq, Error)]
pub enum MessageFault {
    /// The first segment hasn't 41 bytes.
    #[error("the header of the message hasn't 41 bytes")]
    BadHeader,
}

impl From<Short> for MessageFault {
    fn from(_e: Short) -> MessageFault {
        MessageFault::BadHeader
    }
}
