//! Why a frame is no answer to an ask.

use m2_control::ControlFault;
use m2_handshake::HalfFault;
use thiserror::Error;

/// What is wrong with a frame that comes where the answer to an ask is awaited.
#[derive(Clone, Copy, Debug, PartialEq, Eq, Error)]
pub enum AnswerFault {
    /// Its tag is none of those of the answers.
    #[error("a frame of tag {tag} isn't an answer")]
    Unexpected { tag: u8 },
    /// Its payload can't be read.
    #[error("{0}")]
    Control(ControlFault),
    /// It accepts under another address than the dialled one, or with another lossy flag.
    #[error("{0}")]
    Half(HalfFault),
    /// The peer requires these features, a bit each, which this side doesn't support.
    #[error("the features {bits:#x} are missing")]
    MissingFeatures { bits: u64 },
}
