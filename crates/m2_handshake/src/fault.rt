//! Why a handshake ends without a session.

use m2_control::ControlFault;
use m2_frame::FrameFault;
use thiserror::Error;

/// What is wrong with the bytes of the other side, or with its ident.
#[derive(Clone, Copy, Debug, PartialEq, Eq, Error)]
pub enum HalfFault {
    /// What stands first is no banner.
    #[error("no banner")]
    BadBanner,
    /// The banner doesn't support msgr2.1, or requires a feature beside it.
    #[error("the banner's features don't agree with these")]
    BannerFeatures,
    /// A whole frame has another tag than the one that is waited for.
    #[error("a frame of tag {tag} wasn't waited for")]
    Unexpected { tag: u8 },
    /// The acceptor refuses the method, or chose another connection mode than crc.
    #[error("no method and mode in common")]
    BadAuth,
    /// The signature isn't 32 zero bytes, which is the one of crc mode.
    #[error("the signature is wrong")]
    BadSignature,
    /// An ident was meant for another address.
    #[error("the ident is meant for another address")]
    WrongAddress,
    /// One side takes the session for a lossy one and the other doesn't.
    #[error("the two sides don't agree on the lossy flag")]
    FlagDisagrees,
    /// An ask comes from an address without a link, or from another than the first ask.
    #[error("the ask comes from an unknown address")]
    UnknownPeer,
    /// What stands next is no frame.
    #[error("{0}")]
    Frame(FrameFault),
    /// The payload of a frame can't be read. In an answer of a half it is never want of memory.
    #[error("{0}")]
    Control(ControlFault),
}
