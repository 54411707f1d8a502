//! What a frame says.

use crate::wire_fault::WireFault;
use m2_control::Keepalive;

/// What a whole frame at the front of a feed says to the side that reads it.
#[derive(Clone, Copy, Debug, PartialEq, Eq)]
pub enum FrameHeard {
    /// Nothing that is noted: it is passed. An acknowledgement that was counted, an answer to a keepalive,
    /// an old message, or a message that the peer gave up.
    Nothing,
    /// A keepalive, to be answered with this stamp, and passed.
    Stamp(Keepalive),
    /// It acknowledges up to this number, which isn't counted yet.
    Acknowledges { number: u64 },
    /// It is the message with this number, the one after the last.
    Brings { number: u64 },
    /// The session is reset by the peer, with this mark.
    Resets { full: bool },
    /// It may not come, or can't be read: the feed is to be closed for this cause.
    Fault(WireFault),
}
