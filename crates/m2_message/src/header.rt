//! The header of a message.

/// The fields of a message's header, in the order of the wire (Ceph's msgr2 documentation,
/// `ceph_msg_header2`).
///
/// The runtime writes `seq` and `ack_seq`; the other fields are the sender's, and pass unchanged.
#[derive(Clone, Copy, Debug, PartialEq, Eq)]
pub struct Header {
    /// The message's number on its session, from 1.
    pub seq: u64,
    /// The sender's transaction number.
    pub tid: u64,
    /// Which message it is (Ceph calls it the type).
    pub kind: u16,
    /// The greater it is the sooner the message is written and dispatched; 127 by default.
    pub priority: u16,
    /// The version of the encoding of the parts.
    pub version: u16,
    /// Bytes of padding before the data.
    pub pre_padding: u32,
    /// Where the data begins in the sender's object, modulo a page.
    pub data_off: u16,
    /// The number of the last message that the sender has accepted.
    pub ack_seq: u64,
    pub flags: u8,
    /// The oldest version of the encoding that can read the parts.
    pub compat: u16,
    pub reserved: u16,
}
