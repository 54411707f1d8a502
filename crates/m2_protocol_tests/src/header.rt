//! The header of a message as an independent program writes it.

use crate::frame::MESSAGE;
use m2_bytes::Part;
use m2_message::{Header, Message, to_frame};

/// The header of that message before it has its number.
const HEADER: Header = Header {
    seq: 5,
    tid: 0,
    kind: 7,
    priority: 127,
    version: 1,
    pre_padding: 0,
    data_off: 0,
    ack_seq: 6,
    flags: 0,
    compat: 1,
    reserved: 0,
};

#[test]
fn a_header_is_written_as_elsewhere(rt: HostRuntime) {
    let message = Message {
        header: HEADER,
        front: Part::empty(),
        middle: Part::empty(),
        tail: Part::empty(),
    };
    let frame = to_frame(rt.alloc(), &message, 1, 0).expect(&rt, "memory");
    assert_eq!(rt; frame.first.as_slice(), &MESSAGE[32..73]);
}
