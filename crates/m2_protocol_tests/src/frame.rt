//! Frames as an independent program writes them.

use m2_bytes::Blob;
use m2_frame::{Frame, Tag, encode, fits};
use std::alloc::Global;
use std::process::Abort;

/// A MESSAGE with number 1, kind 7, priority 127, version 1 and compat 1, all else of its header 0, no front and middle,
/// and the data `a`.
pub(crate) const MESSAGE: [u8; 91] = *b"\
    \x11\x04\x29\0\0\0\x08\0\0\0\0\0\x08\0\0\0\0\0\x08\0\x01\0\0\0\0\x10\0\0\xfa\xfc\x8d\x25\
    \x01\0\0\0\0\0\0\0\0\0\0\0\0\0\0\0\x07\0\x7f\0\x01\0\0\0\0\0\0\0\0\0\0\0\0\0\0\0\0\x01\0\0\0\
    \xc9\x1c\xbf\x54\x61\x0e\xff\xff\xff\xff\xff\xff\xff\xff\xcf\xbc\x2f\x3e";

/// The epilogue of one with the data `123456789`.
const EPILOGUE_OF_NINE: [u8; 13] = *b"\x0e\xff\xff\xff\xff\xff\xff\xff\xff\x7c\x6d\xf9\x1c";

/// A WAIT.
pub(crate) const WAIT: [u8; 32] =
    *b"\x10\x01\0\0\0\0\x08\0\0\0\0\0\0\0\0\0\0\0\0\0\0\0\0\0\0\0\0\0\xc8\xe3\xaa\xb0";

/// A KEEPALIVE2 of second 1,700,000,000 and nanosecond 5, whose checksums were computed apart.
const KEEPALIVE: [u8; 44] = *b"\
    \x12\x01\x08\0\0\0\x08\0\0\0\0\0\0\0\0\0\0\0\0\0\0\0\0\0\0\0\0\0\xd8\xd5\xf5\x99\
    \0\xf1\x53\x65\x05\0\0\0\x89\x24\x73\x9d";

/// The KEEPALIVE2_ACK that answers it.
const KEEPALIVE_ACK: [u8; 44] = *b"\
    \x13\x01\x08\0\0\0\x08\0\0\0\0\0\0\0\0\0\0\0\0\0\0\0\0\0\0\0\0\0\xec\x5e\xe0\x3b\
    \0\xf1\x53\x65\x05\0\0\0\x89\x24\x73\x9d";

/// The text of a frame with these first and last segments and no others.
fn text_of(rt: &impl Abort, alloc: Global, tag: Tag, first: &[u8], fourth: &[u8]) -> Blob {
    let frame = Frame {
        tag: tag.number(),
        first: Blob::of(alloc, first).expect(rt, "memory"),
        second: Blob::empty(alloc),
        third: Blob::empty(alloc),
        fourth: Blob::of(alloc, fourth).expect(rt, "memory"),
    };
    let mut out = Blob::empty(alloc);
    assert!(rt; fits(&frame));
    encode(&frame, &mut out).expect(rt, "memory");
    out
}

#[test]
fn frames_are_written_as_elsewhere(rt: HostRuntime) {
    let header = &MESSAGE[32..73];
    let moment = &KEEPALIVE[32..40];
    let rows: [(Tag, &[u8], &[u8], usize, &[u8]); 5] = [
        (Tag::Message, header, b"a", 91, &MESSAGE),
        (Tag::Message, header, b"123456789", 99, &EPILOGUE_OF_NINE),
        (Tag::Wait, b"", b"", 32, &WAIT),
        (Tag::Keepalive, moment, b"", 44, &KEEPALIVE),
        (Tag::KeepaliveAck, moment, b"", 44, &KEEPALIVE_ACK),
    ];
    for (tag, first, fourth, length, end) in rows {
        let text = text_of(&rt, rt.alloc(), tag, first, fourth);
        let (_, last) = text
            .as_slice()
            .split_at(text.len().saturating_sub(end.len()));
        assert_eq!(rt; (text.len(), last), (length, end));
    }
}
