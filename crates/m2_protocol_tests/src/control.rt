//! Payloads as Ceph's documentation has them.

ghost use Rattle.std.specs.Prelude.{IfOk};
ghost use Rattle.m2_control.specs.Control.{IsWritable};

use m2_bytes::Blob;
use m2_control::{Control, ControlFault};
use std::alloc::Global;
use std::process::Abort;

/// An OSD sees 127.0.0.1:6800 with nonce 7.
const HELLO: [u8; 36] = [
    4, 1, 1, 1, 28, 0, 0, 0, 2, 0, 0, 0, 7, 0, 0, 0, 16, 0, 0, 0, 2, 0, 26, 144, 127, 0, 0, 1, 0,
    0, 0, 0, 0, 0, 0, 0,
];

/// Method 1, modes 1 and 2, payload 5 6 7.
const AUTH_REQUEST: [u8; 23] = [
    1, 0, 0, 0, 2, 0, 0, 0, 1, 0, 0, 0, 2, 0, 0, 0, 3, 0, 0, 0, 5, 6, 7,
];

/// Method 2, result -95, method 1, modes 1 and 2.
const AUTH_BAD_METHOD: [u8; 28] = [
    2, 0, 0, 0, 161, 255, 255, 255, 1, 0, 0, 0, 1, 0, 0, 0, 2, 0, 0, 0, 1, 0, 0, 0, 2, 0, 0, 0,
];

/// Global id 9, mode 1, payload 8.
const AUTH_DONE: [u8; 17] = [9, 0, 0, 0, 0, 0, 0, 0, 1, 0, 0, 0, 1, 0, 0, 0, 8];

/// 127.0.0.1:6800 to port 6801, gid -1, global 3, supported 1, required 1, flags 0, cookie 17.
const CLIENT_IDENT: [u8; 123] = [
    2, 1, 0, 0, 0, 1, 1, 1, 28, 0, 0, 0, 2, 0, 0, 0, 7, 0, 0, 0, 16, 0, 0, 0, 2, 0, 26, 144, 127,
    0, 0, 1, 0, 0, 0, 0, 0, 0, 0, 0, 1, 1, 1, 28, 0, 0, 0, 2, 0, 0, 0, 7, 0, 0, 0, 16, 0, 0, 0, 2,
    0, 26, 145, 127, 0, 0, 1, 0, 0, 0, 0, 0, 0, 0, 0, 255, 255, 255, 255, 255, 255, 255, 255, 3, 0,
    0, 0, 0, 0, 0, 0, 1, 0, 0, 0, 0, 0, 0, 0, 1, 0, 0, 0, 0, 0, 0, 0, 0, 0, 0, 0, 0, 0, 0, 0, 17,
    0, 0, 0, 0, 0, 0, 0,
];

/// 127.0.0.1:6800, gid 5, global 4, supported 1, required 1, flags 1 (lossy), cookie 0.
const SERVER_IDENT: [u8; 88] = [
    2, 1, 0, 0, 0, 1, 1, 1, 28, 0, 0, 0, 2, 0, 0, 0, 7, 0, 0, 0, 16, 0, 0, 0, 2, 0, 26, 144, 127,
    0, 0, 1, 0, 0, 0, 0, 0, 0, 0, 0, 5, 0, 0, 0, 0, 0, 0, 0, 4, 0, 0, 0, 0, 0, 0, 0, 1, 0, 0, 0, 0,
    0, 0, 0, 1, 0, 0, 0, 0, 0, 0, 0, 1, 0, 0, 0, 0, 0, 0, 0, 0, 0, 0, 0, 0, 0, 0, 0,
];

/// 127.0.0.1:6800, cookies 17 and 34, global 5, connect 2, seen 2^40.
const SESSION_RECONNECT: [u8; 80] = [
    2, 1, 0, 0, 0, 1, 1, 1, 28, 0, 0, 0, 2, 0, 0, 0, 7, 0, 0, 0, 16, 0, 0, 0, 2, 0, 26, 144, 127,
    0, 0, 1, 0, 0, 0, 0, 0, 0, 0, 0, 17, 0, 0, 0, 0, 0, 0, 0, 34, 0, 0, 0, 0, 0, 0, 0, 5, 0, 0, 0,
    0, 0, 0, 0, 2, 0, 0, 0, 0, 0, 0, 0, 0, 0, 0, 0, 0, 1, 0, 0,
];

/// What is read of a payload under this tag.
fn read(alloc: Global, tag: u8, payload: &[u8]) -> Result<Control, ControlFault>
    ensures { IfOk result IsWritable }
{
    if tag == 0 || tag > 22 || tag == 17 {
        return Err(ControlFault::NotNegotiated);
    }
    Control::read(alloc, tag, payload)
}

/// Whether the payload is read, and written as the same bytes under the same tag.
fn is_kept(alloc: Global, tag: u8, payload: &[u8]) -> bool {
    let Ok(control) = read(alloc, tag, payload) else {
        return false;
    };
    let mut out = Blob::empty(alloc);
    control.write(&mut out).is_ok() && control.tag() == tag && out.as_slice() == payload
}

#[test]
fn each_payload_is_read_and_written_as_it_was(rt: HostRuntime) {
    let rows: [(u8, &[u8]); 17] = [
        (1, &HELLO),
        (2, &AUTH_REQUEST),
        (3, &AUTH_BAD_METHOD),
        (6, &AUTH_DONE),
        (7, &[0; 32]),
        (8, &CLIENT_IDENT),
        (9, &SERVER_IDENT),
        (10, &[1, 0, 0, 0, 0, 0, 0, 128]),
        (11, &SESSION_RECONNECT),
        (12, &[1]),
        (13, &[3, 0, 0, 0, 0, 0, 0, 0]),
        (14, &[6, 0, 0, 0, 0, 0, 0, 0]),
        (15, &[44, 1, 0, 0, 0, 0, 0, 0]),
        (16, &[]),
        (18, &[0, 241, 83, 101, 5, 0, 0, 0]),
        (19, &[0, 241, 83, 101, 5, 0, 0, 0]),
        (20, &[7, 0, 0, 0, 0, 0, 0, 0]),
    ];
    for (tag, payload) in rows {
        assert!(rt; is_kept(rt.alloc(), tag, payload), "tag {tag}");
    }
}

/// How many are read of the payloads that have any byte at this place.
fn read_with_any_byte(alloc: Global, tag: u8, payload: &mut [u8], at: usize) -> u32 {
    let mut count: u32 = 0;
    for byte in 0..=255 {
        if at < payload.len() {
            payload[at] = byte;
        }
        if read(alloc, tag, payload).is_ok() {
            count = count.saturating_add(1);
        }
    }
    count
}

/// How many are read of the payloads that have any byte at one place, for each place.
fn read_changed(rt: &impl Abort, alloc: Global, tag: u8, payload: &[u8]) -> u32 {
    let mut text = payload.to_vec(alloc).expect(rt, "memory");
    let mut count: u32 = 0;
    for (at, byte) in payload.iter().enumerate() {
        count = count.saturating_add(read_with_any_byte(alloc, tag, &mut text, at));
        if at < text.len() {
            text[at] = *byte;
        }
    }
    count
}

/// Counted by a reader written apart from this one, in another language.
#[test]
fn a_changed_byte_is_another_value_or_a_fault(rt: HostRuntime) {
    let rows: [(u8, &[u8], u32); 9] = [
        (1, &HELLO, 6680),
        (2, &AUTH_REQUEST, 3848),
        (3, &AUTH_BAD_METHOD, 5129),
        (6, &AUTH_DONE, 3332),
        (8, &CLIENT_IDENT, 22305),
        (9, &SERVER_IDENT, 16279),
        (11, &SESSION_RECONNECT, 11553),
        (12, &[1], 2),
        (20, &[7, 0, 0, 0, 0, 0, 0, 0], 1283),
    ];
    for (tag, payload, count) in rows {
        assert_eq!(rt;
            read_changed(&rt, rt.alloc(), tag, payload),
            count,
            "tag {tag}"
        );
    }
}
