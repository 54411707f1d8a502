//! The table of tags as Ceph's msgr2 documentation has it.

use m2_frame::Tag;

/// The names of the tags from 1 on.
const NAMES: [&str; 22] = [
    "HELLO",
    "AUTH_REQUEST",
    "AUTH_BAD_METHOD",
    "AUTH_REPLY_MORE",
    "AUTH_REQUEST_MORE",
    "AUTH_DONE",
    "AUTH_SIGNATURE",
    "CLIENT_IDENT",
    "SERVER_IDENT",
    "IDENT_MISSING_FEATURES",
    "SESSION_RECONNECT",
    "SESSION_RESET",
    "SESSION_RETRY",
    "SESSION_RETRY_GLOBAL",
    "SESSION_RECONNECT_OK",
    "WAIT",
    "MESSAGE",
    "KEEPALIVE2",
    "KEEPALIVE2_ACK",
    "ACK",
    "COMPRESSION_REQUEST",
    "COMPRESSION_DONE",
];

#[test]
fn tags_have_the_documented_names(rt: HostRuntime) {
    for (number, name) in (1u8..).zip(NAMES) {
        assert_eq!(rt; Tag::name_of_number(number), name);
    }
}
