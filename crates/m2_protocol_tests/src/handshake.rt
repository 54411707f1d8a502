//! The handshake: bytes of an independent program, fed and compared.

use crate::frame::WAIT;
use m2_addr::Addr;
use m2_bytes::Blob;
use m2_control::{Control, ControlFault, SessionReset, Wait};
use m2_frame::{FrameFault, Got};
use m2_handshake::{Ask, AskStep, Half, HalfFault, HalfStep, Stage};
use m2_policy::AuthPayload;
use std::alloc::Global;

/// What a client writes: banner, HELLO, AUTH_REQUEST, AUTH_SIGNATURE; a line for the banner, and then for each
/// preamble and each payload with their crc.
const CLIENT: [u8; 218] = *b"\
    ceph v2\n\x10\0\x01\0\0\0\0\0\0\0\x01\0\0\0\0\0\0\0\
    \x01\x01\x24\0\0\0\x08\0\0\0\0\0\0\0\0\0\0\0\0\0\0\0\0\0\0\0\0\0\x3f\xbd\x6b\x06\
    \x04\x01\x01\x01\x1c\0\0\0\x02\0\0\0\x02\0\0\0\x10\0\0\0\x02\0\x1b\x5a\x7f\0\0\x01\0\0\0\0\0\0\0\0\x5d\xf2\x36\xe5\
    \x02\x01\x10\0\0\0\x08\0\0\0\0\0\0\0\0\0\0\0\0\0\0\0\0\0\0\0\0\0\x69\xc7\xbe\x25\
    \x01\0\0\0\x01\0\0\0\x01\0\0\0\0\0\0\0\xfc\xc1\xce\x37\
    \x07\x01\x20\0\0\0\x08\0\0\0\0\0\0\0\0\0\0\0\0\0\0\0\0\0\0\0\0\0\xa8\x0c\x98\x72\
    \0\0\0\0\0\0\0\0\0\0\0\0\0\0\0\0\0\0\0\0\0\0\0\0\0\0\0\0\0\0\0\0\x55\xc9\x6e\x75";

/// AUTH_REQUEST with an authorizer of the method that asks for none.
const AUTHORIZER: [u8; 69] = *b"\
    \x02\x01\x21\0\0\0\x08\0\0\0\0\0\0\0\0\0\0\0\0\0\0\0\0\0\0\0\0\0\xa1\xc2\xad\x7e\
    \x01\0\0\0\x01\0\0\0\x01\0\0\0\x11\0\0\0\x01\x08\0\0\0\0\0\0\0\0\0\0\0\0\0\0\0\xd4\xdb\xdb\xec";

/// What a server writes: banner, HELLO, AUTH_DONE, AUTH_SIGNATURE, by the same lines.
const SERVER: [u8; 218] = *b"\
    ceph v2\n\x10\0\x01\0\0\0\0\0\0\0\x01\0\0\0\0\0\0\0\
    \x01\x01\x24\0\0\0\x08\0\0\0\0\0\0\0\0\0\0\0\0\0\0\0\0\0\0\0\0\0\x3f\xbd\x6b\x06\
    \x04\x01\x01\x01\x1c\0\0\0\x02\0\0\0\0\0\0\0\x10\0\0\0\x02\0\x9c\x41\x7f\0\0\x01\0\0\0\0\0\0\0\0\xec\x1a\x3e\x76\
    \x06\x01\x10\0\0\0\x08\0\0\0\0\0\0\0\0\0\0\0\0\0\0\0\0\0\0\0\0\0\x5b\x06\x30\xa6\
    \0\0\0\0\0\0\0\0\x01\0\0\0\0\0\0\0\x32\x18\xb3\xf4\
    \x07\x01\x20\0\0\0\x08\0\0\0\0\0\0\0\0\0\0\0\0\0\0\0\0\0\0\0\0\0\xa8\x0c\x98\x72\
    \0\0\0\0\0\0\0\0\0\0\0\0\0\0\0\0\0\0\0\0\0\0\0\0\0\0\0\0\0\0\0\0\x55\xc9\x6e\x75";

/// A CLIENT_IDENT of 127.0.0.1:7001/1 to 127.0.0.1:7002/2.
const IDENT: [u8; 159] = *b"\
    \x08\x01\x7b\0\0\0\x08\0\0\0\0\0\0\0\0\0\0\0\0\0\0\0\0\0\0\0\0\0\x73\x8a\x98\x95\
    \x02\x01\0\0\0\x01\x01\x01\x1c\0\0\0\x02\0\0\0\x01\0\0\0\x10\0\0\0\x02\0\x1b\x59\x7f\0\0\x01\0\0\0\0\0\0\0\0\
    \x01\x01\x01\x1c\0\0\0\x02\0\0\0\x02\0\0\0\x10\0\0\0\x02\0\x1b\x5a\x7f\0\0\x01\0\0\0\0\0\0\0\0\
    \0\0\0\0\0\0\0\0\x01\0\0\0\0\0\0\0\
    \xff\xff\xff\xff\xff\xff\xff\xff\0\0\0\0\0\0\0\0\0\0\0\0\0\0\0\0\x01\0\0\0\0\x01\0\x01\x40\xeb\xa0\x0e";

/// An AUTH_REQUEST with method 2.
const OTHER_METHOD: [u8; 52] = *b"\
    \x02\x01\x10\0\0\0\x08\0\0\0\0\0\0\0\0\0\0\0\0\0\0\0\0\0\0\0\0\0\x69\xc7\xbe\x25\
    \x02\0\0\0\x01\0\0\0\x01\0\0\0\0\0\0\0\x0f\xa1\x36\x24";

/// The AUTH_BAD_METHOD that answers it.
const REFUSAL: [u8; 60] = *b"\
    \x03\x01\x18\0\0\0\x08\0\0\0\0\0\0\0\0\0\0\0\0\0\0\0\0\0\0\0\0\0\xd4\x1a\x33\xef\
    \x02\0\0\0\xa1\xff\xff\xff\x01\0\0\0\x01\0\0\0\x01\0\0\0\x01\0\0\0\xc5\xa8\xfa\x85";

/// The client's HELLO with another checksum of its segment.
const DAMAGED_HELLO: [u8; 72] = *b"\
    \x01\x01\x24\0\0\0\x08\0\0\0\0\0\0\0\0\0\0\0\0\0\0\0\0\0\0\0\0\0\x3f\xbd\x6b\x06\
    \x04\x01\x01\x01\x1c\0\0\0\x02\0\0\0\x02\0\0\0\x10\0\0\0\x02\0\x1b\x5a\x7f\0\0\x01\0\0\0\0\0\0\0\0\x5d\xf2\x36\xe4";

/// The preamble of a MESSAGE with 100,000,000 bytes of data.
const LARGE_MESSAGE: [u8; 32] = *b"\
    \x11\x04\x29\0\0\0\x08\0\0\0\0\0\x08\0\0\0\0\0\x08\0\0\xe1\xf5\x05\0\x10\0\0\xda\x60\x55\x64";

/// An AUTH_SIGNATURE of 31 bytes.
const SHORT_SIGNATURE: [u8; 67] = *b"\
    \x07\x01\x1f\0\0\0\x08\0\0\0\0\0\0\0\0\0\0\0\0\0\0\0\0\0\0\0\0\0\xcb\x47\xf4\xac\
    \0\0\0\0\0\0\0\0\0\0\0\0\0\0\0\0\0\0\0\0\0\0\0\0\0\0\0\0\0\0\0\xb4\x83\x2c\xe1";

/// An AUTH_SIGNATURE of 33 bytes.
const LONG_SIGNATURE: [u8; 69] = *b"\
    \x07\x01\x21\0\0\0\x08\0\0\0\0\0\0\0\0\0\0\0\0\0\0\0\0\0\0\0\0\0\xa7\x88\x36\x5f\
    \0\0\0\0\0\0\0\0\0\0\0\0\0\0\0\0\0\0\0\0\0\0\0\0\0\0\0\0\0\0\0\0\0\x06\xa0\xa1\x64";

/// An AUTH_SIGNATURE of 32 bytes, of which the last is 1.
const OTHER_SIGNATURE: [u8; 68] = *b"\
    \x07\x01\x20\0\0\0\x08\0\0\0\0\0\0\0\0\0\0\0\0\0\0\0\0\0\0\0\0\0\xa8\x0c\x98\x72\
    \0\0\0\0\0\0\0\0\0\0\0\0\0\0\0\0\0\0\0\0\0\0\0\0\0\0\0\0\0\0\0\x01\x56\x4a\x05\x87";

/// What a server is fed, the first bytes that a client writes and these behind, and what it answers then.
#[derive(Drop)]
struct Fed {
    of_client: &'static [u8],
    behind: &'static [u8],
    says: HalfStep,
}

const fn unexpected(tag: u8) -> HalfStep {
    HalfStep::Fault(HalfFault::Unexpected { tag })
}

/// A SESSION_RESET without the full mark.
const RESET: [u8; 37] = *b"\
    \x0c\x01\x01\0\0\0\x08\0\0\0\0\0\0\0\0\0\0\0\0\0\0\0\0\0\0\0\0\0\x4a\xbb\x98\x19\
    \0\xae\xac\x82\xad";

fn at(port: u16, nonce: u32) -> Addr {
    Addr {
        kind: 2,
        nonce,
        ip: 0x7f00_0001,
        port,
    }
}

fn a_client(alloc: Global, auth: AuthPayload) -> Half {
    Half::client(alloc, auth, 4, at(7002, 2))
}

fn a_server(alloc: Global) -> Half {
    Half::server(alloc, 4, at(40001, 0))
}

/// Asks a half until it writes nothing more.
fn run(half: &mut Half, out: &mut Blob) -> HalfStep {
    for _ in 0..8 {
        let step = half.next(out);
        if step != HalfStep::Wrote {
            return step;
        }
    }
    HalfStep::Wrote
}

/// Feeds a half byte by byte, and asks it after each.
fn tell(half: &mut Half, bytes: &[u8], out: &mut Blob) -> HalfStep {
    let mut last = run(half, out);
    for byte in bytes {
        if half.feed(&[*byte]).is_err() {
            return HalfStep::NoMemory;
        }
        last = run(half, out);
    }
    last
}

/// The payload of the frame that a finished half hands on.
fn handed_on(half: Half) -> Option<Blob> {
    if !half.is_ready() {
        return None;
    }
    let mut decoder = half.finish();
    match decoder.next() {
        Got::Frame(frame) => Some(frame.first),
        _ => None,
    }
}

/// Whether a half that is fed these bytes one by one says so then, and has written those.
fn is_told(half: &mut Half, alloc: Global, fed: &[u8], says: HalfStep, wrote: &[u8]) -> bool {
    let mut out = Blob::empty(alloc);
    tell(half, fed, &mut out) == says && out.as_slice() == wrote
}

#[test]
fn an_opener_byte_by_byte_is_authed(rt: HostRuntime) {
    let mut client = a_client(rt.alloc(), AuthPayload::Empty);
    assert!(rt; is_told(&mut client, rt.alloc(), &SERVER, HalfStep::Authed, &CLIENT));
}

#[test]
fn an_opener_with_an_authorizer_is_authed_too(rt: HostRuntime) {
    let mut client = a_client(rt.alloc(), AuthPayload::Authorizer);
    let mut server = a_server(rt.alloc());
    for (of_client, of_server) in [
        (&CLIENT[..98], &SERVER[..98]),
        (&AUTHORIZER[..], &SERVER[98..]),
    ] {
        assert!(rt;
            is_told(
                &mut server,
                rt.alloc(),
                of_client,
                HalfStep::NotYet,
                of_server
            )
        );
    }
    for (of_server, says, of_client) in [
        (&SERVER[..26], HalfStep::NotYet, &CLIENT[..98]),
        (&SERVER[26..98], HalfStep::NotYet, &AUTHORIZER[..]),
        (&SERVER[98..], HalfStep::Authed, &CLIENT[150..]),
    ] {
        assert!(rt; is_told(&mut client, rt.alloc(), of_server, says, of_client));
    }
}

#[test]
fn an_acceptor_byte_by_byte_is_authed_and_leaves_the_ask_unread(rt: HostRuntime) {
    let mut server = a_server(rt.alloc());
    assert!(rt; is_told(&mut server, rt.alloc(), &CLIENT, HalfStep::Authed, &SERVER));
    assert!(rt; is_told(&mut server, rt.alloc(), &IDENT, HalfStep::Authed, b""));
    let ask = handed_on(server).expect(&rt, "an ask");
    assert_eq!(rt; ask.as_slice(), &IDENT[32..155]);
}

#[test]
fn another_method_is_answered_and_asked_again(rt: HostRuntime) {
    let mut server = a_server(rt.alloc());
    for (fed, says, wrote) in [
        (&CLIENT[..98], HalfStep::NotYet, &SERVER[..98]),
        (&OTHER_METHOD, HalfStep::NotYet, &REFUSAL),
        (&CLIENT[98..], HalfStep::Authed, &SERVER[98..]),
    ] {
        assert!(rt; is_told(&mut server, rt.alloc(), fed, says, wrote));
    }
}

/// Whether a server says what a row has.
fn says_so(alloc: Global, row: &Fed) -> bool {
    let mut server = a_server(alloc);
    let mut out = Blob::empty(alloc);
    tell(&mut server, row.of_client, &mut out);
    tell(&mut server, row.behind, &mut out) == row.says
}

#[test]
fn a_server_refuses_what_it_does_not_wait_for(rt: HostRuntime) {
    let (hello, request) = (&CLIENT[..98], &CLIENT[..150]);
    for row in [
        Fed {
            of_client: hello,
            behind: &CLIENT[26..98],
            says: unexpected(1),
        },
        Fed {
            of_client: hello,
            behind: &LARGE_MESSAGE[..31],
            says: HalfStep::NotYet,
        },
        Fed {
            of_client: hello,
            behind: &LARGE_MESSAGE,
            says: unexpected(17),
        },
        Fed {
            of_client: request,
            behind: &SHORT_SIGNATURE,
            says: HalfStep::Fault(HalfFault::Control(ControlFault::Short)),
        },
        Fed {
            of_client: request,
            behind: &LONG_SIGNATURE,
            says: HalfStep::Fault(HalfFault::Control(ControlFault::Extra)),
        },
        Fed {
            of_client: request,
            behind: &OTHER_SIGNATURE,
            says: HalfStep::Fault(HalfFault::BadSignature),
        },
        Fed {
            of_client: &CLIENT[..26],
            behind: &DAMAGED_HELLO,
            says: HalfStep::Fault(HalfFault::Frame(FrameFault::BadSegmentCrc { segment: 0 })),
        },
    ] {
        assert!(rt; says_so(rt.alloc(), &row));
    }
}

/// Whether a server that is fed these bytes is asked by an ident then.
fn is_asked(server: &mut Half, bytes: &[u8]) -> bool {
    if server.feed(bytes).is_err() || !server.can_ask() {
        return false;
    }
    matches!(server.ask(), AskStep::Asked(Ask::Ident(_)))
}

/// Whether a server that was asked resets its asker, or sends it away, by these bytes.
fn answers(server: &mut Half, alloc: Global, away: bool, wrote: &[u8]) -> bool {
    match server.stage() {
        Stage::Asked => {}
        _ => return false,
    }
    let mut out = Blob::empty(alloc);
    let done = if away {
        server.reply(&Control::Wait(Wait), &mut out)
    } else {
        server.reply(
            &Control::SessionReset(SessionReset { full: false }),
            &mut out,
        )
    };
    done.is_ok() && out.as_slice() == wrote
}

#[test]
fn an_asker_is_reset_and_asks_again_and_is_sent_away(rt: HostRuntime) {
    let mut server = a_server(rt.alloc());
    assert!(rt; is_told(&mut server, rt.alloc(), &CLIENT, HalfStep::Authed, &SERVER));
    assert!(rt; is_asked(&mut server, &IDENT));
    assert!(rt; answers(&mut server, rt.alloc(), false, &RESET));
    assert!(rt; is_asked(&mut server, &IDENT));
    assert!(rt; answers(&mut server, rt.alloc(), true, &WAIT));
}
