//! What closes a feed, once each, and what is no fault.

use crate::driving::{ALL, pair, ready};
use m2_bytes::Blob;
use m2_control::ControlFault;
use m2_fabric::{End, News};
use m2_feed::WireFault;
use m2_frame::{Frame, FrameFault, Tag, encode, fits};
use m2_handshake::HalfFault;
use m2_journal::PlanStep;
use m2_message::MessageFault;
use m2_record_trace::{Pair, SideStep, Which};
use std::alloc::Global;

/// The text of a frame; nothing where it has none or memory runs out.
fn text_of(alloc: Global, f: &Frame) -> Blob {
    let mut text = Blob::empty(alloc);
    if fits(f) && encode(f, &mut text).is_err() {
        text.clear();
    }
    text
}

/// The text of a frame of one segment.
fn framed(alloc: Global, tag: Tag, payload: &[u8]) -> Blob {
    match Blob::of(alloc, payload) {
        Ok(first) => text_of(
            alloc,
            &Frame {
                tag: tag.number(),
                first,
                second: Blob::empty(alloc),
                third: Blob::empty(alloc),
                fourth: Blob::empty(alloc),
            },
        ),
        Err(_) => Blob::empty(alloc),
    }
}

/// The text of a message with nothing in it and this number, below 256.
fn numbered(alloc: Global, number: u8) -> Blob {
    let mut header = [0; 41];
    header[0] = number;
    framed(alloc, Tag::Message, &header)
}

/// Why the feed of a side is closed next, where it is.
fn cause(p: &mut Pair, at: Which, now: u64) -> Option<WireFault> {
    'steps: for _ in 0..200 {
        match p.step(at, now) {
            SideStep::Faulted(cause) => return Some(cause),
            SideStep::Moved | SideStep::Handed => {}
            SideStep::Dry
            | SideStep::Full { held: _ }
            | SideStep::Again
            | SideStep::Spent
            | SideStep::NoMemory => return None,
        }
    }
    None
}

/// Why the second side closes its feed in Ready once it has heard this.
fn cause_in_ready(alloc: Global, text: &Blob, news: News) -> Option<WireFault> {
    let mut p = ready(alloc);
    let _heard = p.hear(Which::Second, 0, text.as_slice(), news);
    let cause = cause(&mut p, Which::Second, 20);
    p.finish();
    cause
}

/// Why the first side closes its feed once it has dialled and heard this in place of what its peer writes.
fn cause_of_dialling(alloc: Global, text: &Blob) -> Option<WireFault> {
    let mut p = pair(alloc, 1000, 0);
    let _planned = p.plan(Which::First, PlanStep::Dial);
    p.turn(Which::First, 0, 200);
    let _heard = p.hear(Which::First, 0, text.as_slice(), News::Flow);
    let cause = cause(&mut p, Which::First, 1);
    p.finish();
    cause
}

/// Why a side closes its feed first, where the second requires these features, and dials as well or not. Where both dial, nothing
/// flows on the socket of the first.
fn cause_between(alloc: Global, requires_: u64, both: bool) -> Option<WireFault> {
    let mut p = pair(alloc, 1000, requires_);
    let _planned = p.plan(Which::First, PlanStep::Dial);
    if both {
        let _planned = p.plan(Which::Second, PlanStep::Dial);
    }
    let from_wire = if both { 1 } else { 0 };
    let mut found = None;
    'rounds: for now in 0..10 {
        let cause = cause_in_round(&mut p, from_wire, now);
        found = found.or(cause);
    }
    p.finish();
    found
}

/// The same in a round: both sides go on, and then all that was written flows on the sockets from this one on.
fn cause_in_round(p: &mut Pair, from_wire: usize, now: u64) -> Option<WireFault> {
    let first = cause_in_turn(p, Which::First, now);
    let second = cause_in_turn(p, Which::Second, now);
    let wires = p.wires().len();
    'wires: for wire in from_wire..wires {
        p.flow(Which::First, wire, ALL);
        p.flow(Which::Second, wire, ALL);
    }
    first.or(second)
}

/// The same in a side's turn.
fn cause_in_turn(p: &mut Pair, at: Which, now: u64) -> Option<WireFault> {
    let before = cause(p, at, now);
    p.connect(at, now);
    let found = before.or(cause(p, at, now));
    let _went = p.arrivals(at, now);
    found
}

/// Why the second side closes its feed in Ready, by what it hears.
fn causes_in_ready(alloc: Global) -> [Option<WireFault>; 8] {
    let none = Blob::empty(alloc);
    [
        cause_in_ready(alloc, &none, News::Ended),
        cause_in_ready(alloc, &none, News::Failed),
        cause_in_ready(alloc, &garbage(alloc), News::Flow),
        cause_in_ready(alloc, &framed(alloc, Tag::Ack, b"abc"), News::Flow),
        cause_in_ready(alloc, &framed(alloc, Tag::Message, b"abcde"), News::Flow),
        cause_in_ready(alloc, &framed(alloc, Tag::Hello, b"abc"), News::Flow),
        cause_in_ready(alloc, &numbered(alloc, 5), News::Flow),
        cause_in_ready(
            alloc,
            &framed(alloc, Tag::Ack, &[99, 0, 0, 0, 0, 0, 0, 0]),
            News::Flow,
        ),
    ]
}

/// Fifty bytes that are no frame and no banner.
fn garbage(alloc: Global) -> Blob {
    match Blob::of(alloc, &[7; 50]) {
        Ok(bytes) => bytes,
        Err(_) => Blob::empty(alloc),
    }
}

/// Each cause for which a feed is closed, once.
#[test]
fn each_fault_of_a_feed_is_named(rt: HostRuntime) {
    let alloc = rt.alloc();
    let wanted = [
        Some(WireFault::Ended),
        Some(WireFault::Failed),
        Some(WireFault::Frame(FrameFault::BadPreambleCrc)),
        Some(WireFault::Control(ControlFault::Short)),
        Some(WireFault::Message(MessageFault::BadHeader)),
        Some(WireFault::Unexpected { tag: 1 }),
        Some(WireFault::Gap { last: 0, got: 5 }),
        Some(WireFault::BadAck {
            written: 0,
            got: 99,
        }),
    ];
    assert_eq!(rt; causes_in_ready(alloc), wanted);
    let dialling = cause_of_dialling(alloc, &garbage(alloc));
    assert_eq!(rt; dialling, Some(WireFault::Half(HalfFault::BadBanner)));
    let missing = cause_between(alloc, 1, false);
    assert_eq!(rt; missing, Some(WireFault::MissingFeatures { bits: 1 }));
    assert_eq!(rt; cause_between(alloc, 0, true), Some(WireFault::Waited));
}

/// Whether the second side, in Ready, answers a keepalive with the same moment, and closes nothing.
fn answers_keepalive(alloc: Global) -> bool {
    let moment = [1, 0, 0, 0, 2, 0, 0, 0];
    let mut p = ready(alloc);
    let keepalive = framed(alloc, Tag::Keepalive, &moment);
    let _heard = p.hear(Which::Second, 0, keepalive.as_slice(), News::Flow);
    let cause = cause(&mut p, Which::Second, 20);
    let wanted = framed(alloc, Tag::KeepaliveAck, &moment);
    let answered = match p.side(Which::Second).record().feed() {
        Some(end) => end.log().put.as_slice().ends_with(wanted.as_slice()),
        None => false,
    };
    p.finish();
    answered && cause.is_none()
}

#[test]
fn a_keepalive_is_answered(rt: HostRuntime) {
    assert!(rt; answers_keepalive(rt.alloc()));
}
