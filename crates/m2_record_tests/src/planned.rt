//! A record that does what it planned, up to the socket that it opens.

ghost use Rattle.std.specs.Prelude.{◌≡◌, ◌<◌, Ok};
ghost use Rattle.m2_addr.specs.declared.addr.TheConstants.Addr.{MSGR2};
ghost use Rattle.m2_session.specs.declared.cookie.TheConstants.{MOST_PLACES};
ghost use Rattle.m2_message.specs.Message.{IsSendable};
ghost use Rattle.m2_record.specs.m2_core.Waits.{AreWaits};
ghost use Rattle.m2_record.specs.Calls.{HasRoomFor, IsSameButRoom, Owns, TakesNext, planned_too};
ghost use Rattle.m2_record.specs.Due.{next_step};
ghost use Rattle.m2_record.specs.IsRecord.{CanBePlanned};
ghost use Rattle.m2_shared.specs.Gates.{ArePassesOf, places};

use m2_addr::Addr;
use m2_bytes::Part;
use m2_fabric::{News, SimEnd, SocketId};
use m2_handshake::HalfStep;
use m2_journal::{Entry, NodeFacts, PlanStep};
use m2_message::{Header, Message};
use m2_policy::{FastSet, lossless_peer, profile};
use m2_record::{Due, Framed, Record};
use m2_shared::{Bounds, PeerType, TakePasses, Throttles};
use std::alloc::Global;
use std::process::Abort;

/// An address of msgr2 at this ip.
pub(crate) fn at(ip: u32) -> Addr
    ensures { result ≡ record { kind = MSGR2; nonce = 0; ip = ip; port = 7000 } }
{
    Addr {
        kind: Addr::MSGR2,
        nonce: 0,
        ip,
        port: 7000,
    }
}

/// A socket from the first ip to the second.
fn socket() -> SocketId
    ensures { result ≡ record { from_ip = 1; from_port = 6000; to_ip = 2; to_port = 7000; turn = 0 } }
{
    SocketId {
        from_ip: 1,
        from_port: 6000,
        to_ip: 2,
        to_port: 7000,
        turn: 0,
    }
}

/// What the node at the first ip knows.
pub(crate) fn facts() -> NodeFacts
    ensures number { result.number < MOST_PLACES }
    ensures waits { AreWaits result }
{
    NodeFacts {
        entity: 8,
        number: 0,
        supports: 0,
        requires_: 0,
        fast: FastSet::empty(),
        first_wait: 200,
        most_wait: 15_000,
        salt: 7,
        rules: profile(),
    }
}

/// A message with nothing in it.
fn message(alloc: Global) -> Message
    ensures { IsSendable result }
{
    Message {
        header: Header {
            seq: 0,
            tid: 0,
            kind: 70,
            priority: 127,
            version: 1,
            pre_padding: 0,
            data_off: 0,
            ack_seq: 0,
            flags: 0,
            compat: 1,
            reserved: 0,
        },
        front: Part::empty(),
        middle: Part::empty(),
        tail: Part::empty(),
    }
}

/// Adds a step to the plan.
pub(crate) fn plans(rt: &impl Abort, side: &mut Record<SimEnd>, step: PlanStep)
    requires { CanBePlanned step }
    ensures { side.new ≡ planned_too step side.old }
{
    match side.plan_add(step) {
        Ok(()) => {}
        Err(_step) => panic!(rt; "no memory for a step"),
    }
}

/// Makes room for so many entries.
fn reserves(rt: &impl Abort, side: &mut Record<SimEnd>, entries: u32)
    ensures only { IsSameButRoom side.old side.new }
    ensures room { HasRoomFor entries side.new.room }
{
    match side.reserve(entries) {
        Ok(()) => {}
        Err(_) => panic!(rt; "no memory for entries"),
    }
}

/// Takes the plan's next step.
fn takes(
    rt: &impl Abort,
    side: &mut Record<SimEnd>,
    throttles: &Throttles,
    passes: &mut TakePasses,
    now: u64,
)
    requires room { HasRoomFor 2 side.old.room }
    requires pass { ArePassesOf throttles.now passes.old }
    requires owned { Owns (places throttles.now) side.old }
    ensures taken { TakesNext (next_step side.old) (Ok tt) now side.old side.new }
    ensures owned { Owns (places throttles.now) side.new }
    ensures passes { ArePassesOf throttles.now passes.new }
{
    match side.take_planned(throttles, passes, now) {
        Ok(()) => {}
        Err(_) => panic!(rt; "no memory for a step that is taken"),
    }
}

/// A record that has posted a message opens a socket for it, and the socket's end is told of a byte.
#[test]
fn a_post_is_queued_and_a_socket_is_opened_for_it(rt: HostRuntime) {
    let alloc = rt.alloc();
    let (throttles, mut passes) = Throttles::alone(&Bounds::of_dispatch(0));
    let mut record = Record::new(
        alloc,
        at(1),
        at(2),
        1,
        lossless_peer(),
        facts(),
        PeerType::Osd,
    );
    plans(&rt, &mut record, PlanStep::Post(message(alloc)));
    reserves(&rt, &mut record, 2);
    takes(&rt, &mut record, &throttles, &mut passes, 5);
    assert_eq!(rt; record.last(), 5);
    let due = record.due(5);
    if due
        == (Due::Connect {
            at: record.next_dial(),
        })
    {
        match record.connected(SimEnd::new(alloc, socket()), 5) {
            Ok(()) => {}
            Err(_end) => panic!(rt; "no memory for a socket"),
        }
    }
    match record.hear(&socket(), b"c", News::Flow) {
        Ok(()) => {}
        Err(_) => panic!(rt; "no memory for a byte"),
    }
    assert!(rt; matches!(record.journal().get(1), Some(Entry::Opened { socket: _ })));
    assert!(rt; record.feed().is_some() && record.trails().is_empty());
    let ends = record.ends(&throttles, &mut passes);
    assert_eq!(rt; ends.len(), 1);
}

/// Takes the step Frame, where it is due.
fn frames(
    side: &mut Record<SimEnd>,
    throttles: &Throttles,
    passes: &mut TakePasses,
    now: u64,
) -> Option<Framed>
    requires room { HasRoomFor 2 side.old.room }
    requires pass { ArePassesOf throttles.now passes.old }
    requires owned { Owns (places throttles.now) side.old }
    ensures owned { Owns (places throttles.now) side.new }
    ensures passes { ArePassesOf throttles.now passes.new }
{
    match side.due(now) {
        Due::Frame => Some(side.frame(throttles, passes, now)),
        _ => None,
    }
}

/// On a socket that is opened the half writes its banner first, and then a write is due.
#[test]
fn a_half_writes_its_banner_first(rt: HostRuntime) {
    let alloc = rt.alloc();
    let (throttles, mut passes) = Throttles::alone(&Bounds::of_dispatch(0));
    let mut record = Record::new(
        alloc,
        at(1),
        at(2),
        1,
        lossless_peer(),
        facts(),
        PeerType::Osd,
    );
    plans(&rt, &mut record, PlanStep::Post(message(alloc)));
    reserves(&rt, &mut record, 2);
    takes(&rt, &mut record, &throttles, &mut passes, 5);
    let due = record.due(5);
    if due
        == (Due::Connect {
            at: record.next_dial(),
        })
    {
        match record.connected(SimEnd::new(alloc, socket()), 5) {
            Ok(()) => {}
            Err(_end) => panic!(rt; "no memory for a socket"),
        }
    }
    reserves(&rt, &mut record, 2);
    let framed = frames(&mut record, &throttles, &mut passes, 6);
    assert!(rt; framed == Some(Framed::Half(HalfStep::Wrote)));
    assert!(rt; record.due(6) == Due::Write);
    let ends = record.ends(&throttles, &mut passes);
    assert_eq!(rt; ends.len(), 1);
}
