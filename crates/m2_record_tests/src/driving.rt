//! Two records of a pair, and what tests look at.

ghost use Rattle.std.specs.Prelude.{◌<◌, ◌≤◌};
ghost use Rattle.m2_session.specs.declared.cookie.TheConstants.{MOST_PLACES};
ghost use Rattle.m2_shared.specs.declared.limits.TheConstants.{MOST_TAKEN};
ghost use Rattle.m2_record.specs.m2_core.Waits.{AreWaits};

use m2_addr::Addr;
use m2_bytes::{NoMemory, Part};
use m2_dispatch::Logged;
use m2_journal::{Entry, EntryList, NodeFacts, PlanStep};
use m2_message::{Header, Message};
use m2_policy::{FastSet, lossless_peer, profile};
use m2_record_trace::{Pair, Side, Which};
use m2_session::Phase;
use std::alloc::Global;

/// More bytes than any test lets flow.
pub(crate) const ALL: usize = 100_000_000;

/// The address of the side with this number.
fn at(number: u8) -> Addr {
    let number = number as u32 + 1;
    Addr {
        kind: Addr::MSGR2,
        nonce: number,
        ip: number,
        port: 7000,
    }
}

/// What its node knows, and which features it requires.
fn facts(number: u8, requires_: u64) -> NodeFacts
    requires { number < MOST_PLACES }
    ensures number { result.number < MOST_PLACES }
    ensures waits { AreWaits result }
{
    NodeFacts {
        entity: 4,
        number: number as u32,
        supports: 0,
        requires_,
        fast: FastSet::empty(),
        first_wait: 1,
        most_wait: 8,
        salt: 7,
        rules: profile(),
    }
}

/// Two lossless peers that have done nothing, whose throttles let so many bytes out; which features the second requires.
pub(crate) fn pair(alloc: Global, limit: u64, requires_: u64) -> Pair
    requires some { 0 < limit }
    requires most { limit ≤ MOST_TAKEN }
{
    let policy = lossless_peer();
    let first = Side::new(alloc, at(0), at(1), 1, policy, facts(0, 0), limit);
    let second = Side::new(alloc, at(1), at(0), 0, policy, facts(1, requires_), limit);
    Pair::new(alloc, first, second)
}

/// A message of these parts.
pub(crate) fn message(
    alloc: Global,
    front: &[u8],
    middle: &[u8],
    tail: &[u8],
) -> Result<Message, NoMemory> {
    let header = Header {
        seq: 0,
        tid: 0,
        kind: 1,
        priority: 127,
        version: 1,
        pre_padding: 0,
        data_off: 0,
        ack_seq: 0,
        flags: 0,
        compat: 1,
        reserved: 0,
    };
    Ok(Message {
        header,
        front: Part::of(alloc, front)?,
        middle: Part::of(alloc, middle)?,
        tail: Part::of(alloc, tail)?,
    })
}

/// Adds a post of a message of a hundred bytes to the plan of the first side.
pub(crate) fn post(alloc: Global, p: &mut Pair) -> bool {
    match message(alloc, &[7; 100], b"", b"") {
        Ok(message) => p.plan(Which::First, PlanStep::Post(message)).is_ok(),
        Err(_) => false,
    }
}

/// A round: each side takes its turn; of what the first writes at most so much flows on each socket from this one on, and back
/// all.
pub(crate) fn round(p: &mut Pair, from_wire: usize, most: usize, now: u64) {
    p.turn(Which::First, now, 200);
    let wires = p.wires().len();
    'ahead: for wire in from_wire..wires {
        p.flow(Which::First, wire, most);
    }
    p.turn(Which::Second, now, 200);
    let wires = p.wires().len();
    'back: for wire in from_wire..wires {
        p.flow(Which::Second, wire, ALL);
    }
}

/// Rounds at all moments from one to another.
pub(crate) fn rounds(p: &mut Pair, from_wire: usize, from: u64, to: u64) {
    'rounds: for now in from..to {
        round(p, from_wire, ALL, now);
    }
}

/// A pair that the first has dialled, and whose sessions are ready.
pub(crate) fn ready(alloc: Global) -> Pair {
    let mut p = pair(alloc, 1000, 0);
    let _planned = p.plan(Which::First, PlanStep::Dial);
    rounds(&mut p, 0, 0, 6);
    p
}

/// What a pair came to.
#[derive(Clone, Copy, Debug, PartialEq, Eq)]
pub(crate) struct Outcome {
    pub(crate) phases: (Phase, Phase),
    /// How many messages the second has dispatched, and the number of the last.
    pub(crate) dispatched: (usize, u64),
    /// Up to which number the first was acknowledged.
    pub(crate) acked: u64,
    /// How many bytes are out at the end, at both.
    pub(crate) out: (u64, u64),
    /// How many sockets were opened.
    pub(crate) sockets: usize,
}

/// Ends a pair.
pub(crate) fn outcome_of(p: Pair) -> Outcome {
    let phases = (
        p.side(Which::First).record().session().phase,
        p.side(Which::Second).record().session().phase,
    );
    let log = p.side(Which::Second).log().as_slice();
    let dispatched = (log.len(), last_number(log));
    let acked = last_acked(p.side(Which::First).record().journal());
    let sockets = p.wires().len();
    Outcome {
        phases,
        dispatched,
        acked,
        out: p.finish(),
        sockets,
    }
}

/// The number of the last message of a log, or 0.
fn last_number(log: &[Logged]) -> u64 {
    match log.last() {
        Some(
            Logged::Message {
                peer: _,
                key: _,
                number,
                life: _,
                message: _,
            },
        ) => *number,
        _ => 0,
    }
}

/// The number of the last acknowledgement of a journal, or 0.
fn last_acked(journal: &EntryList) -> u64 {
    let mut last = 0;
    for e in journal.iter() {
        if let Entry::Acked { number } = e {
            last = number;
        }
    }
    last
}

/// Where one message was posted, and was dispatched and acknowledged over so many sockets.
pub(crate) fn one_over(sockets: usize) -> Outcome {
    Outcome {
        phases: (Phase::Ready, Phase::Ready),
        dispatched: (1, 1),
        acked: 1,
        out: (0, 0),
        sockets,
    }
}
