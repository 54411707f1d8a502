//! Two records that are driven against each other as a seed says: posts of different priorities, paths and
//! sizes both ways, turns of some steps, bytes that flow in part, connects that fail, and sockets that break
//! or end; then all flows.

ghost use Rattle.std.specs.Prelude.{◌<◌};
ghost use Rattle.m2_session.specs.declared.cookie.TheConstants.{MOST_PLACES};
ghost use Rattle.m2_record.specs.m2_core.Waits.{AreWaits};

use m2_addr::Addr;
use m2_bytes::{NoMemory, Part};
use m2_fabric::News;
use m2_journal::{NodeFacts, PlanStep};
use m2_message::{Header, Message};
use m2_policy::{FastSet, lossless_peer, profile};
use m2_record_trace::{Pair, Side, Which};
use std::alloc::Global;

/// How many things happen before all flows, and how many rounds that goes on.
const ACTIONS: u64 = 160;

const ROUNDS: u64 = 60;

/// More bytes than any run has.
const ALL: usize = 1_000_000;

/// The priorities of posts.
pub(crate) const PRIORITIES: [u16; 3] = [63, 127, 196];

/// A kind that both nodes dispatch at once, and one that waits in a queue.
const FAST: u16 = 43;

const QUEUED: u16 = 1;

/// The kinds that both nodes dispatch at once.
pub(crate) fn fast_kinds() -> FastSet {
    let mut fast = FastSet::empty();
    fast.add(FAST);
    fast
}

/// The words that a seed determines, one after the other.
#[derive(Clone, Copy)]
struct Words {
    state: u64,
}

impl Words {
    fn of(seed: u64) -> Words {
        Words {
            state: seed.wrapping_mul(0x9E37_79B9_7F4A_7C15),
        }
    }

    /// The next one, as a number below this bound.
    fn below(&mut self, bound: u32) -> u32
        requires { 0 < bound }
        ensures { result < bound }
    {
        self.state = self
            .state
            .wrapping_mul(6364136223846793005)
            .wrapping_add(1442695040888963407);
        (self.state >> 33) as u32 % bound
    }

    /// One of the two sides.
    fn side(&mut self) -> Which {
        if self.below(2) == 0 {
            Which::First
        } else {
            Which::Second
        }
    }
}

/// The address of the side with this number.
fn at(number: u8) -> Addr {
    let number = number as u32 + 1;
    Addr {
        kind: Addr::MSGR2,
        nonce: number,
        ip: number,
        port: 7000,
    }
}

/// What its node knows.
fn facts(number: u8) -> NodeFacts
    requires { number < MOST_PLACES }
    ensures number { result.number < MOST_PLACES }
    ensures waits { AreWaits result }
{
    NodeFacts {
        entity: 4,
        number: number as u32,
        supports: 0,
        requires_: 0,
        fast: fast_kinds(),
        first_wait: 1,
        most_wait: 8,
        salt: 7,
        rules: profile(),
    }
}

/// Two lossless peers that have done nothing.
pub(crate) fn pair(alloc: Global) -> Pair {
    let policy = lossless_peer();
    let first = Side::new(alloc, at(0), at(1), 1, policy, facts(0), 1000);
    let second = Side::new(alloc, at(1), at(0), 0, policy, facts(1), 1000);
    Pair::new(alloc, first, second)
}

/// A message that is known by this number.
fn message(alloc: Global, words: &mut Words, number: u64) -> Result<Message, NoMemory> {
    let header = Header {
        seq: 0,
        tid: number,
        kind: if words.below(2) == 0 { FAST } else { QUEUED },
        priority: PRIORITIES[words.below(3) as usize],
        version: 1,
        pre_padding: 0,
        data_off: 0,
        ack_seq: 0,
        flags: 0,
        compat: 1,
        reserved: 0,
    };
    Ok(Message {
        header,
        front: part(alloc, words)?,
        middle: Part::empty(),
        tail: part(alloc, words)?,
    })
}

/// A part of up to 300 bytes.
fn part(alloc: Global, words: &mut Words) -> Result<Part, NoMemory> {
    let mut bytes = Vec::new(alloc);
    let byte = words.below(256) as u8;
    bytes.resize(words.below(301) as usize, byte)?;
    Part::of(alloc, bytes.as_slice())
}

/// A side posts a message.
fn post(
    alloc: Global,
    p: &mut Pair,
    at: Which,
    words: &mut Words,
    number: u64,
) -> Result<(), NoMemory> {
    match p.plan(at, PlanStep::Post(message(alloc, words, number)?)) {
        Ok(()) => Ok(()),
        Err(_step) => Err(NoMemory),
    }
}

/// The place of the last socket or of the one before it.
fn last_wire(p: &Pair, words: &mut Words) -> usize {
    p.wires().len().saturating_sub(1 + words.below(2) as usize)
}

/// Some bytes flow from a side, or all.
fn flow(p: &mut Pair, from: Which, words: &mut Words) {
    let wire = last_wire(p, words);
    let most = if words.below(3) == 0 {
        ALL
    } else {
        words.below(400) as usize
    };
    p.flow(from, wire, most);
}

/// A side's end of a socket breaks, or ends.
fn break_socket(p: &mut Pair, at: Which, words: &mut Words) -> Result<(), NoMemory> {
    let wire = last_wire(p, words);
    let news = if words.below(2) == 0 {
        News::Failed
    } else {
        News::Ended
    };
    p.hear(at, wire, b"", news)
}

/// One thing happens.
fn go_on(alloc: Global, p: &mut Pair, words: &mut Words, now: u64) -> Result<(), NoMemory> {
    let at = words.side();
    let what = words.below(16);
    if what < 2 {
        return post(alloc, p, at, words, now);
    }
    if what < 8 {
        p.turn(at, now, 1 + words.below(40));
    } else if what < 14 {
        flow(p, at, words);
    } else if what < 15 {
        p.miss(at, now);
    } else {
        return break_socket(p, at, words);
    }
    Ok(())
}

/// Both sides take their turns, and then all flows.
fn round(p: &mut Pair, now: u64) {
    p.turn(Which::First, now, 400);
    p.turn(Which::Second, now, 400);
    'wires: for wire in 0..p.wires().len() {
        p.flow(Which::First, wire, ALL);
        p.flow(Which::Second, wire, ALL);
    }
}

/// What a seed says happens, and then all flows.
pub(crate) fn drive(alloc: Global, p: &mut Pair, seed: u64) -> Result<(), NoMemory> {
    let mut words = Words::of(seed);
    'actions: for now in 0..ACTIONS {
        go_on(alloc, p, &mut words, now)?;
    }
    'rounds: for now in 0..ROUNDS {
        round(p, ACTIONS + now);
    }
    Ok(())
}
