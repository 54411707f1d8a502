//! A message as large as a throttle lets through.

use crate::driving::{message, outcome_of, pair, rounds};
use m2_bytes::NoMemory;
use m2_journal::PlanStep;
use m2_message::Message;
use m2_record_trace::{Pair, Which};
use std::alloc::Global;

/// How many bytes each part of the message has.
const PART: usize = 1_000_000;

/// The most bytes that a throttle lets out: just the three parts.
const LIMIT: u64 = 3_000_000;

/// A message of three such parts.
fn large(alloc: Global) -> Result<Message, NoMemory> {
    let mut part = Vec::new(alloc);
    part.resize(PART, 7)?;
    message(alloc, part.as_slice(), part.as_slice(), part.as_slice())
}

/// Adds a post of such a message to the plan of the first side.
fn posts(alloc: Global, p: &mut Pair) -> bool {
    match large(alloc) {
        Ok(message) => p.plan(Which::First, PlanStep::Post(message)).is_ok(),
        Err(_) => false,
    }
}

/// Each call on its way takes memory as it needs it, and succeeds: the ask, the acceptance, the numbering, the writes and reads,
/// the grant of its size, the letter, and the acknowledgement of it.
#[test]
fn two_messages_as_large_as_a_throttle_are_dispatched_one_after_the_other(rt: HostRuntime) {
    let alloc = rt.alloc();
    let mut p = pair(alloc, LIMIT, 0);
    let posted = posts(alloc, &mut p) && posts(alloc, &mut p);
    rounds(&mut p, 0, 0, 40);
    let outcome = outcome_of(p);
    assert!(rt; posted);
    assert_eq!(rt;
        (outcome.dispatched, outcome.acked, outcome.out),
        ((2, 2), 2, (0, 0))
    );
}
