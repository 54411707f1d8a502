//! The two sides of a trace, before anything is done.

ghost use Rattle.std.specs.Prelude.{◌≤◌};
ghost use Rattle.m2_shared.specs.declared.limits.TheConstants.{MOST_TAKEN};

use crate::{Pair, Side};
use m2_addr::Addr;
use m2_journal::NodeFacts;
use m2_policy::{FastSet, Policy, profile};
use m2_scenario_text::PairFacts;
use m2_shared::MOST_TAKEN;
use std::alloc::Global;

/// The kind of both nodes: OSDs.
const ENTITY: u8 = 4;

/// The first wait of a node and its longest, in milliseconds.
const FIRST_WAIT: u64 = 100;

const MOST_WAIT: u64 = 400;

/// The address of the node with this number: 127.0.0.1:7001/1 and 127.0.0.1:7002/2.
fn address(number: u32) -> Addr
    requires { number ≤ 1 }
{
    Addr {
        kind: Addr::MSGR2,
        nonce: number + 1,
        ip: 0x7F00_0001,
        port: 7001 + number as u16,
    }
}

/// A side with this number and this policy, whose throttle lets so many bytes in.
fn side_of(alloc: Global, number: u32, policy: Policy, throttle: u64) -> Side
    requires { number ≤ 1 }
{
    let facts = NodeFacts {
        entity: ENTITY,
        number,
        supports: u64::MAX,
        requires_: 0,
        fast: FastSet::empty(),
        first_wait: FIRST_WAIT,
        most_wait: MOST_WAIT,
        salt: 7,
        rules: profile(),
    };
    let peer = 1 - number;
    Side::new(
        alloc,
        address(number),
        address(peer),
        peer,
        policy,
        facts,
        throttle.clamp(1, MOST_TAKEN),
    )
}

/// The pair that a schedule speaks of. Nothing is planned, and no socket is opened.
pub(crate) fn pair_of(alloc: Global, facts: &PairFacts) -> Pair {
    Pair::new(
        alloc,
        side_of(alloc, 0, facts.of_a, facts.throttle),
        side_of(alloc, 1, facts.of_b, facts.throttle),
    )
}
