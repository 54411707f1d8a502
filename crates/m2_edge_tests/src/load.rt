//! Generated load, against a scenario that a script of the same rule printed.
//!
//! The script is an independent one, in another language: it draws with whole numbers modulo 2^64, and prints each line
//! of the scenario as a file has it. Its lines stand here as it printed them.

use m2_scenario::{Scenario, generate};
use m2_scenario_text::read;
use std::alloc::Global;
use std::process::Abort;

/// The nodes and links of a generated scenario.
const CLUSTER: &[u8] = b"node n0 osd 127.0.0.1:7000/1 fast 1 throttle 65536\n\
node n1 osd 127.0.0.1:7001/2 fast 1 throttle 65536\n\
node n2 osd 127.0.0.1:7002/3 fast 1 throttle 65536\n\
node n3 osd 127.0.0.1:7003/4 fast 1 throttle 65536\n\
link n0 n1 lossless_peer lossless_peer\n\
link n0 n2 lossless_peer lossless_peer\n\
link n0 n3 lossless_peer lossless_peer\n\
link n1 n2 lossless_peer lossless_peer\n\
link n1 n3 lossless_peer lossless_peer\n\
link n2 n3 lossless_peer lossless_peer\n";

/// Of seed 1 sixteen posts, of which the 8th and the 16th are followed by a round, and the 16th by a fault as well.
const SIXTEEN_OF_1: &[u8] =
    b"post n2 n3 1 196 0000000000000000000000000000000000000000000000000000 - -\n\
post n3 n2 1 127 0101010101010101010101010101010101010101010101010101 - -\n\
post n3 n1 1 64 0202020202020202020202020202020202020202020202020202 - -\n\
post n0 n2 2 64 030303030303030303030303030303030303030303 - -\n\
post n3 n1 1 196 0404040404040404040404040404040404040404040404040404040404 - -\n\
post n0 n1 1 127 - - -\n\
post n3 n1 1 127 0606060606060606060606060606 - -\n\
post n2 n3 1 64 0707070707070707070707070707070707070707070707070707070707 - -\n\
settle 1\n\
post n3 n1 1 64 08080808080808080808080808 - -\n\
post n2 n3 2 255 0909 - -\n\
post n2 n0 1 196 0a0a0a0a0a0a0a0a0a0a0a0a0a0a0a0a0a0a0a0a0a0a0a0a0a0a0a0a0a - -\n\
post n0 n3 2 255 0b0b0b0b0b0b - -\n\
post n1 n2 1 127 0c0c0c0c0c0c0c - -\n\
post n3 n1 1 196 0d0d0d0d0d0d0d - -\n\
post n2 n3 2 64 0e0e0e0e0e0e0e - -\n\
post n0 n1 1 255 0f0f0f0f0f - -\n\
fault n0 n1\n\
settle 1\n\
settle 200\n";

/// Each node, link and line, with all that it has.
fn text_of(rt: &impl Abort, alloc: Global, scenario: &Scenario) -> String {
    format!(in alloc; "{scenario:?}").expect(rt, "memory")
}

/// The scenario of the cluster and these lines.
fn scenario_of(rt: &impl Abort, alloc: Global, lines: &[u8]) -> Scenario {
    let mut text = Vec::from_slice(alloc, CLUSTER).expect(rt, "memory");
    text.extend_from_slice(lines).expect(rt, "memory");
    read(alloc, text.as_slice(), false).expect(rt, "a scenario")
}

#[test]
fn a_seed_gives_the_lines_that_its_draws_choose(rt: HostRuntime) {
    let scripted = scenario_of(&rt, rt.alloc(), SIXTEEN_OF_1);
    let generated = generate(rt.alloc(), 16, 1).expect(&rt, "memory");
    assert!(rt; text_of(&rt, rt.alloc(), &generated) == text_of(&rt, rt.alloc(), &scripted));
}
