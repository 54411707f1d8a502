//! Gates before one thread, and before two.

use m2_edge::{Gate, HoldGate, OpenGate};
use std::thread::{Threads, join};

/// Lets centers 0 and 1 pass, each on a thread of its own.
fn pass_both<R: Threads, G: Gate>(rt: &R, gate: &G) {
    join(rt, || gate.pass(0), || gate.pass(1));
}

#[test]
fn a_center_is_held_until_the_other_has_passed(rt: HostRuntime) {
    let alone = HoldGate::new(0, 1, 3);
    alone.pass(0);
    assert!(rt; alone.gave_up());
    let first = HoldGate::new(0, 1, 100_000_000);
    pass_both(&rt, &first);
    assert!(rt; !first.gave_up());
    let second = HoldGate::new(1, 0, 100_000_000);
    pass_both(&rt, &second);
    assert!(rt; !second.gave_up());
    pass_both(&rt, &OpenGate);
}
