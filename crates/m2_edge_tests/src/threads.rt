//! The nodes of a scenario on threads, over sockets between threads.

use crate::program::{args, calls, inputs};
use m2_cli::{Status, msgr2};
use m2_edge::{
    Clock, CountWords, FixedClock, Gate, HoldGate, MemSink, MemSource, OpenGate, StdClock,
};
use m2_mem_fabric::{MemCall, MemFabric};
use std::alloc::Global;
use std::process::Abort;
use std::sync::Wait;
use std::thread::Threads;

/// Two nodes, a link, and a post each way; and the sorted report where both come over.
const BOTH: &[u8] = b"node a osd 127.0.0.1:7001/1\nnode b osd 127.0.0.1:7002/2\n\
link a b lossless_peer lossless_peer\npost a b 7 127 61 - -\npost b a 7 127 62 - -\n";

/// The same, where the one node has two event threads.
const THREADS: &[u8] = b"node a osd 127.0.0.1:7001/1 centers 2\nnode b osd 127.0.0.1:7002/2\n\
link a b lossless_peer lossless_peer\npost a b 7 127 61 - -\npost b a 7 127 62 - -\n";

const REPORT: &[u8] = b"a from b 127 queued 7 62 - -\nb from a 127 queued 7 61 - -\n";

/// A post to a node that is off.
const OFF: &[u8] = b"node a osd 127.0.0.1:7001/1\nnode b osd 127.0.0.1:7002/2\n\
link a b lossless_peer lossless_peer\noff b\nlimit 50\npost a b 7 127 61 - -\n";

/// Runs a file over a fabric, and compares the status and what is printed and said.
pub(crate) fn expect<R: Abort + Threads + Wait + Sync + Send + Copy, C: Clock, G: Gate>(
    rt: &R,
    alloc: Global,
    file: &[u8],
    fabric: &mut MemFabric<R>,
    clock: &C,
    gate: &G,
    expected: (Status, &[u8], &[u8]),
) {
    let args = args(rt, alloc, &["run", "f"]);
    let mut src = MemSource::new(inputs(rt, alloc, file), calls(rt, alloc, None));
    let mut out = MemSink::new(alloc, calls(rt, alloc, None));
    let mut err = MemSink::new(alloc, calls(rt, alloc, None));
    let mut words = CountWords::new();
    let status = msgr2(
        rt, alloc, &args, &mut src, &mut out, &mut err, fabric, clock, &mut words, gate,
    );
    let (its, printed, said) = expected;
    assert_eq!(rt; status, its);
    assert_eq!(rt; out.bytes(), printed);
    assert_eq!(rt; err.bytes(), said);
}

// Either thread waits until the other has taken a turn, so on one thread the one or the other would wait in vain. The clock
// stands still, so nothing ends for want of time. The first two are of two nodes, and the others of one.
#[test]
fn threads_run_beside_one_another(rt: HostRuntime) {
    for (file, held, awaited) in [(BOTH, 0, 1), (BOTH, 1, 0), (THREADS, 0, 1), (THREADS, 1, 0)] {
        let gate = HoldGate::new(held, awaited, 100_000_000);
        let mut fabric = MemFabric::new(rt, rt.alloc()).expect(&rt, "memory");
        let clock = FixedClock::new(5);
        let expected = (Status::Done, REPORT, b"".as_slice());
        expect(&rt, rt.alloc(), file, &mut fabric, &clock, &gate, expected);
        assert!(rt; !gate.gave_up());
    }
}

#[test]
fn a_post_to_a_node_that_is_off_is_left(rt: HostRuntime) {
    let mut fabric = MemFabric::new(rt, rt.alloc()).expect(&rt, "memory");
    let clock = StdClock::new(&rt);
    let expected = (
        Status::Stalled { left: 1 },
        b"".as_slice(),
        b"stalled: 1 left\n".as_slice(),
    );
    expect(
        &rt,
        rt.alloc(),
        OFF,
        &mut fabric,
        &clock,
        &OpenGate,
        expected,
    );
}

#[test]
fn a_node_that_can_not_listen_is_named(rt: HostRuntime) {
    let mut fabric = MemFabric::new(rt, rt.alloc()).expect(&rt, "memory");
    fabric.fail(MemCall::Listen, 2).expect(&rt, "memory");
    let clock = FixedClock::new(5);
    let expected = (
        Status::BindFault { node: 1 },
        b"".as_slice(),
        b"bind fault: b\n".as_slice(),
    );
    expect(
        &rt,
        rt.alloc(),
        BOTH,
        &mut fabric,
        &clock,
        &OpenGate,
        expected,
    );
}
