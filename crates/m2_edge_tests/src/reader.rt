//! Lines for which several kinds of badness hold: the first of them in the table of the language decides.

use m2_scenario_text::{BadScenario, read};
use std::alloc::Global;
use std::process::Abort;

/// Lines that follow a pair of joined nodes, and the bad line and its kind's number, or zeros.
type Row = (&'static [u8], u32, u8);

const PAIR: &[u8] =
    b"node a osd 127.0.0.1:7001/1\nnode b osd 127.0.0.1:7002/2\nlink a b lossless_peer lossless_peer\n";

/// The bad line and its kind's number, or zeros.
fn answer(rt: &impl Abort, alloc: Global, rest: &[u8], run: bool) -> (u32, u8) {
    let mut text = Vec::from_slice(alloc, PAIR).expect(rt, "memory");
    text.extend_from_slice(rest).expect(rt, "memory");
    match read(alloc, text.as_slice(), run) {
        Ok(_) => (0, 0),
        Err(BadScenario::BadLine { line, flaw }) => (line, flaw.kind().number()),
        Err(BadScenario::NoMemory) => panic!(rt; "no memory"),
    }
}

fn assert_rows(rt: &impl Abort, alloc: Global, run: bool, rows: &[Row]) {
    for row in rows {
        let (rest, line, kind) = *row;
        assert_eq!(rt; answer(rt, alloc, rest, run), (line, kind), "{rest:?}");
    }
}

const OF_SIM: &[Row] = &[
    (
        b"\r\n# any \xff\n   \npost a b 7 127 6D - -\r\nsettle 12",
        0,
        0,
    ),
    (
        b"node c osd 127.0.0.1:3/3 requires 5 supports 4 throttle 3 fast 1,26 centers 2",
        0,
        0,
    ),
    (b"turn\ta", 4, 1),
    (b"off a", 4, 11),
    (b"node C x 1 size 1", 4, 2),
    (b"node C x 1", 4, 4),
    (b"node c x 127.0.0.1:0/3", 4, 7),
    (b"node a x 127.0.0.1:7001/3", 4, 3),
    (b"link z z lossless_peer peer", 4, 8),
    (b"post z z 1 63 6 - -", 4, 3),
    (b"post z z 1 64 6 - -", 4, 10),
    (b"post z z 1 64 61 - -", 4, 5),
    (b"node c osd 127.0.0.1:7001/9", 4, 6),
    (b"post a a 1 64 61 - -", 4, 9),
    (b"settle 10000\nsettle 10000\nsettle 1", 6, 12),
];

const OF_RUN: &[Row] = &[
    (b"off b\npost a b 1 127 61 - -\noff b\nlimit 60000", 0, 0),
    (b"walk a", 4, 1),
    (b"turn a b c", 4, 11),
    (b"limit 10\nlimit x", 5, 2),
    (b"off a\npost a b 1 127 61 - -", 5, 9),
    (b"down a b\noff a", 5, 9),
    (b"cut a b 1048577", 4, 12),
];

#[test]
fn the_first_kind_in_the_table_decides(rt: HostRuntime) {
    assert_rows(&rt, rt.alloc(), false, OF_SIM);
    assert_rows(&rt, rt.alloc(), true, OF_RUN);
}
