//! Scenarios whose outcome the rules tell, each worked by hand, and their reports.

use m2_bytes::{Blob, Items};
use m2_cli::run;
use m2_scenario::{Scenario, report};
use m2_scenario_text::read;
use std::alloc::Global;
use std::process::Abort;

/// A scenario, whether its report is sorted, the report, and how many posts are left.
struct Row {
    text: &'static [u8],
    sorted: bool,
    report: &'static [u8],
    left: u64,
}

// The report of a row, and how many posts are left.
fn played(rt: &impl Abort, alloc: Global, row: &Row) -> (Blob, u64) {
    let Scenario {
        nodes,
        links,
        lines,
        limit,
    } = read(alloc, row.text, false).expect(rt, "a scenario");
    let outcome = run(alloc, &nodes, &links, lines).expect(rt, "memory");
    let scenario = Scenario {
        nodes,
        links,
        lines: Items::empty(alloc),
        limit,
    };
    let mut printed = Blob::empty(alloc);
    let (logs, left) = (&outcome.logs, outcome.left);
    report(alloc, &scenario, logs, row.sorted, &mut printed).expect(rt, "memory");
    (printed, left)
}

const ROWS: &[Row] = &[
    // A fault behind two of three messages of 91 bytes, of which b may hold no two at once: each comes once.
    Row {
        text: b"node a osd 127.0.0.1:7001/1\nnode b osd 127.0.0.1:7002/2 throttle 100\n\
                link a b lossless_peer lossless_peer\ndial a b\nsettle 12\n\
                post a b 1 127 61 - -\npost a b 1 127 62 - -\npost a b 1 127 63 - -\n\
                turn a\nflow a b 1 182\nturn b\nfault a b 1\nfault b a 1\nturn a\nturn b\nsettle 16\n",
        sorted: false,
        report: b"b from a 127 queued 1 61 - -\nb from a 127 queued 1 62 - -\nb from a 127 queued 1 63 - -\n",
        left: 0,
    },
    // A reconnect before the first SERVER_IDENT was read.
    Row {
        text: b"node a osd 127.0.0.1:7001/1\nnode b osd 127.0.0.1:7002/2\nlink a b lossless_peer lossless_peer\n\
                post a b 1 127 61 - -\nturn a\nflow a b\nturn b\nflow b a\nturn a\nflow a b\nturn b\nflow b a\nturn a\n\
                post b a 1 127 6d31 - -\nflow a b\nturn b\nfault b a 1\nturn b\nturn b\n\
                flow b a 2 1000000\nturn a\nflow a b 2 1000000\nturn b\n\
                flow b a 2 1000000\nturn a\nflow a b 2 1000000\nturn b\n\
                flow b a 2 1000000\nturn a\nflow a b 2 1000000\nturn b\n\
                flow b a 2 1000000\nturn a\nsettle 16\n",
        sorted: false,
        report: b"a from b 127 queued 1 6d31 - -\nb from a 127 queued 1 61 - -\n",
        left: 0,
    },
    // Idents that cross over Standby.
    Row {
        text: b"node a osd 127.0.0.1:7001/1\nnode b osd 127.0.0.1:7002/2\nlink a b lossless_peer lossless_peer\n\
                dial a b\nturn a\nflow a b\nturn b\nflow b a\nturn a\nflow a b\nturn b\nflow b a\nturn a\n\
                fault a b 1\nturn a\npost b a 1 127 6d31 - -\nturn b\n\
                flow b a 2 1000000\nturn a\nflow a b 2 0\nflow a b 2 1000000\nturn b\n\
                flow b a 2 1000000\nturn a\nflow a b 2 0\nflow a b 2 1000000\nturn b\n\
                flow b a 2 1000000\nturn a\nflow a b 2 0\n\
                flow a b 1 1000000\nturn b\npost a b 1 127 61 - -\nsettle 24\n",
        sorted: false,
        report: b"a from b 127 queued 1 6d31 - -\nb from a 127 queued 1 61 - -\n",
        left: 0,
    },
    // A post of a session that is marked down before its first turn is thrown away, and isn't counted as left.
    Row {
        text: b"node a osd 127.0.0.1:7001/1\nnode b osd 127.0.0.1:7002/2\nlink a b lossless_peer lossless_peer\n\
                post a b 1 127 61 - -\ndown a b\nsettle 12\n",
        sorted: false,
        report: b"",
        left: 0,
    },
    // Sorted: by peer, by priority, fast before queued, as they came, and then the peer's resets.
    Row {
        text: b"node a mds 127.0.0.1:7001/1 fast 1\nnode c client 127.0.0.1:7003/3\nnode b mds 127.0.0.1:7002/2\n\
                link b a lossless_peer lossless_peer\nlink c a lossless_client stateful_server\n\
                post b a 2 64 61 - -\npost b a 1 64 62 - -\npost b a 2 64 63 - -\npost b a 2 196 64 - -\n\
                post c a 2 64 65 - -\nsettle 12\ndown c a\npost c a 1 64 66 - -\nsettle 12\n",
        sorted: true,
        report: b"a from c 64 fast 1 66 - -\na from c 64 queued 2 65 - -\na reset c\n\
                  a from b 196 queued 2 64 - -\na from b 64 fast 1 62 - -\n\
                  a from b 64 queued 2 61 - -\na from b 64 queued 2 63 - -\n",
        left: 0,
    },
];

#[test]
fn scenarios_come_out_as_the_rules_tell(rt: HostRuntime) {
    for row in ROWS {
        let (printed, left) = played(&rt, rt.alloc(), row);
        assert_eq!(rt; printed.as_slice(), row.report);
        assert_eq!(rt; left, row.left);
    }
}
