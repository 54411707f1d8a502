//! Each call of what lies outside refused in turn: of each kind the k-th alone, for each k up to [`LAST`].
//!
//! A file, standard output and standard error tell a refusal by the status, and nothing wrong is printed. A refused connect,
//! accept, wait, read or write between nodes is made up for: the report is whole. What each of these runs leaves of threads and
//! descriptors is counted by `checks/allocations.sh`, over the whole program.

use crate::program::{self, Asked};
use crate::threads;
use m2_bytes::{Blob, put_hex};
use m2_cli::Status;
use m2_edge::{OpenGate, StdClock};
use m2_mem_fabric::{MemCall, MemFabric};
use std::alloc::Global;
use std::process::Abort;
use std::sync::Wait;
use std::thread::Threads;
use std::time;

/// The last call that is refused.
const LAST: u32 = 20;

/// Three messages over a socket that both ends lose when the second was read.
const RESUMED: &[u8] = b"node a osd 127.0.0.1:7001/1\nnode b osd 127.0.0.1:7002/2\n\
link a b lossless_peer lossless_peer\ndial a b\nsettle 12\n\
post a b 1 127 61 - -\npost a b 1 127 62 - -\npost a b 1 127 63 - -\n\
turn a\nflow a b 1 182\nturn b\nfault a b 1\nfault b a 1\nturn a\nturn b\nsettle 16\n";

const RESUMED_REPORT: &[u8] =
    b"b from a 127 queued 1 61 - -\nb from a 127 queued 1 62 - -\nb from a 127 queued 1 63 - -\n";

/// A file that ends in a bad line, its status and what is said of it.
const BAD: (&[u8], Status, &[u8]) = (
    b"turn z\n",
    Status::BadScenario { line: 1, kind: 5 },
    b"bad scenario: line 1 kind 5\n",
);

// ---- the file, standard output and standard error

/// A call of the source is refused: one begins the file, one reads all of it, and one finds its end.
fn refuse_reads<R: Abort + Threads + Wait + Sync + Send + Copy>(rt: &R, alloc: Global) {
    for k in 1..=LAST {
        let asked = Asked {
            words: &["sim", "f"],
            file: RESUMED,
            read: Some(k as u64),
            write: None,
            say: None,
        };
        let (status, out, err): (Status, &[u8], &[u8]) = if k <= 3 {
            (Status::ReadFault, b"", b"read fault\n")
        } else {
            (Status::Done, RESUMED_REPORT, b"")
        };
        program::expect(rt, alloc, &asked, status, out, err);
    }
}

/// A call of standard output is refused: one writes the report, and one flushes it.
fn refuse_writes<R: Abort + Threads + Wait + Sync + Send + Copy>(rt: &R, alloc: Global) {
    for k in 1..=LAST {
        let asked = Asked {
            words: &["sim", "f"],
            file: RESUMED,
            read: None,
            write: Some(k as u64),
            say: None,
        };
        let (status, out, err): (Status, &[u8], &[u8]) = match k {
            1 => (Status::WriteFault, b"", b"write fault\n"),
            2 => (Status::WriteFault, RESUMED_REPORT, b"write fault\n"),
            _ => (Status::Done, RESUMED_REPORT, b""),
        };
        program::expect(rt, alloc, &asked, status, out, err);
    }
}

/// A call of standard error is refused where a bad line is told there: one writes, and one flushes.
fn refuse_complaints<R: Abort + Threads + Wait + Sync + Send + Copy>(rt: &R, alloc: Global) {
    let (file, bad, complaint) = BAD;
    for k in 1..=LAST {
        let asked = Asked {
            words: &["sim", "f"],
            file,
            read: None,
            write: None,
            say: Some(k as u64),
        };
        let (status, err): (Status, &[u8]) = match k {
            1 => (Status::WriteFault, b""),
            2 => (Status::WriteFault, complaint),
            _ => (bad, complaint),
        };
        program::expect(rt, alloc, &asked, status, b"", err);
    }
}

#[test]
fn a_read_of_the_file_is_refused(rt: HostRuntime) {
    refuse_reads(&rt, rt.alloc());
}

#[test]
fn a_write_of_the_report_is_refused(rt: HostRuntime) {
    refuse_writes(&rt, rt.alloc());
}

#[test]
fn a_write_of_the_complaint_is_refused(rt: HostRuntime) {
    refuse_complaints(&rt, rt.alloc());
}

// ---- nodes on threads

/// How many messages each node posts to each other one.
const POSTS: u8 = 100;

const NODES: &[u8] =
    b"node n0 osd 127.0.0.1:17001/1\nnode n1 osd 127.0.0.1:17002/2\nnode n2 osd 127.0.0.1:17003/3\n\
link n0 n1 lossless_peer lossless_peer\nlink n0 n2 lossless_peer lossless_peer\nlink n1 n2 lossless_peer lossless_peer\n";

const NAMES: [&[u8]; 3] = [b"n0", b"n1", b"n2"];

/// Appends a text.
fn put(rt: &impl Abort, into: &mut Blob, text: &[u8]) {
    into.push_all(text).expect(rt, "memory");
}

/// Appends a message of the two bytes 0 and this number, as lines have it, and ends the line.
fn put_message(rt: &impl Abort, into: &mut Blob, number: u8) {
    put_hex(into, &[0, number]).expect(rt, "memory");
    put(rt, into, b" - -\n");
}

/// Appends the line of a post.
fn put_post(rt: &impl Abort, file: &mut Blob, from: &[u8], to: &[u8], number: u8) {
    put(rt, file, b"post ");
    put(rt, file, from);
    put(rt, file, b" ");
    put(rt, file, to);
    put(rt, file, b" 1 127 ");
    put_message(rt, file, number);
}

/// Appends what is told of it.
fn put_dispatch(rt: &impl Abort, report: &mut Blob, from: &[u8], to: &[u8], number: u8) {
    put(rt, report, to);
    put(rt, report, b" from ");
    put(rt, report, from);
    put(rt, report, b" 127 queued 1 ");
    put_message(rt, report, number);
}

/// Appends the line of a cut.
fn put_cut(rt: &impl Abort, file: &mut Blob, from: &[u8], to: &[u8], bytes: &[u8]) {
    put(rt, file, b"cut ");
    put(rt, file, from);
    put(rt, file, b" ");
    put(rt, file, to);
    put(rt, file, bytes);
}

/// Appends what one node posts to another, with the cuts of two of its sockets; and what is told of it.
fn put_pair(rt: &impl Abort, file: &mut Blob, report: &mut Blob, from: &[u8], to: &[u8]) {
    for number in 0..POSTS {
        put_post(rt, file, from, to, number);
        put_dispatch(rt, report, from, to, number);
    }
    put_cut(rt, file, from, to, b" 2000\n");
    put_cut(rt, file, from, to, b" 5000\n");
}

/// Three nodes, each linked with each, that post to each other, over sockets that are cut; and the sorted report.
fn crossing(rt: &impl Abort, alloc: Global) -> (Blob, Blob) {
    let mut file = Blob::of(alloc, NODES).expect(rt, "memory");
    let mut report = Blob::empty(alloc);
    for to in NAMES {
        for from in NAMES {
            if to != from {
                put_pair(rt, &mut file, &mut report, from, to);
            }
        }
    }
    (file, report)
}

/// The status and what is said where the k-th call of a kind is refused: each node listens once, and nothing else that is
/// refused shows.
fn refused(call: MemCall, k: u32) -> (Status, &'static [u8]) {
    match (call, k) {
        (MemCall::Listen, 1) => (Status::BindFault { node: 0 }, b"bind fault: n0\n"),
        (MemCall::Listen, 2) => (Status::BindFault { node: 1 }, b"bind fault: n1\n"),
        (MemCall::Listen, 3) => (Status::BindFault { node: 2 }, b"bind fault: n2\n"),
        _ => (Status::Done, b""),
    }
}

/// Runs the three nodes over sockets between threads, the k-th call of a kind refused, for each k.
fn refuse_calls<R: Abort + Threads + Wait + time::Clock + Sync + Send + Copy>(
    rt: &R,
    alloc: Global,
    call: MemCall,
) {
    let (file, report) = crossing(rt, alloc);
    for k in 1..=LAST {
        let mut fabric = MemFabric::new(*rt, alloc).expect(rt, "memory");
        fabric.fail(call, k).expect(rt, "memory");
        let clock = StdClock::new(rt);
        let (status, said) = refused(call, k);
        let printed: &[u8] = if status == Status::Done {
            report.as_slice()
        } else {
            b""
        };
        let expected = (status, printed, said);
        threads::expect(
            rt,
            alloc,
            file.as_slice(),
            &mut fabric,
            &clock,
            &OpenGate,
            expected,
        );
    }
}

#[test]
fn a_listen_is_refused(rt: HostRuntime) {
    refuse_calls(&rt, rt.alloc(), MemCall::Listen);
}

#[test]
fn a_connect_is_refused(rt: HostRuntime) {
    refuse_calls(&rt, rt.alloc(), MemCall::Connect);
}

#[test]
fn an_accept_is_refused(rt: HostRuntime) {
    refuse_calls(&rt, rt.alloc(), MemCall::Accept);
}

#[test]
fn a_wait_is_refused(rt: HostRuntime) {
    refuse_calls(&rt, rt.alloc(), MemCall::Poll);
}

#[test]
fn a_read_of_the_first_socket_is_refused(rt: HostRuntime) {
    refuse_calls(&rt, rt.alloc(), MemCall::Read { node: 0 });
}

#[test]
fn a_write_of_the_first_socket_is_refused(rt: HostRuntime) {
    refuse_calls(&rt, rt.alloc(), MemCall::Write { node: 0 });
}
