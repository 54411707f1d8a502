//! The program where a read or a write fails, and a load of which some is left.

use m2_bytes::{Blob, Items};
use m2_cli::{Status, msgr2};
use m2_edge::{CallList, CountWords, FixedClock, Input, InputList, MemSink, MemSource, OpenGate};
use m2_mem_fabric::MemFabric;
use std::alloc::Global;
use std::process::Abort;
use std::sync::Wait;
use std::thread::Threads;

/// A file of two nodes, a link and a post, and its report.
const POST: &[u8] = b"node a osd 127.0.0.1:7001/1\nnode b osd 127.0.0.1:7002/2\n\
link a b lossless_peer lossless_peer\npost a b 7 127 616263 - -\nsettle 30\n";

const DISPATCHED: &[u8] = b"b from a 127 queued 7 616263 - -\n";

/// A WAIT, of an independent program.
const WAIT: &[u8] =
    b"\x10\x01\0\0\0\0\x08\0\0\0\0\0\0\0\0\0\0\0\0\0\0\0\0\0\0\0\0\0\xc8\xe3\xaa\xb0";

/// Words, the file named `f`, and of the calls of the source, of standard output and of standard error the one that fails,
/// if one does.
#[derive(Clone, Copy)]
pub(crate) struct Asked<'a> {
    pub(crate) words: &'a [&'a str],
    pub(crate) file: &'a [u8],
    pub(crate) read: Option<u64>,
    pub(crate) write: Option<u64>,
    pub(crate) say: Option<u64>,
}

/// A status, and what was printed and said.
#[derive(Drop)]
struct Seen {
    status: Status,
    out: MemSink,
    err: MemSink,
}

/// The number of a call that fails.
pub(crate) fn calls(rt: &impl Abort, alloc: Global, fails: Option<u64>) -> CallList {
    let mut calls = Items::empty(alloc);
    if let Some(number) = fails {
        calls.push(number).expect(rt, "memory");
    }
    calls
}

pub(crate) fn args(rt: &impl Abort, alloc: Global, words: &[&str]) -> Vec<String> {
    let mut args = Vec::new(alloc);
    for word in words {
        let word = String::from_str(alloc, word).expect(rt, "memory");
        args.push(word).expect(rt, "memory");
    }
    args
}

pub(crate) fn inputs(rt: &impl Abort, alloc: Global, file: &[u8]) -> InputList {
    let input = Input {
        name: Blob::of(alloc, b"f").expect(rt, "memory"),
        bytes: Blob::of(alloc, file).expect(rt, "memory"),
    };
    let mut inputs = Items::empty(alloc);
    assert!(rt; inputs.push(input).is_ok());
    inputs
}

fn run<R: Abort + Threads + Wait + Sync + Send + Copy>(
    rt: &R,
    alloc: Global,
    asked: &Asked<'_>,
) -> Seen {
    let args = args(rt, alloc, asked.words);
    let inputs = inputs(rt, alloc, asked.file);
    let mut src = MemSource::new(inputs, calls(rt, alloc, asked.read));
    let mut out = MemSink::new(alloc, calls(rt, alloc, asked.write));
    let mut err = MemSink::new(alloc, calls(rt, alloc, asked.say));
    let mut fabric = MemFabric::new(*rt, alloc).expect(rt, "memory");
    let status = msgr2(
        rt,
        alloc,
        &args,
        &mut src,
        &mut out,
        &mut err,
        &mut fabric,
        &FixedClock::new(0),
        &mut CountWords::new(),
        &OpenGate,
    );
    Seen { status, out, err }
}

/// Runs it, and compares the status and what is printed and said.
pub(crate) fn expect<R: Abort + Threads + Wait + Sync + Send + Copy>(
    rt: &R,
    alloc: Global,
    asked: &Asked<'_>,
    status: Status,
    out: &[u8],
    err: &[u8],
) {
    let seen = run(rt, alloc, asked);
    assert_eq!(rt; seen.status, status);
    assert_eq!(rt; seen.out.bytes(), out);
    assert_eq!(rt; seen.err.bytes(), err);
}

// Call 1 of the source begins the file, and call 2 gives all of it. Call 1 of standard output writes, and call 2 flushes.
#[test]
fn a_failed_call_is_answered(rt: HostRuntime) {
    let sim: &[&str] = &["sim", "f"];
    let frames: &[&str] = &["frames", "f"];
    let listed: &[u8] = b"WAIT 0\n";
    let (source, sink) = (Status::ReadFault, Status::WriteFault);
    for (words, file, read, write, status, out, err) in [
        (
            sim,
            POST,
            Some(1),
            None,
            source,
            b"".as_slice(),
            b"read fault\n".as_slice(),
        ),
        (sim, POST, Some(3), None, source, b"", b"read fault\n"),
        (sim, POST, None, Some(1), sink, b"", b"write fault\n"),
        (sim, POST, None, Some(2), sink, DISPATCHED, b"write fault\n"),
        (frames, WAIT, Some(2), None, source, b"", b"read fault\n"),
        (frames, WAIT, Some(3), None, source, listed, b"read fault\n"),
        (frames, WAIT, None, Some(1), sink, b"", b"write fault\n"),
        (frames, WAIT, None, Some(2), sink, listed, b"write fault\n"),
    ] {
        let asked = Asked {
            words,
            file,
            read,
            write,
            say: None,
        };
        expect(&rt, rt.alloc(), &asked, status, out, err);
    }
}

// Two lossless peers can repeat one exchange of connects for ever, where both dial again in the same round. How many
// posts that leaves here was computed by an independent program of the same rules.
#[test]
fn a_load_tells_how_many_are_left(rt: HostRuntime) {
    let asked = Asked {
        words: &["load", "100", "4"],
        file: b"",
        read: None,
        write: None,
        say: None,
    };
    let status = Status::Left { count: 21 };
    let printed = b"posted 100\ndispatched 79\nleft 21\n";
    expect(&rt, rt.alloc(), &asked, status, printed, b"left: 21\n");
}
