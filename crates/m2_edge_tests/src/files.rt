//! The adapters over real files.

use m2_edge::{ReadFault, Sink, StdSink, StdSource, read_whole, write_whole};
use std::fs;
use std::process::Abort;
use std::rt::Files;

/// Writes a file, and flushes it.
fn written<R: Files + Abort>(rt: &R, name: &str, text: &str) {
    let file = fs::create(rt, name).expect(rt, "a file");
    let mut sink = StdSink::new(file);
    assert_eq!(rt; write_whole(&mut sink, text.as_bytes()), Ok(()));
    assert_eq!(rt; sink.flush(), Ok(()));
}

#[test]
fn two_files_are_read_one_after_the_other(rt: HostRuntime) {
    let one = "m2_edge_tests_one.tmp";
    let two = "m2_edge_tests_two.tmp";
    written(&rt, one, "one line\n");
    written(&rt, two, "another\n");
    let mut source = StdSource::new(&rt);
    for (name, text) in [(one, "one line\n"), (two, "another\n")] {
        let read = read_whole(rt.alloc(), &mut source, name, 100).expect(&rt, "its bytes");
        assert_eq!(rt; read.as_slice(), text.as_bytes());
        fs::remove_file(&rt, name).expect(&rt, "it goes");
    }
    let missing = read_whole(rt.alloc(), &mut source, one, 100);
    assert_eq!(rt; missing.err(), Some(ReadFault::Failed));
    assert_eq!(rt; source.faults(), 1);
}
