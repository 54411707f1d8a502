//! Standard output and standard error as sinks.
//!
//! Part of the trusted edge: contracts say what was passed to the runtime's `write` and counted by it,
//! and when its `flush` succeeded. That those bytes arrive is trusted.

ghost use Rattle.std.specs.Prelude.{◌≡◌, ◌<◌, ◌≤◌, length, IfOk};
ghost use Rattle.std.specs.Io.KnownBytes.{Keeps, WriteAppends};
ghost use Rattle.m2_edge.specs.Faults.{HasCause};
ghost use Rattle.m2_edge.specs.Sink.{FlushesAll, WritesPiece};

use crate::count::Count;
use crate::failed::Failed;
use crate::sink::Sink;
use m2_bytes::Told;
use std::io::{ErrorKind, Write};

/// A writer of the runtime, as its standard output.
#[derive(Drop)]
pub struct StdSink<W> {
    writer: W,
    faults: Count,
    taken: Told,
    flushed: Told,
}

impl<W: Write> StdSink<W> {
    ghost use Rattle.std.specs.Prelude.{[]};

    /// No fault so far, and nothing taken.
    pub fn new(writer: W) -> StdSink<W>
        ensures { ⟦<StdSink<W> as Sink>⟧.seen result ≡ record { faults = 0; taken = []; flushed = [] } }
    {
        StdSink {
            writer,
            faults: Count::new(),
            taken: Told::nothing(),
            flushed: Told::nothing(),
        }
    }

    /// How many faults there were.
    pub fn faults(&self) -> u64
        ensures { result ≡ (⟦<StdSink<W> as Sink>⟧.seen self.now).faults }
    {
        self.faults.get()
    }
}

/// Writes once, again where a signal came in between. Err where the write failed or took nothing of a
/// piece that isn't empty.
#[tactic(auto, using(crate::proofs::Known::keeps_same, crate::proofs::Known::keeps_keeps, crate::proofs::Known::keeps_appends, crate::proofs::Known::appends_nothing))]
fn write_some<W: Write>(writer: &mut W, bytes: &[u8]) -> Result<usize, Failed>
    ensures fits { IfOk result (λ n. (n ≤ length bytes.now) × (0 < length bytes.now → 0 < n)) }
    ensures passes { WriteAppends (W.contents writer.old) (W.contents writer.new) result bytes.now }
{
    for _ in 0..u64::MAX {
        match writer.write(bytes) {
            Ok(0) if !bytes.is_empty() => return Err(Failed),
            Ok(n) => return Ok(n),
            Err(e) if e.kind() == ErrorKind::Interrupted => {}
            Err(_) => return Err(Failed),
        }
    }
    Err(Failed)
}

/// Flushes, again where a signal came in between. Whether it was done.
#[tactic(auto, using(crate::proofs::Known::keeps_same, crate::proofs::Known::keeps_keeps))]
fn flush_all<W: Write>(writer: &mut W) -> bool
    ensures { Keeps (W.contents writer.old) (W.contents writer.new) }
{
    for _ in 0..u64::MAX {
        match writer.flush() {
            Ok(()) => return true,
            Err(e) if e.kind() == ErrorKind::Interrupted => {}
            Err(_) => return false,
        }
    }
    false
}

impl<W: Write> Sink for StdSink<W> {
    ghost seen = { λ s. record { faults = s.faults; taken = s.taken.bytes; flushed = s.flushed.bytes } };

    // What was taken is what the writer's contents grew by, where those are known.
    fn write(&mut self, bytes: &[u8]) -> Result<usize, Failed>
        ensures causes { HasCause result self.old.faults self.new.faults }
        ensures fits { IfOk result (λ n. n ≤ length bytes.now) }
        ensures some { IfOk result (λ n. 0 < length bytes.now → 0 < n) }
        ensures writes { WritesPiece result bytes.now (⟦<StdSink<W> as Sink>⟧.seen self.old) (⟦<StdSink<W> as Sink>⟧.seen self.new) }
        ensures flushed { self.new.flushed ≡ self.old.flushed }
        ensures passes { WriteAppends (W.contents self.old.writer) (W.contents self.new.writer) result bytes.now }
    {
        match write_some(&mut self.writer, bytes) {
            Ok(n) => {
                self.taken = Told::and(&self.taken, &bytes[..n]);
                Ok(n)
            }
            Err(Failed) => {
                self.faults.add();
                Err(Failed)
            }
        }
    }

    fn flush(&mut self) -> Result<(), Failed>
        ensures causes { HasCause result self.old.faults self.new.faults }
        ensures taken { self.new.taken ≡ self.old.taken }
        ensures flushes { FlushesAll result (⟦<StdSink<W> as Sink>⟧.seen self.old) (⟦<StdSink<W> as Sink>⟧.seen self.new) }
        ensures passes { Keeps (W.contents self.old.writer) (W.contents self.new.writer) }
    {
        if flush_all(&mut self.writer) {
            self.flushed = Told::and(&self.taken, &[]);
            return Ok(());
        }
        self.faults.add();
        Err(Failed)
    }
}
