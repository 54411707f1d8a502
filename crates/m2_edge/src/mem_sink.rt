//! A sink that is kept in memory and tells all that it took.

ghost use Rattle.std.specs.Prelude.{◌≡◌, []};
ghost use Rattle.m2_edge.specs.Memory.{FlushesKept, WritesAll};

use crate::calls::{CallList, Calls};
use crate::failed::Failed;
use crate::sink::Sink;
use m2_bytes::{Blob, Told};
use std::alloc::Global;
use std::marker::Model;

/// A sink in memory. Contracts see what it took and what of that was flushed, and the calls.
///
/// Calls of `write` and `flush` are counted together from 1, and those whose number is listed fail.
/// So does a `write` that finds no memory. Each such call is counted as a fault. Every other `write`
/// takes its whole piece.
#[derive(Drop)]
pub struct MemSink {
    taken: Blob,
    flushed: Told,
    calls: Calls,
}

impl Model for MemSink {
    ghost use Rattle.m2_edge.specs.Memory.{Kept};

    ghost Value = { Kept };

    ghost view = { λ s. record { taken = s.taken.bytes; flushed = s.flushed.bytes; calls = s.calls } };
}

impl MemSink {
    /// Nothing taken; the calls whose number is listed will fail. Takes no memory.
    pub fn new(alloc: Global, fails: CallList) -> MemSink
        ensures { result ≡ record { taken = []; flushed = []; calls = record { fails = fails.items; made = 0; faults = 0 } } }
    {
        MemSink {
            taken: Blob::empty(alloc),
            flushed: Told::nothing(),
            calls: Calls::new(fails),
        }
    }

    /// What was taken.
    pub fn bytes(&self) -> &[u8]
        ensures { result.now ≡ self.now.taken }
    {
        self.taken.as_slice()
    }
}

impl Sink for MemSink {
    ghost seen = { λ s. record { faults = s.calls.faults; taken = s.taken; flushed = s.flushed } };

    fn write(&mut self, bytes: &[u8]) -> Result<usize, Failed>
        ensures exact { WritesAll result bytes.now self.old self.new }
    {
        self.calls.call()?;
        match self.taken.push_all(bytes) {
            Ok(()) => Ok(bytes.len()),
            Err(_) => Err(self.calls.fault()),
        }
    }

    fn flush(&mut self) -> Result<(), Failed>
        ensures exact { FlushesKept result self.old self.new }
    {
        self.calls.call()?;
        self.flushed = Told::and(&Told::nothing(), self.taken.as_slice());
        Ok(())
    }
}
