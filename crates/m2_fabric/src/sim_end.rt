//! An end in memory.

ghost use Rattle.std.specs.Prelude.{◌≡◌, ◌<◌, ◌≤◌, false, length, min, take, OnOk, OnErr};
ghost use Rattle.m2_fabric.specs.End.{LeavesPiece, Reads, SeenEnd, Writes, after_closing, after_news, fresh_end};
ghost use Rattle.m2_fabric.specs.Log.{log_of};
ghost use Rattle.m2_fabric.specs.declared.log.TheConstants.{MOST_MOVED};

use crate::{End, EndLog, EndRead, EndWrite, MOST_MOVED, MemoryEnd, News, SocketId};
use bytes::BytesMut;
use m2_bytes::NoMemory;
use m2_edge::Count;
use std::alloc::Global;
use std::marker::Model;

/// An end in memory, a plain value. What it is told by [`hear`](End::hear) is all that it knows of the
/// other side. Contracts see what every end shows.
///
/// A read gives as much of what came as the piece holds, a write takes its whole piece; neither moves
/// more than [`MOST_MOVED`] bytes. A read makes room in the log for what it gives alone, and a closed end
/// gives its spare room back.
#[derive(Debug, Drop)]
pub struct SimEnd {
    id: SocketId,
    log: EndLog,
    faults: Count,
    readable: BytesMut,
    /// The other end was closed.
    closed: bool,
    /// Nothing more will come.
    ended: bool,
    /// This end fails from now on.
    failed: bool,
}

impl Model for SimEnd {
    ghost use Rattle.std.specs.Prelude.{None, Some};
    ghost use Rattle.m2_fabric.specs.End.{SeenEnd};
    ghost use Rattle.m2_fabric.specs.Log.{log_of};

    ghost Value = { SeenEnd };

    ghost view = { λ e. record {
      id = e.id;
      log = log_of e.log;
      faults = e.faults;
      left = None;
      inflow = Some (record { readable = e.readable.items; closed = e.closed; ended = e.ended; failed = e.failed });
    } };
}

impl SimEnd {
    /// An end of a socket, before its first call. Takes no memory.
    pub fn new(alloc: Global, id: SocketId) -> SimEnd
        ensures { result ≡ fresh_end id }
    {
        SimEnd {
            id,
            log: EndLog::new(alloc),
            faults: Count::new(),
            readable: BytesMut::new(alloc),
            closed: false,
            ended: false,
            failed: false,
        }
    }
}

/// Copies as much of what is there as the piece holds and one read moves. How much.
fn copy_first(readable: &[u8], into: &mut [u8]) -> usize
    ensures count { result ≡ min (length into.new) (min (length readable.now) MOST_MOVED) }
    ensures fits { result ≤ length into.old }
    ensures copied { take result into.new ≡ take result readable.now }
{
    let n = into.len().min(readable.len().min(MOST_MOVED));
    into[..n].copy_from_slice(&readable[..n]);
    n
}

/// Moves what is readable to memory of just its size, where there is memory to move it to.
fn trim(alloc: Global, readable: &mut BytesMut)
    ensures { readable.new.items ≡ readable.old.items }
{
    if let Ok(copy) = BytesMut::copy_from_slice(alloc, readable.as_slice()) {
        *readable = copy;
    }
}

impl End for SimEnd {
    ghost seen = { λ e. e };

    fn id(&self) -> SocketId {
        self.id
    }

    fn log(&self) -> &EndLog {
        &self.log
    }

    fn faults(&self) -> u64 {
        self.faults.get()
    }

    fn read(&mut self, into: &mut [u8]) -> EndRead
        requires piece { 0 < length into.old }
        requires open { self.old.log.closed ≡ false }
        ensures reads { Reads result into.new self.old self.new }
        ensures piece { LeavesPiece result into.old into.new }
    {
        if self.failed {
            self.faults.add();
            return EndRead::Failed;
        }
        if self.readable.is_empty() {
            let answer = if self.ended {
                EndRead::Ended
            } else {
                EndRead::NotYet
            };
            self.log.note_read(answer, into);
            return answer;
        }
        let most = into.len().min(self.readable.len().min(MOST_MOVED));
        if self.log.reserve_read(most).is_err() {
            return EndRead::NoMemory;
        }
        let n = copy_first(self.readable.as_slice(), into);
        self.readable.advance(n);
        self.log.note_read(EndRead::Got(n), into);
        EndRead::Got(n)
    }

    fn write(&mut self, bytes: &[u8]) -> EndWrite
        requires piece { 0 < length bytes.now }
        requires open { self.old.log.closed ≡ false }
        ensures { Writes result bytes.now self.old self.new }
    {
        if self.failed || self.closed {
            self.faults.add();
            return EndWrite::Failed;
        }
        let n = bytes.len().min(MOST_MOVED);
        if self.log.reserve_write(n).is_err() {
            return EndWrite::NoMemory;
        }
        self.log.note_write(EndWrite::Put(n), bytes);
        EndWrite::Put(n)
    }

    fn close(&mut self) {
        let alloc = *self.readable.allocator();
        self.log.note_close();
        self.log.trim(alloc);
        trim(alloc, &mut self.readable);
    }

    fn hear(&mut self, bytes: &[u8], news: News) -> Result<(), NoMemory> {
        match news {
            News::Flow => self.readable.extend_from_slice(bytes)?,
            News::Closed => self.closed = true,
            News::Ended => self.ended = true,
            News::Failed => self.failed = true,
        }
        Ok(())
    }
}

impl MemoryEnd for SimEnd {
    fn is_in_memory(&self) {
        let _ = &self.readable;
    }
}
