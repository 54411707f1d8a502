//! An end of a socket between threads.

ghost use Rattle.std.specs.Prelude.{◌≡◌, ◌<◌, ◌≤◌, false, length, min, take};
ghost use Rattle.m2_fabric.specs.End.{LeavesPiece, Reads, Writes};
ghost use Rattle.m2_fabric.specs.Log.{FitsRead, log_of};
ghost use Rattle.m2_fabric.specs.declared.log.TheConstants.{MOST_MOVED};
ghost use Rattle.m2_mem_fabric.specs.End.{GivesHeld, ReadsPlanned, WritesPlanned, fresh_mem_end};
ghost use Rattle.m2_mem_fabric.specs.Line.{IsPutOf};

use crate::failing::FailingCalls;
use crate::line::Line;
use crate::plan::EndPlan;
use bytes::BytesMut;
use m2_bytes::NoMemory;
use m2_edge::Count;
use m2_fabric::{End, EndLog, EndRead, EndWrite, MOST_MOVED, News, SocketId};
use std::alloc::Global;
use std::marker::Model;
use std::sync::Wait;

/// An end of a socket between threads. Contracts see what every end shows, nothing of what will be
/// readable, and which of its reads and writes are to fail.
///
/// A read gives as much as the piece holds of what it has. Once it has nothing it takes all that came, at
/// once; NotYet is that nothing came, Ended that nothing came and the other end is closed or gone. A write
/// is whole, unless it is longer than [`MOST_MOVED`], never answers NotYet, and fails once the other end is
/// closed or gone. Either makes room in the log before a byte moves, for what moves alone; a closed end gives
/// its spare room back.
#[derive(Drop)]
pub struct MemEnd<R: Wait + Copy> {
    id: SocketId,
    log: EndLog,
    faults: Count,
    reads: FailingCalls,
    writes: FailingCalls,
    /// What was taken from the stream and not read yet.
    held: BytesMut,
    /// None once it is closed.
    line: Option<Line<R>>,
}

impl<R: Wait + Copy> Model for MemEnd<R> {
    ghost use Rattle.std.specs.Prelude.{◌≡◌, None, is_none};
    ghost use Rattle.m2_fabric.specs.Log.{log_of};
    ghost use Rattle.m2_mem_fabric.specs.End.{MemSeen};

    ghost Value = { MemSeen };

    ghost view = { λ e. record {
      shows = record { id = e.id; log = log_of e.log; faults = e.faults; left = None; inflow = None };
      reads = e.reads;
      writes = e.writes;
    } };

    ghost invariant = { λ e. e.log.closed ≡ is_none e.line };
}

/// Copies as much of what is there as the piece holds and one read moves. How much.
fn copy_first(readable: &[u8], into: &mut [u8]) -> usize
    ensures count { result ≡ min (length into.new) (min (length readable.now) MOST_MOVED) }
    ensures fits { result ≤ length into.old }
    ensures copied { take result into.new ≡ take result readable.now }
{
    let n = into.len().min(readable.len().min(MOST_MOVED));
    into[..n].copy_from_slice(&readable[..n]);
    n
}

/// Takes what came, where nothing is held. Whether nothing more will come after what is held then.
fn refill<R: Wait + Copy>(line: &Line<R>, held: &mut BytesMut) -> bool {
    if held.is_empty() {
        line.take_all(held)
    } else {
        false
    }
}

/// Reads what is held into the first part of a piece, and makes room for it in the log first.
fn read_held(held: &mut BytesMut, log: &mut EndLog, into: &mut [u8]) -> EndRead
    requires held { 0 < length held.old.items }
    requires piece { 0 < length into.old }
    ensures gives { GivesHeld result }
    ensures fits { FitsRead result into.new log.new }
    ensures log { log_of log.new ≡ log_of log.old }
    ensures piece { LeavesPiece result into.old into.new }
{
    let most = into.len().min(held.len().min(MOST_MOVED));
    if log.reserve_read(most).is_err() {
        return EndRead::NoMemory;
    }
    let n = copy_first(held.as_slice(), into);
    held.advance(n);
    EndRead::Got(n)
}

impl<R: Wait + Copy> MemEnd<R> {
    /// An end of a socket, before its first call. Takes no memory.
    pub(crate) fn new(alloc: Global, id: SocketId, line: Line<R>, plan: EndPlan) -> MemEnd<R>
        ensures { result.shows ≡ fresh_mem_end id }
    {
        MemEnd {
            id,
            log: EndLog::new(alloc),
            faults: Count::new(),
            reads: plan.reads,
            writes: plan.writes,
            held: BytesMut::new(alloc),
            line: Some(line),
        }
    }
}

impl<R: Wait + Copy> End for MemEnd<R> {
    ghost seen = { λ e. e.shows };

    fn id(&self) -> SocketId {
        self.id
    }

    fn log(&self) -> &EndLog {
        &self.log
    }

    fn faults(&self) -> u64 {
        self.faults.get()
    }

    fn read(&mut self, into: &mut [u8]) -> EndRead
        requires piece { 0 < length into.old }
        requires open { self.old.shows.log.closed ≡ false }
        ensures reads { Reads result into.new self.old.shows self.new.shows }
        ensures piece { LeavesPiece result into.old into.new }
        ensures exact { ReadsPlanned result self.old self.new }
    {
        if self.reads.count() {
            self.faults.add();
            return EndRead::Failed;
        }
        let ended = match &self.line {
            Some(line) => refill(line, &mut self.held),
            None => unreachable!(),
        };
        let answer = if !self.held.is_empty() {
            read_held(&mut self.held, &mut self.log, into)
        } else if ended {
            EndRead::Ended
        } else {
            EndRead::NotYet
        };
        self.log.note_read(answer, into);
        answer
    }

    fn write(&mut self, bytes: &[u8]) -> EndWrite
        requires piece { 0 < length bytes.now }
        requires open { self.old.shows.log.closed ≡ false }
        ensures writes { Writes result bytes.now self.old.shows self.new.shows }
        ensures exact { WritesPlanned result bytes.now self.old self.new }
    {
        if self.writes.count() {
            self.faults.add();
            return EndWrite::Failed;
        }
        let (piece, _) = bytes.split_at(bytes.len().min(MOST_MOVED));
        if self.log.reserve_write(piece.len()).is_err() {
            return EndWrite::NoMemory;
        }
        let answer = match &self.line {
            Some(line) => line.put(piece),
            None => unreachable!(),
        };
        self.log.note_write(answer, bytes);
        if answer == EndWrite::Failed {
            self.faults.add();
        }
        answer
    }

    fn close(&mut self) {
        let alloc = *self.held.allocator();
        self.line = None;
        self.held = BytesMut::new(alloc);
        self.log.note_close();
        self.log.trim(alloc);
    }

    fn hear(&mut self, _bytes: &[u8], _news: News) -> Result<(), NoMemory> {
        let _ = &self.faults;
        Ok(())
    }
}
