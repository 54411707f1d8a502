//! What was done on an end before it was handed over, and how it is done again.

ghost use Rattle.std.specs.Prelude.{◌≡◌, ◌≤◌, true, false, length, take, IfSome};
ghost use Rattle.m2_fabric.specs.End.{LeavesPiece};
ghost use Rattle.m2_fabric.specs.Log.{after_close, log_of, nothing_done};
ghost use Rattle.m2_handover.specs.Past.{IsDoneAgain, IsNextRead, IsNextWrite, ReadsAgain, WritesAgain, closed_trail};
ghost use Rattle.m2_trail.specs.Trails.{trail_now};

use m2_fabric::{EndLog, EndRead, EndWrite, Run};
use m2_journal::Entry;
use m2_trail::Trail;
use std::alloc::Global;
use std::marker::Model;

/// What a half did on an end that was handed over then, and how much of it was done again.
#[derive(Drop)]
pub(crate) struct Past {
    trail: Trail,
    /// What was done again.
    log: EndLog,
    ghost room: { log.closed ≡ false → 1 ≤ trail.entries.room },
}

impl Model for Past {
    ghost use Rattle.m2_fabric.specs.Log.{log_of};
    ghost use Rattle.m2_handover.specs.Past.{PastNow};
    ghost use Rattle.m2_trail.specs.Trails.{trail_now};

    ghost Value = { PastNow };

    ghost view = { λ p. record { trail = trail_now p.trail; log = log_of p.log } };
}

impl Past {
    /// Nothing was done again so far. The trail has room for the entry of a close. Takes no memory.
    pub(crate) fn new(alloc: Global, trail: Trail) -> Past
        requires { 1 ≤ trail.entries.room }
        ensures { result ≡ record { trail = trail_now trail; log = nothing_done } }
    {
        Past {
            trail,
            log: EndLog::new(alloc),
        }
    }

    /// What was done again.
    pub(crate) fn log(&self) -> &EndLog
        ensures { log_of result.now ≡ self.now.log }
    {
        &self.log
    }

    /// What the half did.
    pub(crate) fn into_trail(self) -> Trail
        ensures { trail_now result ≡ self.trail }
    {
        self.trail
    }

    /// Whether nothing tells what was done again from what this log tells of all that was done.
    #[tactic(auto, using(crate::proofs::Again::all_is_done))]
    pub(crate) fn is_all(&self, was: &EndLog) -> bool
        requires { IsDoneAgain (log_of was.now) self.now.log }
        ensures { result ≡ true → self.now.log ≡ log_of was.now }
    {
        let is_long = self.log.got.len() == was.got.len()
            && self.log.put.len() == was.put.len()
            && self.log.runs.len() == was.runs.len();
        is_long
            && self.log.dry == was.dry
            && self.log.blocked == was.blocked
            && self.log.ended == was.ended
    }

    /// Reads again what a read gave, where that is what was done next and the piece has the room. This log tells all that
    /// was done.
    #[tactic(auto, using(crate::proofs::Again::read_is_done, crate::proofs::Again::waiting_is_done))]
    pub(crate) fn read_again(&mut self, was: &EndLog, into: &mut [u8]) -> EndRead
        requires again { IsDoneAgain (log_of was.now) self.old.log }
        ensures again { IsDoneAgain (log_of was.now) self.new.log }
        ensures reads { ReadsAgain result into.new self.old.log self.new.log }
        ensures piece { LeavesPiece result into.old into.new }
        ensures trail { self.new.trail ≡ self.old.trail }
    {
        let Some(n) = self.next_read(was, into.len()) else {
            self.log.note_read(EndRead::NotYet, into);
            return EndRead::NotYet;
        };
        let (_, rest) = was.got.as_slice().split_at(self.log.got.len());
        if self.log.reserve_read(n).is_err() {
            return EndRead::NoMemory;
        }
        copy_first(n, rest, into);
        self.log.note_read(EndRead::Got(n), into);
        EndRead::Got(n)
    }

    /// How many bytes a read gave that was done next, where the piece has room for so many.
    fn next_read(&self, was: &EndLog, room: usize) -> Option<usize>
        ensures { IfSome result (IsNextRead (log_of was.now) self.now.log room) }
    {
        let Some(Run::Read(n)) = was.runs.get(self.log.runs.len()) else {
            return None;
        };
        let n = *n as usize;
        let left = was.got.len().checked_sub(self.log.got.len())?;
        if n == 0 || n > room || n > left {
            return None;
        }
        Some(n)
    }

    /// Writes again what a write took, where that is what was done next and these are its bytes. This log tells all that
    /// was done.
    #[tactic(auto, using(crate::proofs::Again::write_is_done, crate::proofs::Again::blocked_is_done))]
    pub(crate) fn write_again(&mut self, was: &EndLog, bytes: &[u8]) -> EndWrite
        requires again { IsDoneAgain (log_of was.now) self.old.log }
        ensures again { IsDoneAgain (log_of was.now) self.new.log }
        ensures writes { WritesAgain result bytes.now self.old.log self.new.log }
        ensures trail { self.new.trail ≡ self.old.trail }
    {
        let Some(n) = self.next_write(was, bytes) else {
            self.log.note_write(EndWrite::NotYet, bytes);
            return EndWrite::NotYet;
        };
        if self.log.reserve_write(n).is_err() {
            return EndWrite::NoMemory;
        }
        self.log.note_write(EndWrite::Put(n), bytes);
        EndWrite::Put(n)
    }

    /// How many bytes a write took that was done next, where they are the first ones of the piece.
    fn next_write(&self, was: &EndLog, bytes: &[u8]) -> Option<usize>
        ensures { IfSome result (IsNextWrite (log_of was.now) self.now.log bytes.now) }
    {
        let Some(Run::Wrote(n)) = was.runs.get(self.log.runs.len()) else {
            return None;
        };
        let n = *n as usize;
        let at = self.log.put.len();
        let left = was.put.len().checked_sub(at)?;
        if n == 0 || n > bytes.len() || n > left {
            return None;
        }
        let (_, rest) = was.put.as_slice().split_at(at);
        if bytes[..n] != rest[..n] {
            return None;
        }
        Some(n)
    }

    /// The end was closed, which the trail tells too, once. Takes no memory.
    pub(crate) fn note_close(&mut self)
        ensures log { self.new.log ≡ after_close self.old.log }
        ensures trail { self.new.trail ≡ closed_trail self.old.log.closed self.old.trail }
    {
        if self.log.closed {
            return;
        }
        self.log.note_close();
        self.trail.entries.push_reserved(Entry::Closed {
            socket: self.trail.socket,
        });
    }
}

/// Copies the first n bytes of one piece to those of another.
fn copy_first(n: usize, from: &[u8], into: &mut [u8])
    requires from { n ≤ length from.now }
    requires into { n ≤ length into.old }
    ensures same { take n into.new ≡ take n from.now }
    ensures long { length into.new ≡ length into.old }
{
    into[..n].copy_from_slice(&from[..n]);
}
