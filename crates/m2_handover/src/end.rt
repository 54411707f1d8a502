//! An end that was handed over.

ghost use Rattle.std.specs.Prelude.{◌≡◌, ◌≢◌, ◌<◌, ◌≤◌, false, [], length, None, Some, IfOk, MatchOption, OnErr, OnOk};
ghost use Rattle.std.specs.Option.{option_map};
ghost use Rattle.m2_fabric.specs.End.{LeavesPiece, Reads, Writes};
ghost use Rattle.m2_fabric.specs.Log.{nothing_done};
ghost use Rattle.m2_handover.specs.End.{IsHalfInside, IsPastOf, shown, told_nothing};
ghost use Rattle.m2_handover.specs.Past.{PastNow};
ghost use Rattle.m2_trail.specs.Trails.{IsWholeTrail, trail_now};

use crate::past::Past;
use m2_bytes::NoMemory;
use m2_fabric::{End, EndLog, EndRead, EndWrite, News, SocketId};
use m2_trail::{Loose, Trail};
use std::alloc::Global;
use std::marker::Model;

/// An end of an event thread: one that its port opened, or one that another thread of the node has accepted, and on which a
/// half has shaken hands until it was asked, for whoever the asking peer is at home with.
///
/// Whoever goes on with such an end begins anew: its log is empty, each read gives what the read before gave, and each
/// write takes what the write before took, as long as it is of the same bytes. Both wait where something else is to come
/// first. Once all is done again the end goes on by itself. Nothing is read or written twice on the socket.
///
/// Contracts see the end inside; and, until all is done again, what the half before did, and how far that is done again.
/// What is shown to every caller tells nothing of what will be readable.
#[derive(Drop)]
pub struct HandedEnd<E: End> {
    pub(crate) end: E,
    past: Option<Past>,
}

impl<E: End> Model for HandedEnd<E> {
    ghost use Rattle.m2_handover.specs.End.{HandedNow, IsHanded};

    ghost Value = { HandedNow };

    ghost view = { λ h. record { inner = E.seen h.end; past = h.past } };

    ghost invariant = { λ h. IsHanded (record { inner = E.seen h.end; past = h.past }) };
}

impl<E: End> HandedEnd<E> {
    /// An end that this thread's own port opened. Takes no memory.
    pub fn own(end: E) -> HandedEnd<E>
        ensures { result ≡ record { inner = E.seen end; past = None } }
    {
        HandedEnd { end, past: None }
    }

    /// An open end on which another thread's half did what this trail tells, all that it did, and judged nothing. The trail
    /// has room for the entry of a close. Takes no memory.
    pub(crate) fn again(alloc: Global, end: E, trail: Trail) -> HandedEnd<E>
        requires open { (E.seen end).log.closed ≡ false }
        requires whole { IsWholeTrail (trail_now trail) (E.seen end) }
        requires unjudged { trail.judged.items ≡ [] }
        requires room { 1 ≤ trail.entries.room }
        ensures { result ≡ record { inner = E.seen end; past = Some (record { trail = trail_now trail; log = nothing_done }) } }
    {
        HandedEnd {
            end,
            past: Some(Past::new(alloc, trail)),
        }
    }

    /// The end inside; and what was done on it before, its close too, where that isn't all done again: that trail tells all
    /// that the end did, and nothing of it was judged. Takes no memory.
    pub fn into_parts(self) -> (E, Option<Trail>)
        ensures end { E.seen result.0 ≡ self.inner }
        ensures past { option_map trail_now result.1 ≡ option_map (λ (p : PastNow). p.trail) self.past }
        ensures again { MatchOption result.1 (shown self ≡ told_nothing (E.seen result.0)) (λ t. IsPastOf (E.seen result.0) (record { trail = trail_now t; log = (shown self).log })) }
    {
        (self.end, self.past.map(Past::into_trail))
    }

    /// Goes on by itself, where all is done again.
    fn catch_up(&mut self)
        ensures { shown self.new ≡ shown self.old }
    {
        let is_all = match &self.past {
            Some(past) => past.is_all(self.end.log()),
            None => false,
        };
        if is_all {
            self.past = None;
        }
    }
}

impl<E: End> End for HandedEnd<E> {
    ghost seen = { shown };

    fn id(&self) -> SocketId {
        self.end.id()
    }

    fn log(&self) -> &EndLog {
        match &self.past {
            Some(past) => past.log(),
            None => self.end.log(),
        }
    }

    fn faults(&self) -> u64 {
        self.end.faults()
    }

    #[tactic(auto, using(crate::proofs::Shown::reads_shown, crate::proofs::Shown::reads_again))]
    fn read(&mut self, into: &mut [u8]) -> EndRead
        requires piece { 0 < length into.old }
        requires open { (shown self.old).log.closed ≡ false }
        ensures reads { Reads result into.new (shown self.old) (shown self.new) }
        ensures piece { LeavesPiece result into.old into.new }
    {
        let answer = match &mut self.past {
            Some(past) => past.read_again(self.end.log(), into),
            None => self.end.read(into),
        };
        self.catch_up();
        answer
    }

    #[tactic(auto, using(crate::proofs::Shown::writes_shown, crate::proofs::Shown::writes_again))]
    fn write(&mut self, bytes: &[u8]) -> EndWrite
        requires piece { 0 < length bytes.now }
        requires open { (shown self.old).log.closed ≡ false }
        ensures { Writes result bytes.now (shown self.old) (shown self.new) }
    {
        let answer = match &mut self.past {
            Some(past) => past.write_again(self.end.log(), bytes),
            None => self.end.write(bytes),
        };
        self.catch_up();
        answer
    }

    #[tactic(auto, using(crate::proofs::Shown::closed_past))]
    fn close(&mut self) {
        self.end.close();
        if let Some(past) = &mut self.past {
            past.note_close();
        }
    }

    fn hear(&mut self, _bytes: &[u8], _news: News) -> Result<(), NoMemory> {
        let _ = &self.end;
        Ok(())
    }
}

/// A half of such an end, which no record took, as one of the end inside. Where not all was done again it has the trail of the
/// half before, which tells all that the end did. Err is want of memory: a half that has judged has done all again, since
/// nobody was asked before that.
#[tactic(auto, using(crate::proofs::Shown::whole_inside))]
pub fn half_inside<E: End>(half: Loose<HandedEnd<E>>) -> Result<Loose<E>, NoMemory>
    ensures ok { IfOk result (λ inside. IsHalfInside half inside) }
    ensures err { OnErr result (half.trail.judged ≢ []) }
{
    let (end, trail) = half.into_parts();
    match end.into_parts() {
        (inner, None) => Ok(Loose::new(inner, trail)),
        (inner, Some(before)) if trail.judged.is_empty() => Ok(Loose::new(inner, before)),
        _ => Err(NoMemory),
    }
}
