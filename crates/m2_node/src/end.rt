//! An end of a run.

ghost use Rattle.std.specs.Prelude.{◌≡◌, ◌<◌, false, length, IfSome};
ghost use Rattle.m2_fabric.specs.End.{LeavesPiece, Reads, Writes};
ghost use Rattle.m2_node.specs.Ends.{left_over, of_port, seen_end};

use m2_bytes::NoMemory;
use m2_fabric::{CutEnd, End, EndLog, EndRead, EndWrite, News, SocketId};
use std::marker::Model;

/// Of what an end of a run is.
#[derive(Drop)]
pub(crate) enum EndKind<E: End> {
    /// Of a port.
    Cut(CutEnd<E>),
    /// Of no thread.
    Left(E),
}

/// An end of a port, which breaks where a line cuts its socket; or one with which no thread of its node went on. Contracts see
/// which, and the end inside.
#[derive(Drop)]
pub struct RunEnd<E: End> {
    pub(crate) kind: EndKind<E>,
}

impl<E: End> Model for RunEnd<E> {
    ghost use Rattle.m2_node.specs.Ends.{RunEndNow, end_now};

    ghost Value = { RunEndNow };

    ghost view = { λ e. end_now E.seen e.kind };
}

impl<E: End> RunEnd<E> {
    /// One of a port. Takes no memory.
    pub(crate) fn cut(end: CutEnd<E>) -> RunEnd<E>
        ensures { result ≡ of_port end }
    {
        RunEnd {
            kind: EndKind::Cut(end),
        }
    }

    /// One with which no thread went on. Takes no memory.
    pub fn left(end: E) -> RunEnd<E>
        ensures { result ≡ left_over (E.seen end) }
    {
        RunEnd {
            kind: EndKind::Left(end),
        }
    }

    /// The end inside, where it is one of a port.
    pub fn into_cut(self) -> Option<CutEnd<E>>
        ensures { IfSome result (λ end. self ≡ of_port end) }
    {
        match self.kind {
            EndKind::Cut(end) => Some(end),
            EndKind::Left(_) => None,
        }
    }

    /// The end inside, where no thread went on with it.
    pub fn into_left(self) -> Option<E>
        ensures { IfSome result (λ end. self ≡ left_over (E.seen end)) }
    {
        match self.kind {
            EndKind::Cut(_) => None,
            EndKind::Left(end) => Some(end),
        }
    }
}

impl<E: End> End for RunEnd<E> {
    ghost seen = { seen_end };

    fn id(&self) -> SocketId {
        match &self.kind {
            EndKind::Cut(end) => end.id(),
            EndKind::Left(end) => end.id(),
        }
    }

    fn log(&self) -> &EndLog {
        match &self.kind {
            EndKind::Cut(end) => end.log(),
            EndKind::Left(end) => end.log(),
        }
    }

    fn faults(&self) -> u64 {
        match &self.kind {
            EndKind::Cut(end) => end.faults(),
            EndKind::Left(end) => end.faults(),
        }
    }

    fn read(&mut self, into: &mut [u8]) -> EndRead
        requires piece { 0 < length into.old }
        requires open { (seen_end self.old).log.closed ≡ false }
        ensures reads { Reads result into.new (seen_end self.old) (seen_end self.new) }
        ensures piece { LeavesPiece result into.old into.new }
    {
        match &mut self.kind {
            EndKind::Cut(end) => end.read(into),
            EndKind::Left(end) => end.read(into),
        }
    }

    fn write(&mut self, bytes: &[u8]) -> EndWrite
        requires piece { 0 < length bytes.now }
        requires open { (seen_end self.old).log.closed ≡ false }
        ensures { Writes result bytes.now (seen_end self.old) (seen_end self.new) }
    {
        match &mut self.kind {
            EndKind::Cut(end) => end.write(bytes),
            EndKind::Left(end) => end.write(bytes),
        }
    }

    fn close(&mut self) {
        match &mut self.kind {
            EndKind::Cut(end) => end.close(),
            EndKind::Left(end) => end.close(),
        }
    }

    fn hear(&mut self, bytes: &[u8], news: News) -> Result<(), NoMemory> {
        match &mut self.kind {
            EndKind::Cut(end) => end.hear(bytes, news),
            EndKind::Left(end) => end.hear(bytes, news),
        }
    }
}
