//! An end that breaks after so many bytes.

ghost use Rattle.std.specs.Prelude.{◌≡◌, ◌<◌, ◌≤◌, false, length, take};
ghost use Rattle.m2_fabric.specs.CutEnd.{Bounded, IsCutRight, ReadsBounded, WritesBounded, allowed, shown};
ghost use Rattle.m2_fabric.specs.Cuts.{allowance, is_cut, passed};
ghost use Rattle.m2_fabric.specs.End.{LeavesPiece, Reads, Writes, left_read, left_written};
ghost use Rattle.m2_fabric.specs.Log.{nothing_done};

use crate::{End, EndLog, EndRead, EndWrite, MemoryEnd, News, SocketId};
use m2_bytes::NoMemory;
use std::marker::Model;

/// An end that passes on what another end does, until so many bytes passed, read and written together:
/// from then on it fails at every call by itself, and counts it.
///
/// Its log is that of the end inside. Its count of faults is that of the end inside, until nothing more
/// passes: from then on it goes on by itself. Contracts see the end inside, the bound that this one was
/// made with, how many more bytes pass, and the count.
#[derive(Debug, Drop)]
pub struct CutEnd<E: End> {
    pub(crate) end: E,
    bound: Option<u64>,
    left: Option<u64>,
    faults: u64,
}

impl<E: End> Model for CutEnd<E> {
    ghost Value = { Bounded };

    ghost view = { λ c. record { inner = E.seen c.end; bound = c.bound; left = c.left; faults = c.faults } };

    ghost invariant = { λ c. IsCutRight (record { inner = E.seen c.end; bound = c.bound; left = c.left; faults = c.faults }) };
}

impl<E: End> CutEnd<E> {
    /// An end that passes so many bytes, or all where there is no bound, over one that did nothing yet.
    pub fn new(end: E, bytes: Option<u64>) -> CutEnd<E>
        requires { (E.seen end).log ≡ nothing_done }
        ensures { result ≡ record { inner = E.seen end; bound = bytes; left = bytes; faults = (E.seen end).faults } }
    {
        let faults = end.faults();
        CutEnd {
            end,
            bound: bytes,
            left: bytes,
            faults,
        }
    }

    /// How many bytes pass in all, or None where there is no bound.
    pub fn bound(&self) -> Option<u64>
        ensures { result ≡ self.now.bound }
    {
        self.bound
    }

    /// That what passed and what is left make up the bound, and that it has the faults of the end inside until
    /// nothing more passes, for contracts alone.
    pub fn is_cut_right(&self)
        ensures { IsCutRight self.now }
    {
        let _ = &self.end;
    }

    /// The end inside.
    pub fn into_end(self) -> E
        ensures { E.seen result ≡ self.inner }
    {
        self.end
    }
}

// Whether nothing more may pass.
fn is_cut(left: Option<u64>) -> bool
    ensures { result ≡ is_cut left }
{
    left == Some(0)
}

// How many of so many bytes may pass.
fn allowance(left: Option<u64>, n: usize) -> usize
    ensures { result ≡ allowance left n }
{
    match left {
        None => n,
        Some(left) => left.min(n as u64) as usize,
    }
}

// How many more may pass after so many.
fn passed(left: Option<u64>, n: usize) -> Option<u64>
    ensures { result ≡ passed n left }
{
    left.map(|l| l.saturating_sub(n as u64))
}

fn left_after_read(answer: EndRead, left: Option<u64>) -> Option<u64>
    ensures { result ≡ left_read answer left }
{
    match answer {
        EndRead::Got(n) => passed(left, n),
        _ => left,
    }
}

fn left_after_write(answer: EndWrite, left: Option<u64>) -> Option<u64>
    ensures { result ≡ left_written answer left }
{
    match answer {
        EndWrite::Put(n) => passed(left, n),
        _ => left,
    }
}

// Reads the end inside into as much of a piece as may pass.
fn read_within<E: End>(end: &mut E, left: Option<u64>, into: &mut [u8]) -> EndRead
    requires piece { 0 < length into.old }
    requires whole { (E.seen end.old).log.closed ≡ false }
    requires passes { is_cut left ≡ false }
    ensures reads { Reads result (allowed left into.new) (E.seen end.old) (E.seen end.new) }
    ensures piece { LeavesPiece result into.old into.new }
{
    let most = allowance(left, into.len());
    let (first, _) = into.split_at_mut(most);
    end.read(first)
}

// Writes as much of a piece as may pass to the end inside.
fn write_within<E: End>(end: &mut E, left: Option<u64>, bytes: &[u8]) -> EndWrite
    requires piece { 0 < length bytes.now }
    requires whole { (E.seen end.old).log.closed ≡ false }
    requires passes { is_cut left ≡ false }
    ensures { Writes result (allowed left bytes.now) (E.seen end.old) (E.seen end.new) }
{
    let most = allowance(left, bytes.len());
    let (first, _) = bytes.split_at(most);
    end.write(first)
}

impl<E: End> End for CutEnd<E> {
    ghost seen = { shown };

    fn id(&self) -> SocketId {
        self.end.id()
    }

    fn log(&self) -> &EndLog {
        self.end.log()
    }

    fn faults(&self) -> u64 {
        self.faults
    }

    #[tactic(auto, using(crate::proofs::Bounds::reads_cut, crate::proofs::Bounds::reads_outside, crate::proofs::Cutting::cut_right, crate::proofs::Cutting::read_right))]
    fn read(&mut self, into: &mut [u8]) -> EndRead
        requires piece { 0 < length into.old }
        requires open { self.old.inner.log.closed ≡ false }
        ensures reads { Reads result into.new (shown self.old) (shown self.new) }
        ensures piece { LeavesPiece result into.old into.new }
        ensures exact { ReadsBounded result into.new self.old self.new }
    {
        if is_cut(self.left) {
            self.faults = self.faults.saturating_add(1);
            return EndRead::Failed;
        }
        let answer = read_within(&mut self.end, self.left, into);
        self.left = left_after_read(answer, self.left);
        self.faults = self.end.faults();
        answer
    }

    #[tactic(auto, using(crate::proofs::Bounds::writes_cut, crate::proofs::Bounds::writes_outside, crate::proofs::Cutting::cut_right, crate::proofs::Cutting::write_right))]
    fn write(&mut self, bytes: &[u8]) -> EndWrite
        requires piece { 0 < length bytes.now }
        requires open { self.old.inner.log.closed ≡ false }
        ensures writes { Writes result bytes.now (shown self.old) (shown self.new) }
        ensures exact { WritesBounded result bytes.now self.old self.new }
    {
        if is_cut(self.left) {
            self.faults = self.faults.saturating_add(1);
            return EndWrite::Failed;
        }
        let answer = write_within(&mut self.end, self.left, bytes);
        self.left = left_after_write(answer, self.left);
        self.faults = self.end.faults();
        answer
    }

    #[tactic(auto, using(crate::proofs::Cutting::close_right))]
    fn close(&mut self) {
        self.end.close();
    }

    #[tactic(auto, using(crate::proofs::Cutting::hear_right))]
    fn hear(&mut self, bytes: &[u8], news: News) -> Result<(), NoMemory> {
        self.end.hear(bytes, news)
    }
}

impl<E: MemoryEnd> MemoryEnd for CutEnd<E> {
    fn is_in_memory(&self) {
        self.end.is_in_memory();
    }
}
