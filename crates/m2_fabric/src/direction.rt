//! One direction of a socket.

ghost use Rattle.std.specs.Prelude.{◌≡◌, ◌+◌, ◌<◌, [], ◌∷◌, length, IfOk, OnOk};
ghost use Rattle.m2_fabric.specs.Kept.{reader, writer};
ghost use Rattle.m2_fabric.specs.News.{AreTold, all_flowed, closing_told, failing, flow_told, is_closed, logs_of, moved, only, passed_on, progress_after, put_of};

use crate::{Holder, News, SocketId};
use m2_bytes::{Blob, NoMemory};

/// How far one direction of a socket has come.
#[derive(Clone, Copy, Debug, PartialEq, Eq)]
pub(crate) struct Progress {
    /// Bytes.
    pub(crate) flowed: usize,
    /// The end that reads was found closed: nothing is passed on any more.
    pub(crate) over: bool,
}

/// One direction of a socket: what one node's end writes, the other node's end reads.
#[derive(Clone, Copy, Debug, PartialEq, Eq)]
pub(crate) struct Direction {
    pub(crate) from: u32,
    pub(crate) to: u32,
    pub(crate) id: SocketId,
    pub(crate) progress: Progress,
}

/// What is to be passed on besides the bytes.
#[derive(Clone, Copy)]
struct Source {
    /// Bytes that have flowed once the piece has.
    flowed: usize,
    /// The end that writes is closed.
    closed: bool,
    /// Nothing of what was written is left.
    all: bool,
}

/// Whether a node's end of a socket is closed.
pub(crate) fn is_closed<H: Holder>(h: &H, node: u32, id: &SocketId) -> bool
    requires { node < (H.seen h.now).nodes }
    ensures { result ≡ is_closed (logs_of (H.seen h.now) (record { node = node; id = id.now })) }
{
    match h.log(node, id) {
        None => false,
        Some(log) => log.closed,
    }
}

/// Copies the next bytes behind those that flowed, at most so many, into an empty buffer. How many have flowed then.
fn copy_next(put: &[u8], flowed: usize, most: u64, piece: &mut Blob) -> Result<usize, NoMemory>
    requires { piece.old.bytes ≡ [] }
    ensures piece { OnOk result (piece.new.bytes ≡ moved most flowed put.now) }
    ensures flowed { IfOk result (λ n. n ≡ flowed + length (moved most flowed put.now)) }
{
    if put.len() <= flowed {
        return Ok(flowed);
    }
    let (_, rest) = put.split_at(flowed);
    let n = most.min(rest.len() as u64) as usize;
    let (next, _) = rest.split_at(n);
    piece.push_all(next)?;
    Ok(flowed + n)
}

/// Copies what is to flow into the piece.
fn load<H: Holder>(h: &H, d: &Direction, most: u64, piece: &mut Blob) -> Result<Source, NoMemory>
    requires { d.now.from < (H.seen h.now).nodes }
    ensures piece { OnOk result (piece.new.bytes ≡ moved most d.now.progress.flowed (put_of (logs_of (H.seen h.now) (writer d.now)))) }
    ensures flowed { IfOk result (λ s. s.flowed ≡ d.now.progress.flowed + length (moved most d.now.progress.flowed (put_of (logs_of (H.seen h.now) (writer d.now))))) }
    ensures closed { IfOk result (λ s. s.closed ≡ is_closed (logs_of (H.seen h.now) (writer d.now))) }
    ensures all { IfOk result (λ s. s.all ≡ all_flowed s.flowed (put_of (logs_of (H.seen h.now) (writer d.now)))) }
{
    piece.clear();
    match h.log(d.from, &d.id) {
        None => Ok(Source {
            flowed: d.progress.flowed,
            closed: false,
            all: true,
        }),
        Some(log) => {
            let flowed = copy_next(log.put.as_slice(), d.progress.flowed, most, piece)?;
            Ok(Source {
                flowed,
                closed: log.closed,
                all: log.put.len() <= flowed,
            })
        }
    }
}

/// Tells the end that reads.
#[tactic(auto, using(crate::proofs::Told::one_told))]
fn tell<H: Holder>(h: &mut H, d: &Direction, bytes: &[u8], news: News) -> Result<(), NoMemory>
    requires { d.now.to < (H.seen h.old).nodes }
    ensures told { OnOk result (AreTold (only (reader d.now) (record { news = news; bytes = bytes.now } ∷ [])) (H.seen h.old) (H.seen h.new)) }
    ensures rest { H.rest h.new ≡ H.rest h.old }
{
    h.hear(d.to, &d.id, bytes, news)
}

/// Lets bytes flow to the end that reads, if there are any.
#[tactic(auto, using(crate::proofs::Told::only_nothing))]
fn tell_flow<H: Holder>(h: &mut H, d: &Direction, bytes: &[u8]) -> Result<(), NoMemory>
    requires { d.now.to < (H.seen h.old).nodes }
    ensures told { OnOk result (AreTold (only (reader d.now) (flow_told bytes.now)) (H.seen h.old) (H.seen h.new)) }
    ensures rest { H.rest h.new ≡ H.rest h.old }
{
    if bytes.is_empty() {
        return Ok(());
    }
    tell(h, d, bytes, News::Flow)
}

/// Tells the end that reads of a closed end that writes.
#[tactic(auto, using(crate::proofs::Told::only_nothing, crate::proofs::Told::only_then))]
fn tell_closing<H: Holder>(
    h: &mut H,
    d: &Direction,
    closed: bool,
    all: bool,
) -> Result<(), NoMemory>
    requires { d.now.to < (H.seen h.old).nodes }
    ensures told { OnOk result (AreTold (only (reader d.now) (closing_told closed all)) (H.seen h.old) (H.seen h.new)) }
    ensures rest { H.rest h.new ≡ H.rest h.old }
{
    if !closed {
        return Ok(());
    }
    tell(h, d, &[], News::Closed)?;
    if !all {
        return Ok(());
    }
    tell(h, d, &[], News::Ended)
}

impl Direction {
    /// Lets at most so many bytes flow, and tells the end that reads where the one that writes is closed. How far
    /// the direction has come then. `piece` is room for what flows.
    #[tactic(auto, using(crate::proofs::Told::only_nothing, crate::proofs::Told::only_then))]
    pub(crate) fn pass<H: Holder>(
        &self,
        h: &mut H,
        piece: &mut Blob,
        most: u64,
    ) -> Result<Progress, NoMemory>
        requires from { self.now.from < (H.seen h.old).nodes }
        requires to { self.now.to < (H.seen h.old).nodes }
        ensures progress { IfOk result (λ p. p ≡ progress_after most (logs_of (H.seen h.old)) self.now) }
        ensures told { OnOk result (AreTold (only (reader self.now) (passed_on most (logs_of (H.seen h.old)) self.now)) (H.seen h.old) (H.seen h.new)) }
        ensures rest { H.rest h.new ≡ H.rest h.old }
    {
        if self.progress.over {
            return Ok(self.progress);
        }
        if is_closed(h, self.to, &self.id) {
            return Ok(Progress {
                over: true,
                ..self.progress
            });
        }
        let source = load(h, self, most, piece)?;
        tell_flow(h, self, piece.as_slice())?;
        tell_closing(h, self, source.closed, source.all)?;
        Ok(Progress {
            flowed: source.flowed,
            ..self.progress
        })
    }
}

/// A node's end of a socket fails from now on, unless it is closed.
pub(crate) fn fail<H: Holder>(h: &mut H, node: u32, id: &SocketId) -> Result<(), NoMemory>
    requires { node < (H.seen h.old).nodes }
    ensures told { OnOk result (AreTold (failing node (logs_of (H.seen h.old)) id.now) (H.seen h.old) (H.seen h.new)) }
    ensures rest { H.rest h.new ≡ H.rest h.old }
{
    if is_closed(h, node, id) {
        return Ok(());
    }
    h.hear(node, id, &[], News::Failed)
}
