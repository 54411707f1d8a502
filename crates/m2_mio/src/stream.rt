//! The system's calls on one stream, and what they answered.

ghost use Rattle.std.specs.Prelude.{◌≡◌, ◌<◌, ◌≤◌, length};
ghost use Rattle.m2_fabric.specs.declared.log.TheConstants.{MOST_MOVED};
ghost use Rattle.m2_mio.specs.Stream.{IsGiven, IsReadOf, IsTaken, IsWriteOf, after_reading, after_writing, answers_of, given_by, mark_of, moved, nothing_asked, taken_by};

use crate::address::{ip_and_port, system_addr};
use crate::watch::Watch;
use m2_addr::Addr;
use m2_bytes::Told;
use m2_fabric::{EndRead, EndWrite, MOST_MOVED};
use mio::net::TcpStream;
use std::io::{ErrorKind, Read, Write};
use std::net::Net;

/// How long a connect waits for the other side's answer, in milliseconds. One that isn't answered by then
/// is left to go on by itself.
pub const CONNECT_WAIT: u32 = 100;

/// How often a read or a write that a signal interrupted is tried. Then it is answered NotYet.
const TRIES: u32 = 1_000;

/// What a stream answered so far: whether it refused a write, and what contracts see and no code keeps: all bytes that
/// its reads gave, a mark for what each read answered, and all bytes that its writes took. Only [`receive`] and [`send`]
/// add to it.
#[derive(Drop)]
pub(crate) struct Asked {
    given: Told,
    reads: Told,
    taken: Told,
    pub(crate) refused: bool,
}

impl Asked {
    /// Nothing was asked so far.
    pub(crate) fn nothing() -> Asked
        ensures { answers_of result ≡ nothing_asked }
    {
        Asked {
            given: Told::nothing(),
            reads: Told::nothing(),
            taken: Told::nothing(),
            refused: false,
        }
    }
}

/// The mark of what a read answered.
fn mark_of(answer: EndRead) -> u8
    ensures { result ≡ mark_of answer }
{
    match answer {
        EndRead::Got(_) => 1,
        EndRead::NotYet => 2,
        EndRead::Ended => 3,
        EndRead::Failed => 4,
        EndRead::NoMemory => 5,
    }
}

/// The bytes that a read into a piece gave.
fn given_by(answer: EndRead, piece: &[u8]) -> &[u8]
    requires { IsReadOf answer piece.now }
    ensures { result.now ≡ given_by answer piece.now }
{
    match answer {
        EndRead::Got(n) => &piece[..n],
        _ => &[],
    }
}

/// The bytes of a piece that a write took.
fn taken_by(answer: EndWrite, piece: &[u8]) -> &[u8]
    requires { IsWriteOf answer piece.now }
    ensures { result.now ≡ taken_by answer piece.now }
{
    match answer {
        EndWrite::Put(n) => &piece[..n],
        _ => &[],
    }
}

/// Reads once into a piece that isn't empty, again where a signal came in between. It never answers for want
/// of memory.
#[tactic(auto, using(m2_edge::proofs::Known::keeps_same, m2_edge::proofs::Known::keeps_keeps, m2_edge::proofs::Known::keeps_consumes))]
fn read_some<S: Read>(stream: &mut S, into: &mut [u8]) -> EndRead
    requires piece { 0 < length into.old }
    requires most { length into.old ≤ MOST_MOVED }
    ensures count { IsReadOf result into.new }
    ensures given { IsGiven result into.new (S.remaining stream.old) (S.remaining stream.new) }
{
    for _ in 0..TRIES {
        match stream.read(into) {
            Ok(0) => return EndRead::Ended,
            Ok(n) => return EndRead::Got(n),
            Err(e) if e.kind() == ErrorKind::WouldBlock => return EndRead::NotYet,
            Err(e) if e.kind() == ErrorKind::Interrupted => {}
            Err(_) => return EndRead::Failed,
        }
    }
    EndRead::NotYet
}

/// Writes a piece that isn't empty once, again where a signal came in between. It never answers for want of
/// memory.
#[tactic(auto, using(m2_edge::proofs::Known::keeps_same, m2_edge::proofs::Known::keeps_keeps, m2_edge::proofs::Known::keeps_appends, m2_edge::proofs::Known::appends_nothing))]
fn write_some<S: Write>(stream: &mut S, bytes: &[u8]) -> EndWrite
    requires piece { 0 < length bytes.now }
    requires most { length bytes.now ≤ MOST_MOVED }
    ensures count { IsWriteOf result bytes.now }
    ensures taken { IsTaken result bytes.now (S.contents stream.old) (S.contents stream.new) }
{
    for _ in 0..TRIES {
        match stream.write(bytes) {
            Ok(0) => return EndWrite::Failed,
            Ok(n) => return EndWrite::Put(n),
            Err(e) if e.kind() == ErrorKind::WouldBlock => return EndWrite::NotYet,
            Err(e) if e.kind() == ErrorKind::Interrupted => {}
            Err(_) => return EndWrite::Failed,
        }
    }
    EndWrite::NotYet
}

/// Reads once into as much of a piece that isn't empty as one call moves.
fn read_first<S: Read>(stream: &mut S, into: &mut [u8]) -> EndRead
    requires { 0 < length into.old }
    ensures count { IsReadOf result (moved into.new) }
    ensures given { IsGiven result (moved into.new) (S.remaining stream.old) (S.remaining stream.new) }
{
    let (first, _) = into.split_at_mut(into.len().min(MOST_MOVED));
    read_some(stream, first)
}

/// Asks a stream for one read into the first part of a piece that isn't empty. It never answers for want of
/// memory.
#[tactic(auto, using(crate::proofs::Calls::read_within, crate::proofs::Calls::given_within))]
pub(crate) fn receive<S: Read>(stream: &mut S, asked: &mut Asked, into: &mut [u8]) -> EndRead
    requires { 0 < length into.old }
    ensures count { IsReadOf result into.new }
    ensures asked { answers_of asked.new ≡ after_reading result into.new (answers_of asked.old) }
    ensures given { IsGiven result into.new (S.remaining stream.old) (S.remaining stream.new) }
{
    let answer = read_first(stream, into);
    asked.given = Told::and(&asked.given, given_by(answer, into));
    asked.reads = Told::and(&asked.reads, &[mark_of(answer)]);
    answer
}

/// Asks a stream for one write of the first part of a piece that isn't empty. It never answers for want of
/// memory.
#[tactic(auto, using(crate::proofs::Calls::write_within, crate::proofs::Calls::taken_within))]
pub(crate) fn send<S: Write>(stream: &mut S, asked: &mut Asked, bytes: &[u8]) -> EndWrite
    requires { 0 < length bytes.now }
    ensures count { IsWriteOf result bytes.now }
    ensures asked { answers_of asked.new ≡ after_writing result bytes.now (answers_of asked.old) }
    ensures taken { IsTaken result bytes.now (S.contents stream.old) (S.contents stream.new) }
{
    let (first, _) = bytes.split_at(bytes.len().min(MOST_MOVED));
    let answer = write_some(stream, first);
    asked.taken = Told::and(&asked.taken, taken_by(answer, bytes));
    if answer == EndWrite::Failed {
        asked.refused = true;
    }
    answer
}

/// How far a connect is.
#[derive(Clone, Copy, Debug, PartialEq, Eq)]
enum Opening {
    Open,
    Waiting,
    Refused,
}

/// How far the connect of a stream is.
fn answered(stream: &TcpStream) -> Opening {
    match stream.take_error() {
        Ok(None) => {}
        Ok(Some(_)) | Err(_) => return Opening::Refused,
    }
    match stream.peer_addr() {
        Ok(_) => Opening::Open,
        Err(e) if e.kind() == ErrorKind::NotConnected => Opening::Waiting,
        Err(_) => Opening::Refused,
    }
}

/// Waits until the connect of a stream is answered, but no longer than [`CONNECT_WAIT`], where it isn't
/// answered yet. How far it is then.
fn await_opening(dials: &mut Watch, stream: &mut TcpStream) -> Opening {
    let far = answered(stream);
    if far != Opening::Waiting {
        return far;
    }
    if !dials.add(stream) || !dials.wait(CONNECT_WAIT) || !dials.remove(stream) {
        return Opening::Refused;
    }
    answered(stream)
}

/// A stream to an address, and the ip and port that it comes from. None where the system refused it, or
/// joined it with itself, as it may where nobody listens at a port of its own choice.
pub(crate) fn open(
    net: &impl Net,
    dials: &mut Watch,
    to: &Addr,
) -> Option<(TcpStream, (u32, u16))> {
    let Ok(mut stream) = TcpStream::connect(net, system_addr(to)) else {
        return None;
    };
    if await_opening(dials, &mut stream) == Opening::Refused {
        return None;
    }
    let Ok(local) = stream.local_addr() else {
        return None;
    };
    match ip_and_port(&local) {
        Some(from) if from != (to.ip, to.port) => Some((stream, from)),
        _ => None,
    }
}
