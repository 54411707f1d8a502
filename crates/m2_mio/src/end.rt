//! An end of a socket of the system.

ghost use Rattle.std.specs.Prelude.{◌≡◌, ◌<◌, ◌≤◌, false, length, take};
ghost use Rattle.m2_fabric.specs.End.{LeavesPiece, Reads, Writes};
ghost use Rattle.m2_mio.specs.End.{Asks, TakesWhole, answered, fresh_mio_end, unsent};
ghost use Rattle.m2_mio.specs.Stream.{IsWriteOf, answers_of};

use crate::stream::{Asked, receive, send};
use crate::watch::Watch;
use m2_bytes::NoMemory;
use m2_edge::Count;
use m2_fabric::{End, EndLog, EndRead, EndWrite, MOST_MOVED, News, SocketId};
use mio::net::TcpStream;
use std::alloc::Global;
use std::io::Write;
use std::marker::Model;

/// With so many bytes unsent, a write has the system take some first.
const MOST_UNSENT: usize = 65_536;

/// An end of a socket of the system. Contracts see what every end shows, nothing of what will be readable,
/// how many of the bytes that were put the system has taken, and what it answered.
///
/// A read makes room in the log first, asks the system once, and notes what it answered: that it would have
/// to wait is NotYet, no more bytes is Ended, every other error is Failed. What a signal interrupts is asked
/// again, a thousand times at most, and then answered NotYet. Once the system refused a write, a read that would
/// have to wait is Failed too.
///
/// A write takes its whole piece, as far as one call moves it, into the log, which is the buffer; the end keeps
/// how much of it was sent. What is unsent is handed to the system, in one call, by the end's next
/// [`read`](End::read), by a write that finds 65,536 such bytes or more, and by [`close`](End::close). Where
/// the system takes a part, the rest stays unsent. So whoever writes and waits for an answer reads before it
/// waits, and a turn that ends without a read leaves what it wrote until the next one. An end that is closed
/// while the system takes no more lets go of the rest, and so does one that is dropped: the other side reads a
/// first part of what was put. Once the system refused what is handed to it, each write is Failed.
///
/// Closing gives the socket back to the system, and spare room of the log.
#[derive(Drop)]
pub struct MioEnd {
    alloc: Global,
    id: SocketId,
    log: EndLog,
    faults: Count,
    /// None once it is closed.
    stream: Option<TcpStream>,
    /// How many bytes of what was put the system has taken. The others are unsent.
    sent: usize,
    asked: Asked,
}

impl Model for MioEnd {
    ghost use Rattle.std.specs.Prelude.{◌≡◌, None, is_none};
    ghost use Rattle.m2_fabric.specs.Log.{log_of};
    ghost use Rattle.m2_mio.specs.End.{IsHandedOn, MioSeen};
    ghost use Rattle.m2_mio.specs.Stream.{answers_of};

    ghost Value = { MioSeen };

    ghost view = { λ e. record {
      shows = record { id = e.id; log = log_of e.log; faults = e.faults; left = None; inflow = None };
      sent = e.sent;
      answers = answers_of e.asked;
    } };

    ghost invariant = { λ e. (e.log.closed ≡ is_none e.stream) × IsHandedOn (log_of e.log) e.sent (answers_of e.asked) };
}

/// Hands the bytes behind the first `sent` to the system, in one call, where there are any and it has refused none.
#[tactic(auto, using(crate::proofs::Handed::more_is_taken, crate::proofs::Handed::nothing_is_taken))]
fn hand_on<S: Write>(stream: &mut S, asked: &mut Asked, put: &[u8], sent: &mut usize)
    requires within { sent.old ≤ length put.now }
    requires taken { (answers_of asked.old).taken ≡ take sent.old put.now }
    ensures within { sent.new ≤ length put.now }
    ensures taken { (answers_of asked.new).taken ≡ take sent.new put.now }
    ensures given { (answers_of asked.new).given ≡ (answers_of asked.old).given }
    ensures reads { (answers_of asked.new).reads ≡ (answers_of asked.old).reads }
{
    let (_, rest) = put.split_at(*sent);
    if rest.is_empty() || asked.refused {
        return;
    }
    if let EndWrite::Put(n) = send(stream, asked, rest) {
        *sent += n;
    }
}

/// What a read answers where the system answered `own`, by whether it has refused a write.
fn answered(refused: bool, own: EndRead) -> EndRead
    ensures { result ≡ answered refused own }
{
    match own {
        EndRead::NotYet if refused => EndRead::Failed,
        _ => own,
    }
}

impl MioEnd {
    /// An end of a socket, before its first call. Takes no memory.
    pub(crate) fn new(alloc: Global, id: SocketId, stream: TcpStream) -> MioEnd
        ensures { result.shows ≡ fresh_mio_end id }
    {
        MioEnd {
            alloc,
            id,
            log: EndLog::new(alloc),
            faults: Count::new(),
            stream: Some(stream),
            sent: 0,
            asked: Asked::nothing(),
        }
    }

    /// Hands what is unsent to the system, where the end is open and the system has refused nothing.
    fn hand_over(&mut self)
        ensures same { self.new.shows ≡ self.old.shows }
        ensures reads { self.new.answers.reads ≡ self.old.answers.reads }
    {
        if let Some(stream) = &mut self.stream {
            hand_on(
                stream,
                &mut self.asked,
                self.log.put.as_slice(),
                &mut self.sent,
            );
        }
    }

    /// Is waited for in this set from now on, while it is open and where the system does it.
    pub(crate) fn join(&mut self, all: &Watch)
        ensures { self.new.shows ≡ self.old.shows }
    {
        if let Some(stream) = &mut self.stream {
            let _ = all.add(stream);
        }
    }

    /// Is waited for there no more.
    pub(crate) fn leave(&mut self, all: &Watch)
        ensures { self.new.shows ≡ self.old.shows }
    {
        if let Some(stream) = &mut self.stream {
            let _ = all.remove(stream);
        }
    }

    /// How many bytes are unsent.
    fn unsent(&self) -> usize
        ensures { result ≡ unsent self.now }
    {
        self.log.put.len() - self.sent
    }

    /// How much a write takes of a piece that isn't empty.
    fn take_piece(&mut self, bytes: &[u8]) -> EndWrite
        requires { 0 < length bytes.now }
        ensures same { self.new.shows ≡ self.old.shows }
        ensures reads { self.new.answers.reads ≡ self.old.answers.reads }
        ensures count { IsWriteOf result bytes.now }
        ensures whole { TakesWhole result bytes.now self.new }
    {
        if self.unsent() >= MOST_UNSENT {
            self.hand_over();
        }
        if self.stream.is_none() || self.asked.refused {
            return EndWrite::Failed;
        }
        if self.unsent() >= MOST_UNSENT {
            return EndWrite::NotYet;
        }
        EndWrite::Put(bytes.len().min(MOST_MOVED))
    }
}

impl End for MioEnd {
    ghost seen = { λ e. e.shows };

    fn id(&self) -> SocketId {
        self.id
    }

    fn log(&self) -> &EndLog {
        &self.log
    }

    fn faults(&self) -> u64 {
        self.faults.get()
    }

    #[tactic(auto, using(crate::proofs::Handed::read_is_handed_on, crate::proofs::Handed::asked_once))]
    fn read(&mut self, into: &mut [u8]) -> EndRead
        requires piece { 0 < length into.old }
        requires open { self.old.shows.log.closed ≡ false }
        ensures reads { Reads result into.new self.old.shows self.new.shows }
        ensures piece { LeavesPiece result into.old into.new }
        ensures asks { Asks result self.old self.new }
    {
        self.hand_over();
        if self.log.reserve_read(into.len().min(MOST_MOVED)).is_err() {
            return EndRead::NoMemory;
        }
        let own = match &mut self.stream {
            Some(stream) => receive(stream, &mut self.asked, into),
            None => unreachable!(),
        };
        let answer = answered(self.asked.refused, own);
        self.log.note_read(answer, into);
        if answer == EndRead::Failed {
            self.faults.add();
        }
        answer
    }

    #[tactic(auto, using(crate::proofs::Handed::write_is_handed_on, crate::proofs::Handed::whole_after))]
    fn write(&mut self, bytes: &[u8]) -> EndWrite
        requires piece { 0 < length bytes.now }
        requires open { self.old.shows.log.closed ≡ false }
        ensures writes { Writes result bytes.now self.old.shows self.new.shows }
        ensures whole { TakesWhole result bytes.now self.new }
    {
        let answer = self.take_piece(bytes);
        if self.log.reserve_write(bytes.len().min(MOST_MOVED)).is_err() {
            return EndWrite::NoMemory;
        }
        self.log.note_write(answer, bytes);
        if answer == EndWrite::Failed {
            self.faults.add();
        }
        answer
    }

    fn close(&mut self) {
        self.hand_over();
        self.stream = None;
        self.log.note_close();
        self.log.trim(self.alloc);
    }

    fn hear(&mut self, _bytes: &[u8], _news: News) -> Result<(), NoMemory> {
        let _ = &self.faults;
        Ok(())
    }
}
