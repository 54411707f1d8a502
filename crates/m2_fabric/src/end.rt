//! One end of a socket.

ghost use Rattle.std.specs.Prelude.{◌≡◌, ◌<◌, false, length, OnOk, OnErr};
ghost use Rattle.m2_fabric.specs.End.{LeavesPiece, Reads, SeenEnd, Writes, after_closing, after_news};
ghost use Rattle.m2_fabric.specs.Log.{log_of};

use crate::log::EndLog;
use crate::socket::SocketId;
use m2_bytes::NoMemory;

/// What a read answered.
#[derive(Clone, Copy, Debug, PartialEq, Eq)]
pub enum EndRead {
    /// So many bytes, at least one, stand in the first part of the piece.
    Got(usize),
    /// Nothing is there yet.
    NotYet,
    /// Nothing more will come.
    Ended,
    /// The socket is broken; the end's count of faults rose.
    Failed,
    NoMemory,
}

/// What a write answered.
#[derive(Clone, Copy, Debug, PartialEq, Eq)]
pub enum EndWrite {
    /// So many bytes, at least one, were taken from the first part of the piece.
    Put(usize),
    /// Nothing can be taken yet.
    NotYet,
    /// The socket is broken; the end's count of faults rose.
    Failed,
    NoMemory,
}

/// What an end in memory is told of the other side.
#[derive(Clone, Copy, Debug, PartialEq, Eq)]
pub enum News {
    /// Bytes came.
    Flow,
    /// The other end was closed.
    Closed,
    /// The other end was closed, and nothing more will come.
    Ended,
    /// This end fails from now on.
    Failed,
}

/// One end of a socket. It keeps a log of all that it did, and a count of its faults.
///
/// Readers: [`id`](End::id), [`log`](End::log), [`faults`](End::faults). Calls that move bytes:
/// [`read`](End::read) and [`write`](End::write), of a piece that isn't empty, at an end that isn't
/// closed. Each either answers for want of memory and leaves all as it was, or does what its answer
/// says: once bytes have moved nothing can fail. What a write took counts as put at once; an end may keep
/// it and hand it on by its next read, or by [`close`](End::close). [`hear`](End::hear) is for the driver
/// of ends in memory and does nothing at other ends.
pub trait End: Drop {
    /// What contracts see.
    ghost seen: { Self → SeenEnd };

    fn id(&self) -> SocketId
        ensures { result ≡ (seen self.now).id };

    /// What the end did so far.
    fn log(&self) -> &EndLog
        ensures { log_of result.now ≡ (seen self.now).log };

    /// How many faults there were.
    fn faults(&self) -> u64
        ensures { result ≡ (seen self.now).faults };

    /// Reads the next bytes into the first part of `into`. For want of memory the piece stays as it was.
    fn read(&mut self, into: &mut [u8]) -> EndRead
        requires piece { 0 < length into.old }
        requires open { (seen self.old).log.closed ≡ false }
        ensures reads { Reads result into.new (seen self.old) (seen self.new) }
        ensures piece { LeavesPiece result into.old into.new };

    /// Writes the first bytes of the piece.
    fn write(&mut self, bytes: &[u8]) -> EndWrite
        requires piece { 0 < length bytes.now }
        requires open { (seen self.old).log.closed ≡ false }
        ensures { Writes result bytes.now (seen self.old) (seen self.new) };

    /// Closes the end: it is neither read nor written any more.
    fn close(&mut self)
        ensures { seen self.new ≡ after_closing (seen self.old) };

    /// Tells an end in memory of the other side. The bytes count with [`News::Flow`] alone. An end that
    /// isn't in memory answers Ok and does nothing.
    fn hear(&mut self, bytes: &[u8], news: News) -> Result<(), NoMemory>
        ensures ok { OnOk result (seen self.new ≡ after_news news bytes.now (seen self.old)) }
        ensures err { OnErr result (seen self.new ≡ seen self.old) };
}
