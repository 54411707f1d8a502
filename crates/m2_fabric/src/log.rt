//! What an end did: the bytes that it read and wrote, and what its calls answered.

ghost use Rattle.std.specs.Prelude.{◌≡◌, ◌≤◌, ◌<◌, ◌++◌, length, OnOk};
ghost use Rattle.m2_fabric.specs.Log.{FitsRead, FitsWrite, after_close, after_read, after_write, log_of, nothing_done};

use crate::end::{EndRead, EndWrite};
use m2_bytes::{Blob, Items, NoMemory};
use std::alloc::Global;

/// The most bytes that one read or one write moves, since a [`Run`] counts them in 32 bits.
pub const MOST_MOVED: usize = 4_294_967_295;

/// How many bytes of one kind a spent log moves at most to be rid of spare room. Above that, room that was never used
/// takes no memory of the system's that counts.
const MOST_TRIMMED: usize = 65_536;

/// A read or a write that moved bytes, and how many.
#[derive(Clone, Copy, Debug, PartialEq, Eq)]
pub enum Run {
    Read(u32),
    Wrote(u32),
}

/// Runs in order.
pub type RunList = Items<Run>;

/// What an end did, from its first call on. It starts empty with its flags false, and changes by that
/// end's own reads, writes and close alone. A call that failed leaves no mark in it.
///
/// Makers: [`new`](EndLog::new). For the makers of ends: [`reserve_read`](EndLog::reserve_read) and
/// [`reserve_write`](EndLog::reserve_write) come before bytes are moved,
/// [`note_read`](EndLog::note_read), [`note_write`](EndLog::note_write) and
/// [`note_close`](EndLog::note_close) behind it, and these three can't fail. [`trim`](EndLog::trim) is for
/// an end that is spent.
#[derive(Debug, Drop)]
pub struct EndLog {
    /// All bytes that the reads gave.
    pub got: Blob,
    /// All bytes that the writes took.
    pub put: Blob,
    /// The reads and writes that moved bytes.
    pub runs: RunList,
    pub closed: bool,
    /// The last read that didn't fail answered that nothing is there yet.
    pub dry: bool,
    /// The last write that didn't fail answered that nothing can be taken yet.
    pub blocked: bool,
    /// A read answered that nothing more will come.
    pub ended: bool,
}

impl EndLog {
    /// Nothing done so far. Takes no memory.
    pub fn new(alloc: Global) -> EndLog
        ensures { log_of result ≡ nothing_done }
    {
        EndLog {
            got: Blob::empty(alloc),
            put: Blob::empty(alloc),
            runs: Items::empty(alloc),
            closed: false,
            dry: false,
            blocked: false,
            ended: false,
        }
    }

    /// Makes room for one read of at most so many bytes. On Err what the log tells is unchanged.
    pub fn reserve_read(&mut self, most: usize) -> Result<(), NoMemory>
        ensures same { log_of self.new ≡ log_of self.old }
        ensures room { OnOk result ((most ≤ self.new.got.room) × (0 < self.new.runs.room)) }
    {
        self.got.reserve(most)?;
        self.runs.reserve(1)
    }

    /// Makes room for one write of at most so many bytes. On Err what the log tells is unchanged.
    pub fn reserve_write(&mut self, most: usize) -> Result<(), NoMemory>
        ensures same { log_of self.new ≡ log_of self.old }
        ensures room { OnOk result ((most ≤ self.new.put.room) × (0 < self.new.runs.room)) }
    {
        self.put.reserve(most)?;
        self.runs.reserve(1)
    }

    /// Notes what a read into a piece answered. The bytes read are the first ones of the piece.
    pub fn note_read(&mut self, answer: EndRead, piece: &[u8])
        requires { FitsRead answer piece.now self.old }
        ensures { log_of self.new ≡ after_read answer piece.now (log_of self.old) }
    {
        match answer {
            EndRead::Got(n) => {
                append(&mut self.got, &piece[..n]);
                self.runs.push_reserved(Run::Read(n as u32));
                self.dry = false;
            }
            EndRead::NotYet => self.dry = true,
            EndRead::Ended => {
                self.dry = false;
                self.ended = true;
            }
            EndRead::Failed | EndRead::NoMemory => {}
        }
    }

    /// Notes what a write of a piece answered. The bytes written are the first ones of the piece.
    pub fn note_write(&mut self, answer: EndWrite, piece: &[u8])
        requires { FitsWrite answer piece.now self.old }
        ensures { log_of self.new ≡ after_write answer piece.now (log_of self.old) }
    {
        match answer {
            EndWrite::Put(n) => {
                append(&mut self.put, &piece[..n]);
                self.runs.push_reserved(Run::Wrote(n as u32));
                self.blocked = false;
            }
            EndWrite::NotYet => self.blocked = true,
            EndWrite::Failed | EndWrite::NoMemory => {}
        }
    }

    /// Notes that the end was closed.
    pub fn note_close(&mut self)
        ensures { log_of self.new ≡ after_close (log_of self.old) }
    {
        self.closed = true;
    }

    /// Gives spare room back: what stands in the log is moved to memory of just its size, unless it is long or there is
    /// no memory to move it to.
    pub fn trim(&mut self, alloc: Global)
        ensures { log_of self.new ≡ log_of self.old }
    {
        trim_bytes(&mut self.got);
        trim_bytes(&mut self.put);
        trim_runs(alloc, &mut self.runs);
    }
}

// Moves bytes to memory of just their size, unless they are many.
fn trim_bytes(blob: &mut Blob)
    ensures { blob.new.bytes ≡ blob.old.bytes }
{
    if blob.len() > MOST_TRIMMED {
        return;
    }
    if let Ok(copy) = blob.copy() {
        *blob = copy;
    }
}

// Moves runs to memory of just their size.
fn trim_runs(alloc: Global, runs: &mut RunList)
    ensures { runs.new.items ≡ runs.old.items }
{
    if let Ok(copy) = Vec::from_slice(alloc, runs.as_slice()) {
        *runs = Items::from_vec(copy);
    }
}

// Adds bytes that fit in the room.
fn append(blob: &mut Blob, bytes: &[u8])
    requires { length bytes.now ≤ blob.old.room }
    ensures { blob.new.bytes ≡ blob.old.bytes ++ bytes.now }
{
    match blob.push_all(bytes) {
        Ok(()) => {}
        Err(_) => unreachable!(),
    }
}
