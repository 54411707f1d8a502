//! One direction of a socket.

ghost use Rattle.std.specs.Prelude.{◌≡◌, ◌<◌, ◌≤◌, [], length};
ghost use Rattle.m2_fabric.specs.declared.log.TheConstants.{MOST_MOVED};
ghost use Rattle.m2_mem_fabric.specs.Stream.{Puts, TakesAll, after_abandoning, after_ending, nothing_flowed};

use crate::bells::{Bells, ring_all};
use bytes::BytesMut;
use m2_bytes::Told;
use m2_fabric::{EndWrite, MOST_MOVED};
use std::alloc::Global;
use std::marker::Model;
use std::sync::Arc;

/// One direction of a socket: the bytes that its writer put and its reader didn't take yet. It stands under
/// a lock. Contracts see these bytes, whether each side is gone, how often the reader was woken, and all bytes
/// that were ever put and taken: whenever the lock is free, what was taken is a prefix of what was put, and the
/// rest waits, unless the reader is gone.
///
/// A reader takes all bytes at once and leaves its own empty buffer in their place, so no byte is moved
/// while the lock is held; a writer copies its piece behind what waits.
#[derive(Drop)]
pub(crate) struct Stream {
    waiting: BytesMut,
    /// The writer is gone: nothing more comes.
    ended: bool,
    /// The reader is gone: nothing more is taken.
    abandoned: bool,
    /// Rung for the reader, once there is one.
    bells: Option<Arc<Bells, Global>>,
    put: Told,
    taken: Told,
    /// A mark for each ring.
    rung: Told,
}

impl Model for Stream {
    ghost use Rattle.m2_mem_fabric.specs.Stream.{Flow, IsInOrder};

    ghost Value = { Flow };

    ghost view = { λ s. record {
      put = s.put.bytes;
      taken = s.taken.bytes;
      waiting = s.waiting.items;
      ended = s.ended;
      abandoned = s.abandoned;
      rung = s.rung.bytes;
    } };

    ghost invariant = { λ s. IsInOrder s.abandoned s.put.bytes s.taken.bytes s.waiting.items };
}

impl Stream {
    /// Nothing was put so far. Takes no memory.
    pub(crate) fn new(alloc: Global, bells: Option<Arc<Bells, Global>>) -> Stream
        ensures { result ≡ nothing_flowed }
    {
        Stream {
            waiting: BytesMut::new(alloc),
            ended: false,
            abandoned: false,
            bells,
            put: Told::nothing(),
            taken: Told::nothing(),
            rung: Told::nothing(),
        }
    }

    /// Puts a piece behind what waits, whole, and wakes the reader where nothing waited. Failed exactly
    /// where the reader is gone.
    pub(crate) fn put(&mut self, piece: &[u8]) -> EndWrite
        requires { length piece.now ≤ MOST_MOVED }
        ensures { Puts result piece.now self.old self.new }
    {
        if self.abandoned {
            return EndWrite::Failed;
        }
        if self.waiting.reserve(piece.len()).is_err() {
            return EndWrite::NoMemory;
        }
        let dry = self.waiting.is_empty();
        self.waiting.extend_reserved(piece);
        self.put = Told::and(&self.put, piece);
        if dry {
            ring_all(&self.bells, &mut self.rung);
        }
        EndWrite::Put(piece.len())
    }

    /// Takes all bytes that wait, in exchange for an empty buffer. Whether nothing more will come.
    pub(crate) fn take_all(&mut self, held: &mut BytesMut) -> bool
        requires { held.old.items ≡ [] }
        ensures { TakesAll result held.new.items self.old self.new }
    {
        std::mem::swap(&mut self.waiting, held);
        self.taken = Told::and(&self.taken, held.as_slice());
        self.ended
    }

    /// The writer is gone. The reader is woken.
    pub(crate) fn end(&mut self)
        ensures { self.new ≡ after_ending self.old }
    {
        self.ended = true;
        ring_all(&self.bells, &mut self.rung);
    }

    /// The reader is gone, and what waited with it.
    pub(crate) fn abandon(&mut self)
        ensures { self.new ≡ after_abandoning self.old }
    {
        self.waiting.clear();
        self.abandoned = true;
        self.bells = None;
    }

    /// These bells are rung for the reader from now on.
    pub(crate) fn set_bells(&mut self, bells: Arc<Bells, Global>)
        ensures { self.new ≡ self.old }
    {
        self.bells = Some(bells);
    }
}
