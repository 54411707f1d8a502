//! What one end of a socket has of it.

ghost use Rattle.std.specs.Prelude.{◌≡◌, ◌≤◌, [], length};
ghost use Rattle.m2_fabric.specs.declared.log.TheConstants.{MOST_MOVED};
ghost use Rattle.m2_mem_fabric.specs.Line.{IsPutOf};

use crate::bells::Bells;
use crate::stream::Stream;
use bytes::BytesMut;
use m2_bytes::NoMemory;
use m2_fabric::EndWrite;
use std::alloc::Global;
use std::sync::{Arc, Mutex, Wait};

/// A stream that two threads share.
type SharedStream = Arc<Mutex<Stream>, Global>;

/// What one end of a socket has of it: the stream that it reads, and the one that it writes. Once it is
/// dropped the other end reads what was written to its end, and can't write any more.
pub(crate) struct Line<R: Wait + Copy> {
    rt: R,
    incoming: SharedStream,
    outgoing: SharedStream,
}

impl<R: Wait + Copy> Line<R> {
    /// Writes a piece, whole. It never answers NotYet.
    pub(crate) fn put(&self, piece: &[u8]) -> EndWrite
        requires { length piece.now ≤ MOST_MOVED }
        ensures { IsPutOf result piece.now }
    {
        self.outgoing.lock(&self.rt).put(piece)
    }

    /// Takes all bytes that came, in exchange for an empty buffer. Whether nothing more will come.
    pub(crate) fn take_all(&self, held: &mut BytesMut) -> bool
        requires { held.old.items ≡ [] }
    {
        self.incoming.lock(&self.rt).take_all(held)
    }

    /// These bells are rung when something comes, from now on.
    pub(crate) fn set_bells(&self, bells: Arc<Bells, Global>) {
        self.incoming.lock(&self.rt).set_bells(bells);
    }
}

impl<R: Wait + Copy> Drop for Line<R> {
    fn drop(self) {
        let Self {
            rt,
            incoming,
            outgoing,
        } = self;
        incoming.lock(&rt).abandon();
        outgoing.lock(&rt).end();
    }
}

/// A stream that two threads share, and whose reader's bells these are.
fn new_stream(
    alloc: Global,
    bells: Option<Arc<Bells, Global>>,
) -> Result<(SharedStream, SharedStream), NoMemory> {
    let one = Arc::new(alloc, Mutex::new(Stream::new(alloc, bells)))?;
    let other = Arc::try_clone(&one)?;
    Ok((one, other))
}

/// The two lines of a new socket, the opener's first. The opener's bells are these.
pub(crate) fn two_lines<R: Wait + Copy>(
    rt: R,
    alloc: Global,
    bells: &Arc<Bells, Global>,
) -> Result<(Line<R>, Line<R>), NoMemory> {
    let bells = Arc::try_clone(bells)?;
    let (back, answers) = new_stream(alloc, Some(bells))?;
    let (there, asks) = new_stream(alloc, None)?;
    let opener = Line {
        rt,
        incoming: back,
        outgoing: there,
    };
    let acceptor = Line {
        rt,
        incoming: asks,
        outgoing: answers,
    };
    Ok((opener, acceptor))
}
