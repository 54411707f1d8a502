//! Waiting for sockets.

use m2_bytes::NoMemory;
use mio::event::Source;
use mio::{Events, Interest, Poll, Token, Waker};
use std::alloc::Global;
use std::net::Net;
use std::time::Duration;

/// The most events that one wait takes; what more there is ends the next wait at once.
const EVENTS: usize = 64;

/// The one token: a wait tells only that something happened, since whoever waits looks at all its
/// sockets then.
const ANY: Token = Token(0);

/// A set of sockets of the system, and the wait until one of them can be read or written, was closed, or
/// failed, or another thread ends it. A socket leaves the set when it is closed.
///
/// The system tells changes: a socket that a call found dry or blocked ends a wait when it no longer is.
#[derive(Drop)]
pub(crate) struct Watch {
    poll: Poll,
    events: Events,
}

impl Watch {
    /// An empty set. None where the system refuses one.
    pub(crate) fn new(net: &impl Net, alloc: Global) -> Result<Option<Watch>, NoMemory> {
        let events = Events::with_capacity(alloc, EVENTS)?;
        match Poll::new(net) {
            Ok(poll) => Ok(Some(Watch { poll, events })),
            Err(_) => Ok(None),
        }
    }

    /// Puts a socket into the set. Whether the system did it.
    pub(crate) fn add<S: Source>(&self, socket: &mut S) -> bool
        ensures { S.keeps socket.old socket.new }
    {
        let interests = Interest::READABLE | Interest::WRITABLE;
        self.poll
            .registry()
            .register(socket, ANY, interests)
            .is_ok()
    }

    /// Takes a socket out of the set. Whether the system did it.
    pub(crate) fn remove<S: Source>(&self, socket: &mut S) -> bool
        ensures { S.keeps socket.old socket.new }
    {
        self.poll.registry().deregister(socket).is_ok()
    }

    /// What ends the waits of the set from other threads. None where the system refuses it.
    pub(crate) fn waker(&self) -> Option<Waker> {
        Waker::new(self.poll.registry(), ANY).ok()
    }

    /// Waits until something happened at a socket of the set, but no longer than so many milliseconds.
    /// Whether the system did it.
    pub(crate) fn wait(&mut self, most: u32) -> bool {
        let most = Duration::from_millis(most as u64);
        self.poll.poll(&mut self.events, Some(most)).is_ok()
    }
}
