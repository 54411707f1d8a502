//! How a side opens and accepts sockets.

ghost use Rattle.std.specs.Prelude.{◌≡◌, ◌-◌, length, take, option_map, IfSome, OnOk, OnErr};
ghost use Rattle.std.specs.Bool.{OnTrue, OnFalse};
ghost use Rattle.std.specs.Option.{option_to_list};
ghost use Rattle.m2_fabric.specs.End.{fresh_end};
ghost use Rattle.m2_fabric.specs.Sockets.{is_among};
ghost use Rattle.m2_record.specs.Calls.{ConnectIsDue, IsNewSocket, after_missing};
ghost use Rattle.m2_record.specs.IsRecord.{named_in, socket_of};
ghost use Rattle.m2_record.specs.RecordNow.{ends_of, ids_of};
ghost use Rattle.m2_record_trace.specs.SideNow.{Accepts, Opens, IsSameButRoom};
ghost use Rattle.m2_record_trace.specs.Sockets.{is_one};

use crate::side::Side;
use m2_bytes::NoMemory;
use m2_fabric::{End, SimEnd, SocketId};
use m2_journal::{Entry, EntryList};
use m2_record::{Due, Record};
use m2_trail::Incoming;

impl Side {
    /// The socket that the side opens next, where a connect is due now and that socket's name is new.
    pub(crate) fn next_socket(&self, now: u64) -> Option<SocketId>
        ensures due { IfSome result (λ _. ConnectIsDue now self.now.kept) }
        ensures new { IfSome result (IsNewSocket self.now.kept) }
    {
        if !connect_is_due(&self.record, now) {
            return None;
        }
        let socket = self.named(self.opened.checked_add(1)?);
        if is_new_socket(&self.record, &socket) {
            Some(socket)
        } else {
            None
        }
    }

    /// Its socket to the peer with this turn.
    fn named(&self, turn: u32) -> SocketId {
        let session = self.record.session();
        SocketId {
            from_ip: session.mine.ip,
            from_port: session.mine.port,
            to_ip: session.peer.ip,
            to_port: session.peer.port,
            turn,
        }
    }

    /// Opens a socket: it is the feed. Err is want of memory, and all but room is as before.
    pub(crate) fn connect(&mut self, socket: SocketId, now: u64) -> Result<(), NoMemory>
        requires due { ConnectIsDue now self.old.kept }
        requires new { IsNewSocket self.old.kept socket }
        ensures ok { OnOk result (Opens (fresh_end socket) self.old self.new) }
        ensures err { OnErr result (IsSameButRoom self.old self.new) }
    {
        match self.record.connected(SimEnd::new(self.alloc, socket), now) {
            Ok(()) => {
                self.opened = self.opened.saturating_add(1);
                Ok(())
            }
            Err(_end) => Err(NoMemory),
        }
    }

    /// A connect that is due fails. Whether one was due.
    pub(crate) fn miss(&mut self, now: u64) -> bool
        ensures due { OnTrue result (self.new ≡ record self.old { kept = after_missing now self.old.kept }) }
        ensures none { OnFalse result (self.new ≡ self.old) }
    {
        if !connect_is_due(&self.record, now) {
            return false;
        }
        self.record.not_connected(now);
        true
    }

    /// Accepts a socket of the peer: its half is the last one. Err is want of memory, and changes nothing.
    pub(crate) fn accept(&mut self, socket: SocketId) -> Result<(), NoMemory>
        ensures ok { OnOk result (Accepts (fresh_end socket) self.old self.new) }
        ensures err { OnErr result (self.new ≡ self.old) }
    {
        let entity = self.record.facts().entity;
        self.halves.reserve(1)?;
        let Ok(half) = Incoming::new(self.alloc, SimEnd::new(self.alloc, socket), entity) else {
            return Err(NoMemory);
        };
        self.halves.push_reserved(half);
        Ok(())
    }

    /// Forgets the socket that was accepted last.
    pub(crate) fn forget_last(&mut self)
        ensures { self.new ≡ record self.old { halves = take (length self.old.halves - 1) self.old.halves } }
    {
        let _half = self.halves.pop();
    }
}

/// Whether a connect is due.
fn connect_is_due(kept: &Record<SimEnd>, now: u64) -> bool
    ensures { OnTrue result (ConnectIsDue now kept.now) }
{
    let at = kept.next_dial();
    kept.due(now) == (Due::Connect { at })
}

/// Whether a socket leads to the peer, and no entry and no end of the record has it.
fn is_new_socket(kept: &Record<SimEnd>, socket: &SocketId) -> bool
    ensures { OnTrue result (IsNewSocket kept.now socket.now) }
{
    if !socket.goes_to(&kept.session().peer) || is_named(kept.journal(), socket) {
        return false;
    }
    !has_end(kept, socket)
}

/// Whether an entry of a journal names a socket.
#[tactic(auto, using(crate::proofs::Sockets::named_more))]
fn is_named(journal: &EntryList, socket: &SocketId) -> bool
    ensures { result ≡ is_among socket.now (named_in journal.now.items) }
{
    for e in journal.iter() {
        if names(&e, socket) {
            return true;
        }
    }
    false
}

/// Whether an entry names a socket.
fn names(e: &Entry, socket: &SocketId) -> bool
    ensures { result ≡ is_one socket.now (socket_of e.now) }
{
    match e {
        Entry::Opened { socket: its }
        | Entry::Read {
            socket: its,
            count: _,
        }
        | Entry::Wrote {
            socket: its,
            count: _,
        }
        | Entry::Closed { socket: its }
        | Entry::Judged {
            socket: its,
            ask: _,
            number: _,
            answer: _,
        } => socket.is_same(its),
        _ => false,
    }
}

/// Whether a record has an end of a socket.
pub(crate) fn has_end(kept: &Record<SimEnd>, socket: &SocketId) -> bool
    ensures { result ≡ is_among socket.now (ids_of (ends_of kept.now)) }
{
    is_feed(kept.feed(), socket) || is_spent(kept.spent(), socket)
}

fn is_feed(feed: Option<&SimEnd>, socket: &SocketId) -> bool
    ensures { result ≡ is_among socket.now (ids_of (option_to_list (option_map (λ e. e.now) feed.entry))) }
{
    match feed {
        Some(end) => socket.is_same(&end.id()),
        None => false,
    }
}

fn is_spent(ends: &[SimEnd], socket: &SocketId) -> bool
    ensures { result ≡ is_among socket.now (ids_of ends.now) }
{
    for end in ends {
        if socket.is_same(&end.id()) {
            return true;
        }
    }
    false
}
