//! What a record writes into its journal.

use m2_bytes::Items;
use m2_fabric::SocketId;
use m2_policy::Key;
use m2_session::{Answer, AskFacts};

/// An ask of a half that was judged, and its answer.
#[derive(Clone, Copy, Debug)]
pub struct JudgedItem {
    pub ask: AskFacts,
    pub answer: Answer,
}

/// The judged asks of one half, in order.
pub type JudgedList = Items<JudgedItem>;

/// One entry of a journal: one event of a record. The bytes of reads and writes stand in the logs of
/// the ends, in the same order.
#[derive(Clone, Copy, Debug)]
pub enum Entry {
    /// The plan's next step, at this place from 0, was a post, and its message was queued.
    Post {
        place: u32,
    },
    /// The plan's next step was a dial.
    Dial,
    /// The record opened this socket, and it is the feed.
    Opened {
        socket: SocketId,
    },
    /// So many bytes were read on the feed, at least one. An answer to an ask that they complete,
    /// but a reset, is taken here too.
    Read {
        socket: SocketId,
        count: u32,
    },
    /// So many bytes were written on the feed, at least one.
    Wrote {
        socket: SocketId,
        count: u32,
    },
    /// The feed was closed for a fault, or a socket that was the feed was closed behind it.
    Closed {
        socket: SocketId,
    },
    /// An ask on a socket of the peer was judged, with the global number that was drawn for it. After
    /// an accept and after a resumption that socket is the feed.
    Judged {
        socket: SocketId,
        ask: AskFacts,
        number: u64,
        answer: Answer,
    },
    /// A CLIENT_IDENT (`ident`) or a SESSION_RECONNECT was composed, with the global number that was
    /// drawn for it.
    Asked {
        ident: bool,
        number: u64,
    },
    /// The next message was composed, with this message number.
    Numbered {
        number: u64,
    },
    /// A message of the peer was accepted, with its message number, priority and dispatch path.
    Accepted {
        number: u64,
        key: Key,
    },
    /// The peer's acknowledgement up to this message number was counted.
    Acked {
        number: u64,
    },
    /// A SESSION_RESET was obeyed, with this mark.
    Obeyed {
        full: bool,
    },
    /// The record was marked down: by its plan's next step (`planned`), or because a number that it
    /// needs would be above the greatest.
    Down {
        planned: bool,
    },
}
