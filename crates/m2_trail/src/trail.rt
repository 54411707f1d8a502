//! The trail of a half.

use m2_bytes::Items;
use m2_fabric::SocketId;
use m2_journal::{EntryList, JudgedList};

/// What one half did on a socket of the peer. Its bytes stand in the log of its end, in the same order.
#[derive(Debug, Drop)]
pub struct Trail {
    pub socket: SocketId,
    /// As which kind of node the half named itself.
    pub entity: u8,
    /// Its reads, writes and close.
    pub entries: EntryList,
    /// Its asks that were judged, in order.
    pub judged: JudgedList,
    /// How many entries there were when each of them was judged.
    pub judged_after: Items<usize>,
}

/// Trails, in order.
pub type TrailList = Items<Trail>;
