//! How many calls dispatchers had.

use m2_bytes::Items;

/// How many calls a node's dispatcher of fast kinds had in one of its turns, and the one behind its queue.
#[derive(Clone, Copy, Debug, PartialEq, Eq)]
pub struct TurnCalls {
    /// The node's place, from 0.
    pub node: u32,
    pub fast: usize,
    pub queued: usize,
}

/// Those of many turns, in order.
pub type TurnCallsList = Items<TurnCalls>;
