//! Entries by what they wait for and what they add.

use m2_bytes::Items;

/// What an entry waits for.
#[derive(Clone, Copy, Debug, PartialEq, Eq)]
pub enum Need {
    /// Nothing: it may come once those before it in its strand have come.
    Nothing,
    /// That this counter has reached this value.
    AtLeast { counter: usize, least: u64 },
    /// What never happens.
    Never,
}

/// An entry of a strand: what it waits for, and how much it adds to which counter once it has come. All
/// counters begin at 0.
#[derive(Clone, Copy, Debug, PartialEq, Eq)]
pub struct CountedEntry {
    pub need: Need,
    pub counter: usize,
    pub amount: u64,
}

/// Entries that come one after the other.
#[derive(Debug, Drop)]
pub struct CountedStrand {
    pub entries: Items<CountedEntry>,
}
