//! What the calls of a feed answer.

/// What a write answered.
#[derive(Clone, Copy, Debug, PartialEq, Eq)]
pub enum FeedWrite {
    /// So many bytes, at least one, were put; and whether they were the last ones of a frame that
    /// acknowledges.
    Put { count: usize, acknowledged: bool },
    /// Nothing can be put yet.
    NotYet,
    /// The socket is broken.
    Failed,
    NoMemory,
}
