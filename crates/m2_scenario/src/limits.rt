//! How large a scenario may be.

/// A scenario has at most so many nodes.
pub const MOST_NODES: usize = 16;

/// A table with a cell for each two nodes has so many cells.
pub const MOST_PAIRS: usize = 256;

/// A scenario has at most so many links: one for each two nodes.
pub const MOST_LINKS: usize = 120;

/// A node has at most so many event centers, and at least one.
pub const MOST_CENTERS: u32 = 4;

/// A scenario posts at most so many messages.
pub const MOST_POSTS: u32 = 20_000;

/// Each part of a posted message has at most so many bytes.
pub const MOST_PART_BYTES: usize = 65_536;

/// A scenario cuts at most so many sockets.
pub const MOST_CUTS: u32 = 64;

/// A socket is cut after at most so many bytes.
pub const MOST_BYTES_BEFORE_CUT: u64 = 1_048_576;

/// A scenario has at most so many faults.
pub const MOST_FAULTS: u32 = 64;

/// All settles of a scenario together have at most so many rounds.
pub const MOST_ROUNDS: u32 = 20_000;

/// A run may take so many milliseconds where its scenario sets no limit.
pub const USUAL_LIMIT: u64 = 10_000;
