//! Limits.

/// The bound of a throttle that was made with the bound 0, in bytes: 2^62.
pub const NO_BOUND: u64 = 4_611_686_018_427_387_904;

/// The most that one grant holds, in bytes: three parts of 128 MiB.
pub const MOST_TAKEN: u64 = 402_653_184;

/// The last number that is drawn: 2^40.
pub const LAST_NUMBER: u64 = 1_099_511_627_776;
