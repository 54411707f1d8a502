//! The checksum of frames: CRC-32C, the Castagnoli polynomial, as Ceph computes it.
//!
//! What it is: [`crc32c`], which takes sixteen bytes a step by sixteen tables of 256 words and is equal to the rule
//! that goes bit by bit. What it isn't: the checksum as iSCSI and others write it, which is turned over at the end. Here
//! the state starts as the seed and the last state is the result.
#![tactic(auto)]

mod checksum;
mod table;

pub use checksum::crc32c;
