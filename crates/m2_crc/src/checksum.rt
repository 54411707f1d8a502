//! The checksum of a piece of bytes.

ghost use Rattle.std.specs.Prelude.{◌≡◌, ◌+◌, ◌++◌, ◌*◌, ◌<◌, ◌%◌};
ghost use Rattle.std.specs.List.{concat};
ghost use Rattle.m2_crc.specs.Crc.{crc_of, shifted_by};

use crate::table::{BYTES, SHIFTED};

/// What the shifts of so many more bytes than one make of a state that holds this byte alone.
#[inline(always)]
fn moved_out(more: usize, byte: usize) -> u32
    requires more { more < 16 }
    requires byte { byte < 256 }
    ensures { result ≡ shifted_by (8 * (more + 1)) byte }
{
    SHIFTED[BYTES * more + byte]
}

/// The lowest byte of a word.
#[inline(always)]
fn lowest_byte(word: u64) -> usize
    ensures value { result ≡ word % 256 }
    ensures byte { result < 256 }
{
    (word & 0xff) as usize
}

/// The state after eight bytes. Put into the state together, each is moved out by as many shifts as there are from
/// its place. The last four don't wait for the state.
#[inline(always)]
fn after_word(state: u32, bytes: &[u8; 8]) -> u32
    ensures { result ≡ crc_of state bytes.now }
{
    let word = u64::from_le_bytes(*bytes) ^ state as u64;
    let last = moved_out(3, lowest_byte(word >> 32))
        ^ moved_out(2, lowest_byte(word >> 40))
        ^ moved_out(1, lowest_byte(word >> 48))
        ^ moved_out(0, lowest_byte(word >> 56));
    let first = moved_out(7, lowest_byte(word)) ^ moved_out(6, lowest_byte(word >> 8));
    let then = moved_out(5, lowest_byte(word >> 16)) ^ moved_out(4, lowest_byte(word >> 24));
    (first ^ then) ^ last
}

/// What eight bytes more make of the state after these eight.
#[inline(always)]
fn after_far_word(state: u32, bytes: &[u8; 8]) -> u32
    ensures { result ≡ shifted_by 64 (crc_of state bytes.now) }
{
    let word = u64::from_le_bytes(*bytes) ^ state as u64;
    let last = moved_out(11, lowest_byte(word >> 32))
        ^ moved_out(10, lowest_byte(word >> 40))
        ^ moved_out(9, lowest_byte(word >> 48))
        ^ moved_out(8, lowest_byte(word >> 56));
    let first = moved_out(15, lowest_byte(word)) ^ moved_out(14, lowest_byte(word >> 8));
    let then = moved_out(13, lowest_byte(word >> 16)) ^ moved_out(12, lowest_byte(word >> 24));
    (first ^ then) ^ last
}

/// The state after twice eight bytes. What the first eight make of it and what the others leave are put together.
#[inline(always)]
fn after_pair(state: u32, low: &[u8; 8], high: &[u8; 8]) -> u32
    ensures { result ≡ crc_of state (low.now ++ high.now) }
{
    after_far_word(state, low) ^ after_word(0, high)
}

/// The state after these bytes, eight at a time.
fn after_words(seed: u32, words: &[[u8; 8]]) -> u32
    ensures { result ≡ crc_of seed (concat words.now) }
{
    let mut state = seed;
    'pairs: for i in 0..words.len() / 2 {
        state = after_pair(state, &words[2 * i], &words[2 * i + 1]);
    }
    if words.len() % 2 == 1 {
        state = after_word(state, &words[words.len() - 1]);
    }
    state
}

/// The state after these bytes, one at a time.
#[inline(always)]
fn after_bytes(seed: u32, bytes: &[u8]) -> u32
    ensures { result ≡ crc_of seed bytes.now }
{
    let mut state = seed;
    for byte in bytes {
        let low = ((state ^ *byte as u32) & 0xff) as usize;
        state = moved_out(0, low) ^ (state >> 8);
    }
    state
}

/// The CRC-32C state after these bytes, begun at `seed`.
///
/// Ceph's frames format begins a preamble's checksum at 0 and a segment's at `0xFFFFFFFF`.
pub fn crc32c(seed: u32, bytes: &[u8]) -> u32
    ensures { result ≡ crc_of seed bytes.now }
{
    let (words, rest) = bytes.as_chunks::<8>();
    after_bytes(after_words(seed, words), rest)
}
