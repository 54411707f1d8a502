//! Bytes as hexadecimal words.

ghost use Rattle.std.specs.Prelude.{◌≡◌, ◌<◌, ℕ, List, slice_index, Some};
ghost use Rattle.m2_bytes.specs.Blob.{Appends};
ghost use Rattle.m2_bytes.specs.Hexadecimal.{ReadsHex, hex_text, hex_value};

use crate::blob::Blob;
use crate::memory::NoMemory;
use std::alloc::Global;
use thiserror::Error;

/// Why a hexadecimal word wasn't read.
#[derive(Clone, Copy, Debug, PartialEq, Eq, Error)]
pub enum HexFault {
    /// The word isn't `-` and isn't a positive even number of hexadecimal digits.
    #[error("not a hexadecimal word")]
    BadHex,
    /// Memory ran out.
    #[error("no memory")]
    NoMemory,
}

/// The bytes that the word spells: two digits a byte, of either case, and `-` for no bytes.
/// `BadHex` comes exactly where it spells none.
pub fn read_hex(alloc: Global, word: &[u8]) -> Result<Blob, HexFault>
    ensures { ReadsHex word.now result }
{
    if word == b"-".as_slice() {
        return Ok(Blob::empty(alloc));
    }
    if word.is_empty() {
        return Err(HexFault::BadHex);
    }
    match hex::decode(alloc, word) {
        Ok(bytes) => Ok(Blob::from_vec(bytes)),
        Err(hex::FromHexError::OutOfMemory) => Err(HexFault::NoMemory),
        Err(_) => Err(HexFault::BadHex),
    }
}

/// Appends the word that spells the bytes, in lower case.
pub fn put_hex(out: &mut Blob, bytes: &[u8]) -> Result<(), NoMemory>
    ensures { Appends result out.old out.new (hex_text bytes.now) }
{
    if bytes.is_empty() {
        return out.push_all(b"-");
    }
    out.push_hex(bytes)
}

/// What was written is read again: the word that is written for some bytes spells them.
pub fn hex_is_read_again()
    ensures { (bytes : List ℕ) → ((i : ℕ) → slice_index bytes i < 256) → hex_value (hex_text bytes) ≡ Some bytes }
{}
