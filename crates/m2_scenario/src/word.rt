//! What single words spell.

ghost use Rattle.std.specs.Prelude.{◌≡◌, ◌≤◌, IfOk};
ghost use Rattle.std.specs.List.{list_all};
ghost use Rattle.m2_scenario.specs.Word.{decimal_value, number_of, bytes_of, is_name_byte, is_name, BytesRead};

use crate::kind::{Kind, LineFault};
use m2_bytes::{Blob, HexFault, read_decimal, read_hex};
use std::alloc::Global;

/// A name has at most so many bytes.
pub const MOST_NAME_BYTES: usize = 16;

#[tactic(auto, using(crate::proofs::Decimals::value_of_decimal, crate::proofs::Decimals::no_decimal))]
fn decimal(word: &[u8]) -> Option<u64>
    ensures { result ≡ decimal_value word.now }
{
    match read_decimal(word) {
        Some(n) => Some(n),
        None => None,
    }
}

/// A number from `least` to `most`, or else the kind.
#[tactic(auto, unfolding(crate::specs::Word::ranged))]
pub fn read_number(kind: Kind, least: u64, most: u64, word: &[u8]) -> Result<u64, Kind>
    ensures value { result ≡ number_of kind least most word.now }
    ensures least { IfOk result (λ n. least ≤ n) }
    ensures most { IfOk result (λ n. n ≤ most) }
{
    let Some(n) = decimal(word) else {
        return Err(kind);
    };
    if least <= n && n <= most {
        Ok(n)
    } else {
        Err(kind)
    }
}

/// The bytes that a hexadecimal word spells; a word that spells none is of kind `Hex`.
pub fn read_bytes(alloc: Global, word: &[u8]) -> Result<Blob, LineFault>
    ensures { BytesRead result (bytes_of word.now) }
{
    match read_hex(alloc, word) {
        Ok(blob) => Ok(blob),
        Err(HexFault::BadHex) => Err(LineFault::Bad(Kind::Hex)),
        Err(HexFault::NoMemory) => Err(LineFault::NoMemory),
    }
}

fn is_name_byte(b: u8) -> bool
    ensures { result ≡ is_name_byte b }
{
    (97 <= b && b <= 122) || (48 <= b && b <= 57) || b == 95
}

fn has_name_bytes(word: &[u8]) -> bool
    ensures { result ≡ list_all is_name_byte word.now }
{
    word.iter().all(|b| is_name_byte(*b))
}

/// Whether it is a name: a byte or more of those that names have, and at most
/// [`MOST_NAME_BYTES`].
pub fn is_name(word: &[u8]) -> bool
    ensures { result ≡ is_name word.now }
{
    1 <= word.len() && word.len() <= MOST_NAME_BYTES && has_name_bytes(word)
}
