//! Decimal words: digits without a leading zero.

ghost use Rattle.std.specs.Prelude.{◌≡◌, ◌≢◌, ℕ, ◌<◌, ◌^◌, IfSome, IfNone};
ghost use Rattle.std.specs.Fmt.{decimal};
ghost use Rattle.m2_bytes.specs.Blob.{Appends};

use crate::blob::Blob;
use crate::memory::NoMemory;
use itoa::Buffer;

/// The number below 2^64 whose canonical text the word is: digits without a leading zero, the
/// word `0` excepted. None exactly where the word is no such text.
pub fn read_decimal(word: &[u8]) -> Option<u64>
    ensures read { IfSome result (λ n. word.now ≡ decimal n) }
    ensures refused { IfNone result ((n : ℕ) → n < 2 ^ 64 → word.now ≢ decimal n) }
{
    let Ok(text) = std::str::from_utf8(word) else {
        return None;
    };
    let Ok(number) = text.parse::<u64>() else {
        return None;
    };
    let mut buffer = Buffer::new();
    // What `parse` takes beyond the canonical text, a sign or a leading zero, isn't printed so.
    if buffer.format(number).as_bytes() == word {
        Some(number)
    } else {
        None
    }
}

/// Appends the number's canonical text.
pub fn put_decimal(out: &mut Blob, v: u64) -> Result<(), NoMemory>
    ensures { Appends result out.old out.new (decimal v) }
{
    let mut buffer = Buffer::new();
    out.push_all(buffer.format(v).as_bytes())
}
