//! A growing buffer of bytes.

ghost use Rattle.std.specs.Prelude.{◌≡◌, ◌==◌, ◌+◌, ◌*◌, ◌<◌, ◌≤◌, [], ◌++◌, length, IfOk, OnOk, OnErr, IsOk, vec_len, vec_capacity};
ghost use Rattle.hex.specs.Hex.{encode_lower};
ghost use Rattle.m2_bytes.specs.Blob.{Appends};

use crate::memory::NoMemory;
use std::alloc::{AllocError, Global};
use std::marker::Model;

/// A vector of bytes. Contracts see its bytes, and the room: how many more bytes fit before
/// memory is taken.
///
/// Makers: [`empty`](Blob::empty), [`of`](Blob::of), [`copy`](Blob::copy),
/// [`from_vec`](Blob::from_vec). Readers: [`as_slice`](Blob::as_slice), [`len`](Blob::len),
/// [`is_empty`](Blob::is_empty). Writers: [`reserve`](Blob::reserve),
/// [`push_all`](Blob::push_all), [`clear`](Blob::clear).
#[derive(Debug, Drop)]
pub struct Blob {
    vec: Vec<u8>,
}

impl Model for Blob {
    ghost use Rattle.std.specs.Prelude.{◌-◌, vec_len, vec_capacity};
    ghost use Rattle.m2_bytes.specs.Blob.{Contents};

    ghost Value = { Contents };

    ghost view = { λ b. record { bytes = b.vec.items; room = vec_capacity b.vec - vec_len b.vec } };
}

impl Blob {
    /// No bytes. Takes no memory.
    pub fn empty(alloc: Global) -> Blob
        ensures { result.bytes ≡ [] }
    {
        Blob {
            vec: Vec::new(alloc),
        }
    }

    /// These bytes, copied.
    pub fn of(alloc: Global, bytes: &[u8]) -> Result<Blob, NoMemory>
        ensures { IfOk result (λ b. b.bytes ≡ bytes.now) }
    {
        Ok(Blob {
            vec: Vec::from_slice(alloc, bytes)?,
        })
    }

    /// The bytes of a vector, moved. Takes no memory.
    pub fn from_vec(vec: Vec<u8>) -> Blob
        ensures { result.bytes ≡ vec.items }
    {
        Blob { vec }
    }

    /// The same bytes in memory of their own.
    pub fn copy(&self) -> Result<Blob, NoMemory>
        ensures { IfOk result (λ b. b.bytes ≡ self.now.bytes) }
    {
        Blob::of(*self.vec.allocator(), self.as_slice())
    }

    /// The vector that holds them.
    pub(crate) fn into_vec(self) -> Vec<u8>
        ensures { result.items ≡ self.bytes }
    {
        self.vec
    }

    pub fn as_slice(&self) -> &[u8]
        ensures { result.now ≡ self.now.bytes }
    {
        self.vec.as_slice()
    }

    /// How many bytes.
    pub fn len(&self) -> usize
        ensures { result ≡ length self.now.bytes }
    {
        self.vec.len()
    }

    pub fn is_empty(&self) -> bool
        ensures { result ≡ (length self.now.bytes == 0) }
    {
        self.vec.is_empty()
    }

    /// Makes room for `more` bytes, so that appending them can't fail.
    pub fn reserve(&mut self, more: usize) -> Result<(), NoMemory>
        ensures bytes { self.new.bytes ≡ self.old.bytes }
        ensures room { OnOk result (more ≤ self.new.room) }
        ensures grows { self.old.room ≤ self.new.room }
        ensures succeeds { more ≤ self.old.room → IsOk result }
    {
        self.vec.reserve(more)?;
        Ok(())
    }

    /// Adds the bytes at the end. It succeeds wherever they fit in the room.
    pub fn push_all(&mut self, bytes: &[u8]) -> Result<(), NoMemory>
        ensures { Appends result self.old self.new bytes.now }
    {
        self.vec.extend_from_slice(bytes)?;
        Ok(())
    }

    /// Adds two hexadecimal digits for each of the bytes, in lower case.
    #[tactic(auto, using(crate::proofs::HexText::length_hex))]
    pub(crate) fn push_hex(&mut self, bytes: &[u8]) -> Result<(), NoMemory>
        ensures { Appends result self.old self.new (encode_lower bytes.now) }
    {
        extend_hex(&mut self.vec, bytes)?;
        Ok(())
    }

    /// Takes all bytes out. Their memory is kept as room.
    pub fn clear(&mut self)
        ensures bytes { self.new.bytes ≡ [] }
        ensures room { self.new.room ≡ self.old.room + length self.old.bytes }
    {
        self.vec.clear();
    }
}

// Makes the room, fills it, and writes the digits over the filling: no digit is copied.
fn extend_hex(vec: &mut Vec<u8>, bytes: &[u8]) -> Result<(), AllocError>
    ensures ok { OnOk result (vec.new.items ≡ vec.old.items ++ encode_lower bytes.now) }
    ensures len { OnOk result (vec_len vec.new ≡ vec_len vec.old + 2 * length bytes.now) }
    ensures err { OnErr result ((vec.new.items ≡ vec.old.items) × (vec_len vec.new ≡ vec_len vec.old)) }
    ensures capacity { vec_capacity vec.old ≤ vec_capacity vec.new }
    ensures full { OnErr result (vec_capacity vec.old < vec_len vec.old + 2 * length bytes.now) }
{
    let start = vec.len();
    let more = 2 * bytes.len();
    vec.reserve(more)?;
    vec.resize(start + more, 0)?;
    let (_, digits) = vec.split_at_mut(start);
    match hex::encode_to_slice(bytes, digits) {
        Ok(()) => Ok(()),
        Err(_) => unreachable!(),
    }
}
