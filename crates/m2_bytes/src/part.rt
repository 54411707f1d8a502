//! Bytes that no longer change.

ghost use Rattle.std.specs.Prelude.{◌≡◌, ◌==◌, [], length, IfOk};

use crate::blob::Blob;
use crate::memory::NoMemory;
use std::alloc::Global;
use std::marker::Model;
use std::sync::ArcSlice;

/// Bytes that no longer change. A copy shares their memory, in whatever thread it is. Contracts see the bytes.
///
/// Makers: [`empty`](Part::empty), [`of`](Part::of), [`from_blob`](Part::from_blob), [`copy`](Part::copy). Readers: [`as_slice`](Part::as_slice),
/// [`len`](Part::len), [`is_empty`](Part::is_empty).
#[derive(Debug, Drop)]
pub struct Part {
    /// None where there are no bytes.
    held: Option<ArcSlice<u8, Global>>,
}

impl Model for Part {
    ghost use Rattle.std.specs.Arc.{arc_slice_items};
    ghost use Rattle.m2_bytes.specs.Part.{Shown, bytes_in};

    ghost Value = { Shown };

    ghost view = { λ p. record { bytes = bytes_in arc_slice_items p.held } };
}

impl Part {
    /// No bytes. Takes no memory.
    pub fn empty() -> Part
        ensures { result.bytes ≡ [] }
    {
        Part { held: None }
    }

    /// These bytes, copied. None of them takes no memory.
    pub fn of(alloc: Global, bytes: &[u8]) -> Result<Part, NoMemory>
        ensures { IfOk result (λ p. p.bytes ≡ bytes.now) }
    {
        if bytes.is_empty() {
            return Ok(Part::empty());
        }
        Ok(Part {
            held: Some(ArcSlice::from_slice(alloc, bytes)?),
        })
    }

    /// The bytes of a buffer, in the memory where they are.
    pub fn from_blob(blob: Blob) -> Result<Part, NoMemory>
        ensures { IfOk result (λ p. p.bytes ≡ blob.bytes) }
    {
        if blob.is_empty() {
            return Ok(Part::empty());
        }
        Ok(Part {
            held: Some(ArcSlice::from_vec(blob.into_vec())?),
        })
    }

    /// The same bytes, in the memory where they are. Err comes where they have no more owners than can be counted.
    pub fn copy(&self) -> Result<Part, NoMemory>
        ensures { IfOk result (λ p. p.bytes ≡ self.now.bytes) }
    {
        match &self.held {
            None => Ok(Part::empty()),
            Some(held) => Ok(Part {
                held: Some(held.clone()?),
            }),
        }
    }

    pub fn as_slice(&self) -> &[u8]
        ensures { result.now ≡ self.now.bytes }
    {
        match &self.held {
            None => &[],
            Some(held) => held.as_slice(),
        }
    }

    /// How many bytes.
    pub fn len(&self) -> usize
        ensures { result ≡ length self.now.bytes }
    {
        self.as_slice().len()
    }

    pub fn is_empty(&self) -> bool
        ensures { result ≡ (length self.now.bytes == 0) }
    {
        self.as_slice().is_empty()
    }
}
