//! What a program of one file is.

ghost use Rattle.std.specs.Prelude.{◌≡◌, ℕ, List, IfErr, IfOk};
ghost use Rattle.m2_program.specs.Status.{IsRefusal};

use crate::status::ProgramStatus;
use m2_bytes::Blob;
use std::alloc::Global;

/// A program whose one word names a file, of whose bytes it makes a text.
pub trait Program {
    /// Which text it may make of which bytes.
    ghost makes: { List ℕ → List ℕ → Type 0 };

    /// Which complaint it may have of which bytes.
    ghost complains: { List ℕ → List ℕ → Type 0 };

    ghost usage: { List ℕ };

    ghost MOST: { ℕ };

    /// How many bytes of the file are read at most.
    const MOST: usize;

    /// The line that says which words it has, with its line feed.
    fn usage() -> &'static [u8]
        ensures { result.now ≡ usage };

    /// The text of these bytes, or why there is none: a bad line, or want of memory.
    fn make(alloc: Global, bytes: &[u8]) -> Result<Blob, ProgramStatus>
        ensures makes { IfOk result (λ text. makes bytes.now text.bytes) }
        ensures refuses { IfErr result (λ why. IsRefusal why (complains bytes.now)) };
}
