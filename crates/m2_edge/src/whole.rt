//! A whole input read, and a whole text written.

ghost use Rattle.std.specs.Prelude.{◌≡◌, ◌<◌, ◌≤◌, length, IfOk, OnErr, OnOk};
ghost use Rattle.m2_edge.specs.Faults.{HasCause};
ghost use Rattle.m2_edge.specs.Source.{GivesItsInput};
ghost use Rattle.m2_edge.specs.Whole.{ExtendsBy, HasReadCause, ReadsInput, WritesText};

use crate::failed::Failed;
use crate::sink::Sink;
use crate::source::Source;
use m2_bytes::{Blob, NoMemory};
use std::alloc::Global;
use thiserror::Error;

/// Why an input wasn't read whole.
#[derive(Clone, Copy, Debug, PartialEq, Eq, Error)]
pub enum ReadFault {
    /// The source failed, and its count of faults rose.
    #[error("the input could not be read")]
    Failed,
    #[error("no memory")]
    NoMemory,
}

impl From<Failed> for ReadFault {
    ghost use Rattle.std.specs.Prelude.{◌≡◌};
    ghost use Rattle.m2_edge.specs.declared.whole.ReadFault.TheVariants as faults;

    ghost from_gives = { λ _ e. e ≡ faults.Failed };

    fn from(_e: Failed) -> ReadFault {
        ReadFault::Failed
    }
}

impl From<NoMemory> for ReadFault {
    ghost use Rattle.std.specs.Prelude.{◌≡◌};
    ghost use Rattle.m2_edge.specs.declared.whole.ReadFault.TheVariants as faults;

    ghost from_gives = { λ _ e. e ≡ faults.NoMemory };

    fn from(_e: NoMemory) -> ReadFault {
        ReadFault::NoMemory
    }
}

/// How many bytes a read asks for.
const PIECE: usize = 8192;

/// The input of that name, to its end or to `most` bytes, whichever comes first: all that the reads
/// gave.
///
/// After a fault the source may stand anywhere in that input, or where it stood before.
pub fn read_whole<S: Source>(
    alloc: Global,
    src: &mut S,
    name: &str,
    most: usize,
) -> Result<Blob, ReadFault>
    ensures causes { HasReadCause result (S.seen src.old).faults (S.seen src.new).faults }
    ensures inputs { (S.seen src.new).inputs ≡ (S.seen src.old).inputs }
    ensures most { IfOk result (λ b. length b.bytes ≤ most) }
    ensures reads { ReadsInput result most name.now (S.seen src.old) (S.seen src.new) }
{
    let mut bytes = Blob::empty(alloc);
    src.begin(name)?;
    while bytes.len() < most {
        if read_piece(src, &mut bytes, most)? == 0 {
            break;
        }
    }
    Ok(bytes)
}

/// Reads once and adds what came, at most to `most` bytes in all. How many came.
fn read_piece<S: Source>(src: &mut S, bytes: &mut Blob, most: usize) -> Result<usize, ReadFault>
    requires most { length bytes.old.bytes < most }
    requires given { bytes.old.bytes ≡ (S.seen src.old).given }
    requires known { GivesItsInput (S.seen src.old) }
    ensures causes { HasReadCause result (S.seen src.old).faults (S.seen src.new).faults }
    ensures inputs { (S.seen src.new).inputs ≡ (S.seen src.old).inputs }
    ensures begun { (S.seen src.new).begun ≡ (S.seen src.old).begun }
    ensures most { IfOk result (λ _. length bytes.new.bytes ≤ most) }
    ensures extends { IfOk result (λ n. ExtendsBy n bytes.old.bytes bytes.new.bytes (S.seen src.new)) }
    ensures known { GivesItsInput (S.seen src.new) }
{
    let mut buffer = [0u8; PIECE];
    let room = (most - bytes.len()).min(PIECE);
    let n = src.read(&mut buffer[..room])?;
    bytes.push_all(&buffer[..n])?;
    Ok(n)
}

/// Writes all of these bytes. After a fault some of the first of them were taken. Nothing is flushed.
pub fn write_whole<O: Sink>(out: &mut O, bytes: &[u8]) -> Result<(), Failed>
    ensures causes { HasCause result (O.seen out.old).faults (O.seen out.new).faults }
    ensures writes { WritesText result bytes.now (O.seen out.old) (O.seen out.new) }
    ensures flushed { (O.seen out.new).flushed ≡ (O.seen out.old).flushed }
{
    let mut rest = bytes;
    while !rest.is_empty() {
        let n = out.write(rest)?;
        let (_, left) = rest.split_at(n);
        rest = left;
    }
    Ok(())
}
