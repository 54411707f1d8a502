//! One piece of the file.

ghost use Rattle.std.specs.Prelude.{◌≡◌, ◌+◌, ◌<◌, ◌≤◌, ◌^◌, length};
ghost use Rattle.m2_edge.specs.Source.{GivesItsInput};
ghost use Rattle.m2_listing.specs.Reading.{Fetches, Grows, IsPieceCause};

use crate::listing::Listing;
use m2_edge::{Failed, Source};
use m2_frame::Decoder;

/// How many bytes a read asks for.
pub(crate) const PIECE: usize = 65_536;

/// What a read gave.
#[derive(Clone, Copy, Debug, PartialEq, Eq)]
pub(crate) enum Piece {
    /// So many bytes came, and were fed.
    Came(usize),
    /// The file is at its end.
    End,
    /// The file goes on beyond what may come; what may come was fed.
    TooLong,
}

/// Reads the next piece of at most `most` bytes, and one more where the piece is large enough, and
/// feeds it. The buffer is only where the bytes lie between.
pub(crate) fn fetch<S: Source>(
    src: &mut S,
    buffer: &mut [u8; PIECE],
    decoder: &mut Decoder,
    most: usize,
) -> Result<Piece, Listing>
    requires most { most < 2 ^ 40 }
    requires known { GivesItsInput (S.seen src.old) }
    ensures causes { (S.seen src.old).faults ≤ (S.seen src.new).faults }
    ensures caused { IsPieceCause result (S.seen src.old).faults (S.seen src.new).faults }
    ensures inputs { (S.seen src.new).inputs ≡ (S.seen src.old).inputs }
    ensures begun { (S.seen src.new).begun ≡ (S.seen src.old).begun }
    ensures known { GivesItsInput (S.seen src.new) }
    ensures grows { Grows (S.seen src.old) (S.seen src.new) }
    ensures fetches { Fetches result most decoder.old decoder.new (S.seen src.old) (S.seen src.new) }
{
    let room = (most + 1).min(PIECE);
    let n = match src.read(&mut buffer[..room]) {
        Ok(n) => n,
        Err(Failed) => return Err(Listing::ReadFault),
    };
    if n == 0 {
        return Ok(Piece::End);
    }
    let (came, _) = buffer.split_at(n.min(most));
    decoder.feed(came)?;
    if n > most {
        Ok(Piece::TooLong)
    } else {
        Ok(Piece::Came(n))
    }
}
