//! The frames of what a source gives, listed.

ghost use Rattle.std.specs.Prelude.{◌≡◌, ℕ, ◌<◌, ◌≤◌, List, [], ◌++◌, IfOk, OnOk};
ghost use Rattle.m2_edge.specs.Sink.{SeenSink};
ghost use Rattle.m2_edge.specs.Source.{GivesItsInput};
ghost use Rattle.m2_listing.specs.declared.listing.TheConstants.{LIMIT};
ghost use Rattle.m2_listing.specs.Listing.{Listed, Lists, IsFaultCause, terms};
ghost use Rattle.m2_listing.specs.Passing.{PutsOut, IsPutCause};
ghost use Rattle.m2_listing.specs.Reading.{Grows};
ghost use Rattle.m2_listing.specs.SoFar.{HasFed, SoFar, GoesOn, IsEndCause, EndsHere, IsFedCause, FedTo};

use crate::passing::{Lines, pass_frames};
use crate::reading::{PIECE, Piece, fetch};
use crate::teller::Teller;
use m2_bytes::NoMemory;
use m2_edge::{Failed, Sink, Source, write_whole};
use m2_frame::{Decoder, FrameFault, no_text_begins_another};
use std::alloc::Global;

/// The most bytes that listed frames may have, all together.
pub const LIMIT: usize = 1_099_511_627_775;

/// How listing frames ended. A place is a count of bytes of frames: up to the end of the last whole one.
#[derive(Clone, Copy, Debug, PartialEq, Eq)]
pub enum Listing {
    /// What was given is frames and nothing else.
    Whole,
    /// The text at this place is no frame, for this cause.
    Bad(u64, FrameFault),
    /// It ends inside the frame at this place.
    Cut(u64),
    /// It has more bytes than may be listed, and is frames as far as that.
    TooLong(u64),
    /// The source failed.
    ReadFault,
    /// The sink failed.
    WriteFault,
    NoMemory,
}

impl From<NoMemory> for Listing {
    ghost use Rattle.std.specs.Prelude.{◌≡◌};
    ghost use Rattle.m2_listing.specs.declared.listing.Listing.TheVariants as listing;

    ghost from_gives = { λ _ e. e ≡ listing.NoMemory };

    fn from(_e: NoMemory) -> Listing {
        Listing::NoMemory
    }
}

/// What the end of the file says, where so many of at most `most` bytes may still come: nothing may follow the last whole
/// frame.
fn at_end(decoder: &Decoder, most: usize, room: usize) -> Listing
    requires { room ≤ most }
    ensures { EndsHere result most decoder.now room }
{
    if decoder.place() == (most - room) as u64 {
        Listing::Whole
    } else {
        Listing::Cut(decoder.place())
    }
}

/// Writes the lines that wait, all at once.
fn put_out<O: Sink>(out: &mut O, lines: &mut Lines) -> Result<(), Listing>
    ensures causes { (O.seen out.old).faults ≤ (O.seen out.new).faults }
    ensures caused { IsPutCause result (O.seen out.old).faults (O.seen out.new).faults }
    ensures written { PutsOut result lines.old.waiting.bytes (O.seen out.old) (O.seen out.new) }
    ensures empty { OnOk result (lines.new.waiting.bytes ≡ []) }
{
    match write_whole(out, lines.waiting.as_slice()) {
        Ok(()) => {
            lines.waiting.clear();
            Ok(())
        }
        Err(Failed) => Err(Listing::WriteFault),
    }
}

/// Lists what was fed last, as far as a rest that is a start, and writes the lines.
fn list_fed<T: Teller, O: Sink>(
    teller: &T,
    decoder: &mut Decoder,
    lines: &mut Lines,
    out: &mut O,
) -> Result<(), Listing>
    requires { lines.old.waiting.bytes ≡ [] }
    ensures causes { (O.seen out.old).faults ≤ (O.seen out.new).faults }
    ensures caused { IsFedCause result (O.seen out.old).faults (O.seen out.new).faults }
    ensures empty { OnOk result (lines.new.waiting.bytes ≡ []) }
    ensures passes { (bytes : List ℕ) (before : SeenSink) →
        Listed (T.line teller.now) bytes decoder.old.rest decoder.old.place before (O.seen out.old) → FedTo result (T.line teller.now) bytes decoder.new before (O.seen out.new) }
{
    let passed = pass_frames(teller, decoder, lines);
    put_out(out, lines)?;
    passed
}

/// Reads a piece where `room` more bytes of at most `most` may come, and lists it: the room that is then left, or how
/// the listing ended.
fn list_piece<T: Teller, S: Source, O: Sink>(
    teller: &T,
    src: &mut S,
    buffer: &mut [u8; PIECE],
    decoder: &mut Decoder,
    lines: &mut Lines,
    out: &mut O,
    most: usize,
    room: usize,
) -> Result<usize, Listing>
    requires most { most ≤ LIMIT }
    requires room { room ≤ most }
    requires known { GivesItsInput (S.seen src.old) }
    requires written { lines.old.waiting.bytes ≡ [] }
    ensures read_causes { (S.seen src.old).faults ≤ (S.seen src.new).faults }
    ensures write_causes { (O.seen out.old).faults ≤ (O.seen out.new).faults }
    ensures caused { IsEndCause result (S.seen src.old).faults (S.seen src.new).faults (O.seen out.old).faults (O.seen out.new).faults }
    ensures inputs { (S.seen src.new).inputs ≡ (S.seen src.old).inputs }
    ensures smaller { IfOk result (λ left. left < room) }
    ensures begun { (S.seen src.new).begun ≡ (S.seen src.old).begun }
    ensures grows { Grows (S.seen src.old) (S.seen src.new) }
    ensures known { GivesItsInput (S.seen src.new) }
    ensures written { OnOk result (lines.new.waiting.bytes ≡ []) }
    ensures goes { (front : List ℕ) (before : SeenSink) → SoFar (terms front most (T.line teller.now)) (S.seen src.old) room decoder.old before (O.seen out.old)
        → GoesOn result (terms front most (T.line teller.now)) (S.seen src.new) decoder.new before (O.seen out.new) }
{
    no_text_begins_another();
    let piece = fetch(src, buffer, decoder, room)?;
    match piece {
        Piece::Came(n) => {
            list_fed(teller, decoder, lines, out)?;
            Ok(room - n)
        }
        Piece::TooLong => {
            list_fed(teller, decoder, lines, out)?;
            Err(Listing::TooLong(decoder.place()))
        }
        Piece::End => Err(at_end(decoder, most, room)),
    }
}

/// Lists the frames of what the source gives from here on, at most so many bytes of them: a line on `out` for each. The
/// decoder has what was given of them before, `fed` bytes, of which nothing is listed yet.
///
/// The input is read in pieces and never held whole. The lines of a piece are written at once, before the next is read.
pub fn list_frames<T: Teller, S: Source, O: Sink>(
    alloc: Global,
    teller: &T,
    decoder: &mut Decoder,
    fed: usize,
    most: usize,
    src: &mut S,
    out: &mut O,
) -> Listing
    requires fed { fed ≤ most }
    requires most { most ≤ LIMIT }
    requires known { GivesItsInput (S.seen src.old) }
    ensures read_causes { (S.seen src.old).faults ≤ (S.seen src.new).faults }
    ensures write_causes { (O.seen out.old).faults ≤ (O.seen out.new).faults }
    ensures caused { IsFaultCause result (S.seen src.old).faults (S.seen src.new).faults (O.seen out.old).faults (O.seen out.new).faults }
    ensures inputs { (S.seen src.new).inputs ≡ (S.seen src.old).inputs }
    ensures begun { (S.seen src.new).begun ≡ (S.seen src.old).begun }
    ensures grows { Grows (S.seen src.old) (S.seen src.new) }
    ensures known { GivesItsInput (S.seen src.new) }
    ensures lists { (front : List ℕ) → HasFed front fed decoder.old (S.seen src.old)
        → Lists result (terms front most (T.line teller.now)) (S.seen src.new) (O.seen out.old) (O.seen out.new) }
{
    let mut lines = Lines::none(alloc);
    if let Err(end) = list_fed(teller, decoder, &mut lines, out) {
        return end;
    }
    let mut buffer = [0u8; PIECE];
    let mut room = most - fed;
    'pieces: loop {
        match list_piece(
            teller,
            src,
            &mut buffer,
            decoder,
            &mut lines,
            out,
            most,
            room,
        ) {
            Ok(left) => room = left,
            Err(end) => return end,
        }
    }
}
