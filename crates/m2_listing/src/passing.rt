//! The frames that a decoder has, listed.

ghost use Rattle.std.specs.Prelude.{◌≡◌, ℕ, List, [], ◌++◌, OnOk, OnErr};
ghost use Rattle.m2_edge.specs.Sink.{SeenSink};
ghost use Rattle.m2_frame.specs.Reading.{whole, dropped};
ghost use Rattle.m2_frame.specs.View.{parts_seen};
ghost use Rattle.m2_listing.specs.Listing.{Listed};
ghost use Rattle.m2_listing.specs.Passing.{EndsPassing, PassesTo, StepsDown, StepsTo, with_taken};

use crate::listing::Listing;
use crate::teller::Teller;
use m2_bytes::{Blob, NoMemory};
use m2_frame::{Decoder, FrameView, Got, no_text_begins_another};
use std::alloc::Global;

/// The lines that wait to be written, and room for one that is made.
#[derive(Debug, Drop)]
pub(crate) struct Lines {
    pub(crate) waiting: Blob,
    made: Blob,
}

impl Lines {
    /// No lines. Takes no memory.
    pub(crate) fn none(alloc: Global) -> Lines
        ensures { result.waiting.bytes ≡ [] }
    {
        Lines {
            waiting: Blob::empty(alloc),
            made: Blob::empty(alloc),
        }
    }

    /// Adds the line of a frame.
    fn add_frame<T: Teller>(
        &mut self,
        teller: &T,
        place: u64,
        frame: &FrameView<'_>,
    ) -> Result<(), NoMemory>
        ensures ok { OnOk result (self.new.waiting.bytes ≡ self.old.waiting.bytes ++ T.line teller.now place (whole (parts_seen frame.now))) }
        ensures err { OnErr result (self.new.waiting.bytes ≡ self.old.waiting.bytes) }
    {
        self.made.clear();
        teller.put_frame(&mut self.made, place, frame)?;
        self.waiting.push_all(self.made.as_slice())
    }

    /// Adds the line of an aborted frame.
    fn add_aborted<T: Teller>(&mut self, teller: &T, place: u64, tag: u8) -> Result<(), NoMemory>
        ensures ok { OnOk result (self.new.waiting.bytes ≡ self.old.waiting.bytes ++ T.line teller.now place (dropped tag)) }
        ensures err { OnErr result (self.new.waiting.bytes ≡ self.old.waiting.bytes) }
    {
        self.made.clear();
        teller.put_aborted(&mut self.made, place, tag)?;
        self.waiting.push_all(self.made.as_slice())
    }
}

/// Takes up one answer of the decoder: a size is granted, a frame gets its line, and nothing of it is
/// copied. Whether there may be another answer; none where the rest is a start.
fn pass_one<T: Teller>(
    teller: &T,
    decoder: &mut Decoder,
    lines: &mut Lines,
) -> Result<bool, Listing>
    ensures ends { EndsPassing result }
    ensures down { StepsDown result decoder.old decoder.new }
    ensures passes { (bytes : List ℕ) (before s : SeenSink) →
        Listed (T.line teller.now) bytes decoder.old.rest decoder.old.place before (with_taken s lines.old.waiting.bytes)
        → StepsTo result (T.line teller.now) bytes decoder.new before (with_taken s lines.new.waiting.bytes) }
{
    no_text_begins_another();
    let place = decoder.place();
    if let Some(frame) = decoder.look() {
        lines.add_frame(teller, place, &frame)?;
        decoder.pass();
        return Ok(true);
    }
    match decoder.next() {
        Got::Frame(_) => unreachable!(),
        Got::Aborted { tag } => {
            lines.add_aborted(teller, place, tag)?;
            Ok(true)
        }
        Got::Size(_) => {
            decoder.grant();
            Ok(true)
        }
        Got::NotYet => Ok(false),
        Got::Fault(f) => Err(Listing::Bad(place, f)),
        Got::NoMemory => Err(Listing::NoMemory),
    }
}

/// Lists all frames that are there, as far as a rest that is a start. Their lines wait.
pub(crate) fn pass_frames<T: Teller>(
    teller: &T,
    decoder: &mut Decoder,
    lines: &mut Lines,
) -> Result<(), Listing>
    ensures ends { EndsPassing result }
    ensures passes { (bytes : List ℕ) (before s : SeenSink) →
        Listed (T.line teller.now) bytes decoder.old.rest decoder.old.place before (with_taken s lines.old.waiting.bytes)
        → PassesTo result (T.line teller.now) bytes decoder.new before (with_taken s lines.new.waiting.bytes) }
{
    'frames: loop {
        let more = pass_one(teller, decoder, lines)?;
        if !more {
            return Ok(());
        }
    }
}
