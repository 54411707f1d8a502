//! `frames FILE`: each frame of a file on a line, and where and why the file stops being frames.

ghost use Rattle.std.specs.Prelude.{◌≡◌, ◌≤◌, []};
ghost use Rattle.m2_listing.specs.Listing.{IsFaultCause, Lists};
ghost use Rattle.m2_cli.specs.Edge.{edge};
ghost use Rattle.m2_cli.specs.Frames.{IsPassedOn, ListsFile, StandsBy, number_of_fault, of_file, status_of_listing};
ghost use Rattle.m2_cli.specs.Work.{Works};

use crate::lines::FrameLines;
use crate::print::say_made;
use crate::status::Status;
use m2_edge::{Failed, Sink, Source};
use m2_frame::{Decoder, FrameFault};
use m2_listing::{Listing, list_frames};
use std::alloc::Global;

/// The most bytes that a listed file has.
pub const LIMIT: usize = 1_073_741_824;

/// Lists the frames of a file.
pub(crate) fn frames<S: Source, O: Sink, E: Sink>(
    alloc: Global,
    file: &str,
    src: &mut S,
    out: &mut O,
    err: &mut E,
) -> Status
    ensures { Works [] (ListsFile file.now) result (edge (S.seen src.old) (O.seen out.old) (E.seen err.old))
        (edge (S.seen src.new) (O.seen out.new) (E.seen err.new)) }
{
    let listing = list_file(alloc, file, src, out);
    let listing = pass_on(out, listing);
    say_made(alloc, err, status_of_listing(listing))
}

/// A line on `out` for each frame of the file of that name.
fn list_file<S: Source, O: Sink>(alloc: Global, file: &str, src: &mut S, out: &mut O) -> Listing
    ensures read_causes { (S.seen src.old).faults ≤ (S.seen src.new).faults }
    ensures write_causes { (O.seen out.old).faults ≤ (O.seen out.new).faults }
    ensures caused { IsFaultCause result (S.seen src.old).faults (S.seen src.new).faults (O.seen out.old).faults (O.seen out.new).faults }
    ensures inputs { (S.seen src.new).inputs ≡ (S.seen src.old).inputs }
    ensures stands { StandsBy result file.now (S.seen src.old) (S.seen src.new) }
    ensures lists { Lists result of_file (S.seen src.new) (O.seen out.old) (O.seen out.new) }
{
    match src.begin(file) {
        Ok(()) => {}
        Err(Failed) => return Listing::ReadFault,
    }
    let mut decoder = Decoder::new(alloc);
    list_frames(alloc, &FrameLines, &mut decoder, 0, LIMIT, src, out)
}

/// Passes on the lines that were written. After a failed write nothing more is done there.
fn pass_on<O: Sink>(out: &mut O, listing: Listing) -> Listing
    ensures never_falls { (O.seen out.old).faults ≤ (O.seen out.new).faults }
    ensures passed { IsPassedOn listing result (O.seen out.old) (O.seen out.new) }
    ensures taken { (O.seen out.new).taken ≡ (O.seen out.old).taken }
{
    match listing {
        Listing::WriteFault => Listing::WriteFault,
        _ => match out.flush() {
            Ok(()) => listing,
            Err(Failed) => Listing::WriteFault,
        },
    }
}

fn status_of_listing(listing: Listing) -> Status
    ensures { result ≡ status_of_listing listing }
{
    match listing {
        Listing::Whole => Status::Done,
        Listing::Bad(place, fault) => Status::BadFrames {
            place,
            fault: number_of_fault(fault),
        },
        Listing::Cut(place) => Status::BadFrames { place, fault: 10 },
        Listing::TooLong(place) => Status::BadFrames { place, fault: 11 },
        Listing::ReadFault => Status::ReadFault,
        Listing::WriteFault => Status::WriteFault,
        Listing::NoMemory => Status::NoMemory,
    }
}

fn number_of_fault(fault: FrameFault) -> u8
    ensures { result ≡ number_of_fault fault }
{
    match fault {
        FrameFault::BadPreambleCrc => 1,
        FrameFault::BadCount => 2,
        FrameFault::LastEmpty => 3,
        FrameFault::Compressed => 4,
        FrameFault::BadTag => 5,
        FrameFault::BadSegments => 6,
        FrameFault::TooLong => 7,
        FrameFault::BadSegmentCrc { .. } => 8,
        FrameFault::BadLate => 9,
    }
}
