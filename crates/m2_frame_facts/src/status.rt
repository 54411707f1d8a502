//! How the program ended: the exit code, and the line on standard error.

ghost use Rattle.std.specs.Prelude.{◌≡◌, ◌++◌, OnOk};
ghost use Rattle.m2_frame_facts.specs.Ended.{bad_frames, code_of, fault_end, line_of, number_of, status_of};

use crate::telling::Ended;
use m2_bytes::{Blob, NoMemory, put_decimal};
use m2_frame::FrameFault;
use m2_listing::Listing;

/// How the program ended.
#[derive(Clone, Copy, Debug, PartialEq, Eq)]
pub enum FactsStatus {
    /// All of the file was told.
    Done,
    /// The words are none of this program.
    Usage,
    /// The file couldn't be read.
    ReadFault,
    /// Standard output or standard error couldn't be written.
    WriteFault,
    NoMemory,
    /// At this place of the file stands no frame; the numbers of faults are those of docs/FRAMES.md.
    BadFrames { place: u64, fault: u8 },
}

fn number_of(fault: FrameFault) -> u8
    ensures { result ≡ number_of fault }
{
    match fault {
        FrameFault::BadPreambleCrc => 1,
        FrameFault::BadCount => 2,
        FrameFault::LastEmpty => 3,
        FrameFault::Compressed => 4,
        FrameFault::BadTag => 5,
        FrameFault::BadSegments => 6,
        FrameFault::TooLong => 7,
        FrameFault::BadSegmentCrc { .. } => 8,
        FrameFault::BadLate => 9,
    }
}

/// Appends the number of a fault, the end of a line.
#[tactic(auto, unfolding(crate::specs::Ended::fault_end))]
fn put_fault(text: &mut Blob, fault: u8) -> Result<(), NoMemory>
    ensures { OnOk result (text.new.bytes ≡ text.old.bytes ++ fault_end fault) }
{
    text.push_all(b" fault ")?;
    put_decimal(text, u64::from(fault))?;
    text.push_all(b"\n")
}

/// Appends the line of a place where no frame stands.
#[tactic(auto, unfolding(crate::specs::Ended::bad_frames))]
fn put_bad_frames(text: &mut Blob, place: u64, fault: u8) -> Result<(), NoMemory>
    ensures { OnOk result (text.new.bytes ≡ text.old.bytes ++ bad_frames place fault) }
{
    text.push_all(b"bad frames: place ")?;
    put_decimal(text, place)?;
    put_fault(text, fault)
}

impl FactsStatus {
    /// What a file's end comes to.
    pub(crate) fn of(ended: Ended) -> FactsStatus
        ensures { result ≡ status_of ended.skipped ended.listing }
    {
        match ended.listing {
            Listing::Whole => FactsStatus::Done,
            Listing::Bad(place, fault) => FactsStatus::BadFrames {
                place: ended.skipped.saturating_add(place),
                fault: number_of(fault),
            },
            Listing::Cut(place) => FactsStatus::BadFrames {
                place: ended.skipped.saturating_add(place),
                fault: 10,
            },
            Listing::TooLong(place) => FactsStatus::BadFrames {
                place: ended.skipped.saturating_add(place),
                fault: 11,
            },
            Listing::ReadFault => FactsStatus::ReadFault,
            Listing::WriteFault => FactsStatus::WriteFault,
            Listing::NoMemory => FactsStatus::NoMemory,
        }
    }

    /// The exit code of the program.
    pub fn code(self) -> u8
        ensures { result ≡ code_of self }
    {
        match self {
            FactsStatus::Done => 0,
            FactsStatus::Usage => 1,
            FactsStatus::ReadFault => 3,
            FactsStatus::WriteFault => 4,
            FactsStatus::NoMemory => 9,
            FactsStatus::BadFrames { .. } => 10,
        }
    }

    /// Appends its line.
    pub(crate) fn put_line(self, text: &mut Blob) -> Result<(), NoMemory>
        ensures { OnOk result (text.new.bytes ≡ text.old.bytes ++ line_of self) }
    {
        match self {
            FactsStatus::Done => Ok(()),
            FactsStatus::Usage => text.push_all(b"usage: frame_facts [--json] FILE\n"),
            FactsStatus::ReadFault => text.push_all(b"read fault\n"),
            FactsStatus::WriteFault => text.push_all(b"write fault\n"),
            FactsStatus::NoMemory => text.push_all(b"no memory\n"),
            FactsStatus::BadFrames { place, fault } => put_bad_frames(text, place, fault),
        }
    }
}
