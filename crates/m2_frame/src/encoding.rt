//! The text of a frame.

ghost use Rattle.std.specs.Prelude.{◌≡◌, ◌+◌, ◌<◌, ◌≤◌, ◌++◌, length};
ghost use Rattle.m2_bytes.specs.Blob.{Appends};
ghost use Rattle.m2_frame.specs.Frame.{parts, count_of, Fits};
ghost use Rattle.m2_frame.specs.View.{parts_seen};
ghost use Rattle.m2_frame.specs.Text.{text_of, first_text, later_text, epilogue, epilogue_field, segment_crc, crc_field};

use crate::frame::{Frame, MESSAGE_LIMIT};
use crate::preamble::{PREAMBLE_BYTES, Preamble};
use crate::view::FrameView;
use m2_bytes::{Blob, NoMemory, put_u8, put_u32};
use m2_crc::crc32c;

/// The low four bits of a late status that says complete. They are the whole of it as it is written.
pub const COMPLETE: u8 = 0xE;

/// The low four bits of a late status that says aborted.
pub const ABORTED: u8 = 0x1;

/// What a segment's checksum begins at.
const SEGMENT_SEED: u32 = 0xFFFF_FFFF;

/// How many bytes the checksum of the first segment has.
pub const CRC_BYTES: usize = 4;

/// How many bytes an epilogue has: the late status and three checksums.
pub const EPILOGUE_BYTES: usize = 13;

/// The checksum of a segment.
#[tactic(auto, unfolding(crate::specs::Text::segment_crc))]
pub fn crc_of_segment(segment: &[u8]) -> u32
    ensures { result ≡ segment_crc segment.now }
{
    crc32c(SEGMENT_SEED, segment)
}

/// How many bytes the first segment has with its checksum.
fn first_len(segment: &[u8]) -> usize
    requires { length segment.now ≤ MESSAGE_LIMIT }
    ensures { result ≡ length (first_text segment.now) }
{
    match segment {
        [] => 0,
        _ => segment.len() + CRC_BYTES,
    }
}

/// How many bytes the other segments have with the epilogue.
fn later_len(f: &FrameView<'_>) -> usize
    requires { Fits (parts_seen f.now) }
    ensures { result ≡ length (later_text (parts_seen f.now)) }
{
    if f.count() == 1 {
        return 0;
    }
    f.second.len() + f.third.len() + f.fourth.len() + EPILOGUE_BYTES
}

/// Appends the first segment, and its checksum where it isn't empty.
fn put_first(segment: &[u8], out: &mut Blob) -> Result<(), NoMemory>
    requires { length (first_text segment.now) ≤ out.old.room }
    ensures { Appends result out.old out.new (first_text segment.now) }
{
    if segment.is_empty() {
        return Ok(());
    }
    out.push_all(segment)?;
    put_u32(out, crc_of_segment(segment))
}

/// Appends a place of the epilogue: the checksum of a counted segment, else 0.
fn put_place(place: u8, count: u8, segment: &[u8], out: &mut Blob) -> Result<(), NoMemory>
    ensures { Appends result out.old out.new (epilogue_field place count segment.now) }
{
    put_u32(
        out,
        if place < count {
            crc_of_segment(segment)
        } else {
            0
        },
    )
}

/// Appends the epilogue.
fn put_epilogue(f: &FrameView<'_>, out: &mut Blob) -> Result<(), NoMemory>
    requires { EPILOGUE_BYTES ≤ out.old.room }
    ensures { Appends result out.old out.new (epilogue (parts_seen f.now)) }
{
    let count = f.count();
    put_u8(out, COMPLETE)?;
    put_place(1, count, f.second, out)?;
    put_place(2, count, f.third, out)?;
    put_place(3, count, f.fourth, out)
}

/// Where several segments are counted, appends the others and the epilogue.
fn put_later(f: &FrameView<'_>, out: &mut Blob) -> Result<(), NoMemory>
    requires { length (later_text (parts_seen f.now)) ≤ out.old.room }
    ensures { Appends result out.old out.new (later_text (parts_seen f.now)) }
{
    if f.count() < 2 {
        return Ok(());
    }
    out.push_all(f.second)?;
    out.push_all(f.third)?;
    out.push_all(f.fourth)?;
    put_epilogue(f, out)
}

/// Appends the text of a frame in place, as [`encode`] does.
pub fn encode_view(f: &FrameView<'_>, out: &mut Blob) -> Result<(), NoMemory>
    requires { Fits (parts_seen f.now) }
    ensures { Appends result out.old out.new (text_of (parts_seen f.now)) }
{
    out.reserve(PREAMBLE_BYTES + first_len(f.first) + later_len(f))?;
    out.push_all(&Preamble::seen(f).write())?;
    put_first(f.first, out)?;
    put_later(f, out)
}

/// Appends the frame's text. There is one for each frame that [`fits`](crate::fits).
pub fn encode(f: &Frame, out: &mut Blob) -> Result<(), NoMemory>
    requires { Fits (parts f.now) }
    ensures { Appends result out.old out.new (text_of (parts f.now)) }
{
    encode_view(&f.view(), out)
}
