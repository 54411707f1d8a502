//! The 32 bytes that a frame begins with.

ghost use Rattle.std.specs.Prelude.{◌≡◌, ◌+◌, ◌≤◌, length};
ghost use Rattle.m2_frame.specs.Preamble.{number_at, preamble_in, last_length, is_too_long, judge_fields, read_preamble, alignment, descriptor, preamble_body};

use crate::fault::FrameFault;
use crate::frame::{Frame, MOST_SEGMENTS, is_message, limit_of};
use crate::view::FrameView;
use crate::{FIRST_TAG, LAST_TAG};
use byteorder::{ByteOrder, LittleEndian};
use m2_crc::crc32c;

/// How many bytes a preamble has.
pub const PREAMBLE_BYTES: usize = 32;

/// How many of them its checksum covers: all but its own four.
const COVERED_BYTES: usize = 28;

/// Which segment of a MESSAGE is its data, counted from 0.
const DATA_SEGMENT: u8 = 3;

/// Where the data of a MESSAGE is to lie in memory: at a page.
const DATA_ALIGNMENT: u16 = 4096;

/// Where any other segment is to lie.
const SEGMENT_ALIGNMENT: u16 = 8;

/// What a frame's first 32 bytes say: its tag, how many segments it has, and their lengths in bytes.
/// The length of a segment past the count is 0.
#[derive(Clone, Copy, Debug, PartialEq, Eq)]
pub struct Preamble {
    pub tag: u8,
    pub count: u8,
    pub first: u32,
    pub second: u32,
    pub third: u32,
    pub fourth: u32,
}

impl Preamble {
    ghost use Rattle.m2_frame.specs.Frame.{parts, Fits};
    ghost use Rattle.m2_frame.specs.View.{parts_seen};
    ghost use Rattle.m2_frame.specs.Preamble.{preamble_of, read_preamble, preamble_text};

    /// The preamble of a frame.
    pub fn of(f: &Frame) -> Preamble
        requires { Fits (parts f.now) }
        ensures { result ≡ preamble_of (parts f.now) }
    {
        Preamble::seen(&f.view())
    }

    /// The preamble of a frame in place.
    pub fn seen(f: &FrameView<'_>) -> Preamble
        requires { Fits (parts_seen f.now) }
        ensures { result ≡ preamble_of (parts_seen f.now) }
    {
        Preamble {
            tag: f.tag,
            count: f.count(),
            first: f.first.len() as u32,
            second: f.second.len() as u32,
            third: f.third.len() as u32,
            fourth: f.fourth.len() as u32,
        }
    }

    /// The preamble that the bytes are, or the first cause why they are none: one of the causes up
    /// to [`FrameFault::TooLong`].
    pub fn read(bytes: &[u8; PREAMBLE_BYTES]) -> Result<Preamble, FrameFault>
        ensures { result ≡ read_preamble bytes.now }
    {
        read_front(bytes)
    }

    /// Its 32 bytes, as they are written.
    pub fn write(&self) -> [u8; PREAMBLE_BYTES]
        ensures { result ≡ preamble_text self.now }
    {
        let body = body_of(self);
        let mut text = [0u8; PREAMBLE_BYTES];
        text[..COVERED_BYTES].copy_from_slice(&body);
        text[COVERED_BYTES..].copy_from_slice(&crc32c(0, &body).to_le_bytes());
        text
    }
}

/// Four bytes as a number.
pub fn u32_at(text: &[u8], at: usize) -> u32
    requires { at + 4 ≤ length text.now }
    ensures { result ≡ number_at at text.now }
{
    LittleEndian::read_u32(&text[at..at + 4])
}

/// What the bytes say.
fn fields_of(text: &[u8]) -> Preamble
    requires { length text.now ≡ PREAMBLE_BYTES }
    ensures { result ≡ preamble_in text.now }
{
    let count = text[1];
    Preamble {
        tag: text[0],
        count,
        first: u32_at(text, 2),
        second: if count > 1 { u32_at(text, 8) } else { 0 },
        third: if count > 2 { u32_at(text, 14) } else { 0 },
        fourth: if count > 3 { u32_at(text, 20) } else { 0 },
    }
}

/// The length of the last segment that is counted.
fn last_of(p: &Preamble) -> u32
    ensures { result ≡ last_length p.now }
{
    match p.count {
        1 => p.first,
        2 => p.second,
        3 => p.third,
        _ => p.fourth,
    }
}

/// Whether a segment is above the bound for its tag.
fn passes_limit(p: &Preamble) -> bool
    ensures { result ≡ is_too_long p.now }
{
    let most = limit_of(p.tag) as u32;
    p.first > most || p.second > most || p.third > most || p.fourth > most
}

/// The refusals that speak of what the bytes say.
fn judged(flags: u8, p: Preamble) -> Result<Preamble, FrameFault>
    ensures { result ≡ judge_fields flags p }
{
    if p.count == 0 || p.count > MOST_SEGMENTS {
        return Err(FrameFault::BadCount);
    }
    if p.count > 1 && last_of(&p) == 0 {
        return Err(FrameFault::LastEmpty);
    }
    if flags % 2 == 1 {
        return Err(FrameFault::Compressed);
    }
    if p.tag < FIRST_TAG || p.tag > LAST_TAG {
        return Err(FrameFault::BadTag);
    }
    if !is_message(p.tag) && p.count > 1 {
        return Err(FrameFault::BadSegments);
    }
    if passes_limit(&p) {
        return Err(FrameFault::TooLong);
    }
    Ok(p)
}

/// The preamble that these 32 bytes are.
#[tactic(auto, unfolding(crate::specs::Preamble::read_preamble))]
pub fn read_front(text: &[u8]) -> Result<Preamble, FrameFault>
    requires { length text.now ≡ PREAMBLE_BYTES }
    ensures { result ≡ read_preamble text.now }
{
    if crc32c(0, &text[..COVERED_BYTES]) != u32_at(text, COVERED_BYTES) {
        return Err(FrameFault::BadPreambleCrc);
    }
    judged(text[26], fields_of(text))
}

/// Where a counted segment's bytes are to lie in memory: at a page for the data of a MESSAGE, else
/// at 8 bytes.
fn alignment_of(p: &Preamble, segment: u8) -> u16
    ensures { result ≡ alignment p.now segment }
{
    if segment >= p.count {
        0
    } else if segment < DATA_SEGMENT {
        SEGMENT_ALIGNMENT
    } else {
        DATA_ALIGNMENT
    }
}

/// The length and the alignment of a segment.
fn descriptor_of(len: u32, aligned: u16) -> [u8; 6]
    ensures { result ≡ descriptor len aligned }
{
    let l = len.to_le_bytes();
    let a = aligned.to_le_bytes();
    [l[0], l[1], l[2], l[3], a[0], a[1]]
}

/// All but the checksum.
fn body_of(p: &Preamble) -> [u8; COVERED_BYTES]
    ensures { result ≡ preamble_body p.now }
{
    let a = descriptor_of(p.first, alignment_of(p, 0));
    let b = descriptor_of(p.second, alignment_of(p, 1));
    let c = descriptor_of(p.third, alignment_of(p, 2));
    let d = descriptor_of(p.fourth, alignment_of(p, 3));
    [
        p.tag, p.count, a[0], a[1], a[2], a[3], a[4], a[5], b[0], b[1], b[2], b[3], b[4], b[5],
        c[0], c[1], c[2], c[3], c[4], c[5], d[0], d[1], d[2], d[3], d[4], d[5], 0, 0,
    ]
}
