//! What follows the first segment: the other segments, and the epilogue that judges them.

ghost use Rattle.std.specs.Prelude.{◌≡◌, ◌+◌, ◌%◌, ◌^◌, ◌<◌, ◌≤◌, length};
ghost use Rattle.m2_frame.specs.Reading.{first_len, later_len, first_is_right, is_wrong, second_in, third_in, fourth_in, epilogue_in, judge_late, judge_epilogue, judge_rest, frame_in};
ghost use Rattle.m2_frame.specs.View.{parts_seen};

use crate::encoding::{ABORTED, COMPLETE, CRC_BYTES, EPILOGUE_BYTES, crc_of_segment};
use crate::fault::FrameFault;
use crate::preamble::{Preamble, u32_at};
use crate::view::FrameView;

/// What the late status says of a frame.
#[derive(Clone, Copy, Debug, PartialEq, Eq)]
pub enum Late {
    Complete,
    /// The sender gave the frame up; it is dropped whole.
    Aborted,
}

/// How many bytes the first segment has with its checksum.
pub fn len_of_first(p: &Preamble) -> usize
    ensures value { result ≡ first_len p.now }
    ensures small { result < 2 ^ 33 }
{
    if p.first == 0 {
        0
    } else {
        p.first as usize + CRC_BYTES
    }
}

/// How many bytes the other segments have with the epilogue.
pub fn len_of_later(p: &Preamble) -> usize
    ensures value { result ≡ later_len p.now }
    ensures small { result < 2 ^ 35 }
{
    if p.count > 1 {
        p.second as usize + p.third as usize + p.fourth as usize + EPILOGUE_BYTES
    } else {
        0
    }
}

/// Whether the checksum of the first segment is right; an empty one has none.
pub fn is_first_right(p: &Preamble, first: &[u8]) -> bool
    requires { length first.now ≡ first_len p.now }
    ensures { result ≡ first_is_right p.now first.now }
{
    let len = p.first as usize;
    len == 0 || u32_at(first, len) == crc_of_segment(&first[..len])
}

/// Whether a counted segment's checksum differs from the one at its place of the epilogue.
fn differs(place: usize, count: u8, epilogue: &[u8], segment: &[u8]) -> bool
    requires place_from { 1 ≤ place }
    requires place_to { place ≤ 3 }
    requires whole { length epilogue.now ≡ EPILOGUE_BYTES }
    ensures { result ≡ is_wrong place count epilogue.now segment.now }
{
    place < count as usize && u32_at(epilogue, 4 * place - 3) != crc_of_segment(segment)
}

/// What the low four bits of the late status say.
fn late_of(status: u8) -> Result<Late, FrameFault>
    ensures { result ≡ judge_late (status % 16) }
{
    match status % 16 {
        COMPLETE => Ok(Late::Complete),
        ABORTED => Ok(Late::Aborted),
        _ => Err(FrameFault::BadLate),
    }
}

/// The segments after the first, and the epilogue.
fn parts_of<'a>(p: &Preamble, later: &'a [u8]) -> (&'a [u8], &'a [u8], &'a [u8], &'a [u8])
    requires { p.now.second + p.now.third + p.now.fourth ≤ length later.now }
    ensures second { result.0.now ≡ second_in p.now later.now }
    ensures third { result.1.now ≡ third_in p.now later.now }
    ensures fourth { result.2.now ≡ fourth_in p.now later.now }
    ensures epilogue { result.3.now ≡ epilogue_in p.now later.now }
{
    let (second, rest) = later.split_at(p.second as usize);
    let (third, rest) = rest.split_at(p.third as usize);
    let (fourth, epilogue) = rest.split_at(p.fourth as usize);
    (second, third, fourth, epilogue)
}

/// What the epilogue says of segments of which several are counted.
#[tactic(auto, unfolding(crate::specs::Reading::judge_epilogue))]
fn judged_epilogue(p: &Preamble, later: &[u8]) -> Result<Late, FrameFault>
    requires { length later.now ≡ p.now.second + p.now.third + p.now.fourth + EPILOGUE_BYTES }
    ensures { result ≡ judge_epilogue p.now later.now }
{
    let (second, third, fourth, epilogue) = parts_of(p, later);
    if differs(1, p.count, epilogue, second) {
        return Err(FrameFault::BadSegmentCrc { segment: 1 });
    }
    if differs(2, p.count, epilogue, third) {
        return Err(FrameFault::BadSegmentCrc { segment: 2 });
    }
    if differs(3, p.count, epilogue, fourth) {
        return Err(FrameFault::BadSegmentCrc { segment: 3 });
    }
    late_of(epilogue[0])
}

/// What follows the first segment, judged; a frame of one segment is complete.
pub fn judged_rest(p: &Preamble, later: &[u8]) -> Result<Late, FrameFault>
    requires { length later.now ≡ later_len p.now }
    ensures { result ≡ judge_rest p.now later.now }
{
    if p.count > 1 {
        judged_epilogue(p, later)
    } else {
        Ok(Late::Complete)
    }
}

/// The second, third and fourth segment; where one segment is counted they are empty.
fn later_segments<'a>(p: &Preamble, later: &'a [u8]) -> (&'a [u8], &'a [u8], &'a [u8])
    requires { length later.now ≡ later_len p.now }
    ensures second { result.0.now ≡ second_in p.now later.now }
    ensures third { result.1.now ≡ third_in p.now later.now }
    ensures fourth { result.2.now ≡ fourth_in p.now later.now }
{
    if p.count > 1 {
        let (second, third, fourth, _) = parts_of(p, later);
        (second, third, fourth)
    } else {
        (later, later, later)
    }
}

/// The frame of a text, in place; where one segment is counted the others are empty.
pub fn segments_of<'a>(p: &Preamble, first: &'a [u8], later: &'a [u8]) -> FrameView<'a>
    requires first { length first.now ≡ first_len p.now }
    requires later { length later.now ≡ later_len p.now }
    ensures { parts_seen result ≡ frame_in p.now first.now later.now }
{
    let (first, _) = first.split_at(p.first as usize);
    let (second, third, fourth) = later_segments(p, later);
    FrameView {
        tag: p.tag,
        first,
        second,
        third,
        fourth,
    }
}
