//! The judgement of a text, part by part, each as soon as it is whole.

ghost use Rattle.std.specs.Prelude.{◌≡◌, ◌≤◌, Bool, Some, None, if◌then◌else◌, length};
ghost use Rattle.m2_frame.specs.Reading.{text_len, frame_in, asked_by, owed_at, owed_by};
ghost use Rattle.m2_frame.specs.Judging.{BeginsWith, IsSealed, OpensAs, EndsAs, Finds, Stays, first_part, later_part};
ghost use Rattle.m2_frame.specs.View.{parts_seen};

use crate::epilogue::{Late, is_first_right, judged_rest, len_of_first, len_of_later, segments_of};
use crate::fault::FrameFault;
use crate::finding::Finding;
use crate::frame::is_message;
use crate::preamble::{PREAMBLE_BYTES, Preamble, read_front};
use crate::view::FrameView;

/// What the first segment is that follows a preamble.
#[derive(Clone, Copy, Debug, PartialEq, Eq)]
pub enum Opening {
    /// It isn't whole.
    Short,
    /// Its checksum differs.
    Wrong,
    /// It is there and right.
    Right,
}

/// Judges the first segment of a rest that begins with this preamble.
pub fn opening_of(p: &Preamble, rest: &[u8]) -> Opening
    requires { BeginsWith rest.now p.now }
    ensures { OpensAs p.now rest.now result }
{
    let (_, body) = rest.split_at(PREAMBLE_BYTES);
    let len = len_of_first(p);
    if body.len() < len {
        return Opening::Short;
    }
    let (first, _) = body.split_at(len);
    if is_first_right(p, first) {
        Opening::Right
    } else {
        Opening::Wrong
    }
}

/// How many bytes the text with this preamble has.
pub fn len_of_text(p: &Preamble) -> usize
    ensures { result ≡ text_len p.now }
{
    PREAMBLE_BYTES + len_of_first(p) + len_of_later(p)
}

/// Judges what follows the first segment; none where it isn't whole.
pub fn end_of(p: &Preamble, rest: &[u8]) -> Option<Result<Late, FrameFault>>
    requires { IsSealed rest.now p.now }
    ensures { EndsAs p.now rest.now result }
{
    let (_, body) = rest.split_at(PREAMBLE_BYTES);
    let (_, after) = body.split_at(len_of_first(p));
    let len = len_of_later(p);
    if after.len() < len {
        return None;
    }
    let (later, _) = after.split_at(len);
    Some(judged_rest(p, later))
}

/// The frame of a text that is whole, in place.
pub fn view_of<'a>(p: &Preamble, rest: &'a [u8]) -> FrameView<'a>
    requires { text_len p.now ≤ length rest.now }
    ensures { parts_seen result ≡ frame_in p.now (first_part p.now rest.now) (later_part p.now rest.now) }
{
    let (_, body) = rest.split_at(PREAMBLE_BYTES);
    let (first, after) = body.split_at(len_of_first(p));
    let (later, _) = after.split_at(len_of_later(p));
    segments_of(p, first, later)
}

/// How many bytes a preamble asks for.
pub fn size_asked(p: &Preamble) -> u64
    ensures { result ≡ asked_by p.now }
{
    p.second as u64 + p.third as u64 + p.fourth as u64
}

/// Whether a preamble asks for a size that isn't granted.
fn asks(p: &Preamble, granted: bool) -> bool
    ensures { owed_by p.now granted ≡ (if result then Some (asked_by p.now) else None) }
{
    is_message(p.tag) && !granted
}

/// What is found at the front, where nothing is judged.
fn find_preamble(granted: bool, rest: &[u8]) -> Finding
    ensures { Finds result rest.now granted }
{
    if rest.len() < PREAMBLE_BYTES {
        return Finding::Nothing;
    }
    let (preamble, _) = rest.split_at(PREAMBLE_BYTES);
    match read_front(preamble) {
        Ok(p) => find_first(p, granted, rest),
        Err(f) => Finding::Faulty(f),
    }
}

/// What is found where the preamble is right.
fn find_first(p: Preamble, granted: bool, rest: &[u8]) -> Finding
    requires { BeginsWith rest.now p }
    ensures { Finds result rest.now granted }
{
    if asks(&p, granted) {
        return Finding::Asking(p);
    }
    match opening_of(&p, rest) {
        Opening::Short => Finding::Sized(p),
        Opening::Wrong => Finding::Faulty(FrameFault::BadSegmentCrc { segment: 0 }),
        Opening::Right => find_later(p, rest),
    }
}

/// What is found where the first segment is right, and nothing is owed.
fn find_later(p: Preamble, rest: &[u8]) -> Finding
    requires { IsSealed rest.now p }
    ensures { (granted : Bool) → owed_at rest.now granted ≡ None → Finds result rest.now granted }
{
    match end_of(&p, rest) {
        None => Finding::Sealed(p),
        Some(Ok(Late::Complete)) => Finding::Whole(p),
        Some(Ok(Late::Aborted)) => Finding::Aborted(p),
        Some(Err(f)) => Finding::Faulty(f),
    }
}

/// What is found at the front, judged on from what stays of an earlier finding.
pub fn find_on(earlier: Finding, granted: bool, rest: &[u8]) -> Finding
    requires { Stays earlier rest.now granted }
    ensures { Finds result rest.now granted }
{
    match earlier {
        Finding::Nothing => find_preamble(granted, rest),
        Finding::Asking(p) | Finding::Sized(p) => find_first(p, granted, rest),
        Finding::Sealed(p) => find_later(p, rest),
        Finding::Whole(_) | Finding::Aborted(_) | Finding::Faulty(_) => earlier,
    }
}
