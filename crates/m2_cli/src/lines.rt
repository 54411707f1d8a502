//! The line of each frame of a file.

ghost use Rattle.std.specs.Prelude.{◌≡◌, ◌++◌, OnOk};
ghost use Rattle.m2_frame.specs.Frame.{count_of};
ghost use Rattle.m2_frame.specs.View.{parts_seen};
ghost use Rattle.m2_cli.specs.Lines.{frame_words, length_word, number_word};

use m2_bytes::{Blob, NoMemory, put_decimal};
use m2_frame::{FrameView, Tag};
use m2_listing::Teller;

/// Appends a space and a number.
fn put_number(line: &mut Blob, n: u64) -> Result<(), NoMemory>
    ensures { OnOk result (line.new.bytes ≡ line.old.bytes ++ number_word n) }
{
    line.push_all(b" ")?;
    put_decimal(line, n)
}

/// Appends a segment's length where it is counted.
fn put_length(line: &mut Blob, segment: u8, count: u8, bytes: &[u8]) -> Result<(), NoMemory>
    ensures { OnOk result (line.new.bytes ≡ line.old.bytes ++ length_word segment count bytes.now) }
{
    if segment < count {
        put_number(line, bytes.len() as u64)?;
    }
    Ok(())
}

/// How many segments the frame has: those up to the last that isn't empty, and one where all are.
fn count_of(frame: &FrameView<'_>) -> u8
    ensures { result ≡ count_of (parts_seen frame.now) }
{
    if !frame.fourth.is_empty() {
        4
    } else if !frame.third.is_empty() {
        3
    } else if !frame.second.is_empty() {
        2
    } else {
        1
    }
}

/// Appends the tag's name and the lengths of the segments that are counted.
#[tactic(auto, unfolding(crate::specs::Lines::frame_words))]
fn put_words(line: &mut Blob, frame: &FrameView<'_>) -> Result<(), NoMemory>
    ensures { OnOk result (line.new.bytes ≡ line.old.bytes ++ frame_words (parts_seen frame.now)) }
{
    let count = count_of(frame);
    line.push_all(Tag::name_of_number(frame.tag).as_bytes())?;
    put_number(line, frame.first.len() as u64)?;
    put_length(line, 1, count, frame.second)?;
    put_length(line, 2, count, frame.third)?;
    put_length(line, 3, count, frame.fourth)
}

/// The line of a frame is its tag's name and the lengths of its segments, wherever it stands.
#[derive(Clone, Copy, Debug)]
pub(crate) struct FrameLines;

impl Teller for FrameLines {
    ghost use Rattle.m2_cli.specs.Lines.{line_of};

    ghost line = { λ _ place item. line_of item };

    #[tactic(auto, unfolding(crate::specs::Lines::line_of))]
    fn put_frame(
        &self,
        out: &mut Blob,
        _place: u64,
        frame: &FrameView<'_>,
    ) -> Result<(), NoMemory> {
        put_words(out, frame)?;
        out.push_all(b"\n")
    }

    #[tactic(auto, unfolding(crate::specs::Lines::line_of))]
    fn put_aborted(&self, out: &mut Blob, _place: u64, tag: u8) -> Result<(), NoMemory> {
        out.push_all(Tag::name_of_number(tag).as_bytes())?;
        out.push_all(b" aborted\n")
    }
}
