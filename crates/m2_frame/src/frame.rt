//! A frame as a value.

ghost use Rattle.std.specs.Prelude.{◌≡◌, ◌==◌, ◌↔◌, IsTrue};
ghost use Rattle.m2_frame.specs.Frame.{parts, count_of, message_tag, segment_limit, Fits};
ghost use Rattle.m2_frame.specs.View.{parts_seen};

use crate::view::FrameView;
use crate::{FIRST_TAG, LAST_TAG, Tag};
use m2_bytes::Blob;

/// The most segments in a frame.
pub const MOST_SEGMENTS: u8 = 4;

/// The most bytes in a segment of a MESSAGE. It lies above Ceph's greatest write by default.
pub const MESSAGE_LIMIT: usize = 134_217_728;

/// The most bytes in the segment of any other frame.
pub const CONTROL_LIMIT: usize = 1_048_576;

/// A frame: its tag and the bytes of its segments.
///
/// It has as many segments as the place of the last blob that isn't empty, and one where all are
/// empty.
#[derive(Debug, Drop)]
pub struct Frame {
    pub tag: u8,
    pub first: Blob,
    pub second: Blob,
    pub third: Blob,
    pub fourth: Blob,
}

/// Whether a frame with this tag is a MESSAGE, the one frame that may have several segments.
pub(crate) fn is_message(tag: u8) -> bool
    ensures { result ≡ (tag == message_tag) }
{
    tag == Tag::Message.number()
}

/// The most bytes that a segment of a frame with this tag may have.
pub(crate) fn limit_of(tag: u8) -> usize
    ensures { result ≡ segment_limit tag }
{
    if is_message(tag) {
        MESSAGE_LIMIT
    } else {
        CONTROL_LIMIT
    }
}

impl Frame {
    /// The frame in place.
    pub fn view(&self) -> FrameView<'_>
        ensures { parts_seen result ≡ parts self.now }
    {
        FrameView {
            tag: self.tag,
            first: self.first.as_slice(),
            second: self.second.as_slice(),
            third: self.third.as_slice(),
            fourth: self.fourth.as_slice(),
        }
    }

    /// How many segments the frame has, 1 to 4.
    pub fn count(&self) -> u8
        ensures { result ≡ count_of (parts self.now) }
    {
        self.view().count()
    }
}

/// Whether the frame can be written: its tag is known, only a MESSAGE has more than one segment,
/// and no segment is above the bound for its tag.
pub fn fits(f: &Frame) -> bool
    ensures { IsTrue result ↔ Fits (parts f.now) }
{
    let most = limit_of(f.tag);
    (FIRST_TAG <= f.tag && f.tag <= LAST_TAG)
        && (is_message(f.tag) || f.count() == 1)
        && (f.first.len() <= most && f.second.len() <= most)
        && (f.third.len() <= most && f.fourth.len() <= most)
}
