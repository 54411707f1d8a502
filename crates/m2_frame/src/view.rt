//! A frame whose bytes lie elsewhere.

ghost use Rattle.std.specs.Prelude.{◌≡◌, IfOk};
ghost use Rattle.m2_frame.specs.Frame.{count_of, parts};

use crate::frame::Frame;
use m2_bytes::{Blob, NoMemory};
use std::alloc::Global;

/// A frame in place: its tag, and its segments where they lie in a decoder.
#[derive(Clone, Copy, Debug)]
pub struct FrameView<'a> {
    pub tag: u8,
    pub first: &'a [u8],
    pub second: &'a [u8],
    pub third: &'a [u8],
    pub fourth: &'a [u8],
}

impl FrameView<'_> {
    ghost use Rattle.m2_frame.specs.View.{parts_seen};

    /// How many segments the frame has, 1 to 4.
    pub fn count(&self) -> u8
        ensures { result ≡ count_of (parts_seen self.now) }
    {
        if !self.fourth.is_empty() {
            4
        } else if !self.third.is_empty() {
            3
        } else if !self.second.is_empty() {
            2
        } else {
            1
        }
    }

    /// The frame, each segment copied into memory of its own.
    pub fn copy(&self, alloc: Global) -> Result<Frame, NoMemory>
        ensures { IfOk result (λ f. parts f ≡ parts_seen self.now) }
    {
        Ok(Frame {
            tag: self.tag,
            first: Blob::of(alloc, self.first)?,
            second: Blob::of(alloc, self.second)?,
            third: Blob::of(alloc, self.third)?,
            fourth: Blob::of(alloc, self.fourth)?,
        })
    }
}
